// A policy chosen when the program runs.
ghost use Rattle.policies.specs.Seats.{last_number};
ghost use Rattle.policies.specs.Any.{any_stations, any_faults, any_turn, any_seats};
ghost use Rattle.policies.specs.declared.any.AnyPolicy.TheVariants.{Rotating, Full};
ghost use Rattle.policies.specs.Rows as rows;
ghost use Rattle.policies.specs.Covering;
ghost use Rattle.std.proofs.Common.{rules};

use super::full::Full;
use super::policy::Policy;
use super::rotating::Rotating;

#[derive(Clone, Copy)]
pub enum AnyPolicy {
    Rotating(Rotating),
    Full(Full),
}

// A match in each method: a function that hands out the one chosen as a `dyn` is refused.
impl Policy for AnyPolicy {
    ghost stations = { any_stations };

    ghost faults = { any_faults };

    ghost turn = { any_turn };

    ghost top = { λ _. last_number };

    ghost seats = { any_seats };

    ghost turns = { elim [
      | Rotating p ↦ rows.turns p.n p.t p.wide p.small
      | Full p ↦ Covering.turns p.n p.t p.wide p.small
    ] };

    ghost exact = { elim [
      | Rotating p ↦ rows.exactly p.n p.t p.wide
      | Full p ↦ Covering.exactly p.n p.t p.wide
    ] };

    ghost above = { Prim.search rules };

    ghost outside = { Prim.search rules };

    ghost covering = { elim [
      | Rotating p ↦ rows.covers p.n p.t p.wide
      | Full p ↦ Covering.covers p.n p.t p.wide
    ] };

    fn count_stations(&self) -> u32 {
        match *self {
            AnyPolicy::Rotating(p) => p.count_stations(),
            AnyPolicy::Full(p) => p.count_stations(),
        }
    }

    fn count_faults(&self) -> u32 {
        match *self {
            AnyPolicy::Rotating(p) => p.count_faults(),
            AnyPolicy::Full(p) => p.count_faults(),
        }
    }

    fn count_turn(&self) -> u32 {
        match *self {
            AnyPolicy::Rotating(p) => p.count_turn(),
            AnyPolicy::Full(p) => p.count_turn(),
        }
    }

    fn last(&self) -> u32 {
        match *self {
            AnyPolicy::Rotating(p) => p.last(),
            AnyPolicy::Full(p) => p.last(),
        }
    }

    fn seated(&self, c: u32, i: u32) -> bool {
        match *self {
            AnyPolicy::Rotating(p) => p.seated(c, i),
            AnyPolicy::Full(p) => p.seated(c, i),
        }
    }
}
