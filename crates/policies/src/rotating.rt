// The rotating policy seats t + 1 stations in a row, one further on with each number.
ghost use Rattle.std.specs.Prelude.{◌≡◌, ◌<◌, ◌≤◌};
ghost use Rattle.std.specs.Result.{result_map_both};
ghost use Rattle.policies.specs.Seats.{last_number};
ghost use Rattle.policies.specs.Sizes.{sizes};
ghost use Rattle.policies.specs.Tables.{locked_plain};
ghost use Rattle.policies.specs.Rotating.{in_row, rotating_seats, rotating_turn, rotating_of};
ghost use Rattle.policies.specs.Rows.{exactly, covers};
ghost use Rattle.std.proofs.Common.{rules};

use super::policy::{LAST, Policy};
use super::table::Locked;
use base::fault::Fault;
use base::refusal::Refusal;

// A turn goes round the stations at most once, so that each sits in at most t + 1 of its committees.
// n and t bare, as in a table: a struct of the two would only lengthen the clauses, which say p.n and p.t.
#[derive(Clone, Copy)]
pub struct Rotating {
    n: u32,
    t: u32,
    ghost wide: { rotating_turn t ≤ n },
    ghost small: { n ≤ 16 },
}

// Whether station i is one of (c + j) mod n, j from 0 to t.
fn in_row(n: u32, t: u32, c: u32, i: u32) -> bool
    requires some { 0 < n }
    requires few { t ≤ 16 }
    requires low { c ≤ last_number }
    ensures { result ≡ in_row n t c i }
{
    (0..t + 1).any(|j| (c + j) % n == i)
}

impl Rotating {
    // Refused where a turn, t² + t + 1, is longer than the table.
    pub fn build(table: &Locked) -> Result<Rotating, Fault>
        ensures { result_map_both (λ p. sizes p.n p.t) (λ e. e) result ≡ rotating_of (locked_plain table.now) }
    {
        let n = table.stations();
        let t = table.faults();
        if n < t * t + t + 1 {
            return Err(Fault::new(Refusal::TooFewForPolicy, 0));
        }
        Ok(Rotating { n, t })
    }
}

impl Policy for Rotating {
    ghost stations = { λ s. s.n };

    ghost faults = { λ s. s.t };

    ghost turn = { λ s. rotating_turn s.t };

    ghost top = { λ _. last_number };

    ghost seats = { λ s. rotating_seats s.n s.t };

    ghost turns = { Prim.search rules };

    ghost exact = { λ p. exactly p.n p.t p.wide };

    ghost above = { Prim.search rules };

    ghost outside = { Prim.search rules };

    ghost covering = { λ p. covers p.n p.t p.wide };

    fn count_stations(&self) -> u32 {
        self.n
    }

    fn count_faults(&self) -> u32 {
        self.t
    }

    fn count_turn(&self) -> u32 {
        let t = self.t;
        t * t + t + 1
    }

    fn last(&self) -> u32 {
        LAST
    }

    fn seated(&self, c: u32, i: u32) -> bool {
        c <= LAST && i < self.n && in_row(self.n, self.t, c, i)
    }
}
