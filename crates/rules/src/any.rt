// A rule that is chosen while the program runs.
ghost use Rattle.std.specs.Prelude.{◌≡◌};
ghost use Rattle.rules.specs.Any.{any_outcome};
ghost use Rattle.std.proofs.Common.{rules};

use super::batch::Checked;
use super::levy::Levy;
use super::oil::Oil;
use super::rule::{Outcome, Rule};

#[derive(Clone, Copy)]
pub enum AnyRule {
    Oil,
    Levy,
}

impl Rule for AnyRule {
    ghost outcome = { any_outcome };

    ghost capped = { Prim.search rules };

    ghost within = { Prim.search rules };

    ghost fits = { Prim.search rules };

    fn work(&self, carry: u32, b: Checked) -> Outcome {
        // A match: to make a `dyn` of the one chosen would take this same match.
        match self {
            AnyRule::Oil => Oil.work(carry, b),
            AnyRule::Levy => Levy.work(carry, b),
        }
    }
}
