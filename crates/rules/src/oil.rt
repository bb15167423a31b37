// The oil rule: whole kilograms are booked, the grams left are carried.
ghost use Rattle.std.specs.Prelude.{◌≡◌};
ghost use Rattle.rules.specs.Oil.{oil_outcome};
ghost use Rattle.std.proofs.Common.{rules};

use super::batch::Checked;
use super::rule::{MOST_CARRIED, Outcome, Rule};

#[derive(Clone, Copy)]
pub struct Oil;

impl Rule for Oil {
    ghost outcome = { λ _ c b. oil_outcome c b };

    ghost capped = { Prim.search rules };

    ghost within = { Prim.search rules };

    ghost fits = { Prim.search rules };

    fn work(&self, carry: u32, b: Checked) -> Outcome {
        let lot = b.batch();
        let grams = carry.min(MOST_CARRIED) + lot.oil;
        let amount = grams / 1_000;
        Outcome {
            amount,
            figure: amount * 10_000 / lot.fruit,
            carry: grams % 1_000,
        }
    }
}
