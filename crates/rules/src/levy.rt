// The levy rule: fruit is charged, and charged less past a season's first 200,000 kilograms.
ghost use Rattle.std.specs.Prelude.{◌≡◌};
ghost use Rattle.rules.specs.Levy.{levy_outcome};
ghost use Rattle.std.proofs.Common.{rules};

use super::batch::Checked;
use super::rule::{MOST_CARRIED, Outcome, Rule};

#[derive(Clone, Copy)]
pub struct Levy;

impl Rule for Levy {
    ghost outcome = { λ _ c b. levy_outcome c b };

    ghost capped = { Prim.search rules };

    ghost within = { Prim.search rules };

    ghost fits = { Prim.search rules };

    fn work(&self, carry: u32, b: Checked) -> Outcome {
        let fruit = b.batch().fruit;
        let total = carry.min(MOST_CARRIED) + fruit;
        let cheap = fruit.min(total.saturating_sub(200_000));
        Outcome {
            amount: 12 * (fruit - cheap) + 9 * cheap,
            figure: cheap,
            carry: total.min(MOST_CARRIED),
        }
    }
}
