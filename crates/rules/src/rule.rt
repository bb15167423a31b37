// A rule works out what is booked of a checked batch.
ghost use Rattle.std.specs.Prelude.{◌≡◌, ℕ, ◌^◌, ◌<◌, ◌≤◌, min, true};
ghost use Rattle.rules.specs.Lawful.{lawful};
ghost use Rattle.rules.specs.Plain.{plain};
ghost use Rattle.rules.specs.declared.rule.Outcome.{Outcome};
ghost use Rattle.base.specs.declared.book.Batch.{Batch};

use super::batch::Checked;

// What a rule gives: the amount booked, a figure for the grower, and the carry after.
#[derive(Clone, Copy, PartialEq, Eq, Debug)]
pub struct Outcome {
    pub amount: u32,
    pub figure: u32,
    pub carry: u32,
}

// What is carried at most.
pub(crate) const MOST_CARRIED: u32 = 99_999_999;

pub trait Rule {
    // the rule's whole meaning: from a carry and a batch to its outcome
    ghost outcome: { Self → ℕ → Batch → Outcome };

    fn work(&self, carry: u32, b: Checked) -> Outcome
        ensures { result ≡ outcome self.now carry (plain b) };

    // a carry above 99,999,999 is taken as that
    ghost capped: { (s : Self) (c : ℕ) (b : Batch) → outcome s c b ≡ outcome s (min c 99999999) b };

    // the carry after of a lawful batch is at most that too
    ghost within: { (s : Self) (c : ℕ) (b : Batch) → lawful b ≡ true → (outcome s c b).carry ≤ 99999999 };

    // amount and figure of a lawful batch are of 32 bits
    ghost fits: { (s : Self) (c : ℕ) (b : Batch) → lawful b ≡ true → ((outcome s c b).amount < 2 ^ 32) × ((outcome s c b).figure < 2 ^ 32) };
}
