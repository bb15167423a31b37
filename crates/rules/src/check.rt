// How a checked batch is made of plain numbers.
ghost use Rattle.std.specs.Prelude.{◌≡◌};
ghost use Rattle.rules.specs.Lawful.{lawful};
ghost use Rattle.rules.specs.Plain.{plain, checked_of};
ghost use Rattle.std.specs.Option.{option_map};

use super::batch::Checked;
use base::book::Batch;

// Grower 1 to 9,999,999, fruit 1 to 30,000 kg, oil at most 9,000,000 g.
pub fn is_lawful(b: Batch) -> bool
    ensures { result ≡ lawful b }
{
    (1..=9_999_999).contains(&b.grower) && (1..=30_000).contains(&b.fruit) && b.oil <= 9_000_000
}

impl Checked {
    // None where the numbers are not lawful. An Option, for the error of a TryFrom would say no more.
    pub fn new(b: Batch) -> Option<Checked>
        ensures { option_map plain result ≡ checked_of b }
    {
        is_lawful(b).then(|| Checked::make(b))
    }
}
