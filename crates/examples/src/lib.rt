// The worked examples of the rules, the policies, the tables and the hall, proved of their definitions and run as tests
// of the code; and one hall at concrete types.
#![tactic(auto)]

ghost use Rattle.protocol.specs.Run.{Owes};
ghost use Rattle.examples.specs.Table.{AllHold};
ghost use Rattle.examples.specs.Site.{site_terms};

use hall::state::Hall;
use policies::rotating::Rotating;
use policies::table::Locked;
use rules::oil::Oil;
use seals::keyed::Keyed;

// Every worked example holds.
pub fn examples_hold()
    ensures { AllHold }
{}

// A hall by the oil rule, with rotating committees and keyed tags: what its making promises, in terms written out.
pub fn oil_hall(
    table: Locked,
    policy: Rotating,
    keys: [u64; 16],
    batches: u32,
    slots: u32,
) -> Hall<Oil, Rotating, Keyed>
    ensures { Owes (site_terms table policy keys batches slots) }
{
    Hall::make(table, Oil, policy, Keyed { keys }, batches, slots)
}

#[cfg(test)]
mod tests;
