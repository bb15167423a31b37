// The tests that every call makes first.
ghost use Rattle.std.specs.Prelude.{◌≡◌, []};
ghost use Rattle.protocol.specs.Steps.{in_range};
ghost use Rattle.hall.specs.Join.{terms};
ghost use Rattle.hall.specs.Called.{world, admitted};

use crate::ready::ensure;
use crate::setup::Setup;
use base::book::{Batch, Entry};
use base::fault::Fault;
use base::refusal::Refusal;
use frames::slot::Slot;
use policies::policy::Policy;
use rules::rule::Rule;
use seals::seal::Sealing;

impl<R: Rule, P: Policy, S: Sealing> Setup<R, P, S> {
    // Whether policy and table agree, and the numbers of batches and slots lie in range.
    #[tactic(auto, unfolding(protocol::specs::Steps::in_range))]
    fn in_range(&self) -> bool
        ensures { result ≡ in_range (terms R.Rule P.Policy S.Check self.now) }
    {
        self.policy.count_stations() == self.table.stations()
            && self.policy.count_faults() == self.table.faults()
            && (1..=1_000).contains(&self.batches)
            && (3..=65_536).contains(&self.slots)
    }

    #[tactic(auto, unfolding(protocol::specs::Steps::fitting))]
    pub(crate) fn admit(
        &self,
        intake: &[Batch],
        pool: &[Slot],
        books: &[Entry],
    ) -> Result<(), Fault>
        ensures same { result ≡ admitted (terms R.Rule P.Policy S.Check self.now) intake.now (world [] pool.now books.now) }
    {
        ensure(self.in_range(), Refusal::OutOfRange)?;
        let entries = self.table.stations() * self.batches;
        let fits = intake.len() == self.batches as usize
            && pool.len() == self.slots as usize
            && books.len() == entries as usize;
        ensure(fits, Refusal::WrongLength)
    }
}
