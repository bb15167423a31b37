// Open: a station takes up the next batch.
ghost use Rattle.std.specs.Prelude.{◌≡◌};
ghost use Rattle.protocol.specs.Law.{opening};
ghost use Rattle.protocol.specs.Steps.{whole_call};
ghost use Rattle.hall.specs.Join.{terms};
ghost use Rattle.hall.specs.Called.{world};

use super::Hall;
use crate::ready::record_at;
use base::book::{Batch, Entry};
use base::fault::Fault;
use frames::slot::Slot;
use policies::policy::Policy;
use rules::rule::Rule;
use seals::seal::Sealing;

impl<R: Rule, P: Policy, S: Sealing> Hall<R, P, S> {
    #[tactic(auto, unfolding(protocol::specs::Steps::fitting))]
    pub fn open(
        &mut self,
        i: u32,
        intake: &[Batch],
        pool: &mut [Slot],
        books: &[Entry],
    ) -> Result<(bool, bool, bool), Fault>
        ensures setup { self.new.setup ≡ self.old.setup }
        ensures call { (world self.new.stations pool.new books.now, result) ≡ whole_call (terms R.Rule P.Policy S.Check self.old.setup) intake.now (opening i) (world self.old.stations pool.old books.now) }
    {
        self.setup.admit(intake, pool, books)?;
        let who = self.setup.stands(i)?;
        let st = record_at(&self.stations, who);
        let batch = self.setup.open_ready(st, intake, pool)?;
        let st = &mut self.stations[who.i as usize];
        Ok(self.setup.open_on(who, batch, st, pool, books))
    }
}
