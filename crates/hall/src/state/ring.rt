// Ring: a timeout, on which a station reselects.
ghost use Rattle.std.specs.Prelude.{◌≡◌};
ghost use Rattle.protocol.specs.Law.{ringing};
ghost use Rattle.protocol.specs.Steps.{whole_call};
ghost use Rattle.hall.specs.Join.{terms};
ghost use Rattle.hall.specs.Called.{world};

use super::Hall;
use crate::ready::record_at;
use base::book::{Batch, Entry};
use base::fault::Fault;
use frames::frame::Pairs;
use frames::slot::Slot;
use policies::policy::Policy;
use rules::rule::Rule;
use seals::seal::Sealing;

impl<R: Rule, P: Policy, S: Sealing> Hall<R, P, S> {
    pub fn ring(
        &mut self,
        i: u32,
        intake: &[Batch],
        pool: &mut [Slot],
        books: &mut [Entry],
    ) -> Result<(bool, bool, bool), Fault>
        ensures setup { self.new.setup ≡ self.old.setup }
        ensures call { (world self.new.stations pool.new books.new, result) ≡ whole_call (terms R.Rule P.Policy S.Check self.old.setup) intake.now (ringing i) (world self.old.stations pool.old books.old) }
    {
        self.setup.admit(intake, pool, books)?;
        let who = self.setup.stands(i)?;
        let st = record_at(&self.stations, who);
        self.setup.ring_ready(who, st, pool)?;
        let st = &mut self.stations[who.i as usize];
        Ok(
            self.setup
                .reselect_on(who, Pairs::default(), st, pool, books),
        )
    }
}
