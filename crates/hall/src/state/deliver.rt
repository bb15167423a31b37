// Deliver: a station is handed a frame of the pool.
ghost use Rattle.std.specs.Prelude.{◌≡◌};
ghost use Rattle.protocol.specs.Law.{delivery};
ghost use Rattle.protocol.specs.Steps.{whole_call};
ghost use Rattle.hall.specs.Join.{terms};
ghost use Rattle.hall.specs.Called.{world};

use super::Hall;
use crate::ready::{frame_in, record_at};
use base::book::{Batch, Entry};
use base::fault::Fault;
use frames::slot::Slot;
use policies::policy::Policy;
use rules::rule::Rule;
use seals::seal::Sealing;

impl<R: Rule, P: Policy, S: Sealing> Hall<R, P, S> {
    pub fn deliver(
        &mut self,
        i: u32,
        f: u32,
        intake: &[Batch],
        pool: &mut [Slot],
        books: &mut [Entry],
    ) -> Result<(bool, bool, bool), Fault>
        ensures setup { self.new.setup ≡ self.old.setup }
        ensures call { (world self.new.stations pool.new books.new, result) ≡ whole_call (terms R.Rule P.Policy S.Check self.old.setup) intake.now (delivery i f) (world self.old.stations pool.old books.old) }
    {
        self.setup.admit(intake, pool, books)?;
        // Decoding changes nothing; what the frame states is then known on every way out of the tests.
        let read = self.setup.decode(frame_in(pool, f));
        let who = self.setup.stands(i)?;
        let st = record_at(&self.stations, who);
        let frame = self.setup.deliver_ready(st, f, read, pool)?;
        let st = &mut self.stations[who.i as usize];
        Ok(self.setup.deliver_on(who, f, &frame, st, pool, books))
    }
}
