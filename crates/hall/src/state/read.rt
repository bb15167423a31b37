// Read: an entry of a station's book.
ghost use Rattle.std.specs.Prelude.{◌≡◌};
ghost use Rattle.protocol.specs.Steps.{read_call};
ghost use Rattle.hall.specs.Join.{terms};
ghost use Rattle.hall.specs.Called.{world, among};

use super::Hall;
use crate::ready::{ensure, record_at};
use base::book::{Batch, Entry};
use base::fault::Fault;
use base::refusal::Refusal;
use frames::slot::Slot;
use policies::policy::Policy;
use rules::rule::Rule;
use seals::seal::Sealing;

// Whether entry k is one of those booked, the first being 1.
fn is_booked(k: u32, booked: u32) -> bool
    ensures { result ≡ among k booked }
{
    (1..=booked).contains(&k)
}

impl<R: Rule, P: Policy, S: Sealing> Hall<R, P, S> {
    // Entry k of station i, counted from 1.
    #[tactic(auto, unfolding(protocol::specs::Steps::read_call, protocol::specs::Steps::fitting))]
    pub fn read(
        &self,
        i: u32,
        k: u32,
        intake: &[Batch],
        pool: &[Slot],
        books: &[Entry],
    ) -> Result<Entry, Fault>
        ensures { result ≡ read_call (terms R.Rule P.Policy S.Check self.now.setup) intake.now i k (world self.now.stations pool.now books.now) }
    {
        self.setup.admit(intake, pool, books)?;
        let who = self.setup.stands(i)?;
        let booked = record_at(&self.stations, who).booked;
        ensure(is_booked(k, booked), Refusal::NotBooked)?;
        Ok(books[self.setup.book_place(who, k) - 1])
    }
}
