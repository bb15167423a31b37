// The steps of one station, on its own record, which the hall lends.
ghost use Rattle.std.specs.Prelude.{◌≡◌, ◌+◌, ◌*◌, ◌<◌, ◌≤◌, true, false, map, length, replicate, nat_lt};
ghost use Rattle.frames.specs.Bytes.{statement};
ghost use Rattle.frames.specs.Typed.{listed, plain, stated};
ghost use Rattle.protocol.specs.Desk.{own_vote, carry_of, sent, propose_on, decide_on, settle_on, join_on, announced, reselect_on, differs_on, vote_on};
ghost use Rattle.hall.specs.Join.{terms};
ghost use Rattle.hall.specs.Called.{desk, called_upon, draft};
ghost use Rattle.hall.specs.Working.{Placed, Working, Moving};

use crate::setup::Setup;
use crate::standing::Standing;
use base::book::{Batch, Entry};
use evidence::issue::issue;
use evidence::votes::{own_entry, quorum, same_entry};
use frames::frame::{Frame, Kind, LAST_NUMBER, Pairs};
use frames::slot::Slot;
use policies::policy::Policy;
use protocol::station::{Station, Vote};
use rules::batch::Checked;
use rules::clerk::work_out;
use rules::rule::Rule;
use seals::seal::Sealing;

// Whether there is a further committee to go on to.
pub(crate) fn may_move(number: u32) -> bool
    ensures { result ≡ nat_lt number 20000 }
{
    number < u32::from(LAST_NUMBER)
}

// A frame of a station that says nothing yet.
fn draft(kind: Kind, who: Standing, batch: u16) -> Frame
    ensures { result ≡ draft kind who.i batch }
{
    Frame {
        kind,
        sender: who.i as u8,
        batch,
        number: 0,
        entry: Entry::default(),
        tag: 0,
        pairs: Pairs::default(),
    }
}

// Record, pool and books stay three parameters: with a struct of three `&mut`, each step would have to promise of each
// that it is still the caller's, and Open, which may only read the books, would need a second struct.
// `Placed` and the like stay `requires`: no ghost field may stand beside the `&mut` that lends the record.
impl<R: Rule, P: Policy, S: Sealing> Setup<R, P, S> {
    // How many stations decide an entry.
    fn quorum_size(&self) -> u32
        ensures { result ≡ self.now.table.t + 1 }
    {
        self.table.faults() + 1
    }

    // Whether a station works the batch out under the committee after c.
    fn is_called(&self, who: Standing, c: u32, proposed: bool) -> bool
        requires { c < 20000 }
        ensures { result ≡ called_upon (P.Policy.seats self.now.policy) who.i c proposed }
    {
        self.policy.seated(c + 1, who.i) && !proposed
    }

    // Where the next entry of a station is booked.
    pub(crate) fn book_place(&self, who: Standing, booked: u32) -> usize
        ensures { result ≡ who.i * self.now.batches + booked }
    {
        who.i as usize * self.batches as usize + booked as usize
    }

    // The carry of the last booked entry, 0 where there is none.
    fn last_carry(&self, who: Standing, booked: u32, books: &[Entry]) -> u32
        requires { who.i * self.now.batches + booked ≤ length books.now }
        ensures { result ≡ carry_of (terms R.Rule P.Policy S.Check self.now) who.i booked books.now }
    {
        if booked == 0 {
            return 0;
        }
        books[self.book_place(who, booked) - 1].carry
    }

    // A frame of a station's own enters the pool; answers its tag.
    #[tactic(auto, unfolding(evidence::specs::Issue::right_tag))]
    fn send(&self, frame: &Frame, pool: &mut [Slot]) -> u64
        ensures answer { result ≡ S.Check.tag self.now.seal frame.now.sender (stated frame.now) }
        ensures row { pool.new ≡ sent (terms R.Rule P.Policy S.Check self.now) frame.now.sender (stated frame.now) (map plain (listed frame.now.pairs)) pool.old }
    {
        issue(&self.seal, frame, pool)
    }

    // The station works its entry out, stores its vote and issues a proposal.
    #[tactic(auto, unfolding(protocol::specs::Desk::propose_on, protocol::specs::Law::works))]
    pub(crate) fn propose_on(
        &self,
        who: Standing,
        st: &mut Station,
        pool: &mut [Slot],
        books: &[Entry],
    ) -> Entry
        requires { Working (terms R.Rule P.Policy S.Check self.now) who.i st.old (length books.now) }
        ensures own { result ≡ own_vote who.i st.new }
        ensures same { desk st.new pool.new books.now ≡ propose_on (terms R.Rule P.Policy S.Check self.now) who.i (desk st.old pool.old books.now) }
    {
        // The record has its batch in plain numbers, for they may be those of an idle station.
        let Some(batch) = Checked::new(st.work) else {
            unreachable()
        };
        let entry = work_out(&self.rule, self.last_carry(who, st.booked, books), batch);
        let frame = Frame {
            entry,
            ..draft(Kind::Propose, who, (st.booked + 1) as u16)
        };
        let tag = self.send(&frame, pool);
        st.proposed = true;
        st.votes[who.i as usize] = Some(Vote { entry, tag });
        entry
    }

    // The station books an entry, issues the decision with its pairs, and is idle.
    #[tactic(auto, unfolding(protocol::specs::Desk::decide_on))]
    pub(crate) fn decide_on(
        &self,
        who: Standing,
        entry: Entry,
        pairs: Pairs,
        st: &mut Station,
        pool: &mut [Slot],
        books: &mut [Entry],
    )
        requires placed { Placed (terms R.Rule P.Policy S.Check self.now) who.i st.old (length books.old) }
        requires quorum { pairs.count ≡ self.now.table.t + 1 }
        ensures { desk st.new pool.new books.new ≡ decide_on (terms R.Rule P.Policy S.Check self.now) who.i entry (map plain (listed pairs)) (desk st.old pool.old books.old) }
    {
        let frame = Frame {
            entry,
            pairs,
            ..draft(Kind::Decision, who, (st.booked + 1) as u16)
        };
        self.send(&frame, pool);
        let place = self.book_place(who, st.booked);
        books[place] = entry;
        st.booked += 1;
        st.work = Batch::default();
    }

    // The station decides if t + 1 stations back an entry; says whether it did.
    fn settle_on(
        &self,
        who: Standing,
        entry: Entry,
        st: &mut Station,
        pool: &mut [Slot],
        books: &mut [Entry],
    ) -> bool
        requires { Placed (terms R.Rule P.Policy S.Check self.now) who.i st.old (length books.old) }
        ensures is { (desk st.new pool.new books.new, result) ≡ settle_on (terms R.Rule P.Policy S.Check self.now) who.i entry (desk st.old pool.old books.old) }
        ensures stays { result ≡ false → desk st.new pool.new books.new ≡ desk st.old pool.old books.old }
    {
        match quorum(&st.votes, self.table.stations(), self.quorum_size(), entry) {
            Some(pairs) => {
                self.decide_on(who, entry, pairs, st, pool, books);
                true
            }
            None => false,
        }
    }

    // The station proposes, and settles.
    #[tactic(auto, unfolding(protocol::specs::Desk::join_on, protocol::specs::Desk::propose_on))]
    fn join_on(
        &self,
        who: Standing,
        st: &mut Station,
        pool: &mut [Slot],
        books: &mut [Entry],
    ) -> bool
        requires { Working (terms R.Rule P.Policy S.Check self.now) who.i st.old (length books.old) }
        ensures { (desk st.new pool.new books.new, result) ≡ join_on (terms R.Rule P.Policy S.Check self.now) who.i (desk st.old pool.old books.old) }
    {
        let entry = self.propose_on(who, st, pool, books);
        self.settle_on(who, entry, st, pool, books)
    }

    // A reselect frame of the station enters the pool. Station, batch and pool come one by one, as from `announce`'s caller.
    fn call_up(&self, who: Standing, batch: u16, number: u16, pairs: Pairs, pool: &mut [Slot])
        ensures { pool.new ≡ sent (terms R.Rule P.Policy S.Check self.now) who.i (statement 3 who.i batch number pairs.count (replicate 16 0)) (map plain (listed pairs)) pool.old }
    {
        let frame = Frame {
            number,
            pairs,
            ..draft(Kind::Reselect, who, batch)
        };
        self.send(&frame, pool);
    }

    // A member of committee c calls up the next one, without a pair; one of the next alone shows a pair.
    #[tactic(auto, unfolding(protocol::specs::Desk::announced))]
    fn announce(&self, who: Standing, batch: u16, c: u32, proof: Pairs, pool: &mut [Slot])
        requires low { c < 20000 }
        requires shown { P.Policy.seats self.now.policy c who.i ≡ false → proof.count ≡ 1 }
        ensures { pool.new ≡ announced (terms R.Rule P.Policy S.Check self.now) who.i batch c (map plain (listed proof)) pool.old }
    {
        let next = (c + 1) as u16;
        if self.policy.seated(c, who.i) {
            self.call_up(who, batch, next, Pairs::default(), pool);
        } else if self.policy.seated(c + 1, who.i) {
            self.call_up(who, batch, next, proof, pool);
        }
    }

    // The station goes on to the next committee; a member of it that has not proposed proposes and settles.
    #[tactic(auto, unfolding(protocol::specs::Desk::reselect_on))]
    pub(crate) fn reselect_on(
        &self,
        who: Standing,
        proof: Pairs,
        st: &mut Station,
        pool: &mut [Slot],
        books: &mut [Entry],
    ) -> (bool, bool, bool)
        requires moving { Moving (terms R.Rule P.Policy S.Check self.now) who.i st.old (length books.old) }
        requires shown { P.Policy.seats self.now.policy st.old.number who.i ≡ false → proof.count ≡ 1 }
        ensures { (desk st.new pool.new books.new, result) ≡ reselect_on (terms R.Rule P.Policy S.Check self.now) who.i (map plain (listed proof)) (desk st.old pool.old books.old) }
    {
        let c = st.number;
        self.announce(who, (st.booked + 1) as u16, c, proof, pool);
        st.number = c + 1;
        let called = self.is_called(who, c, st.proposed);
        let decided = called && self.join_on(who, st, pool, books);
        (true, called, decided)
    }

    // Whether station q is a fellow member whose entry differs from the station's own.
    #[tactic(auto, unfolding(protocol::specs::Desk::differs_on, protocol::specs::Steps::same_entry))]
    fn differs_on(&self, who: Standing, q: u8, entry: Entry, st: &Station) -> bool
        ensures is { result ≡ differs_on (terms R.Rule P.Policy S.Check self.now) who.i q entry st.now }
        ensures seated { result ≡ true → P.Policy.seats self.now.policy st.now.number who.i ≡ true }
        ensures low { result ≡ true → st.now.number < 20000 }
    {
        let c = st.number;
        self.policy.seated(c, who.i)
            && may_move(c)
            && st.proposed
            && self.policy.seated(c, u32::from(q))
            && !same_entry(entry, own_entry(&st.votes, who.i))
    }

    // A vote is stored and settled; a member that finds another entry than its own reselects.
    #[tactic(auto, unfolding(protocol::specs::Desk::vote_on))]
    pub(crate) fn vote_on(
        &self,
        who: Standing,
        q: u8,
        vote: Vote,
        st: &mut Station,
        pool: &mut [Slot],
        books: &mut [Entry],
    ) -> (bool, bool, bool)
        requires working { Working (terms R.Rule P.Policy S.Check self.now) who.i st.old (length books.old) }
        requires sender { q < 16 }
        ensures { (desk st.new pool.new books.new, result) ≡ vote_on (terms R.Rule P.Policy S.Check self.now) who.i q vote (desk st.old pool.old books.old) }
    {
        st.votes[usize::from(q)] = Some(vote);
        if self.settle_on(who, vote.entry, st, pool, books) {
            return (false, false, true);
        }
        if !self.differs_on(who, q, vote.entry, st) {
            return (false, false, false);
        }
        self.reselect_on(who, Pairs::default(), st, pool, books)
    }
}
