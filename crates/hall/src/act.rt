// What accepted calls go on with, at the desk of the station that they are for.
ghost use Rattle.std.specs.Prelude.{◌≡◌, ◌<◌, length, slice_index_or, slice_set};
ghost use Rattle.frames.specs.Slots.{no_slot};
ghost use Rattle.rules.specs.Plain.{plain};
ghost use Rattle.protocol.specs.Desk.{begun};
ghost use Rattle.protocol.specs.Ready.{open_on, deliver_on};
ghost use Rattle.hall.specs.Join.{terms};
ghost use Rattle.hall.specs.Called.{desk, taken_slot};
ghost use Rattle.hall.specs.Working.{Placed, Working, Delivered};

use crate::setup::Setup;
use crate::standing::Standing;
use base::book::{Batch, Entry};
use evidence::tags::shown;
use frames::frame::{Frame, Kind};
use frames::slot::Slot;
use policies::policy::Policy;
use protocol::station::{Station, Vote};
use rules::batch::Checked;
use rules::rule::Rule;
use seals::seal::Sealing;

// The station takes a batch up, with number 0 and empty votes.
fn begin(st: &mut Station, batch: Batch)
    ensures { st.new ≡ begun batch st.old }
{
    *st = Station {
        booked: st.booked,
        work: batch,
        ..Station::default()
    };
}

// Frame f is taken.
fn mark(pool: &mut [Slot], f: u32)
    requires { f < length pool.old }
    ensures { pool.new ≡ slice_set pool.old f (taken_slot (slice_index_or pool.old f no_slot)) }
{
    pool[f as usize].taken = true;
}

impl<R: Rule, P: Policy, S: Sealing> Setup<R, P, S> {
    // The next batch is taken up; a member of committee 0 proposes.
    #[tactic(auto, unfolding(protocol::specs::Ready::open_on))]
    pub(crate) fn open_on(
        &self,
        who: Standing,
        batch: Checked,
        st: &mut Station,
        pool: &mut [Slot],
        books: &[Entry],
    ) -> (bool, bool, bool)
        requires { Placed (terms R.Rule P.Policy S.Check self.now) who.i st.old (length books.now) }
        ensures { (desk st.new pool.new books.now, result) ≡ open_on (terms R.Rule P.Policy S.Check self.now) who.i (plain batch) (desk st.old pool.old books.now) }
    {
        begin(st, batch.batch());
        if !self.policy.seated(0, who.i) {
            return (false, false, false);
        }
        self.propose_on(who, st, pool, books);
        (false, true, false)
    }

    // A frame is taken.
    #[tactic(auto, unfolding(protocol::specs::Ready::deliver_on, protocol::specs::Ready::marked_taken))]
    pub(crate) fn deliver_on(
        &self,
        who: Standing,
        f: u32,
        frame: &Frame,
        st: &mut Station,
        pool: &mut [Slot],
        books: &mut [Entry],
    ) -> (bool, bool, bool)
        requires working { Working (terms R.Rule P.Policy S.Check self.now) who.i st.old (length books.old) }
        requires frame { Delivered (terms R.Rule P.Policy S.Check self.now) who.i st.old f (length pool.old) frame.now }
        ensures { (desk st.new pool.new books.new, result) ≡ deliver_on (terms R.Rule P.Policy S.Check self.now) who.i f frame.now (desk st.old pool.old books.old) }
    {
        mark(pool, f);
        match frame.kind {
            Kind::Propose => {
                let vote = Vote {
                    entry: frame.entry,
                    tag: frame.tag,
                };
                self.vote_on(who, frame.sender, vote, st, pool, books)
            }
            Kind::Decision => {
                self.decide_on(who, frame.entry, frame.pairs, st, pool, books);
                (false, false, true)
            }
            Kind::Reselect => self.reselect_on(who, shown(frame), st, pool, books),
        }
    }
}
