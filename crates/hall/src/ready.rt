// The tests of each call, in their order.
ghost use Rattle.std.specs.Prelude.{◌≡◌, not, length, None, Ok, nat_le, slice_index_or};
ghost use Rattle.base.specs.declared.refusal.Refusal.TheVariants.{PoolFull, VoteHeld};
ghost use Rattle.frames.specs.Slots.{free, frame_at};
ghost use Rattle.rules.specs.Plain.{plain};
ghost use Rattle.frames.specs.Typed.{decoded};
ghost use Rattle.protocol.specs.Ready.{unless_at, stands as standing, kind_ready, forgery_at, inject_ready};
ghost use Rattle.protocol.specs.Steps.{no_station, passing, held};
ghost use Rattle.hall.specs.Join.{terms};
ghost use Rattle.hall.specs.Called.{map_ok, number_of};
ghost use Rattle.hall.specs.Parts.{States, open_tests, ring_tests, deliver_tests, reselect_ready, frame_ready};

use crate::setup::Setup;
use crate::standing::Standing;
use crate::step::may_move;
use base::book::Batch;
use base::fault::Fault;
use base::refusal::Refusal;
use evidence::forgery::forged;
use evidence::tags::{rightly_sent, sender_right, wrong_leaver, wrong_pair};
use frames::bytes::FrameBytes;
use frames::decode::Limits;
use frames::frame::{Frame, Kind};
use frames::line::read_line;
use frames::pool::find_room;
use frames::slot::Slot;
use policies::policy::Policy;
use protocol::station::Station;
use rules::batch::Checked;
use rules::check::is_lawful;
use rules::rule::Rule;
use seals::seal::Sealing;

// A test that a call makes.
pub(crate) fn ensure(held: bool, refusal: Refusal) -> Result<(), Fault>
    ensures { result ≡ passing held refusal (Ok tt) }
{
    if held {
        Ok(())
    } else {
        Err(Fault::new(refusal, 0))
    }
}

// A test that fails at the place that was found.
fn ensure_none(found: Option<usize>, refusal: Refusal) -> Result<(), Fault>
    ensures { result ≡ unless_at found refusal (Ok tt) }
{
    found.map_or(Ok(()), |place| Err(Fault::new(refusal, place)))
}

// The record of a station.
pub(crate) fn record_at(stations: &[Station; 16], who: Standing) -> &Station
    ensures { result.now ≡ slice_index_or stations.now who.i no_station }
{
    &stations[who.i as usize]
}

// Frame f of a pool; no byte where there is none, which is how a free slot reads too.
pub(crate) fn frame_in(pool: &[Slot], f: u32) -> &[u8]
    ensures { result.now ≡ frame_at pool.now f }
{
    pool.get(f as usize).map_or(&[], |slot| slot.frame())
}

// A call needs three free slots, as many as it can use.
fn roomy(pool: &[Slot]) -> Result<(), Fault>
    ensures { result ≡ passing (nat_le 3 (free pool.now)) PoolFull (Ok tt) }
{
    ensure(find_room(pool).empty >= 3, Refusal::PoolFull)
}

// No vote of station q is held yet.
fn vote_free(st: &Station, q: u8) -> Result<(), Fault>
    ensures { result ≡ passing (not (held (slice_index_or st.now.votes q None))) VoteHeld (Ok tt) }
{
    let held = st.votes.get(usize::from(q)).is_some_and(Option::is_some);
    ensure(!held, Refusal::VoteHeld)
}

impl<R: Rule, P: Policy, S: Sealing> Setup<R, P, S> {
    // Station i is there and correct.
    pub(crate) fn stands(&self, i: u32) -> Result<Standing, Fault>
        ensures { map_ok number_of result ≡ standing (terms R.Rule P.Policy S.Check self.now) i (Ok i) }
    {
        ensure(i < self.table.stations(), Refusal::NoStation)?;
        ensure(!self.table.is_faulty(i), Refusal::FaultyStation)?;
        Ok(Standing { i })
    }

    pub(crate) fn open_ready(
        &self,
        st: &Station,
        intake: &[Batch],
        pool: &[Slot],
    ) -> Result<Checked, Fault>
        requires { length intake.now ≡ self.now.batches }
        ensures { map_ok plain result ≡ open_tests (terms R.Rule P.Policy S.Check self.now) intake.now st.now pool.now }
    {
        ensure(!is_lawful(st.work), Refusal::AtWork)?;
        ensure(st.booked < self.batches, Refusal::IntakeUsedUp)?;
        let unlawful = Fault::new(Refusal::UnlawfulBatch, 0);
        let batch = Checked::new(intake[st.booked as usize]).ok_or(unlawful)?;
        roomy(pool)?;
        Ok(batch)
    }

    pub(crate) fn ring_ready(&self, who: Standing, st: &Station, pool: &[Slot]) -> Result<(), Fault>
        ensures { result ≡ ring_tests (terms R.Rule P.Policy S.Check self.now) who.i st.now pool.now }
    {
        ensure(is_lawful(st.work), Refusal::Idle)?;
        ensure(self.policy.seated(st.number, who.i), Refusal::NotMember)?;
        ensure(may_move(st.number), Refusal::LastNumber)?;
        roomy(pool)
    }

    fn reselect_ready(&self, number: u32, frame: &Frame) -> Result<(), Fault>
        ensures { result ≡ reselect_ready (terms R.Rule P.Policy S.Check self.now) number frame.now }
    {
        ensure(rightly_sent(&self.policy, frame), Refusal::WronglySent)?;
        ensure_none(
            wrong_leaver(&self.seal, &self.policy, frame),
            Refusal::PairTag,
        )?;
        let called = u32::from(frame.number);
        ensure(called > number, Refusal::NumberPassed)?;
        ensure(called - number <= 1, Refusal::NumberAhead)
    }

    #[tactic(auto, unfolding(protocol::specs::Ready::kind_ready))]
    fn kind_ready(&self, st: &Station, frame: &Frame) -> Result<(), Fault>
        ensures { result ≡ kind_ready (terms R.Rule P.Policy S.Check self.now) st.now frame.now }
    {
        match frame.kind {
            Kind::Propose => vote_free(st, frame.sender),
            Kind::Decision => ensure_none(wrong_pair(&self.seal, frame), Refusal::PairTag),
            Kind::Reselect => self.reselect_ready(st.number, frame),
        }
    }

    // A frame is of the batch that the station works on, and rightly sealed by its sender.
    #[tactic(auto, unfolding(evidence::specs::Issue::right_tag))]
    fn frame_ready(&self, st: &Station, frame: &Frame) -> Result<(), Fault>
        ensures { result ≡ frame_ready (terms R.Rule P.Policy S.Check self.now) st.now frame.now }
    {
        let batch = u32::from(frame.batch);
        ensure(batch > st.booked, Refusal::EarlierBatch)?;
        ensure(batch - st.booked <= 1, Refusal::LaterBatch)?;
        // not by `ensure`, which has no place
        if !sender_right(&self.seal, frame) {
            return Err(Fault::new(Refusal::SenderTag, 24));
        }
        self.kind_ready(st, frame)
    }

    // `read` is what came of decoding frame f, and is judged in its turn.
    pub(crate) fn deliver_ready(
        &self,
        st: &Station,
        f: u32,
        read: Result<Frame, Fault>,
        pool: &[Slot],
    ) -> Result<Frame, Fault>
        requires of_f { read ≡ decoded self.now.table.n self.now.table.t self.now.batches (frame_at pool.now f) }
        requires says { States self.now.table.n self.now.table.t self.now.batches (frame_at pool.now f) }
        ensures is { result ≡ deliver_tests (terms R.Rule P.Policy S.Check self.now) st.now f pool.now }
        ensures says { States self.now.table.n self.now.table.t self.now.batches (frame_at pool.now f) }
    {
        ensure(is_lawful(st.work), Refusal::Idle)?;
        ensure(!frame_in(pool, f).is_empty(), Refusal::NoFrame)?;
        roomy(pool)?;
        let frame = read?;
        self.frame_ready(st, &frame)?;
        Ok(frame)
    }

    // The frame that some bytes are; what it states is what they begin with.
    pub(crate) fn decode(&self, bytes: &[u8]) -> Result<Frame, Fault>
        ensures is { result ≡ decoded self.now.table.n self.now.table.t self.now.batches bytes.now }
        ensures says { States self.now.table.n self.now.table.t self.now.batches bytes.now }
    {
        let limits = Limits {
            stations: self.table.stations(),
            faults: self.table.faults(),
            batches: self.batches,
        };
        limits.decode(bytes)
    }

    // The place of a forged statement; a malformed frame has none.
    fn forgery(&self, bytes: &[u8], pool: &[Slot]) -> Option<usize>
        ensures { result ≡ forgery_at (terms R.Rule P.Policy S.Check self.now) (decoded self.now.table.n self.now.table.t self.now.batches bytes.now) pool.now }
    {
        let frame = self.decode(bytes).ok()?;
        forged(&self.table, &self.seal, &frame, pool)
    }

    #[tactic(auto, unfolding(protocol::specs::Ready::inject_ready))]
    pub(crate) fn inject_ready(&self, line: &[u8], pool: &[Slot]) -> Result<FrameBytes, Fault>
        ensures { result ≡ inject_ready (terms R.Rule P.Policy S.Check self.now) line.now pool.now }
    {
        let bytes = read_line(line)?;
        roomy(pool)?;
        ensure_none(self.forgery(bytes.as_slice(), pool), Refusal::Forged)?;
        Ok(bytes)
    }
}
