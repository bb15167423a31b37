// Refusals, faults and entries as text.
ghost use Rattle.std.specs.Prelude.{Some};
ghost use Rattle.base.specs.Shown.{refusal_text, fault_text, entry_text};

use super::book::Entry;
use super::fault::Fault;
use super::refusal::Refusal;
use std::error::Error;
use std::fmt;

// For people; programs read the number.
impl fmt::Display for Refusal {
    ghost output = { λ r. Some (refusal_text r) };

    fn fmt<W: fmt::Write>(&self, f: &mut fmt::Formatter<W>) -> fmt::Result {
        f.write_str(match self {
            Refusal::TableFull => "sixteen stations stand already",
            Refusal::UnknownMark => "a mark is 0 or 1",
            Refusal::WrongThreshold => "t is 1 to 7 and n at least 2t + 1",
            Refusal::TooManyFaulty => "more than t stations are faulty",
            Refusal::TooFewForPolicy => "too few stations for this policy",
            Refusal::OutOfRange => "policy and table differ, or batches or slots out of range",
            Refusal::WrongLength => "a buffer has the wrong length",
            Refusal::NoStation => "no such station",
            Refusal::FaultyStation => "the station is faulty",
            Refusal::AtWork => "the station is at work",
            Refusal::IntakeUsedUp => "the intake is used up",
            Refusal::UnlawfulBatch => "the batch is unlawful",
            Refusal::PoolFull => "fewer than three free slots",
            Refusal::Idle => "the station is idle",
            Refusal::NoFrame => "no such frame",
            Refusal::Malformed => "the frame is malformed",
            Refusal::EarlierBatch => "the frame is of an earlier batch",
            Refusal::LaterBatch => "the frame is of a later batch",
            Refusal::SenderTag => "the sender's tag is wrong",
            Refusal::VoteHeld => "a vote of the sender is held already",
            Refusal::PairTag => "a pair is wrong",
            Refusal::WronglySent => "not the sender's to send",
            Refusal::NumberPassed => "the committee number is passed",
            Refusal::NumberAhead => "the committee number is too far ahead",
            Refusal::NotMember => "the station is not a member",
            Refusal::LastNumber => "the last committee number is reached",
            Refusal::Forged => "forged",
            Refusal::BadLine => "a bad line",
            Refusal::NotBooked => "the entry is not booked",
            Refusal::ShortBuffer => "the buffer is too short",
        })
    }
}

impl fmt::Display for Fault {
    ghost output = { λ x. Some (fault_text x) };

    fn fmt<W: fmt::Write>(&self, f: &mut fmt::Formatter<W>) -> fmt::Result {
        let refusal = self.refusal;
        let number = refusal.number();
        let layer = self.layer.number();
        let place = self.place;
        write!(
            f,
            "refused {number} layer {layer} place {place} ({refusal})"
        )
    }
}

impl fmt::Display for Entry {
    ghost output = { λ e. Some (entry_text e) };

    fn fmt<W: fmt::Write>(&self, f: &mut fmt::Formatter<W>) -> fmt::Result {
        let Entry {
            grower,
            amount,
            carry,
            figure,
        } = *self;
        write!(f, "{grower} {amount} {carry} {figure}")
    }
}

impl Error for Refusal {}

impl Error for Fault {}
