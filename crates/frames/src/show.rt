// Kinds, frames and slots as text.
ghost use Rattle.std.specs.Prelude.{Some};
ghost use Rattle.std.specs.List.{flat_map};
ghost use Rattle.frames.specs.Shown.{kind_text, pair_text, pairs_text, front_text, back_text, frame_text, byte_text, slot_text};

use super::frame::{Frame, Kind, Pair, Pairs};
use super::slot::Slot;
use std::fmt;

impl fmt::Display for Kind {
    ghost output = { λ k. Some (kind_text k) };

    fn fmt<W: fmt::Write>(&self, f: &mut fmt::Formatter<W>) -> fmt::Result {
        f.write_str(match self {
            Kind::Propose => "propose",
            Kind::Decision => "decision",
            Kind::Reselect => "reselect",
        })
    }
}

impl fmt::Display for Pair {
    ghost output = { λ p. Some (pair_text p) };

    fn fmt<W: fmt::Write>(&self, f: &mut fmt::Formatter<W>) -> fmt::Result {
        let Pair { station, tag } = *self;
        write!(f, "pair {station} {tag:016x}")
    }
}

// Each pair behind a blank.
impl fmt::Display for Pairs {
    ghost output = { λ ps. Some (pairs_text ps) };

    fn fmt<W: fmt::Write>(&self, f: &mut fmt::Formatter<W>) -> fmt::Result {
        let pairs = self.as_slice();
        for pair in pairs {
            write!(f, " {pair}")?;
        }
        Ok(())
    }
}

// A frame in two parts, since the proof of so many placeholders in one format does not close.
#[derive(Drop)]
struct Front<'a>(&'a Frame);

impl fmt::Display for Front<'_> {
    ghost output = { λ x. Some (front_text x.0.now) };

    fn fmt<W: fmt::Write>(&self, f: &mut fmt::Formatter<W>) -> fmt::Result {
        let Frame {
            kind,
            sender,
            batch,
            number,
            ..
        } = *self.0;
        write!(f, "{kind} sender {sender} batch {batch} number {number}")
    }
}

#[derive(Drop)]
struct Back<'a>(&'a Frame);

impl fmt::Display for Back<'_> {
    ghost output = { λ x. Some (back_text x.0.now) };

    fn fmt<W: fmt::Write>(&self, f: &mut fmt::Formatter<W>) -> fmt::Result {
        let Frame {
            entry,
            tag,
            pairs,
            ..
        } = *self.0;
        let count = pairs.as_slice().len();
        write!(f, " pairs {count} entry {entry} tag {tag:016x}{pairs}")
    }
}

impl fmt::Display for Frame {
    ghost output = { λ x. Some (frame_text x) };

    fn fmt<W: fmt::Write>(&self, f: &mut fmt::Formatter<W>) -> fmt::Result {
        let front = Front(self);
        let back = Back(self);
        write!(f, "{front}{back}")
    }
}

// Two digits for each byte.
#[derive(Drop)]
struct Hex<'a>(&'a [u8]);

impl fmt::Display for Hex<'_> {
    ghost output = { λ h. Some (flat_map byte_text h.0.now) };

    fn fmt<W: fmt::Write>(&self, f: &mut fmt::Formatter<W>) -> fmt::Result {
        for byte in self.0 {
            write!(f, "{byte:02x}")?;
        }
        Ok(())
    }
}

// All of its bytes, whatever the length is.
impl fmt::Display for Slot {
    ghost output = { λ s. Some (slot_text s) };

    fn fmt<W: fmt::Write>(&self, f: &mut fmt::Formatter<W>) -> fmt::Result {
        let Slot { len, by, .. } = *self;
        let taken = u8::from(self.taken);
        let bytes = Hex(&self.bytes);
        write!(f, "{len} {by} {taken} {bytes}")
    }
}
