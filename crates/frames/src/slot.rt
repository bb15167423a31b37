// One place of a pool: the bytes of a frame, who put it there and whether it was taken.
ghost use Rattle.std.specs.Prelude.{◌≡◌, take, ◌==◌};
ghost use Rattle.frames.specs.Slots.{framed, slot_of};

use super::bytes::{FrameBytes, LONGEST, first};

// Who put a frame into a pool, by the number that a slot keeps.
#[derive(Clone, Copy, PartialEq, Eq, Debug)]
pub enum Origin {
    // A step of a station.
    Step = 0,
    // A line from outside.
    Outside = 1,
}

// A length of 0 is no frame, and one above 104 is read as 104; `by` is an origin's number.
// A pool is the caller's plain data, laid out so, and may hold anything: a length beside its bytes, 0 for no frame, and
// any number in `by`.
#[derive(Clone, Copy, PartialEq, Eq, Debug, Default)]
pub struct Slot {
    pub len: u32,
    pub bytes: [u8; LONGEST],
    pub by: u8,
    pub taken: bool,
}

impl Slot {
    // A slot that holds a frame not yet taken, with zeros behind it; past 104 bytes it is cut off.
    pub fn holding(frame: &[u8], by: u8) -> Slot
        ensures { result ≡ slot_of by (take 104 frame.now) }
    {
        let FrameBytes { len, bytes } = FrameBytes::of(frame);
        Slot {
            len,
            bytes,
            by,
            taken: false,
        }
    }

    // The frame's bytes, none where the slot is free.
    pub fn frame(&self) -> &[u8]
        ensures { result.now ≡ framed self.now }
    {
        first(&self.bytes, self.len as usize)
    }

    pub fn is_free(&self) -> bool
        ensures { result ≡ (self.now.len == 0) }
    {
        self.len == 0
    }
}
