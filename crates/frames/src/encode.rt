// A frame as bytes.
ghost use Rattle.std.specs.Prelude.{◌≡◌, ◌^◌, ◌<◌, ◌≤◌, ◌∷◌, length};
ghost use Rattle.frames.specs.Bytes.{be8};
ghost use Rattle.frames.specs.Packed.{packed};
ghost use Rattle.frames.specs.Typed.{HeadFits, stated, encoded};
ghost use Rattle.frames.specs.Bothways.{ReadsBack};

use super::bytes::FrameBytes;
use super::frame::{Frame, Pair};

// A tag as it is written.
fn write_tag(tag: u64) -> [u8; 8]
    ensures is { result ≡ be8 tag }
    ensures fits { tag < 2 ^ 64 }
{
    tag.to_be_bytes()
}

// A pair as it is written.
fn write_pair(pair: Pair) -> [u8; 9]
    ensures is { result ≡ pair.station ∷ be8 pair.tag }
    ensures fits { pair.tag < 2 ^ 64 }
{
    let [t7, t6, t5, t4, t3, t2, t1, t0] = write_tag(pair.tag);
    [pair.station, t7, t6, t5, t4, t3, t2, t1, t0]
}

// A frame's statement and tag, and its pairs behind them.
fn assemble(frame: &Frame, statement: &[u8; 24], tag: &[u8; 8]) -> FrameBytes
    requires states { statement.now ≡ stated frame.now }
    requires fits { HeadFits frame.now }
    requires sealed { tag.now ≡ be8 frame.now.tag }
    requires small { frame.now.tag < 2 ^ 64 }
    ensures is { result ≡ packed (encoded frame.now) }
    ensures short { length (encoded frame.now) ≤ 104 }
    ensures back { ReadsBack frame.now }
{
    // A loop: as a fold, what its invariant says would be a lemma on the closure.
    let mut bytes = FrameBytes::join(statement, tag);
    let pairs = frame.pairs.as_slice();
    for pair in pairs {
        bytes = FrameBytes::join(bytes.as_slice(), &write_pair(*pair));
    }
    bytes
}

// The statement, the tag on it and the pairs.
pub fn encode(frame: &Frame) -> FrameBytes
    ensures is { result ≡ packed (encoded frame.now) }
    ensures short { length (encoded frame.now) ≤ 104 }
    ensures back { ReadsBack frame.now }
{
    assemble(frame, &frame.statement(), &write_tag(frame.tag))
}
