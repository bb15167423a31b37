// The bytes of one frame, in a place of fixed size.
ghost use Rattle.std.specs.Prelude.{◌≡◌, ◌+◌, ◌≤◌, ◌++◌, min, length, take};
ghost use Rattle.std.proofs.Math.Seq.{paste};
ghost use Rattle.frames.specs.Packed.{packed, unpacked};

// The longest frame has eight pairs.
pub const LONGEST: usize = 104;

// The first `len` bytes are the frame; a length above 104 is read as 104. A length beside an array: a
// frame is read and written without a heap.
#[derive(Clone, Copy, PartialEq, Eq, Debug)]
pub struct FrameBytes {
    pub len: u32,
    pub bytes: [u8; LONGEST],
}

// The first `len` of some items, all of them where there are fewer.
pub(super) fn first<T>(items: &[T], len: usize) -> &[T]
    ensures { result.now ≡ take (min len (length items.now)) items.now }
{
    &items[..len.min(items.len())]
}

// Writes `src` into `dst` from `at` on.
fn put(dst: &mut [u8], at: usize, src: &[u8])
    requires { at + length src.now ≤ length dst.old }
    ensures { dst.new ≡ paste dst.old at src.now (length src.now) }
{
    dst[at..at + src.len()].copy_from_slice(src);
}

impl FrameBytes {
    // Two parts after each other, with zeros behind them; past 104 bytes they are cut off.
    pub(super) fn join(front: &[u8], back: &[u8]) -> FrameBytes
        ensures { result ≡ packed (take 104 (front.now ++ back.now)) }
    {
        let front = first(front, LONGEST);
        let back = first(back, LONGEST - front.len());
        let mut bytes = [0; LONGEST];
        put(&mut bytes, 0, front);
        put(&mut bytes, front.len(), back);
        FrameBytes {
            len: (front.len() + back.len()) as u32,
            bytes,
        }
    }

    // The bytes of a slice, as many as there is room for. No `From`, which would not say that it cuts.
    pub fn of(frame: &[u8]) -> FrameBytes
        ensures { result ≡ packed (take 104 frame.now) }
    {
        FrameBytes::join(frame, &[])
    }

    pub fn as_slice(&self) -> &[u8]
        ensures { result.now ≡ unpacked self.now }
    {
        first(&self.bytes, self.len as usize)
    }
}
