// A frame from its bytes, held to its form.
ghost use Rattle.std.specs.Prelude.{◌≡◌, ◌==◌, map, length, take, IfOk, Ok, Err, MatchResult};
ghost use Rattle.std.specs.List.{list_all};
ghost use Rattle.base.specs.Refusals.{fault_at};
ghost use Rattle.base.specs.declared.refusal.Refusal.TheVariants.{Malformed};
ghost use Rattle.frames.specs.Frames.{first_fault, rising_tests};
ghost use Rattle.frames.specs.Typed.{kind_number, number_test, count_test, held_to, head_tests, count_tests, head_of, holding, decoded, line_decoded, Cut, entry_in, tag_in, pair_in, pair_at, parts_tests, frame_in};
ghost use Rattle.frames.specs.Bothways.{BothWays};

use super::frame::{Frame, Kind, LAST_NUMBER, Pair, Pairs};
use super::line::read_line;
use base::book::Entry;
use base::fault::Fault;
use base::refusal::Refusal;
use std::array;

// What a frame is held to: the number of stations, how many of them may be faulty, and the number of
// batches.
#[derive(Clone, Copy, PartialEq, Eq, Debug)]
pub struct Limits {
    pub stations: u32,
    pub faults: u32,
    pub batches: u32,
}

// The first eight bytes.
#[derive(Clone, Copy)]
struct Head {
    kind: Kind,
    sender: u8,
    batch: u16,
    number: u16,
    count: u8,
    zero: u8,
}

// A frame's bytes, cut where its parts meet: the head, the entry with the tag, as many pairs as there
// are bytes for, and what is left behind them.
#[derive(Clone, Copy)]
struct Parts<'a> {
    head: Head,
    body: &'a [u8; 24],
    pairs: &'a [[u8; 9]],
    left: &'a [u8],
}

fn malformed(place: usize) -> Fault
    ensures { result ≡ fault_at Malformed place }
{
    Fault::new(Refusal::Malformed, place)
}

// Whether a committee number stands in a frame of its kind.
fn number_fits(kind: Kind, number: u16) -> bool
    ensures { result ≡ number_test (kind_number kind) number }
{
    match kind {
        Kind::Reselect => (1..=LAST_NUMBER).contains(&number),
        _ => number == 0,
    }
}

// Whether no entry stands before a tag.
fn is_blank(body: &[u8; 24]) -> bool
    ensures { result ≡ list_all (λ b. b == 0) (take 16 body.now) }
{
    body[..16].iter().all(|b| *b == 0)
}

// The entry is the first four words of four bytes, and the tag the third of eight.
fn read_entry(body: &[u8; 24]) -> Entry
    ensures { result ≡ entry_in body.now }
{
    let (words, _) = body.as_chunks::<4>();
    Entry {
        grower: u32::from_be_bytes(words[0]),
        amount: u32::from_be_bytes(words[1]),
        carry: u32::from_be_bytes(words[2]),
        figure: u32::from_be_bytes(words[3]),
    }
}

fn read_tag(body: &[u8; 24]) -> u64
    ensures { result ≡ tag_in body.now }
{
    let (words, _) = body.as_chunks::<8>();
    u64::from_be_bytes(words[2])
}

fn read_pair(bytes: &[u8; 9]) -> Pair
    ensures { result ≡ pair_at (pair_in bytes.now) }
{
    // each byte by name: the rest of a pattern, as an array, gets no proof yet
    let [station, t7, t6, t5, t4, t3, t2, t1, t0] = *bytes;
    Pair {
        station,
        tag: u64::from_be_bytes([t7, t6, t5, t4, t3, t2, t1, t0]),
    }
}

// A count, and as many of the pairs as there is room for.
fn read_pairs(count: u8, pairs: &[[u8; 9]]) -> Pairs
    ensures { result ≡ holding count (map pair_in pairs.now) }
{
    Pairs {
        count,
        each: array::from_fn(|k| pairs.get(k).map(read_pair).unwrap_or_default()),
    }
}

impl Parts<'_> {
    // A reselect has no entry, and a frame is as long as its pairs ask; `len` is how long it is.
    fn check_body(&self, len: usize) -> Result<(), Fault>
        ensures { result ≡ held_to (first_fault (parts_tests (kind_number self.now.head.kind) self.now.head.count self.now.body.now (length self.now.pairs.now) (length self.now.left.now) len)) tt }
    {
        if self.head.kind == Kind::Reselect && !is_blank(self.body) {
            return Err(malformed(8));
        }
        if self.pairs.len() != usize::from(self.head.count) || !self.left.is_empty() {
            return Err(malformed(len));
        }
        Ok(())
    }

    fn frame(&self) -> Frame
        ensures { result ≡ frame_in self.now.head self.now.body.now self.now.pairs.now }
    {
        Frame {
            kind: self.head.kind,
            sender: self.head.sender,
            batch: self.head.batch,
            number: self.head.number,
            entry: read_entry(self.body),
            tag: read_tag(self.body),
            pairs: read_pairs(self.head.count, self.pairs),
        }
    }
}

impl Limits {
    // The parts of a frame whose head passes the tests up to the batch.
    fn read_parts<'a>(&self, bytes: &'a [u8]) -> Result<Parts<'a>, Fault>
        ensures is { let read = held_to (first_fault (head_tests self.now.stations self.now.batches bytes.now)) (head_of bytes.now) in MatchResult result (λ p. Ok p.head ≡ read) (λ x. Err x ≡ read) }
        ensures cut { IfOk result (λ p. Cut bytes.now p.body.now p.pairs.now p.left.now) }
    {
        let [kind, sender, b1, b0, c1, c0, count, zero, rest @ ..] = bytes else {
            return Err(malformed(bytes.len()));
        };
        let Some((body, rest)) = rest.split_first_chunk::<24>() else {
            return Err(malformed(bytes.len()));
        };
        let kind = Kind::try_from(*kind)?;
        if u32::from(*sender) >= self.stations {
            return Err(malformed(1));
        }
        let batch = u16::from_be_bytes([*b1, *b0]);
        if batch < 1 || u32::from(batch) > self.batches {
            return Err(malformed(2));
        }
        let (pairs, left) = rest.as_chunks::<9>();
        let head = Head {
            kind,
            sender: *sender,
            batch,
            number: u16::from_be_bytes([*c1, *c0]),
            count: *count,
            zero: *zero,
        };
        Ok(Parts {
            head,
            body,
            pairs,
            left,
        })
    }

    // Whether a frame may have so many pairs.
    fn count_fits(&self, kind: Kind, count: u8) -> bool
        ensures { result ≡ count_test (kind_number kind) self.now.faults count }
    {
        match kind {
            Kind::Propose => count == 0,
            Kind::Decision => u64::from(count) == u64::from(self.faults) + 1,
            Kind::Reselect => count <= 1,
        }
    }

    // The numbers of a head that hang on its kind, and the byte that is kept zero.
    fn check_counts(&self, head: &Head) -> Result<(), Fault>
        ensures { result ≡ held_to (first_fault (count_tests self.now.faults (kind_number head.now.kind) head.now.number head.now.count head.now.zero)) tt }
    {
        if !number_fits(head.kind, head.number) {
            return Err(malformed(4));
        }
        if !self.count_fits(head.kind, head.count) {
            return Err(malformed(6));
        }
        if head.zero != 0 {
            return Err(malformed(7));
        }
        Ok(())
    }

    // The stations of the pairs are stations of the table, and each is above the one before.
    fn check_pairs(&self, pairs: &[[u8; 9]]) -> Result<(), Fault>
        ensures { result ≡ held_to (first_fault (rising_tests self.now.stations 0 32 (map pair_in pairs.now))) tt }
    {
        let mut low = 0u32;
        for (k, pair) in pairs.iter().enumerate() {
            let station = u32::from(pair[0]);
            if self.stations <= station || station < low {
                return Err(malformed(32 + 9 * k));
            }
            low = station + 1;
        }
        Ok(())
    }

    // The parts of a frame that passes every test, in their order.
    fn check_form<'a>(&self, bytes: &'a [u8]) -> Result<Parts<'a>, Fault>
        ensures { let given = decoded self.now.stations self.now.faults self.now.batches bytes.now in MatchResult result (λ p. given ≡ Ok (frame_in p.head p.body.now p.pairs.now)) (λ x. given ≡ Err x) }
    {
        let parts = self.read_parts(bytes)?;
        self.check_counts(&parts.head)?;
        parts.check_body(bytes.len())?;
        self.check_pairs(parts.pairs)?;
        Ok(parts)
    }

    // The frame that some bytes are. Of more than eight pairs the first eight are kept.
    pub fn decode(&self, bytes: &[u8]) -> Result<Frame, Fault>
        ensures is { result ≡ decoded self.now.stations self.now.faults self.now.batches bytes.now }
        ensures both { BothWays self.now.stations self.now.faults self.now.batches bytes.now }
    {
        self.check_form(bytes).map(|parts| parts.frame())
    }

    // The frame that a line stands for; a fault of the line or of the frame goes up as it is.
    pub fn decode_line(&self, line: &[u8]) -> Result<Frame, Fault>
        ensures { result ≡ line_decoded self.now.stations self.now.faults self.now.batches line.now }
    {
        let frame = read_line(line)?;
        self.decode(frame.as_slice())
    }
}
