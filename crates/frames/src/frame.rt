// A frame by its fields.
ghost use Rattle.std.specs.Prelude.{◌≡◌, min, length};
ghost use Rattle.frames.specs.Bytes.{statement, entry_bytes};
ghost use Rattle.frames.specs.Typed.{StatementFits, HeadFits, kind_number, kind_named, listed, stated, pair_stated};

use super::bytes::first;
use base::book::Entry;
use base::fault::Fault;
use base::refusal::Refusal;

// What a frame says, by its number.
#[derive(Clone, Copy, PartialEq, Eq, Debug)]
pub enum Kind {
    // An entry that its sender worked out.
    Propose = 1,
    // An entry with the tags of enough stations that worked it out.
    Decision = 2,
    // The call for the next committee.
    Reselect = 3,
}

// A station and its tag on what it stated itself.
#[derive(Clone, Copy, PartialEq, Eq, Debug, Default)]
pub struct Pair {
    pub station: u8,
    pub tag: u64,
}

// The first `count` of the eight are the frame's; a count above eight is read as eight. A count beside
// an array: a frame is held without a heap.
#[derive(Clone, Copy, PartialEq, Eq, Debug, Default)]
pub struct Pairs {
    pub count: u8,
    pub each: [Pair; 8],
}

// The number is that of the committee that a reselect calls up; the entry is all zeros in a reselect. One struct for the
// three kinds, since the bytes have every field in each: an enum would write and read most of them three times.
#[derive(Clone, Copy, PartialEq, Eq, Debug)]
pub struct Frame {
    pub kind: Kind,
    pub sender: u8,
    pub batch: u16,
    pub number: u16,
    pub entry: Entry,
    pub tag: u64,
    pub pairs: Pairs,
}

// The highest committee number that a reselect may call up.
pub const LAST_NUMBER: u16 = 20_000;

impl Kind {
    // A method: an impl of `From` would be this cast and clause again.
    pub fn number(self) -> u8
        ensures { result ≡ kind_number self }
    {
        self as u8
    }
}

// The kind of a frame's first byte.
impl TryFrom<u8> for Kind {
    type Error = Fault;

    ghost try_from_gives = { λ number answer. answer ≡ kind_named number };

    fn try_from(number: u8) -> Result<Self, Fault> {
        match number {
            1 => Ok(Kind::Propose),
            2 => Ok(Kind::Decision),
            3 => Ok(Kind::Reselect),
            _ => Err(Fault::new(Refusal::Malformed, 0)),
        }
    }
}

impl Pairs {
    pub fn as_slice(&self) -> &[Pair]
        ensures is { result.now ≡ listed self.now }
        ensures size { length result.now ≡ min self.now.count 8 }
    {
        first(&self.each, usize::from(self.count))
    }
}

// The 24 bytes that a tag seals. Each is named: copies of the fields into ranges of an array would
// count the places by hand.
fn state(kind: Kind, sender: u8, batch: u16, number: u16, count: u8, e: Entry) -> [u8; 24]
    ensures is { result ≡ statement (kind_number kind) sender batch number count (entry_bytes e) }
    ensures fits { StatementFits sender batch number count e }
{
    let [b1, b0] = batch.to_be_bytes();
    let [n1, n0] = number.to_be_bytes();
    let [g3, g2, g1, g0] = e.grower.to_be_bytes();
    let [a3, a2, a1, a0] = e.amount.to_be_bytes();
    let [c3, c2, c1, c0] = e.carry.to_be_bytes();
    let [f3, f2, f1, f0] = e.figure.to_be_bytes();
    [
        kind.number(),
        sender,
        b1,
        b0,
        n1,
        n0,
        count,
        0,
        g3,
        g2,
        g1,
        g0,
        a3,
        a2,
        a1,
        a0,
        c3,
        c2,
        c1,
        c0,
        f3,
        f2,
        f1,
        f0,
    ]
}

impl Frame {
    // What the sender's tag seals.
    pub fn statement(&self) -> [u8; 24]
        ensures is { result ≡ stated self.now }
        ensures fits { HeadFits self.now }
    {
        state(
            self.kind,
            self.sender,
            self.batch,
            self.number,
            self.pairs.count,
            self.entry,
        )
    }

    // What the tag of a pair with this station seals: the station's own proposal in a decision, and
    // else its own reselect without pair.
    pub fn pair_statement(&self, station: u8) -> [u8; 24]
        ensures { result ≡ pair_stated self.now station }
    {
        match self.kind {
            Kind::Decision => state(Kind::Propose, station, self.batch, 0, 0, self.entry),
            _ => state(
                Kind::Reselect,
                station,
                self.batch,
                self.number,
                0,
                Entry::default(),
            ),
        }
    }
}
