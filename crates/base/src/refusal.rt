// Every refusal, under its number.
ghost use Rattle.std.specs.Prelude.{◌≡◌};
ghost use Rattle.base.specs.Refusals.{number_of, layer_of};

use super::fault::Layer;

#[derive(Clone, Copy, PartialEq, Eq, Debug)]
pub enum Refusal {
    TableFull = 1,
    UnknownMark = 2,
    WrongThreshold = 3,
    TooManyFaulty = 4,
    TooFewForPolicy = 5,
    OutOfRange = 6,
    WrongLength = 7,
    NoStation = 8,
    FaultyStation = 9,
    AtWork = 10,
    IntakeUsedUp = 11,
    UnlawfulBatch = 12,
    PoolFull = 13,
    Idle = 14,
    NoFrame = 15,
    Malformed = 16,
    EarlierBatch = 17,
    LaterBatch = 18,
    SenderTag = 19,
    VoteHeld = 20,
    PairTag = 21,
    WronglySent = 22,
    NumberPassed = 23,
    NumberAhead = 24,
    NotMember = 25,
    LastNumber = 26,
    Forged = 27,
    BadLine = 28,
    NotBooked = 29,
    ShortBuffer = 30,
}

impl Refusal {
    // A method: an impl of `From` would be this cast and clause again.
    pub fn number(self) -> u8
        ensures { result ≡ number_of self }
    {
        self as u8
    }

    pub fn layer(self) -> Layer
        ensures { result ≡ layer_of self }
    {
        match self {
            Refusal::BadLine => Layer::Line,
            Refusal::Malformed => Layer::Frame,
            Refusal::SenderTag | Refusal::PairTag | Refusal::Forged => Layer::Seal,
            _ => Layer::Hall,
        }
    }
}
