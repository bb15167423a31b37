// Why something was refused: in which layer, by which number, and at which place.
ghost use Rattle.std.specs.Prelude.{◌≡◌};
ghost use Rattle.base.specs.Refusals.{layer_number, fault_at};

use super::refusal::Refusal;

// Where a refusal comes from, outermost first.
#[derive(Clone, Copy, PartialEq, Eq, Debug)]
pub enum Layer {
    Line = 1,
    Frame = 2,
    Seal = 3,
    Hall = 4,
}

// The place counts bytes or digits from 0; it is 0 where a refusal has none. Layer and place stand in every fault, as
// those who get one read all three: an Option, or a layer to be asked for, would be no plainer.
#[derive(Clone, Copy, PartialEq, Eq, Debug)]
pub struct Fault {
    pub layer: Layer,
    pub refusal: Refusal,
    pub place: usize,
}

impl Layer {
    // A method: an impl of `From` would be this cast and clause again.
    pub fn number(self) -> u8
        ensures { result ≡ layer_number self }
    {
        self as u8
    }
}

impl Fault {
    pub fn new(refusal: Refusal, place: usize) -> Fault
        ensures { result ≡ fault_at refusal place }
    {
        Fault {
            layer: refusal.layer(),
            refusal,
            place,
        }
    }
}
