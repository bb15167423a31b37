// The full policy seats every set of t + 1 stations in turn.
ghost use Rattle.std.specs.Prelude.{◌≡◌, ◌+◌, ◌*◌, ◌%◌, ◌<◌, ◌≤◌, slice_index};
ghost use Rattle.policies.specs.Seats.{last_number};
ghost use Rattle.policies.specs.Sizes.{sizes, sizes_of};
ghost use Rattle.policies.specs.Tables.{locked_plain};
ghost use Rattle.policies.specs.Masks.{masks, binomial, holds, mask_of, full_turn, full_seats, Listed};
ghost use Rattle.policies.specs.Covering;
ghost use Rattle.policies.specs.Covering.{exactly, covers};
ghost use Rattle.std.proofs.Common.{rules};

use super::policy::{LAST, Policy};
use super::table::Locked;

// n and t bare, as in a table: a struct of the two would only lengthen the clauses, which say p.n and p.t.
#[derive(Clone, Copy)]
pub struct Full {
    n: u32,
    t: u32,
    ghost wide: { 2 * t + 1 ≤ n },
    ghost small: { n ≤ 16 },
}

// Pascal's triangle: row n has the ways to pick 0 to 8 of n.
const PASCAL: [[u32; 9]; 17] = [
    [1, 0, 0, 0, 0, 0, 0, 0, 0],
    [1, 1, 0, 0, 0, 0, 0, 0, 0],
    [1, 2, 1, 0, 0, 0, 0, 0, 0],
    [1, 3, 3, 1, 0, 0, 0, 0, 0],
    [1, 4, 6, 4, 1, 0, 0, 0, 0],
    [1, 5, 10, 10, 5, 1, 0, 0, 0],
    [1, 6, 15, 20, 15, 6, 1, 0, 0],
    [1, 7, 21, 35, 35, 21, 7, 1, 0],
    [1, 8, 28, 56, 70, 56, 28, 8, 1],
    [1, 9, 36, 84, 126, 126, 84, 36, 9],
    [1, 10, 45, 120, 210, 252, 210, 120, 45],
    [1, 11, 55, 165, 330, 462, 462, 330, 165],
    [1, 12, 66, 220, 495, 792, 924, 792, 495],
    [1, 13, 78, 286, 715, 1287, 1716, 1716, 1287],
    [1, 14, 91, 364, 1001, 2002, 3003, 3432, 3003],
    [1, 15, 105, 455, 1365, 3003, 5005, 6435, 6435],
    [1, 16, 120, 560, 1820, 4368, 8008, 11440, 12870],
];

// The sets of so many ones among n bits, as masks in rising order.
#[derive(Clone, Copy)]
struct Subsets {
    n: u32,
    ones: u32,
    ghost small: { n ≤ 16 },
    ghost few: { ones ≤ 8 },
}

impl Subsets {
    // How many there are.
    #[tactic(auto, using(crate::specs::Pascal::read))]
    fn count(self) -> u32
        ensures { result ≡ binomial self.n self.ones }
    {
        PASCAL[self.n as usize][self.ones as usize]
    }

    // The mask of the given rank. From the top bit down, a rank past all the masks without the bit is
    // that of a mask with it. A loop, for a fold would carry the three numbers as a tuple.
    fn ranked(self, rank: u32) -> u32
        requires { rank < binomial self.n self.ones }
        ensures { result ≡ slice_index (masks self.n self.ones) rank }
    {
        let mut left = self.ones;
        let mut rest = rank;
        let mut found: u32 = 0;
        for b in (0..self.n).rev() {
            let without = Subsets { n: b, ones: left }.count();
            if rest >= without {
                found += 1 << b;
                rest -= without;
                left -= 1;
            }
        }
        found
    }

    // Mask number c, counted round.
    #[tactic(auto, using(crate::specs::Covering::binomial_pos))]
    fn numbered(self, c: u32) -> u32
        requires { self.ones ≤ self.n }
        ensures { result ≡ slice_index (masks self.n self.ones) (c % binomial self.n self.ones) }
    {
        self.ranked(c % self.count())
    }
}

fn has(mask: u32, i: u32) -> bool
    requires { i < 32 }
    ensures { result ≡ holds mask i }
{
    (mask >> i) & 1 == 1
}

impl Full {
    // Every locked table has room for it.
    pub fn build(table: &Locked) -> Full
        ensures { sizes result.n result.t ≡ sizes_of (locked_plain table.now) }
    {
        Full {
            n: table.stations(),
            t: table.faults(),
        }
    }

    // Its committees, as sets of stations.
    fn committees(&self) -> Subsets
        ensures stations { result.n ≡ self.now.n }
        ensures members { result.ones ≡ self.now.t + 1 }
    {
        Subsets {
            n: self.n,
            ones: self.t + 1,
        }
    }

    // Committee c as a mask, bit i for station i: number c mod W of the masks in rising order. A mask and no list of
    // stations: the rising order is that of these numbers.
    pub fn committee(&self, c: u32) -> u32
        ensures value { result ≡ mask_of self.now.n self.now.t c }
        ensures listed { Listed self.now.n (self.now.t + 1) (masks self.now.n (self.now.t + 1)) }
    {
        self.committees().numbered(c)
    }
}

impl Policy for Full {
    ghost stations = { λ s. s.n };

    ghost faults = { λ s. s.t };

    ghost turn = { λ s. full_turn s.n s.t };

    ghost top = { λ _. last_number };

    ghost seats = { λ s. full_seats s.n s.t };

    ghost turns = { λ p. Covering.turns p.n p.t p.wide p.small };

    ghost exact = { λ p. exactly p.n p.t p.wide };

    ghost above = { Prim.search rules };

    ghost outside = { Prim.search rules };

    ghost covering = { λ p. covers p.n p.t p.wide };

    fn count_stations(&self) -> u32 {
        self.n
    }

    fn count_faults(&self) -> u32 {
        self.t
    }

    fn count_turn(&self) -> u32 {
        self.committees().count()
    }

    fn last(&self) -> u32 {
        LAST
    }

    fn seated(&self, c: u32, i: u32) -> bool {
        c <= LAST && i < self.n && has(self.committee(c), i)
    }
}
