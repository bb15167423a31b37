// A batch as it is brought in, and an entry as it is booked, both in plain numbers.

// One grower's fruit in kilograms and the oil drawn from it in grams. Nothing is checked of it yet.
#[derive(Clone, Copy, PartialEq, Eq, Debug, Default)]
pub struct Batch {
    pub grower: u32,
    pub fruit: u32,
    pub oil: u32,
}

// What is booked of a batch; the carry is what it hands on to the next one.
#[derive(Clone, Copy, PartialEq, Eq, Debug, Default)]
pub struct Entry {
    pub grower: u32,
    pub amount: u32,
    pub carry: u32,
    pub figure: u32,
}
