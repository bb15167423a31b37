// The table of stations. Both tables are moved, never copied: locking uses the open one up.
ghost use Rattle.std.specs.Prelude.{◌≡◌, ◌≤◌, true};
ghost use Rattle.policies.specs.Sound.{sound};

// An array with its count beside it: a table takes no heap. Marks are the numbers that `add` takes. No Model, for the
// hall's clauses name n, t and marks.
// Stations 0 to n - 1 have been added; the mark of a station is 0 for correct and 1 for faulty.
#[derive(Drop)]
pub struct OpenTable {
    n: u32,
    marks: [u8; 16],
    ghost few: { n ≤ 16 },
}

// At most t of the n stations may be faulty, and no station is added any more.
#[derive(Drop)]
pub struct Locked {
    n: u32,
    t: u32,
    marks: [u8; 16],
    ghost ok: { sound n t marks ≡ true },
}

pub mod build;
pub mod read;
