// What a locked table tells.
ghost use Rattle.std.specs.Prelude.{◌≡◌, slice_index};
ghost use Rattle.policies.specs.Sound.{is_faulty};
ghost use Rattle.policies.specs.Tables.{locked_plain};

use super::Locked;

impl Locked {
    // How many stations there are, n.
    pub fn stations(&self) -> u32
        ensures { result ≡ (locked_plain self.now).n }
    {
        self.n
    }

    // How many of them may be faulty, t.
    pub fn faults(&self) -> u32
        ensures { result ≡ (locked_plain self.now).t }
    {
        self.t
    }

    pub fn is_faulty(&self, i: u32) -> bool
        ensures { result ≡ is_faulty (slice_index (locked_plain self.now).marks i) }
    {
        self.marks.get(i as usize) == Some(&1)
    }

    // A second locked table of the same stations, for a second hall.
    // By hand: a derived `clone` and `..` are refused beside a ghost field, a `clone` may fail, and a table that is `Copy`
    // could be used twice.
    pub fn twin(&self) -> Locked
        ensures { locked_plain result ≡ locked_plain self.now }
    {
        Locked {
            n: self.n,
            t: self.t,
            marks: self.marks,
        }
    }
}
