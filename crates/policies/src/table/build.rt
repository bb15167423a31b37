// Adding stations, and locking.
ghost use Rattle.std.specs.Prelude.{◌≡◌, count_by};
ghost use Rattle.std.specs.Result.{result_map_both};
ghost use Rattle.policies.specs.Sound.{is_faulty};
ghost use Rattle.policies.specs.Tables.{open_plain, locked_plain, handed_back, empty, adding, locking};

use super::{Locked, OpenTable};
use base::fault::Fault;
use base::refusal::Refusal;

fn count_faulty(marks: &[u8]) -> usize
    ensures { result ≡ count_by is_faulty marks.now }
{
    marks.iter().filter(|mark| **mark == 1).count()
}

impl OpenTable {
    // By hand: no Default is derived beside a ghost field, and one by hand would only call this.
    pub fn new() -> OpenTable
        ensures { open_plain result ≡ empty }
    {
        OpenTable {
            n: 0,
            marks: [0; 16],
        }
    }

    pub fn stations(&self) -> u32
        ensures { result ≡ (open_plain self.now).n }
    {
        self.n
    }

    // One station more; a refusal hands the table back as it was. A mark is a plain number, since any other
    // than 0 and 1 is refused by its number.
    pub fn add(self, mark: u8) -> Result<OpenTable, (OpenTable, Fault)>
        ensures { result_map_both open_plain handed_back result ≡ adding (open_plain self) mark }
    {
        if self.n >= 16 {
            return Err((self, Fault::new(Refusal::TableFull, 0)));
        }
        if mark > 1 {
            return Err((self, Fault::new(Refusal::UnknownMark, 0)));
        }
        let OpenTable { n, mut marks } = self;
        marks[n as usize] = mark;
        Ok(OpenTable { n: n + 1, marks })
    }

    // Fixes the stations and how many may be faulty; a refusal hands the table back as it was.
    pub fn lock(self, t: u32) -> Result<Locked, (OpenTable, Fault)>
        ensures { result_map_both locked_plain handed_back result ≡ locking (open_plain self) t }
    {
        if !(1..=7).contains(&t) || self.n < 2 * t + 1 {
            return Err((self, Fault::new(Refusal::WrongThreshold, 0)));
        }
        if count_faulty(&self.marks[..self.n as usize]) > t as usize {
            return Err((self, Fault::new(Refusal::TooManyFaulty, 0)));
        }
        let OpenTable { n, marks } = self;
        Ok(Locked { n, t, marks })
    }
}
