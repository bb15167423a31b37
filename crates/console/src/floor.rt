// A hall with the buffers that are lent to it, and the calls on it.
use super::reply::{Digits, Marks, Reply};
use super::trouble::{Mistake, Trouble};
use base::book::{Batch, Entry};
use base::fault::Fault;
use frames::slot::Slot;
use hall::state::Hall;
use policies::any::AnyPolicy;
use rules::any::AnyRule;
use seals::any::AnySeal;
use std::alloc::{AllocError, Global};

// The most bytes of the buffer that a frame is written into.
const MOST_WRITTEN: u32 = 1_024;

pub type AnyHall = Hall<AnyRule, AnyPolicy, AnySeal>;

#[derive(Drop)]
pub struct Floor {
    heap: Global,
    hall: AnyHall,
    intake: Vec<Batch>,
    pool: Vec<Slot>,
    books: Vec<Entry>,
}

// What a call on the hall is answered.
fn marked(marks: Result<(bool, bool, bool), Fault>) -> Result<Reply, Trouble> {
    Ok(Reply::Marks(Marks(marks?)))
}

impl Floor {
    // A hall with an intake, empty slots, and books of zeros.
    pub(super) fn new(
        heap: Global,
        hall: AnyHall,
        intake: Vec<Batch>,
        slots: usize,
        entries: usize,
    ) -> Result<Floor, AllocError> {
        Ok(Floor {
            heap,
            hall,
            intake,
            pool: vec![in heap; Slot::default(); slots]?,
            books: vec![in heap; Entry::default(); entries]?,
        })
    }

    // Other lengths for the buffers; the hall's own numbers stay.
    pub(super) fn resize(
        &mut self,
        batches: usize,
        slots: usize,
        entries: usize,
    ) -> Result<Reply, Trouble> {
        self.intake.resize(batches, Batch::default())?;
        self.pool.resize(slots, Slot::default())?;
        self.books.resize(entries, Entry::default())?;
        Ok(Reply::Done)
    }

    pub(super) fn open(&mut self, i: u32) -> Result<Reply, Trouble> {
        marked(self.hall.open(i, &self.intake, &mut self.pool, &self.books))
    }

    pub(super) fn deliver(&mut self, i: u32, f: u32) -> Result<Reply, Trouble> {
        marked(
            self.hall
                .deliver(i, f, &self.intake, &mut self.pool, &mut self.books),
        )
    }

    pub(super) fn ring(&mut self, i: u32) -> Result<Reply, Trouble> {
        marked(
            self.hall
                .ring(i, &self.intake, &mut self.pool, &mut self.books),
        )
    }

    pub(super) fn inject(&mut self, line: &[u8]) -> Result<Reply, Trouble> {
        marked(
            self.hall
                .inject(line, &self.intake, &mut self.pool, &self.books),
        )
    }

    pub(super) fn read(&self, i: u32, k: u32) -> Result<Reply, Trouble> {
        let entry = self.hall.read(i, k, &self.intake, &self.pool, &self.books)?;
        Ok(Reply::Booked(entry))
    }

    pub(super) fn write(&self, f: u32, len: u32) -> Result<Reply, Trouble> {
        let mut buffer = vec![in self.heap; 0; len.min(MOST_WRITTEN) as usize]?;
        let count = self
            .hall
            .write(f, &self.intake, &self.pool, &self.books, &mut buffer)?;
        buffer.truncate(count);
        Ok(Reply::Written(Digits(buffer)))
    }

    pub(super) fn show(&self, f: u32) -> Result<Reply, Trouble> {
        let slot = self.pool.get(f as usize).ok_or(Mistake::NoSlot)?;
        Ok(Reply::Shown(*slot))
    }
}
