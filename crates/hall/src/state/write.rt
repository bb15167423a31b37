// Write: a frame of the pool as a line.
ghost use Rattle.std.specs.Prelude.{◌≡◌};
ghost use Rattle.protocol.specs.Steps.{write_call};
ghost use Rattle.hall.specs.Join.{terms};
ghost use Rattle.hall.specs.Called.{world};

use super::Hall;
use crate::ready::{ensure, frame_in};
use base::book::{Batch, Entry};
use base::fault::Fault;
use base::refusal::Refusal;
use frames::line::write_line;
use frames::slot::Slot;
use policies::policy::Policy;
use rules::rule::Rule;
use seals::seal::Sealing;

impl<R: Rule, P: Policy, S: Sealing> Hall<R, P, S> {
    // Fills the buffer with frame f as a line and answers its length; bytes behind it stay.
    #[tactic(auto, unfolding(protocol::specs::Steps::write_call, protocol::specs::Steps::fitting))]
    pub fn write(
        &self,
        f: u32,
        intake: &[Batch],
        pool: &[Slot],
        books: &[Entry],
        buffer: &mut [u8],
    ) -> Result<usize, Fault>
        ensures { (buffer.new, result) ≡ write_call (terms R.Rule P.Policy S.Check self.now.setup) intake.now f buffer.old (world self.now.stations pool.now books.now) }
    {
        self.setup.admit(intake, pool, books)?;
        let frame = frame_in(pool, f);
        ensure(!frame.is_empty(), Refusal::NoFrame)?;
        write_line(frame, buffer)
    }
}
