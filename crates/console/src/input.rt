// Standard input, which stays at its end.
ghost use Rattle.std.specs.Prelude.{◌≡◌, ◌<◌, length, Ok, IfOk, true, false, None};
ghost use Rattle.std.specs.Io.{ReadsAtMost};
ghost use Rattle.std.specs.Io.KnownBytes.{ReadConsumes};

use std::io;
use std::io::Read;

// What is read is not asked again once it has ended: a terminal would go on behind that.
#[derive(Drop)]
pub struct Input<R> {
    from: R,
    ended: bool,
}

impl<R: Read> Input<R> {
    pub fn new(from: R) -> Input<R>
        ensures { result.ended ≡ false }
    {
        Input { from, ended: false }
    }
}

impl<R: Read> Read for Input<R> {
    fn read(&mut self, buf: &mut [u8]) -> io::Result<usize>
        ensures bound { ReadsAtMost result buf.new }
        ensures bytes { ReadConsumes None None result buf.new }
        ensures stays { self.old.ended ≡ true → result ≡ Ok 0 }
        ensures kept { self.old.ended ≡ true → self.new ≡ self.old }
        ensures ends { IfOk result (λ n. n ≡ 0 → 0 < length buf.old → self.new.ended ≡ true) }
    {
        if self.ended {
            return Ok(0);
        }
        let count = self.from.read(buf)?;
        self.ended = count == 0 && !buf.is_empty();
        Ok(count)
    }
}
