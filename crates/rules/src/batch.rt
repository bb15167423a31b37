// A batch that is lawful from its making on.
ghost use Rattle.std.specs.Prelude.{◌≡◌, true};
ghost use Rattle.rules.specs.Lawful.{lawful};

use base::book::Batch;

#[derive(Clone, Copy)]
pub struct Checked {
    batch: Batch,
    ghost ok: { lawful batch ≡ true },
}

impl Checked {
    // The batch in plain numbers.
    pub fn batch(&self) -> Batch
        ensures value { result ≡ self.now.batch }
        ensures ok { lawful result ≡ true }
    {
        self.batch
    }

    pub(crate) fn make(batch: Batch) -> Checked
        requires { lawful batch ≡ true }
        ensures { result.batch ≡ batch }
    {
        Checked { batch }
    }
}
