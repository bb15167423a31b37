// A station's number that is known to have a record.
ghost use Rattle.std.specs.Prelude.{◌<◌};

// Made by `stands`, which tests that the station is there and correct; the type keeps that it has a record.
#[derive(Clone, Copy)]
pub(crate) struct Standing {
    pub(crate) i: u32,
    ghost recorded: { i < 16 },
}
