// The hall: what it is joined from, and one record for each station.
ghost use Rattle.hall.specs.Steady.{Steady};

use super::setup::Setup;
use protocol::station::Station;

#[derive(Drop)]
pub struct Hall<R, P, S> {
    setup: Setup<R, P, S>,
    stations: [Station; 16],
    ghost steady: { Steady setup.batches stations },
}

// The calls stay methods of their own, a rule of the project: one generic call would take the tests and the step of each
// as closures over its station. What they share is in `admit`, `stands` and `record_at`.
// The good side of a call stays three marks (reselected, proposed, decided): callers take that tuple.
// Sixteen records beside a table of n stations: a hall takes no heap, and a table is its own.
// Intake, pool and books stay three parameters: Open and Inject may only read the books that Ring and Deliver write.
pub mod deliver;
pub mod inject;
pub mod make;
pub mod open;
pub mod read;
pub mod ring;
pub mod write;
