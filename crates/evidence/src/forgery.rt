// Statements that bear a correct station's right tag though no step issued them.
ghost use Rattle.std.specs.Prelude.{◌≡◌};
ghost use Rattle.frames.specs.Slots.{issued};
ghost use Rattle.evidence.specs.Forgery.{faulty_in, of_step, step_begins, bound, forged_sender_in, forged_in, forged_pair_in};

use super::tags::place_of;
use frames::frame::Frame;
use frames::slot::{Origin, Slot};
use policies::table::Locked;
use seals::seal::Check;

// Whether a slot holds a step's frame.
// Its mark is a plain number: a slot is the caller's lent plain data and may hold anything.
fn is_of_step(slot: &Slot) -> bool
    ensures { result ≡ of_step slot.now }
{
    slot.by == Origin::Step as u8 && slot.len >= 1
}

// Whether a slot holds a step's frame that begins with a statement.
fn begins(slot: &Slot, statement: &[u8; 24]) -> bool
    ensures { result ≡ step_begins statement.now slot.now }
{
    is_of_step(slot) && slot.frame().starts_with(statement)
}

// Whether some step's frame in the pool begins with a statement.
pub fn is_issued(statement: &[u8; 24], pool: &[Slot]) -> bool
    ensures { result ≡ issued statement.now pool.now }
{
    pool.iter().any(|slot| begins(slot, statement))
}

// What tells a forged statement: who is faulty, the right tags, and what steps issued.
#[derive(Drop)]
struct Grounds<'a, S> {
    table: &'a Locked,
    seal: &'a S,
    pool: &'a [Slot],
}

impl<S: Check> Grounds<'_, S> {
    // Whether a correct station is bound to a statement by its right tag.
    fn is_bound(&self, station: u8, statement: &[u8; 24], shown: u64) -> bool
        ensures { result ≡ bound (faulty_in self.now.table.now) (S.Check.tag self.now.seal.now) station statement.now shown }
    {
        !self.table.is_faulty(u32::from(station)) && self.seal.check(station, statement, shown)
    }

    // The place of the first pair that binds a correct station to a statement that no step issued.
    fn forged_pair(&self, f: &Frame) -> Option<usize>
        ensures { result ≡ forged_pair_in (faulty_in self.now.table.now) (S.Check.tag self.now.seal.now) f.now self.now.pool.now }
    {
        let pairs = f.pairs.as_slice();
        // A rule of the project: a search within a search is two loops, left by a label with the pair's place.
        'search: {
            'pairs: for (k, pair) in pairs.iter().enumerate() {
                let statement = f.pair_statement(pair.station);
                if !self.is_bound(pair.station, &statement, pair.tag) {
                    continue;
                }
                for slot in self.pool {
                    if begins(slot, &statement) {
                        continue 'pairs;
                    }
                }
                break 'search Some(place_of(k));
            }
            None
        }
    }

    // Whether the frame's tag binds its sender to a statement that no step issued.
    fn is_sender_forged(&self, f: &Frame) -> bool
        ensures { result ≡ forged_sender_in (faulty_in self.now.table.now) (S.Check.tag self.now.seal.now) f.now self.now.pool.now }
    {
        let statement = f.statement();
        self.is_bound(f.sender, &statement, f.tag) && !is_issued(&statement, self.pool)
    }
}

// The place of the first statement that a correct station is bound to though no step issued it: the sender's
// before those of the pairs.
pub fn forged<S: Check>(table: &Locked, seal: &S, f: &Frame, pool: &[Slot]) -> Option<usize>
    ensures { result ≡ forged_in (faulty_in table.now) (S.Check.tag seal.now) f.now pool.now }
{
    let grounds = Grounds { table, seal, pool };
    if grounds.is_sender_forged(f) {
        return Some(24);
    }
    grounds.forged_pair(f)
}
