// Where frames wait to be delivered: a row of slots that the caller lends.
ghost use Rattle.std.specs.Prelude.{◌≡◌, ◌==◌, ◌-◌, ◌<◌, min, count_by, length, take, drop, slice_set, IfSome, MatchOption};
ghost use Rattle.frames.specs.Slots.{free, lowest_free as lowest_of, enter as entered, room_of};
ghost use Rattle.frames.specs.declared.slot.Slot.{Slot as AnySlot};

use super::slot::Slot;

// The place of a pool's lowest free slot, where one is free, and how many slots are free, counted up
// to three.
#[derive(Clone, Copy, PartialEq, Eq, Debug)]
pub struct Room {
    pub lowest: Option<usize>,
    pub empty: u8,
}

fn lowest_free(pool: &[Slot]) -> Option<usize>
    ensures is { result ≡ lowest_of pool.now }
    ensures inside { IfSome result (λ k. k < length pool.now) }
    ensures behind { MatchOption result (free pool.now ≡ 0) (λ k. count_by (λ s. s.len == 0) (take (length pool.now - k) (drop k pool.now)) ≡ free pool.now) }
    ensures place { MatchOption result ((x : AnySlot) → entered x pool.now ≡ pool.now) (λ k. (x : AnySlot) → entered x pool.now ≡ slice_set pool.now k x) }
{
    pool.iter().position(Slot::is_free)
}

// How many slots are free; three are enough to know.
fn count_free(pool: &[Slot]) -> u8
    ensures { result ≡ min (count_by (λ s. s.len == 0) pool.now) 3 }
{
    pool.iter().filter(|slot| slot.is_free()).take(3).count() as u8
}

// One pass: the count goes on where the search stopped, and no further than the third free slot.
pub fn find_room(pool: &[Slot]) -> Room
    ensures is { result ≡ room_of pool.now }
    ensures place { MatchOption result.lowest ((x : AnySlot) → entered x pool.now ≡ pool.now) (λ k. (x : AnySlot) → entered x pool.now ≡ slice_set pool.now k x) }
{
    let lowest = lowest_free(pool);
    let empty = match lowest {
        Some(k) => count_free(&pool[k..]),
        None => 0,
    };
    Room { lowest, empty }
}

// A frame goes into the lowest free slot; where none is free, nothing changes.
pub fn enter(pool: &mut [Slot], frame: Slot)
    ensures { pool.new ≡ entered frame pool.old }
{
    if let Some(place) = lowest_free(pool) {
        pool[place] = frame;
    }
}
