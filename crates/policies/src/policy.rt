// A policy seats a committee of stations for each number.
ghost use Rattle.std.specs.Prelude.{◌≡◌, ℕ, ◌+◌, ◌<◌, ◌≤◌, Bool, false};
ghost use Rattle.policies.specs.Seats.{count, Covers};

// The highest number that the policies here seat a committee for.
pub const LAST: u32 = 999_999;

// There are n stations, of which t may be faulty. A committee has t + 1 of them, so that one member is correct;
// and any t stations are out of some committee in every turn, that is in any W numbers in a row up to the top.
pub trait Policy {
    ghost stations: { Self → ℕ };

    ghost faults: { Self → ℕ };

    ghost turn: { Self → ℕ };

    ghost top: { Self → ℕ };

    ghost seats: { Self → ℕ → ℕ → Bool };

    // No bodies here: a trait knows no fields, and a body of `last` would have to hold of every top.
    fn count_stations(&self) -> u32
        ensures { result ≡ stations self.now };

    fn count_faults(&self) -> u32
        ensures { result ≡ faults self.now };

    fn count_turn(&self) -> u32
        ensures { result ≡ turn self.now };

    fn last(&self) -> u32
        ensures { result ≡ top self.now };

    // Whether station i sits in committee c.
    fn seated(&self, c: u32, i: u32) -> bool
        ensures { result ≡ seats self.now c i };

    ghost turns: { (s : Self) → (1 ≤ turn s) × (turn s ≤ 20000) × (20000 ≤ top s) };

    ghost exact: { (s : Self) (c : ℕ) → c ≤ top s → count (seats s c) (stations s) ≡ faults s + 1 };

    ghost above: { (s : Self) (c i : ℕ) → top s < c → seats s c i ≡ false };

    ghost outside: { (s : Self) (c i : ℕ) → stations s ≤ i → seats s c i ≡ false };

    ghost covering: { (s : Self) → Covers (stations s) (faults s) (turn s) (top s) (seats s) };
}
