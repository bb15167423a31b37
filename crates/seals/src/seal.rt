// A checking seal knows the one right tag of each station and statement; a sealing seal gives it.
ghost use Rattle.std.specs.Prelude.{◌≡◌, ℕ, ◌^◌, ◌<◌, List, length, ◌==◌};

pub trait Check {
    // the tag of a station on a statement of 24 bytes
    ghost tag: { Self → ℕ → List ℕ → ℕ };

    // Yes exactly for the right tag.
    fn check(&self, station: u8, statement: &[u8; 24], shown: u64) -> bool
        ensures { result ≡ (shown == tag self.now station statement.now) };

    // a tag of one of the stations 0 to 15 is of 64 bits
    ghost small: { (s : Self) (i : ℕ) (l : List ℕ) → i < 16 → length l ≡ 24 → tag s i l < 2 ^ 64 };
}

pub trait Sealing: Check {
    fn seal(&self, station: u8, statement: &[u8; 24]) -> u64
        ensures { result ≡ Self.Check.tag self.now station statement.now };
}

// What a seal of this crate has to say of itself: its tags. Checking and sealing follow.
pub(crate) trait Tagging {
    ghost tagged: { Self → ℕ → List ℕ → ℕ };

    fn tag_of(&self, station: u8, statement: &[u8; 24]) -> u64
        ensures { result ≡ tagged self.now station statement.now };

    ghost fits: { (s : Self) (i : ℕ) (l : List ℕ) → i < 16 → length l ≡ 24 → tagged s i l < 2 ^ 64 };
}

impl<T: Tagging> Check for T {
    ghost tag = { T.tagged };

    ghost small = { T.fits };

    fn check(&self, station: u8, statement: &[u8; 24], shown: u64) -> bool {
        shown == self.tag_of(station, statement)
    }
}

impl<T: Tagging> Sealing for T {
    fn seal(&self, station: u8, statement: &[u8; 24]) -> u64 {
        self.tag_of(station, statement)
    }
}
