// The sheet seal: 256 words for each station, of which each byte of a statement picks one.
ghost use Rattle.std.specs.Prelude.{◌≡◌, ◌≤◌, slice_index};
ghost use Rattle.seals.specs.Sheet.{sheet_tag, picked, xors};
ghost use Rattle.std.proofs.Common.{rules};

use super::seal::Tagging;

// The words of station s begin at place 256 s; a word beyond the sheet is 0.
#[derive(Clone, Drop)]
pub struct Sheet {
    pub words: Vec<u64>,
}

fn word(words: &[u64], place: usize) -> u64
    ensures { result ≡ slice_index words.now place }
{
    words.get(place).copied().unwrap_or(0)
}

// The xor of the words that the bytes of a statement pick, each turned left by its byte's place.
#[tactic(auto, unfolding(crate::specs::Sheet::xors))]
fn mixed(words: &[u64], first: usize, statement: &[u8; 24]) -> u64
    requires { first ≤ 4096 }
    ensures { result ≡ xors (picked words.now first statement.now) 24 }
{
    // A loop: the sum of the definition goes by numbers, and with a fold the check does not close it.
    let mut tag = 0;
    for (p, byte) in statement.iter().enumerate() {
        tag ^= word(words, first + usize::from(*byte)).rotate_left(p as u32);
    }
    tag
}

impl Tagging for Sheet {
    ghost tagged = { λ s i l. sheet_tag s.words.items i l };

    ghost fits = { Prim.search rules };

    fn tag_of(&self, station: u8, statement: &[u8; 24]) -> u64 {
        // a station beyond the sheet has the tag 0, as the formula says
        if station >= 16 {
            return 0;
        }
        mixed(&self.words, 256 * usize::from(station), statement)
    }
}
