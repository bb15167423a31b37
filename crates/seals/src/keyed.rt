// The keyed seal: a key for each station, folded over the three words of a statement.
ghost use Rattle.std.specs.Prelude.{◌≡◌, fold};
ghost use Rattle.std.specs.Int.{w64, from_be_bytes};
ghost use Rattle.seals.specs.Keyed.{keyed_tag, mix};
ghost use Rattle.std.proofs.Common.{rules};

use super::seal::Tagging;

#[derive(Clone, Copy)]
pub struct Keyed {
    pub keys: [u64; 16],
}

fn mixed(key: u64, h: u64, w: u64) -> u64
    ensures { result ≡ mix key h w }
{
    (h ^ w).rotate_left(13).wrapping_add(key)
}

// One word after the other is mixed in.
fn folded(key: u64, words: &[[u8; 8]]) -> u64
    ensures { result ≡ fold (λ h w. mix key h (from_be_bytes w64 w)) key words.now }
{
    words
        .iter()
        .fold(key, |h, w| mixed(key, h, u64::from_be_bytes(*w)))
}

impl Tagging for Keyed {
    ghost tagged = { λ k i l. keyed_tag k.keys i l };

    ghost fits = { Prim.search rules };

    fn tag_of(&self, station: u8, statement: &[u8; 24]) -> u64 {
        // a station without a key has the tag 0, as the formula says
        let Some(key) = self.keys.get(usize::from(station)) else {
            return 0;
        };
        let (words, _) = statement.as_chunks();
        folded(*key, words)
    }
}
