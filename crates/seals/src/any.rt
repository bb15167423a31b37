// A seal that is chosen while the program runs.
ghost use Rattle.std.specs.Prelude.{◌≡◌};
ghost use Rattle.seals.specs.Any.{any_tag};
ghost use Rattle.std.proofs.Common.{rules};

use super::keyed::Keyed;
use super::seal::Tagging;
use super::sheet::Sheet;

#[derive(Clone, Drop)]
pub enum AnySeal {
    ByKeys(Keyed),
    BySheet(Sheet),
}

impl Tagging for AnySeal {
    ghost tagged = { any_tag };

    ghost fits = { Prim.search rules };

    fn tag_of(&self, station: u8, statement: &[u8; 24]) -> u64 {
        // A match: to make a `dyn` of the one chosen would take this same match.
        match self {
            AnySeal::ByKeys(keyed) => keyed.tag_of(station, statement),
            AnySeal::BySheet(sheet) => sheet.tag_of(station, statement),
        }
    }
}
