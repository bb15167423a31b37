// Why a command was not done.
ghost use Rattle.std.specs.Prelude.{◌≡◌, Some, alloc_error};
ghost use Rattle.console.specs.Shown.{mistake_text, trouble_text};
ghost use Rattle.console.specs.declared.trouble.Trouble.TheVariants.{Mistake as Mistaken, Refused, OutOfMemory};

use base::fault::Fault;
use std::alloc::{AllocError, AllocFailed};
use std::error::Error;
use std::fmt;

// A command that was not understood, or that needs what is not there.
#[derive(Clone, Copy, PartialEq, Eq, Debug)]
pub enum Mistake {
    LineTooLong,
    UnknownCommand,
    WrongWords,
    NumberTooLarge,
    NoOpenTable,
    NoLockedTable,
    NoRule,
    NoPolicy,
    NoSeal,
    NoBatches,
    NoHall,
    NoSlot,
}

// A mistake and a refusal are answered; only the last one ends the program.
#[derive(Debug, Drop)]
pub enum Trouble {
    Mistake(Mistake),
    Refused(Fault),
    OutOfMemory(AllocError),
}

impl fmt::Display for Mistake {
    ghost output = { λ m. Some (mistake_text m) };

    fn fmt<W: fmt::Write>(&self, f: &mut fmt::Formatter<W>) -> fmt::Result {
        f.write_str(match self {
            Mistake::LineTooLong => "line too long",
            Mistake::UnknownCommand => "unknown command",
            Mistake::WrongWords => "wrong words",
            Mistake::NumberTooLarge => "number too large",
            Mistake::NoOpenTable => "no open table",
            Mistake::NoLockedTable => "no locked table",
            Mistake::NoRule => "no rule",
            Mistake::NoPolicy => "no policy",
            Mistake::NoSeal => "no seal",
            Mistake::NoBatches => "no number of batches",
            Mistake::NoHall => "no hall",
            Mistake::NoSlot => "no such slot",
        })
    }
}

impl fmt::Display for Trouble {
    ghost output = { trouble_text };

    fn fmt<W: fmt::Write>(&self, f: &mut fmt::Formatter<W>) -> fmt::Result {
        match self {
            Trouble::Mistake(mistake) => write!(f, "error ({mistake})"),
            Trouble::Refused(fault) => write!(f, "{fault}"),
            Trouble::OutOfMemory(error) => write!(f, "{error}"),
        }
    }
}

impl Error for Mistake {}

impl Error for Trouble {}

impl From<Mistake> for Trouble {
    ghost from_gives = { λ m r. r ≡ Mistaken m };

    fn from(mistake: Mistake) -> Trouble {
        Trouble::Mistake(mistake)
    }
}

impl From<Fault> for Trouble {
    ghost from_gives = { λ x r. r ≡ Refused x };

    fn from(fault: Fault) -> Trouble {
        Trouble::Refused(fault)
    }
}

impl From<AllocError> for Trouble {
    ghost from_gives = { λ e r. r ≡ OutOfMemory e };

    fn from(error: AllocError) -> Trouble {
        Trouble::OutOfMemory(error)
    }
}

impl<T: Drop> From<AllocFailed<T>> for Trouble {
    ghost from_gives = { λ _ r. r ≡ OutOfMemory alloc_error };

    fn from(failed: AllocFailed<T>) -> Trouble {
        Trouble::OutOfMemory(failed.into())
    }
}
