//! Why a program's C isn't printed.
ghost use Rattle.std.specs.Prelude.{◌≡◌};
ghost use Rattle.ot_c_printed.specs.declared.fault.NoC.TheVariants.{Memory};

use ot_program::Refusal;
use std::alloc::{AllocError, AllocFailed};

/// Why a program's C isn't printed: it isn't read back as the program.
#[derive(Clone, Copy, Debug, PartialEq, Eq)]
pub enum NoC {
    /// Memory ran out. That says nothing of the program.
    Memory,
    /// At this byte of the C stands what isn't read, and why.
    NotReadBack(usize, &'static str),
    /// What is read in it is no program of the language.
    Refused(Refusal),
    /// It has other arrays, or arrays that begin with other numbers.
    OtherArrays,
    /// This is the first statement that comes back as another one, counted from 1. Number 0 says that the group of the region didn't
    /// come back.
    OtherProgram(u32),
}

impl From<AllocError> for NoC {
    ghost from_gives = { λ _ e. e ≡ Memory };

    fn from(_e: AllocError) -> NoC {
        NoC::Memory
    }
}

impl<T: Drop> From<AllocFailed<T>> for NoC {
    ghost from_gives = { λ _ e. e ≡ Memory };

    fn from(_e: AllocFailed<T>) -> NoC {
        NoC::Memory
    }
}
