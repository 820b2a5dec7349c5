//! Why a file has no program.
ghost use Rattle.std.specs.Prelude.{◌≡◌};
ghost use Rattle.ot_c_scope.specs.declared.fault.CFault.TheVariants.{Memory};

use crate::reason::Reason;
use std::alloc::{AllocError, AllocFailed};

/// Why a file of C has no program.
#[derive(Debug, Drop)]
pub enum CFault {
    /// Where so many words are left stands what the language has no form for.
    Outside(usize, Reason),
    Memory,
}

impl From<AllocError> for CFault {
    ghost from_gives = { λ _ e. e ≡ Memory };

    fn from(_e: AllocError) -> CFault {
        CFault::Memory
    }
}

impl<T: Drop> From<AllocFailed<T>> for CFault {
    ghost from_gives = { λ _ e. e ≡ Memory };

    fn from(_e: AllocFailed<T>) -> CFault {
        CFault::Memory
    }
}
