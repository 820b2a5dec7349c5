//! How sim goes wrong.
ghost use Rattle.std.specs.Prelude.{◌≡◌};
ghost use Rattle.ot_sim.specs.Running.{untold_fault};
ghost use Rattle.ot_sim.specs.declared.fault.Untold.TheVariants.{Memory};

use std::alloc::{AllocError, AllocFailed};

/// What went wrong in a run of sim.
#[derive(Clone, Copy, Debug, PartialEq, Eq)]
pub enum SimFault {
    ReadFailed,
    WriteFailed,
    Memory,
    /// A line was longer than a line may be.
    LongLine,
    /// Sim read 1,000,000 times, and its input had not ended.
    TooManyTurns,
}

/// Why a line isn't answered whole, and no further line is taken.
#[derive(Clone, Copy, Debug)]
pub(crate) enum Untold {
    WriteFailed,
    Memory,
}

impl Untold {
    pub(crate) fn fault(self) -> SimFault
        ensures { result ≡ untold_fault self }
    {
        match self {
            Untold::WriteFailed => SimFault::WriteFailed,
            Untold::Memory => SimFault::Memory,
        }
    }
}

impl From<AllocError> for Untold {
    ghost from_gives = { λ _ untold. untold ≡ Memory };

    fn from(_error: AllocError) -> Untold {
        Untold::Memory
    }
}

impl<T: Drop> From<AllocFailed<T>> for Untold {
    ghost from_gives = { λ _ untold. untold ≡ Memory };

    fn from(_error: AllocFailed<T>) -> Untold {
        Untold::Memory
    }
}
