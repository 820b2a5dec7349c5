ghost use Rattle.std.specs.Prelude.{◌≡◌};
ghost use Rattle.ot_store.specs.declared.fault.StoreFault.TheVariants.{Memory};

use std::alloc::{AllocError, AllocFailed};

/// Why a call on the arrays was refused. Nothing has changed then.
#[derive(Clone, Copy, Debug, PartialEq, Eq)]
pub enum StoreRefusal {
    /// No array has this name.
    UnknownArray,
    /// An array has this name already.
    NameTaken,
    /// The array has no such cells.
    OutOfRange,
    /// All arrays together would have more cells than the limit.
    TooManyCells,
    /// There are as many arrays as the limit already.
    TooManyArrays,
}

impl StoreRefusal {
    ghost use Rattle.ot_store.specs.Refusals.{code_of};

    /// The number that a client is told, 412 to 416.
    pub fn code(self) -> u32
        ensures { result ≡ code_of self }
    {
        match self {
            StoreRefusal::UnknownArray => 412,
            StoreRefusal::NameTaken => 413,
            StoreRefusal::OutOfRange => 414,
            StoreRefusal::TooManyCells => 415,
            StoreRefusal::TooManyArrays => 416,
        }
    }
}

/// Why a call on the arrays that takes memory failed. Nothing has changed then.
#[derive(Clone, Copy, Debug, PartialEq, Eq)]
pub enum StoreFault {
    /// Memory ran out. That says nothing of the arrays.
    Memory,
    Refused(StoreRefusal),
}

impl From<AllocError> for StoreFault {
    ghost from_gives = { λ _ e. e ≡ Memory };

    fn from(_error: AllocError) -> StoreFault {
        StoreFault::Memory
    }
}

impl<T: Drop> From<AllocFailed<T>> for StoreFault {
    ghost from_gives = { λ _ e. e ≡ Memory };

    fn from(_error: AllocFailed<T>) -> StoreFault {
        StoreFault::Memory
    }
}
