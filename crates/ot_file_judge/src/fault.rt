//! Why a file isn't judged to its end.
use std::alloc::AllocError;

/// Why a file isn't judged to its end.
#[derive(Clone, Copy, Debug, PartialEq, Eq)]
pub enum JudgeFault {
    /// An array that is there before the file can't be made: the place of the first such among them, from 0.
    Array(usize),
    /// There was no memory.
    Memory,
}

impl From<AllocError> for JudgeFault {
    ghost use Rattle.std.specs.Prelude.{◌≡◌};
    ghost use Rattle.ot_file_judge.specs.declared.fault.JudgeFault.TheVariants.{Memory};

    ghost from_gives = { λ _ fault. fault ≡ Memory };

    fn from(_error: AllocError) -> JudgeFault {
        JudgeFault::Memory
    }
}
