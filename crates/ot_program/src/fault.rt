ghost use Rattle.std.specs.Prelude.{◌≡◌};
ghost use Rattle.ot_program.specs.declared.fault.ProgramFault.TheVariants.{Memory, Refused};

use std::alloc::{AllocError, AllocFailed};

/// Why a text is no program over a shape.
#[derive(Clone, Copy, Debug, PartialEq, Eq)]
pub enum Refusal {
    /// No form of the language.
    Form,
    /// A size isn't exact in its range, or a variable is unknown.
    Size,
    /// An array is unknown.
    UnknownArray,
    /// A cell's index isn't below its array's length, or a section passes its array's end.
    OutOfRange,
    /// A section's length is 0.
    EmptySection,
    /// Something is too deep, or a count passes its limit.
    TooLarge,
    /// A task statement is one more than the limit.
    TooManyTasks,
    /// A cell is declared under `red` and in another way, or under `red` with two operations.
    MixedReduction,
}

impl Refusal {
    ghost use Rattle.ot_program.specs.Faults.{rank, code_of, least};

    /// The number that a client is told.
    pub fn code(self) -> u32
        ensures { result ≡ code_of self }
    {
        match self {
            Refusal::Form => 420,
            Refusal::Size => 421,
            Refusal::UnknownArray => 412,
            Refusal::OutOfRange => 414,
            Refusal::EmptySection => 424,
            Refusal::TooLarge => 422,
            Refusal::TooManyTasks => 423,
            Refusal::MixedReduction => 429,
        }
    }

    // The place in the order in which the faults of one statement are told.
    fn rank(self) -> u8
        ensures { result ≡ rank self }
    {
        match self {
            Refusal::Form => 0,
            Refusal::Size => 1,
            Refusal::UnknownArray => 2,
            Refusal::OutOfRange => 3,
            Refusal::EmptySection => 4,
            Refusal::TooLarge => 5,
            Refusal::TooManyTasks => 6,
            Refusal::MixedReduction => 7,
        }
    }

    // The one of two faults that comes first in that order.
    pub(crate) fn first(self, other: Refusal) -> Refusal
        ensures { result ≡ least self other }
    {
        if other.rank() < self.rank() {
            other
        } else {
            self
        }
    }
}

/// Why no program was read.
#[derive(Clone, Copy, Debug, PartialEq, Eq)]
pub enum ProgramFault {
    /// Memory ran out. That says nothing of the text.
    Memory,
    Refused(Refusal),
}

impl From<AllocError> for ProgramFault {
    ghost from_gives = { λ _ e. e ≡ Memory };

    fn from(_e: AllocError) -> ProgramFault {
        ProgramFault::Memory
    }
}

impl<T: Drop> From<AllocFailed<T>> for ProgramFault {
    ghost from_gives = { λ _ e. e ≡ Memory };

    fn from(_e: AllocFailed<T>) -> ProgramFault {
        ProgramFault::Memory
    }
}

impl From<Refusal> for ProgramFault {
    ghost from_gives = { λ c e. e ≡ Refused c };

    fn from(refusal: Refusal) -> ProgramFault {
        ProgramFault::Refused(refusal)
    }
}
