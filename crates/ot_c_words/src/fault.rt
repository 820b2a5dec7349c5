//! Why a text has no words.
ghost use Rattle.std.specs.Prelude.{◌≡◌};
ghost use Rattle.ot_c_words.specs.declared.fault.ReadError.TheVariants.{Memory};

use std::alloc::{AllocError, AllocFailed};

/// What is wrong with a text.
#[derive(Clone, Copy, Debug, PartialEq, Eq)]
pub enum Wrong {
    /// Here begins nothing that is read.
    NoWord,
    /// No number that is read: octal, a fraction, or with an unknown end.
    NoNumber,
    /// No type of C holds the number.
    TooLarge,
    /// A comment that doesn't end.
    OpenComment,
    /// A comment of one line that goes on behind a backslash.
    SplicedComment,
    /// A string that doesn't end on its line.
    OpenText,
    /// A trigraph: C reads two question marks and another mark as one mark, which nothing here does.
    Trigraph,
    /// No directive that is read: `#include`, `#define` and `#pragma omp` are.
    OtherDirective,
}

/// The first fault of a text: what is wrong, and at which byte.
#[derive(Clone, Copy, Debug, PartialEq, Eq)]
pub struct Fault {
    pub wrong: Wrong,
    pub start: usize,
}

/// Why nothing was read: want of memory, or a fault in what is read.
#[derive(Debug, Drop)]
pub enum ReadError<F> {
    Memory,
    Fault(F),
}

impl<F> From<AllocError> for ReadError<F> {
    ghost from_gives = { λ _ e. e ≡ Memory };

    fn from(_e: AllocError) -> ReadError<F> {
        ReadError::Memory
    }
}

impl<F, T: Drop> From<AllocFailed<T>> for ReadError<F> {
    ghost from_gives = { λ _ e. e ≡ Memory };

    fn from(_e: AllocFailed<T>) -> ReadError<F> {
        ReadError::Memory
    }
}
