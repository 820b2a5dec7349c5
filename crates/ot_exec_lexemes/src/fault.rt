//! Why a text has no tokens.
ghost use Rattle.std.specs.Prelude.{◌≡◌};
ghost use Rattle.ot_exec_lexemes.specs.declared.fault.ReadError.TheVariants.{Memory};

use std::alloc::{AllocError, AllocFailed};

#[derive(Clone, Copy, Debug, PartialEq, Eq)]
pub enum Why {
    /// A trigraph: compilers differ in reading it.
    Trigraph,
    /// A comment that doesn't end.
    OpenComment,
    /// No token of C.
    NoToken,
    /// No number that is read.
    NoNumber,
    /// A header that isn't known.
    Header,
    /// A file that isn't there, and no header that is known.
    NoFile,
    /// Files that are included too deep, or too often.
    Includes,
    /// A directive that isn't read.
    Directive,
    /// `#error`
    Error,
    /// A name has to stand here.
    NoName,
    /// `#else`, `#elif` or `#endif` without `#if`, or an `#if` that doesn't end.
    Condition,
    /// The test of an `#if` that isn't read.
    Test,
    /// A macro with another number of arguments, or whose arguments don't end.
    Arguments,
    /// Macros that become more than 2,000,000 tokens, or nest too deep.
    TooMuch,
}

/// The first fault of a text: what is wrong, and at which byte.
#[derive(Clone, Copy, Debug, PartialEq, Eq)]
pub struct Fault {
    pub at: usize,
    pub why: Why,
}

#[derive(Debug, Drop)]
pub enum ReadError {
    Memory,
    Fault(Fault),
    /// A file is included at this byte that isn't given: one of this path.
    Wants(usize, String),
}

impl ReadError {
    /// That this is wrong at this byte.
    pub fn new(at: usize, why: Why) -> ReadError {
        ReadError::Fault(Fault { at, why })
    }
}

impl From<AllocError> for ReadError {
    ghost from_gives = { λ _ e. e ≡ Memory };

    fn from(_e: AllocError) -> ReadError {
        ReadError::Memory
    }
}

impl<T: Drop> From<AllocFailed<T>> for ReadError {
    ghost from_gives = { λ _ e. e ≡ Memory };

    fn from(_e: AllocFailed<T>) -> ReadError {
        ReadError::Memory
    }
}
