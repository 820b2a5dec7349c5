//! Why tokens have no tree.
ghost use Rattle.std.specs.Prelude.{◌≡◌};
ghost use Rattle.ot_exec_parse.specs.declared.fault.ParseError.TheVariants.{Memory};

use ot_exec_tokens::Mark;
use std::alloc::{AllocError, AllocFailed};

#[derive(Clone, Copy, Debug, PartialEq, Eq)]
pub enum Why {
    /// This mark has to stand here.
    Expected(Mark),
    /// A name has to stand here.
    NoName,
    /// A type has to stand here.
    NoType,
    /// A value has to stand here.
    NoValue,
    /// A variable has to stand here.
    NoVariable,
    /// A name that isn't declared.
    NotDeclared,
    /// `typeof`, `_Generic`, a statement as a value, and the like.
    NotRead,
    /// A directive that isn't read.
    Directive,
    /// A clause that isn't read.
    Clause,
    /// What names no reduction.
    Reduction,
    /// A kind of dependence that isn't read.
    Dependence,
    /// A directive that stands alone, as a body.
    Alone,
    /// A member with a width in bits.
    Width,
    /// What nests too deep.
    Nesting,
}

/// The first fault: what is wrong, and at which token.
#[derive(Clone, Copy, Debug, PartialEq, Eq)]
pub struct Fault {
    pub at: u32,
    pub why: Why,
}

#[derive(Debug, Drop)]
pub enum ParseError {
    Memory,
    Fault(Fault),
}

impl From<AllocError> for ParseError {
    ghost from_gives = { λ _ e. e ≡ Memory };

    fn from(_e: AllocError) -> ParseError {
        ParseError::Memory
    }
}

impl<T: Drop> From<AllocFailed<T>> for ParseError {
    ghost from_gives = { λ _ e. e ≡ Memory };

    fn from(_e: AllocFailed<T>) -> ParseError {
        ParseError::Memory
    }
}
