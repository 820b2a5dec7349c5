//! Words.
use crate::known::Known;
use crate::mark::Mark;

/// The type that C gives a number (C17, section 6.4.4.1) where `long` has 64 bits, as `long long` has.
#[derive(Clone, Copy, Debug, PartialEq, Eq)]
pub enum IntegerType {
    Int,
    Unsigned,
    Long,
    UnsignedLong,
}

/// A name: a word that means something in what is read, though an array may be called so, or the number that another name
/// has among the names of its text.
#[derive(Clone, Copy, Debug, PartialEq, Eq)]
pub enum Name {
    Known(Known),
    Other(usize),
}

/// A word of C, or of a directive, which begins with a word of its own and ends in one.
#[derive(Clone, Copy, Debug, PartialEq, Eq)]
pub enum Word {
    Number(u64, IntegerType),
    Name(Name),
    /// A string, whatever it says.
    Text,
    /// A character between single quotes.
    Letter(u8),
    Mark(Mark),
    /// `#include` and the header.
    Include,
    /// `#define`
    Define,
    /// `#pragma omp`
    Pragma,
    /// The end of a directive's line.
    End,
}
