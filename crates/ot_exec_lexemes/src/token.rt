//! Tokens.
use crate::mark::Mark;
use ot_exec_tree::Integer;

/// What a token is.
#[derive(Clone, Copy, Debug, PartialEq, Eq)]
pub enum Kind {
    /// A name, or a word of C: its number among the names.
    Name(u32),
    /// An integer, and its type (ISO C11, section 6.4.4.1); a character is one of `int`.
    Number(u64, Integer),
    /// A floating constant, of so many bytes.
    Real(u32),
    /// A string: so many bytes, without the 0 behind them.
    Text(u32),
    Mark(Mark),
    /// `#pragma omp`
    Pragma,
    /// The end of that line.
    PragmaEnd,
    /// The end of the text.
    End,
}

/// From where a token comes that a macro became.
#[derive(Clone, Copy, Debug, PartialEq, Eq)]
pub struct Origin {
    /// The macro that the text names: its number among the names.
    pub name: u32,
    /// The first byte of what it became, from 0: in its definition, or among its arguments.
    pub at: usize,
}

/// A token, and where it stands in the text: one that comes from a macro where the macro is used.
#[derive(Clone, Copy, Debug, PartialEq, Eq)]
pub struct Token {
    pub kind: Kind,
    /// Its first byte, from 0.
    pub at: usize,
    /// From where it comes, where a macro became it that is defined in the text.
    pub origin: Option<Origin>,
}
