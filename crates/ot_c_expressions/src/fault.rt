//! Why words aren't read.

/// What is wrong, with how many words are left where it is.
#[derive(Clone, Copy, Debug, PartialEq, Eq)]
pub enum Fault {
    /// A value has to begin here.
    NoValue(usize),
    /// Another mark has to stand here.
    NoMark(usize),
    /// A name has to stand here.
    NoName(usize),
    /// No clause that is read, or no item of one.
    NoClause(usize),
    /// Brackets nest too deep, or too many signs stand in a row.
    TooDeep(usize),
    /// More words than there are: it doesn't come.
    TooLong(usize),
}

/// Why nothing was read: want of memory, or such a fault.
pub type ReadError = ot_c_words::ReadError<Fault>;
