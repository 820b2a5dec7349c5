//! The words of a C file with OpenMP, and where each begins.
#![tactic(auto)]

mod fault;
mod known;
mod mark;
mod number;
mod piece;
mod position;
mod span;
mod table;
mod word;
mod words;

pub use fault::{Fault, ReadError, Wrong};
pub use known::Known;
pub use mark::Mark;
pub use position::{Position, position_of};
pub use word::{IntegerType, Name, Word};
pub use words::{Words, words_of};
