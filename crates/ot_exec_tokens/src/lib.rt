//! From the bytes of a text in C to its tokens, preprocessed.
#![tactic(auto)]

mod arguments;
mod condition;
mod directive;
mod expand;
mod macros;
mod paste;
mod reader;
mod value;
mod whole;

pub use ot_exec_lexemes::{Fault, Kind, Mark, Names, Origin, ReadError, Token, Why, word};
pub use reader::{Tokens, tokens_of, wanted_by};
pub use whole::{Part, Whole};
