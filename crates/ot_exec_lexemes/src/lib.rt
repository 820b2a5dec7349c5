//! From the bytes of a text in C to its tokens as they are written, before they are preprocessed.
#![tactic(auto)]

mod fault;
mod letter;
mod mark;
mod names;
mod number;
mod raw;
mod spelled;
mod token;
pub mod word;

pub use fault::{Fault, ReadError, Why};
pub use letter::{Letter, letters_of};
pub use mark::{Mark, mark_of};
pub use names::Names;
pub use number::{character_of, is_unsigned, number_of};
pub use raw::{Raw, RawKind, is_name_start, name_of, raws_of};
pub use spelled::{part, quoted, spelling, text_len, unquoted};
pub use token::{Kind, Origin, Token};
