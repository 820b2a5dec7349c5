//! Why a request is refused, in words for people: what the code says, with the names and numbers of the line and of the
//! tenant's arrays, and of a program where in the line the fault is.
#![tactic(auto)]

mod code;
mod fault;
mod form;
mod json;
pub mod laws;
mod page;
mod place;
mod program;
mod reasoning;
mod run;
mod sentences;
mod statement;
mod unlike;

pub use code::code_page;
pub use fault::{Fault, fault_of};
pub use place::{Telling, place_in};
pub use reasoning::reasons;
pub use run::{has_operations, program_in};
pub use sentences::sentence_of;
