//! Reads task programs from JSON, over the arrays that they may name.
#![tactic(auto)]

mod both;
mod clause;
mod counts;
mod declaration;
mod fault;
mod form;
mod head;
pub mod laws;
mod limits;
mod name;
mod number;
mod operation;
mod part;
mod parts;
mod profile;
mod program;
mod scope;
mod section;
mod shape;
mod size;
mod statement;
mod value;
mod wait;

pub use fault::{ProgramFault, Refusal};
pub use form::{ProgramForm, program_form, requested_program};
pub use limits::{MAX_CELLS, MAX_DEPTH, MAX_NESTING, MAX_NODES, MAX_STATEMENTS, MAX_TURNS};
pub use name::{is_name, is_word};
pub use profile::{Profile, read_profile};
pub use program::read_program;
