//! What values of C mean in the language of programs, and what is assigned to cells.
#![tactic(auto)]

mod arithmetic;
mod store;
mod values;

pub use arithmetic::Worth;
pub use store::{assigned, changed};
pub use values::value;
