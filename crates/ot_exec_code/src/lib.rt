//! Code of a machine: forms over slots, and the arithmetic of C's integers.
#![tactic(auto)]

mod form;
mod kind;
mod number;
mod operation;

pub use form::{Code, Depends, Folded, Form, Function, Item};
pub use kind::{Kind, Width};
pub use number::operate;
pub use operation::Operation;
