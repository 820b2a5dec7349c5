//! From the tokens of a text in C with OpenMP to its tree.
#![tactic(auto)]

mod clause;
mod construct;
mod declaration;
mod declarator;
mod directive;
mod enumeration;
mod expression;
mod fault;
mod initial;
mod marks;
mod operand;
mod parser;
mod record;
mod scope;
mod specifier;
mod statement;
mod unit;

pub use fault::{Fault, ParseError, Why};
pub use unit::unit_of;
