//! The machine's code of a text of C with OpenMP.
#![tactic(auto)]

mod at;
mod call;
mod clauses;
mod construct;
mod fault;
mod initial;
mod label;
mod library;
mod lock;
mod maker;
mod names;
mod number;
mod operate;
mod orphan;
mod own;
mod reduced;
mod section;
mod size;
mod statement;
mod task;
mod team;
mod text;
mod turns;
mod unions;
mod value;
mod whole;
mod work;

pub use fault::{Fault, Why};
pub use names::{Known, meaning_of};
pub use whole::{Translated, translate};
