//! Cells, values, declarations and statements as people who write OpenMP read them.
#![tactic(auto)]

pub mod laws;
mod printer;
mod sections;

pub use printer::{Printer, is_nested};
pub use sections::{cells_in, sections_in};
