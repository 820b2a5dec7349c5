//! Statements of the language with their places in a text of C, and what assignments become.
#![tactic(auto)]

mod assignments;
mod extreme;
mod lines;

pub use assignments::assignment;
pub use extreme::{Extreme, extreme_folded, kept_if};
pub use lines::{Lines, both_lines, first_place, lines_copy, no_lines, one_line, one_line_with};
