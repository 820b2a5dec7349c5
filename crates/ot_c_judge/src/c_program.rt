//! C programs as programs of the language.
use ot_c_names::CArray;
use ot_race_order::Order;
use serde_json::Value;

/// A C program as a program of the language.
#[derive(Drop)]
pub struct CProgram {
    /// In the order in which the program counts them.
    pub arrays: Vec<CArray>,
    /// The text of the program.
    pub program: Value,
    /// For each statement of that text, in its order, the byte at which the C statement begins.
    pub places: Vec<usize>,
    /// What orders its tasks as C orders those of the text.
    pub order: Order,
}
