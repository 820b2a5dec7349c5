//! Sets of small numbers.
#![tactic(auto)]

mod numbers;

pub use numbers::Numbers;
