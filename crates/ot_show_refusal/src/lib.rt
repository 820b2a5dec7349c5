//! The picture of a program that is refused for what its statements do: its tasks, the statement that offends, and the other one
//! that has a part in it.
#![tactic(auto)]

mod label;
mod marking;
mod picture;
mod refused;
mod stand;

pub use picture::picture_of;
pub use refused::{Refused, picture_on};
