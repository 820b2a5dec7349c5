//! Data sharing of OpenMP: what each construct shares or copies, and which variables need objects.
#![tactic(auto)]

mod attribute;
mod fault;
mod sharing;
mod team;
mod walk;

pub use attribute::{Around, How, Region, attribute_of, within};
pub use fault::Fault;
pub use sharing::{Capture, Captured, Sharing};
pub use team::{condition_of, has, is_by_one, is_of_one, value_of};
