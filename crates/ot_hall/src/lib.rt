//! The live jobs of all tenants, at most one for each.
#![tactic(auto)]

mod hall;
mod live;
mod marks;

pub use hall::{Collected, Hall, NoMemory, SubmitFault};
