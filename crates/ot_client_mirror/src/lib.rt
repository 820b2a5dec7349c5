//! A tenant's arrays as far as a server's replies tell, and remarks behind its refusals.
#![tactic(auto)]

mod heard;
mod mirror;
mod remarks;
mod sizes;

pub use mirror::{Mirror, mirrors_follow};
