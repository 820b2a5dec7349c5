//! Programs of the first profile, as they were defined before there was a second, and the laws that
//! they mean what they meant.
#![tactic(auto)]

pub mod laws;
