//! What a check accepts races nowhere. This crate has laws alone.
#![tactic(auto)]

pub mod laws;
