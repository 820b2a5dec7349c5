//! A roster: which of many members are free, in order of their numbers, whose children they are, and how many
//! are out and have not ended.
//!
//! The members are numbered from 0 on, in order of their creation. What makes a member free is the caller's
//! affair: he tells, and each answer is as he told.
#![tactic(auto)]

mod listed;
mod roster;

pub use roster::Roster;
