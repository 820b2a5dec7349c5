//! What is told of a file whose requests were judged.
#![tactic(auto)]

mod note;
mod notes;
mod reasons;
mod reporting;
mod words;

pub use reporting::report_on;
