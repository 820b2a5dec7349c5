//! A live job: a checked program whose tasks are run piece by piece, elsewhere and in any order.
//!
//! `Job::start` begins with the root task alone. `Job::claim` hands out the next piece of a claimable
//! task to a worker: its sets and folds up to the next `if`, task, wait or group, with copies of the cells that they
//! touch. `Piece::run` runs it on these copies, and `Job::settle` takes it back: its cells get their
//! values, and the statement behind it is executed. At every moment what is left of the job, run serially
//! from what its cells are worth, is the serial meaning of its program.
#![tactic(auto)]

mod job;
mod lending;
mod pick;
mod piece;
mod state;
mod tasks;

pub use job::Job;
pub use piece::{Done, Piece, Refused};
pub use state::State;
