//! A task of a live job: where it stands in its body, and what its next piece is made of.
//!
//! A task's place is what is left of its body and of the groups that it is in, as places in the parts that
//! all jobs of a program share (`ot_parts`). `prepare` makes what a claim takes from it: the sets and folds
//! up to the next `if`, task, wait or group, which piece and task share (`Assigns`), and the cells that these
//! touch in the modes in which they are held. `Task::begin` passes them, `Task::step` executes the statement
//! behind them, and `assign_all` makes assignments on lent copies.
#![tactic(auto)]

mod assign;
mod place;
mod prepared;
mod running;
mod same;
mod stack;
mod task;
mod waiting;

pub use assign::assign_all;
pub use ot_parts::{Assign, Assigns};
pub use prepared::{Prepared, prepare};
pub use running::Running;
pub use task::Task;
