//! The machine that executes code, and notes what its tasks do with cells.
#![tactic(auto)]

mod calls;
mod cells;
mod faults;
mod locks;
mod machine;
mod run;
mod siblings;
mod step;
mod tasks;
mod telling;
mod ways;

pub use faults::{Met, first_fault};
pub use ot_exec_state::{Context, Entered, Fault, Limits, Object, Reason, Row, Value};
pub use run::{Run, run_code};
pub use telling::contexts_of;
pub use ways::Ways;
