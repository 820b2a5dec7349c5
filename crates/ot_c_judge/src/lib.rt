//! Programs in C, judged over the programs that stand for them, and what is told of each.
#![tactic(auto)]

mod c_program;
mod doing;
mod finding;
mod found;
mod judging;
mod lacks;
mod line;
mod report;
mod source;
mod start;
mod telling;
mod text_order;

pub use c_program::CProgram;
pub use judging::report_c;
pub use ot_race_order::Order;
pub use report::{Report, Verdict};
pub use telling::outside;
