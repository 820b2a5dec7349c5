//! A client of a server: lines are read, sent, and answered one by one.
#![tactic(auto)]

pub mod asked;
pub mod asking;
mod exchange;
pub mod greeting;
pub mod hearing;
mod line;
pub mod remarker;
pub mod stream;

pub use asked::{AskFault, Asked, Tally};
pub use asking::{ask, converse};
pub use greeting::greet;
pub use hearing::hear;
pub use remarker::{Remarker, Silence};
pub use stream::{LineEnd, LineSource, LinesOf, ReadFault};
