//! A world of tenants that events move.
#![tactic(auto)]

mod event;
mod held;
mod replies;
mod tenant;
mod world;

pub use event::{Event, Stepped};
pub use held::Held;
pub use ot_hall::{Collected, Hall, NoMemory, SubmitFault};
pub use replies::Replies;
pub use world::{World, worlds_agree};
