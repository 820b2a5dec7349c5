//! Workers that run the pieces of all tenants' jobs side by side, and clients that wait for outcomes.
//!
//! What the threads share is one `Hub` under one lock: the live jobs, the units that were settled, and the
//! mark of closing. Each of its calls is one turn. A worker claims a piece in one turn, runs it with no lock
//! held, and settles it in another, behind which it claims the next one in the same hold of the lock; a client
//! submits its job and collects it once it is over. A thread that finds nothing to do looks a few times more,
//! and then waits until another tells that somebody may go on.
#![tactic(auto)]

mod client;
mod crew;
mod gate;
mod hub;
mod locked;
mod pool;
mod tickets;
mod usage;
mod worker;

pub use client::Client;
pub use crew::{NotStarted, Staffed, staffed};
pub use gate::{Gate, OpenGate};
pub use hub::{Claimed, Hub};
pub use pool::{Pool, close, totals};
pub use usage::Usage;
pub use worker::work;
