//! A server: tenants by name, their sessions over a Unix socket, and the workers that run their jobs.
#![tactic(auto)]

mod crew;
mod door;
pub mod fault;
mod names;
pub mod serve;
pub mod socket;
mod usages;

pub use fault::{Fault, fault_line};
pub use names::bad_name;
pub use serve::Serve;
pub use socket::serve_socket;
