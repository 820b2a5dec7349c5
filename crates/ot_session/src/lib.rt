//! Sessions: lines come in from a source, and for each one reply goes out to a sink.
#![tactic(auto)]

mod answer;
pub mod device;
pub mod fault;
pub mod session;
mod stop;
mod turn;
pub mod whole;
pub mod writer;

pub use device::Sink;
pub use fault::{End, FrontFault};
pub use ot_lines::{Failed, Reading, Source};
pub use session::{serve, serve_behind, session_bounds};
pub use stop::Stop;
pub use turn::{take_line, tell_long};
pub use whole::write_whole;
pub use writer::Writing;
