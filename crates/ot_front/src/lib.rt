//! Connections over a socket: each greets by a tenant's name, and holds a session of the tenant's book, which lies on a
//! desk between sessions.
#![tactic(auto)]

pub mod connection;
mod connections;
pub mod desk;
mod first_line;
pub mod greeting;
mod rack;
mod refusal;

pub use connection::serve_connection;
pub use connections::listen;
pub use desk::{Desk, DeskFault};
pub use greeting::greet;
pub use ot_session::{
    End, Failed, FrontFault, Reading, Sink, Source, Stop, Writing, serve, session_bounds,
    take_line, tell_long, write_whole,
};
