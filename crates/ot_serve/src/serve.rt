//! What a server is asked for.

/// A server over a Unix socket, for these tenants.
#[derive(Debug, PartialEq, Eq, Drop)]
pub struct Serve {
    /// The path of the socket.
    pub socket: String,
    /// How many workers run pieces of jobs: 1 to 16.
    pub workers: u32,
    /// How many connections are served at a time: 1 to 16.
    pub sessions: u32,
    /// After how many connections the server ends: 1 to 1,000,000. Without it it goes on.
    pub count: Option<u32>,
    /// The names of the tenants, in order.
    pub names: Vec<String>,
}
