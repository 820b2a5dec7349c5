//! What the command line asks for.
use ot_serve::Serve;

/// The words of a command line, read.
#[derive(Debug, PartialEq, Eq, Drop)]
pub enum Words {
    /// One session of one tenant, over standard input and output.
    Solo,
    /// A world of tenants, moved by the lines of standard input.
    Sim,
    /// Tenants by name, served at a Unix socket.
    Serve(Serve),
}
