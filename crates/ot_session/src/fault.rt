//! How a session ends.
use thiserror::Error;

/// Why a session ended where nothing went wrong.
#[derive(Clone, Copy, Debug, PartialEq, Eq)]
pub enum End {
    /// The client said goodbye.
    Bye,
    /// The input ended.
    EndOfInput,
    /// The log was full, and a further line came.
    Full,
    /// A line was longer than a line may be.
    LongLine,
    /// There was no pool to run on.
    Closed,
}

/// What went wrong in a session, or where connections are taken.
#[derive(Clone, Copy, Debug, PartialEq, Eq, Error)]
pub enum FrontFault {
    #[error("a read failed")]
    ReadFailed,
    #[error("a write failed")]
    WriteFailed,
    #[error("there was no memory")]
    Memory,
    #[error("the pool does not know the tenant, or holds another job of it")]
    Stranger,
    #[error("a session read 1000000 times, and its input had not ended")]
    TooManyTurns,
    /// Of `listen` alone.
    #[error("a connection could not be accepted")]
    SocketFailed,
}
