//! Why a session has no last run.

/// What a line that isn't taken is answered.
#[derive(Clone, Copy, Debug, PartialEq, Eq)]
pub enum Untaken {
    /// `["err",N,CODE]`, where N is its number.
    Refused(u32),
    /// `["err",N,CODE,PLACE]`.
    Offends(u32, u32),
    /// `["full"]`.
    Full,
    /// `["long"]`.
    Long,
}

/// Why a session has no last run.
#[derive(Clone, Copy, Debug, PartialEq, Eq)]
pub enum LastFault {
    /// All lines are taken, and none of them runs a program.
    NoRun,
    /// The line with this number, from 1, isn't taken: it is refused, longer than a line may be, or one more
    /// than the log has room for; and what it is answered.
    BadLine(u64, Untaken),
    /// A read failed.
    ReadFailed,
    /// The session was read 1,000,000 times, and had not ended.
    TooManyReads,
    /// There was no memory.
    Memory,
}
