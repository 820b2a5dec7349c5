//! Why a session stops in the middle of what it has read.
ghost use Rattle.std.specs.Prelude.{◌≡◌};
ghost use Rattle.ot_session.specs.Serving.{result_of};

use crate::fault::{End, FrontFault};

/// Why no further line is taken.
#[derive(Clone, Copy, Debug)]
pub enum Stop {
    /// The client said goodbye.
    Bye,
    /// The log was full, and a further line came.
    Full,
    /// A line was longer than a line may be.
    LongLine,
    /// There was no pool to run on.
    Closed,
    /// The pool doesn't know the tenant, or holds another job of it.
    Stranger,
    /// A write failed.
    WriteFailed,
    /// There was no memory.
    Memory,
}

impl Stop {
    /// What the session answers.
    pub fn result(self) -> Result<End, FrontFault>
        ensures { result ≡ result_of self }
    {
        match self {
            Stop::Bye => Ok(End::Bye),
            Stop::Full => Ok(End::Full),
            Stop::LongLine => Ok(End::LongLine),
            Stop::Closed => Ok(End::Closed),
            Stop::Stranger => Err(FrontFault::Stranger),
            Stop::WriteFailed => Err(FrontFault::WriteFailed),
            Stop::Memory => Err(FrontFault::Memory),
        }
    }
}
