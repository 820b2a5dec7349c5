//! Why a session stops in the middle of what was read.
ghost use Rattle.std.specs.Prelude.{◌≡◌};
ghost use Rattle.ot_show_last.specs.Going.{stop_result};

use crate::fault::{LastFault, Untaken};

/// Why no further line is taken.
#[derive(Clone, Copy, Debug)]
pub(crate) enum Stop {
    /// The client said goodbye.
    Bye,
    /// The line with this number isn't taken, and answered so.
    Bad(u64, Untaken),
    /// There was no memory.
    Memory,
}

impl Stop {
    /// What is told then.
    pub(crate) fn result(self) -> Result<(), LastFault>
        ensures { result ≡ stop_result self }
    {
        match self {
            Stop::Bye => Ok(()),
            Stop::Bad(number, answer) => Err(LastFault::BadLine(number, answer)),
            Stop::Memory => Err(LastFault::Memory),
        }
    }
}
