//! What a client comes to.
ghost use Rattle.std.specs.Prelude.{◌≡◌, ◌<◌, ◌+◌, ◌^◌};
ghost use Rattle.ot_client_ask.specs.Asking.{none_counted};
ghost use Rattle.ot_client_ask.specs.Exchanges.{with_reply};

/// How a client's session ended where nothing went wrong.
#[derive(Clone, Copy, Debug, PartialEq, Eq)]
pub enum Asked {
    /// Each line was taken.
    AllTaken,
    /// Some line was refused.
    SomeRefused,
    /// The server took no further line: its log was full, or the line too long.
    CutShort,
}

/// How many lines of a client were answered.
#[derive(Clone, Copy, Debug, PartialEq, Eq)]
pub struct Tally {
    /// How many replies were printed.
    pub lines: u64,
    /// How many of them say that the line isn't taken: it is refused, or one too many, or too long.
    pub refused: u64,
    /// The first of these, counted from 1.
    pub first_refused: Option<u64>,
}

impl Tally {
    /// That of no line.
    pub fn new() -> Tally
        ensures { result ≡ none_counted }
    {
        Tally {
            lines: 0,
            refused: 0,
            first_refused: None,
        }
    }

    /// That with one reply more.
    pub(crate) fn with(self, is_refused: bool) -> Tally
        requires room { self.lines + 1 < 2 ^ 64 }
        requires fewer { self.refused + 1 < 2 ^ 64 }
        ensures { result ≡ with_reply self is_refused }
    {
        let lines = self.lines + 1;
        if !is_refused {
            return Tally { lines, ..self };
        }
        Tally {
            lines,
            refused: self.refused + 1,
            first_refused: match self.first_refused {
                Some(first) => Some(first),
                None => Some(lines),
            },
        }
    }
}

/// What went wrong.
#[derive(Clone, Copy, Debug, PartialEq, Eq)]
pub enum AskFault {
    /// The tenant has another session.
    Busy,
    /// The server has no tenant of that name.
    UnknownTenant,
    /// The greeting was answered otherwise.
    StrangeGreeting,
    /// The stream ended before a reply.
    Closed,
    /// The lines could not be read.
    ReadFailed,
    /// A reply could not be printed.
    WriteFailed,
    /// There was no memory.
    Memory,
    /// There were 2^64 - 1 lines, and no end.
    TooManyLines,
}
