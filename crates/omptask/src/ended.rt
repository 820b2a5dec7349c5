//! How the program ends where nothing went wrong.

/// How the program ends where nothing went wrong.
#[derive(Clone, Copy, Debug, PartialEq, Eq)]
pub enum Ended {
    /// All was taken, or written.
    Well,
    /// A line was refused, or touches race.
    Refused,
    /// A text isn't judged, or a run has no C.
    Outside,
    /// Of a text only the run was judged, and it doesn't race.
    OnlyRun,
}
