/// Where a job stands.
#[derive(Clone, Copy, Debug, PartialEq, Eq)]
pub enum State {
    /// Some task has not ended its body.
    Working,
    /// It fails, and a piece of it is still out.
    Failing,
    /// Each task, the root too, has ended its body.
    Ended,
    /// It has failed, and no piece of it is out.
    Failed,
}
