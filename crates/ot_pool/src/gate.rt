ghost use Rattle.std.specs.Prelude.{◌≡◌, false};

/// What a worker passes with each piece, after it was claimed and before it is run. No lock is held there.
pub trait Gate {
    /// Called once for each piece: the worker's number, the tenant's, and the task's in its job.
    fn pass(&mut self, worker: u32, tenant: u32, task: u32);

    /// Whether it may hold a piece back, which a worker asks once, before its first piece. One whose gate never does is back
    /// soon with a short piece, and tells no other worker of what is claimable then.
    fn may_hold(&self) -> bool {
        true
    }
}

/// Lets every piece through at once.
#[derive(Clone, Copy, Debug, PartialEq, Eq)]
pub struct OpenGate;

impl Gate for OpenGate {
    fn pass(&mut self, _worker: u32, _tenant: u32, _task: u32) {}

    fn may_hold(&self) -> bool
        ensures { result ≡ false }
    {
        false
    }
}
