/// What may happen in a world. Tenants have numbers from 0 on, workers from 1 to 16.
#[derive(Clone, Copy, Debug)]
pub enum Event<'a> {
    /// A tenant asks a line.
    Admit(u32, &'a [u8]),
    /// A tenant's next line is opened.
    Open(u32),
    /// A worker takes a piece of a tenant's job: of the claimable task at this place modulo their
    /// count.
    Start(u32, u32, u32),
    /// A worker has run its piece.
    Finish(u32),
    /// A tenant is told what its job came to.
    Reply(u32),
    /// A tenant's job fails, for want of memory at a claim.
    Abort(u32),
}

/// What an event did.
#[derive(Clone, Copy, PartialEq, Eq, Debug)]
pub enum Stepped {
    /// The line is asked.
    Asked,
    /// As many lines are asked as the tenant's log may have.
    Full,
    /// The line is answered.
    Answered,
    /// The line's job has begun.
    Job,
    /// The worker has a piece of this task.
    Started(u32),
    /// The piece is settled, with so many units.
    Finished(u32),
    /// The piece's job fails, or has failed.
    FinishedFailed,
    /// The job's line is answered.
    Replied,
    /// The job fails, or has failed.
    Aborted,
    /// The event isn't enabled.
    NotNow,
}
