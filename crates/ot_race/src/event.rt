//! Events of a run.
use ot_model::{Decl, Use};

/// What an event is.
#[derive(Clone, Copy, Debug)]
pub enum Deed<'a> {
    /// A statement does something with cells.
    Touches,
    /// A task begins that this task created and that declares this.
    Begins(u32, &'a Decl),
    /// It waits for all its children, or for those on which a task that declares this would depend.
    Awaits(Option<&'a Decl>),
    /// A group ends in which so many events were.
    Leaves(u32),
}

/// An event: the number of the task that does it, the place of its statement, what it is, and the
/// cells that it uses.
#[derive(Debug, Drop)]
pub struct Event<'a> {
    pub task: u32,
    pub place: u32,
    pub deed: Deed<'a>,
    pub uses: Vec<Use>,
}
