//! What is drawn.

/// A task that began in a run.
#[derive(Debug, Drop)]
pub struct Task {
    /// Its number: from 1, in the order in which the tasks were created.
    pub number: u32,
    /// The number of the task that created it: 0 for the program.
    pub parent: u32,
    /// What stands in its node.
    pub label: String,
}

/// A task that waits for an earlier one because of what both declare.
#[derive(Clone, Copy, Debug, PartialEq, Eq)]
pub struct Link {
    /// The number of the task that runs first.
    pub earlier: u32,
    /// The number of the task that waits for it.
    pub later: u32,
}

/// A wait of a task for children, or the end of a group.
#[derive(Debug, Drop)]
pub struct Wait {
    /// Its number: from 1, in the order of the run.
    pub number: u32,
    /// The number of the task that waits: 0 for the program.
    pub task: u32,
    /// What stands in its node.
    pub label: String,
    /// The numbers of the tasks that are awaited.
    pub awaited: Vec<u32>,
}

/// A touch of a cell.
#[derive(Debug, Drop)]
pub struct Touch {
    /// The number of the task that touches: 0 for the program.
    pub task: u32,
    /// What stands in its node.
    pub label: String,
}

/// Two touches that nothing orders.
#[derive(Debug, Drop)]
pub struct Pair {
    /// The one that comes first in the serial run.
    pub first: Touch,
    /// The other.
    pub second: Touch,
}

/// A run as far as it is drawn, and a race in it, if there is one.
#[derive(Debug, Drop)]
pub struct Picture {
    /// The tasks that are drawn.
    pub tasks: Vec<Task>,
    /// How many tasks of the run aren't drawn.
    pub more: u32,
    /// The waits that are drawn.
    pub waits: Vec<Wait>,
    /// Which tasks wait for which by themselves.
    pub links: Vec<Link>,
    /// The race.
    pub race: Option<Pair>,
}
