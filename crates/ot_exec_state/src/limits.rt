/// How far a run may go.
#[derive(Clone, Copy, Debug, PartialEq, Eq)]
pub struct Limits {
    /// How many forms are executed.
    pub steps: u32,
    /// How many calls and tasks are open at once, and as many regions.
    pub open: u32,
    /// The slots of all that are open.
    pub slots: u32,
    /// How many items a clause has, and the reductions of all regions that are open.
    pub items: u32,
    pub events: u32,
    /// How many cells all events name.
    pub touches: u32,
    pub tasks: u32,
    /// How many calls and turns of loops there are in all.
    pub contexts: u32,
    pub objects: u32,
    /// The cells of all objects that there have been.
    pub members: u32,
    /// How many locks there are, and how many sets of them that tasks hold.
    pub locks: u32,
    /// How many a task holds at once.
    pub held: u32,
}

impl Limits {
    /// As far as a run goes where nobody says otherwise.
    pub const fn usual() -> Limits {
        Limits {
            steps: 20_000_000,
            open: 4_096,
            slots: 1 << 20,
            items: 256,
            events: 1_000_000,
            touches: 1 << 24,
            tasks: 32_768,
            contexts: 1 << 22,
            objects: 1 << 22,
            members: 1 << 24,
            locks: 512,
            held: 16,
        }
    }
}
