/// What orders tasks, and what they touch.
#[derive(Clone, Copy, Debug, PartialEq, Eq)]
pub enum Order {
    /// All that they declare. A fold is a touch.
    OfLanguage,
    /// Their `depend` clauses alone: `in_reduction` makes no dependence. A fold is into the task's copy.
    OfC,
    /// All that they declare, where they take part in reductions by pointers: `red` stands for their `depend(in: ..)`. A fold is into
    /// the task's copy.
    OfCByPointers,
}
