//! What a run passes.
use crate::child::Child;
use ot_model::{Cell, Decl, Fold};

/// What a run passes, in its order.
#[derive(Debug, Drop)]
pub enum Mark<'a> {
    /// A task is created by the task with this number.
    Task(u32, Child<'a>),
    /// The task with this number waits for these children, by cells that the wait declares if it has clauses.
    Wait(u32, Option<&'a Decl>, Vec<Child<'a>>),
    /// A group begins that reduces these cells by the operation.
    Enter(Fold, &'a Vec<Cell>),
    /// The last group that began ends.
    Leave,
}
