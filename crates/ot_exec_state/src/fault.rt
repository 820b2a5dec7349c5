//! Why a run can't go on.
ghost use Rattle.std.specs.Prelude.{◌≡◌};
ghost use Rattle.ot_exec_state.specs.declared.fault.Halt.TheVariants as halts;

use std::alloc::{AllocError, AllocFailed};

#[derive(Clone, Copy, Debug, PartialEq, Eq)]
pub enum Reason {
    /// The code names a form, a slot, an object or a function that isn't there, or leaves what it didn't enter.
    Broken,
    /// A null pointer.
    Null,
    /// What has to be a place, or one that is known, is none.
    NoPlace,
    /// A place that lies outside of its object.
    Outside,
    /// A place of an object that has ended.
    Ended,
    /// What is called isn't known, or is no function.
    NoFunction,
    /// No region that is open has the cell as an item, by this operation.
    NoGroup,
    /// A lock is taken that the task holds, or a task around it.
    Taken,
    /// A lock is given back that the task doesn't hold.
    NotHeld,
    /// An object of this name is written under a lock, and the code doesn't say so.
    Changes(u32),
    DivideByZero,
    /// The condition of a loop isn't known.
    UnknownCondition,
    /// A number of cells isn't known.
    UnknownLength,
    /// Too many calls, tasks and regions are open, or they have too many slots.
    TooDeep,
    /// A clause has too many items.
    TooManyItems,
    TooManySteps,
    /// Too many events, or they name too many cells.
    TooManyEvents,
    TooManyTasks,
    /// Too many locks, or sets of them, or a task holds too many.
    TooManyLocks,
    /// Too many calls and turns of loops.
    TooManyTurns,
    /// Too many objects, or they have too many cells.
    TooMuch,
}

/// What ended a run, where: the reason, the form, the context in which it stood, and how many questions were asked by then.
#[derive(Clone, Copy, Debug, PartialEq, Eq)]
pub struct Fault {
    pub reason: Reason,
    pub at: usize,
    pub context: u32,
    pub asked: usize,
}

/// What stops a form.
#[derive(Debug, Drop)]
pub enum Halt {
    Memory,
    For(Reason),
}

impl From<AllocError> for Halt {
    ghost from_gives = { λ _ e. e ≡ halts.Memory };

    fn from(_e: AllocError) -> Halt {
        Halt::Memory
    }
}

impl<T: Drop> From<AllocFailed<T>> for Halt {
    ghost from_gives = { λ _ e. e ≡ halts.Memory };

    fn from(_e: AllocFailed<T>) -> Halt {
        Halt::Memory
    }
}
