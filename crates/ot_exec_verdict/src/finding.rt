//! What is found, and how far code is executed.
use ot_exec_machine::{Fault, Limits, Run};
use ot_race::Race;
use ot_race_all::Races;

/// How far a run goes with what is known, and how far each of several ways.
#[derive(Clone, Copy, Debug, PartialEq, Eq)]
pub struct Bounds {
    pub run: Limits,
    pub way: Limits,
}

/// What it rests on that nothing races.
#[derive(Clone, Copy, Debug, PartialEq, Eq)]
pub enum Rest {
    /// The run asks nothing, and nothing races in it.
    Run,
    /// The run asks, and nothing races on any way of the answers.
    Ways,
    /// The same, where tasks hold locks: no two touches without a lock in common.
    LockedWays,
    /// There are too many ways; but nothing races on those of the code with less that is known.
    Less,
}

/// What is found in code.
#[derive(Drop)]
pub enum Finding {
    /// Nothing races.
    Nothing(Rest),
    /// Nothing races so, and of other numbers in memory nothing is known.
    OnlyRun(Rest),
    /// The races of the run, where no task holds a lock.
    InRun(Run, Races),
    /// The first race of the run of two touches that hold no lock in common.
    Apart(Run, Race),
    /// The first race on a way.
    OnWay(Run, Race),
    /// The first race on a way of the code with less that is known.
    OnOtherWay(Run, Race),
    /// A run ends with this fault.
    Ended(Fault),
    /// There are too many ways: this form asks.
    TooManyWays(usize),
    /// A cell is touched under too many sets of locks.
    Crowded,
    /// Too many objects are written under locks.
    TooManyChanges,
}

/// What is found, or the name of what is written under a lock, of which nothing is to be known then.
#[derive(Drop)]
pub(crate) enum Outcome {
    Found(Finding),
    Changes(u32),
}

/// What is met on all ways.
#[derive(Drop)]
pub(crate) enum Met {
    Nothing(Rest),
    Races(Run, Race),
    /// What the judge can't do.
    Fault(Fault),
    TooMany,
    /// A cell is touched under too many sets of locks.
    Crowded,
    /// What this names is written under a lock, and the code doesn't say so.
    Changes(u32),
}

/// What is met on the ways of other numbers in memory.
#[derive(Drop)]
pub(crate) enum Others {
    /// Nothing rests on memory.
    Unmarked,
    Nothing,
    /// They aren't judged.
    Unknown,
    Races(Run, Race),
    Changes(u32),
}

/// What is asked of code: how far it is executed, the number of parameters of each function, and by the name of an object whether nothing
/// but the code writes it.
#[derive(Clone, Copy)]
pub(crate) struct Setting<'a> {
    pub bounds: Bounds,
    pub parameters: &'a [u32],
    pub closed: &'a [bool],
}
