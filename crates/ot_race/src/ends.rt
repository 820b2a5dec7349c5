//! Where tasks end.
ghost use Rattle.std.specs.Prelude.{◌≡◌, ◌≢◌, ◌<◌, ◌+◌, ◌^◌, ℕ, IfOk, OnOk, false, [], length};
ghost use Rattle.ot_race.specs.Ends.{AreEnds, end_of, goes_on, going_on};
ghost use Rattle.ot_race.specs.View.{events_in};

use crate::event::Event;
use std::alloc::{AllocError, Global};

/// For each task one more than the number of its last event.
pub(crate) fn ends_of(alloc: Global, events: &[Event<'_>]) -> Result<Vec<u32>, AllocError>
    requires { length events.now < 2 ^ 32 }
    ensures { IfOk result (λ ends. AreEnds (events_in events.now) ends.items) }
{
    let mut ends = Vec::new(alloc);
    for number in 0..events.len() as u32 {
        note_end(&mut ends, events[number as usize].task, number + 1)?;
    }
    Ok(ends)
}

fn note_end(ends: &mut Vec<u32>, task: u32, end: u32) -> Result<(), AllocError>
    ensures there { OnOk result (end_of ends.new.items task ≡ end) }
    ensures others { OnOk result ((t : ℕ) → t ≢ task → end_of ends.new.items t ≡ end_of ends.old.items t) }
{
    let place = task as usize;
    if ends.len() <= place {
        ends.resize(place + 1, 0)?;
    }
    ends[place] = end;
    Ok(())
}

/// Whether a task has an event from this one on.
fn goes_on(ends: &[u32], number: u32, task: u32) -> bool
    ensures { result ≡ goes_on ends.now number task }
{
    match ends.get(task as usize) {
        Some(end) => number < *end,
        None => false,
    }
}

/// Whether one of these tasks has.
fn some_go_on(ends: &[u32], number: u32, tasks: &[u32]) -> bool
    ensures { result ≡ false → going_on ends.now number tasks.now ≡ [] }
{
    for task in tasks {
        if goes_on(ends, number, *task) {
            return true;
        }
    }
    false
}

/// Takes those out that haven't.
pub(crate) fn keep_going_on(
    alloc: Global,
    ends: &[u32],
    number: u32,
    tasks: &mut Vec<u32>,
) -> Result<(), AllocError>
    ensures { OnOk result (tasks.new.items ≡ going_on ends.now number tasks.old.items) }
{
    if some_go_on(ends, number, tasks.as_slice()) {
        *tasks = going_on(alloc, ends, number, tasks.as_slice())?;
    } else {
        tasks.clear();
    }
    Ok(())
}

/// Those of these tasks that have.
pub(crate) fn going_on(
    alloc: Global,
    ends: &[u32],
    number: u32,
    tasks: &[u32],
) -> Result<Vec<u32>, AllocError>
    ensures { IfOk result (λ left. left.items ≡ going_on ends.now number tasks.now) }
{
    let mut left = Vec::new(alloc);
    for task in tasks {
        if goes_on(ends, number, *task) {
            left.push(*task)?;
        }
    }
    Ok(left)
}
