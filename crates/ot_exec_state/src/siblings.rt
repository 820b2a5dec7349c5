//! Siblings that depend by a cell in no order among themselves.
ghost use Rattle.std.specs.Prelude.{◌≡◌};
ghost use Rattle.ot_exec_state.specs.Results.{Gives};
ghost use Rattle.ot_exec_state.specs.Siblings.{are_of, unordered_mode, begins_siblings, mode_of, told_mode, are_in_no_order, others, siblings_behind};

use crate::fault::{Halt, Reason};
use crate::limits::Limits;
use ot_exec_code::Depends;
use ot_model::{Cell, Mode};

/// Children of a task, one after the other, that depend by this cell so, in no order among themselves.
#[derive(Clone, Copy, Debug, PartialEq, Eq)]
pub struct Siblings {
    pub task: u32,
    pub cell: Cell,
    pub mode: Depends,
}

fn are_of(task: u32, cell: Cell, one: Siblings) -> bool
    ensures { result ≡ are_of task cell one }
{
    one.task == task && one.cell == cell
}

/// How those depend that stand last there, in no order.
pub fn mode_at(all: &[Siblings], task: u32, cell: Cell) -> Option<Depends>
    ensures { result ≡ unordered_mode task cell all.now }
{
    for one in all {
        if are_of(task, cell, *one) {
            return Some(one.mode);
        }
    }
    None
}

/// Whether one that depends so begins such siblings, or stands behind them.
pub fn turns(mode: Depends, last: Option<Depends>) -> bool
    ensures { result ≡ begins_siblings mode last }
{
    match (mode, last) {
        (Depends::In, None) | (Depends::InOut, _) => false,
        (Depends::MutexInOutSet, Some(Depends::MutexInOutSet)) => false,
        (Depends::InOutSet, Some(Depends::InOutSet)) => false,
        (_, _) => true,
    }
}

/// How an item is told by what a task declares.
fn mode_of(depends: Depends) -> Mode
    ensures { result ≡ mode_of depends }
{
    match depends {
        Depends::InOut => Mode::Writes,
        Depends::In | Depends::MutexInOutSet | Depends::InOutSet => Mode::Reads,
    }
}

/// The same of a wait by this task, which no empty sibling stands before.
pub(crate) fn told_mode(waits: Option<u32>, cell: Cell, all: &[Siblings], depends: Depends) -> Mode
    ensures { result ≡ told_mode waits cell all.now depends }
{
    match waits {
        Some(task) => {
            if turns(depends, mode_at(all, task, cell)) {
                Mode::Writes
            } else {
                mode_of(depends)
            }
        }
        None => mode_of(depends),
    }
}

fn are_in_no_order(depends: Depends) -> bool
    ensures { result ≡ are_in_no_order depends }
{
    match depends {
        Depends::In | Depends::InOut => false,
        Depends::MutexInOutSet | Depends::InOutSet => true,
    }
}

/// Leaves those of other tasks and cells.
fn leave_others(all: &mut Vec<Siblings>, task: u32, cell: Cell)
    ensures { all.new.items ≡ others task cell all.old.items }
{
    all.retain(|one| !are_of(task, cell, *one));
}

/// What stands behind one that depends so.
#[tactic(auto, unfolding(crate::specs::Siblings::siblings_behind))]
pub fn put_behind(
    all: &mut Vec<Siblings>,
    limits: Limits,
    task: u32,
    cell: Cell,
    mode: Depends,
) -> Result<(), Halt>
    ensures { Gives (λ _. all.new.items) result (siblings_behind limits task cell mode all.old.items) }
{
    leave_others(all, task, cell);
    if !are_in_no_order(mode) {
        return Ok(());
    }
    if all.len() >= limits.open as usize {
        return Err(Halt::For(Reason::TooManyItems));
    }
    all.push(Siblings { task, cell, mode })?;
    Ok(())
}
