//! The picture of a program with a statement that offends.
ghost use Rattle.std.specs.Prelude.{◌≡◌, ◌++◌, IfOk, OnOk, MatchOption, map};
ghost use Rattle.ot_model.specs.View.{stmts_of};
ghost use Rattle.ot_show_print.specs.Shown.{names_of};
ghost use Rattle.ot_check.specs.Offences.{Offends};
ghost use Rattle.ot_show_refusal.specs.Stands as placed;
ghost use Rattle.ot_show_refusal.specs.Marked.{marked_tasks, task_in};
ghost use Rattle.ot_show_refusal.specs.MarkedView.{IsMarked, HasTasks, task_by};
ghost use Rattle.ot_show_refusal.specs.StandView.{standing_of, standings_of};

use crate::label::label_of;
use crate::marking::pair_of;
use crate::stand::{Stand, stands_in};
use ot_check::Offence;
use ot_model::ArrayShape;
use ot_show_races::{Pair, Picture, Task};
use ot_why_blame::{Blamed, find_blame};
use std::alloc::{AllocError, Global};

/// The picture of a program, loops written out: each of its task statements is a task, with the number that replies count, and was
/// created by the one around it. The statement at a place, which offends so, and the other one that has a part in it are marked.
pub fn picture_of(
    alloc: Global,
    blamed: Blamed<'_>,
    place: u32,
    offence: Offence,
) -> Result<Picture, AllocError>
    ensures tasks { IfOk result (λ picture. HasTasks (names_of blamed.entry.arrays.now) (stmts_of blamed.entry.program.now.body.items) picture) }
    ensures race { IfOk result (λ picture. MatchOption picture.race (Offends (stmts_of blamed.entry.program.now.body.items) place offence → ⊥)
        (λ pair. IsMarked (names_of blamed.entry.arrays.now) (stmts_of blamed.entry.program.now.body.items) place offence pair)) }
{
    let stands = stands_in(alloc, blamed.program)?;
    let tasks = tasks_of(alloc, blamed.arrays, stands.as_slice())?;
    let race = race_of(alloc, blamed, stands.as_slice(), place, offence)?;
    Ok(Picture {
        tasks,
        more: 0,
        waits: Vec::new(alloc),
        links: Vec::new(alloc),
        race,
    })
}

/// The two statements that are marked, where the one at this place has the offence.
fn race_of(
    alloc: Global,
    blamed: Blamed<'_>,
    stands: &[Stand<'_>],
    place: u32,
    offence: Offence,
) -> Result<Option<Pair>, AllocError>
    requires { standings_of stands.now ≡ placed.stands 0 1 (stmts_of blamed.program.now.body.items) }
    ensures { IfOk result (λ race. MatchOption race (Offends (stmts_of blamed.entry.program.now.body.items) place offence → ⊥)
        (λ pair. IsMarked (names_of blamed.entry.arrays.now) (stmts_of blamed.entry.program.now.body.items) place offence pair)) }
{
    match find_blame(alloc, blamed, place, offence)? {
        Some(blame) => Ok(Some(pair_of(alloc, blamed.arrays, stands, place, &blame)?)),
        None => Ok(None),
    }
}

fn tasks_of(
    alloc: Global,
    arrays: &[ArrayShape],
    stands: &[Stand<'_>],
) -> Result<Vec<Task>, AllocError>
    ensures { IfOk result (λ tasks. map task_by tasks.items ≡ marked_tasks (names_of arrays.now) (standings_of stands.now)) }
{
    let mut tasks = Vec::new(alloc);
    for stand in stands {
        put_task(alloc, arrays, *stand, &mut tasks)?;
    }
    Ok(tasks)
}

/// Puts a statement, where it is a task.
fn put_task(
    alloc: Global,
    arrays: &[ArrayShape],
    stand: Stand<'_>,
    tasks: &mut Vec<Task>,
) -> Result<(), AllocError>
    ensures { OnOk result (map task_by tasks.new.items ≡ map task_by tasks.old.items ++ task_in (names_of arrays.now) (standing_of stand.entry)) }
{
    if !stand.is_task() {
        return Ok(());
    }
    let label = label_of(alloc, arrays, stand)?;
    tasks.push(Task {
        number: stand.place,
        parent: stand.owner,
        label,
    })?;
    Ok(())
}
