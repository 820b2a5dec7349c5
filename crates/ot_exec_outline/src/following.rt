//! What happens on the way of some answers.
ghost use Rattle.std.specs.Prelude.{◌≡◌, ◌+◌, ◌++◌, ◌≤◌, ◌<◌, ◌^◌, OnOk, IfOk, length, option_map, [], ◌∷◌};
ghost use Rattle.ot_race.specs.View.{events_in, deed_of};
ghost use Rattle.ot_race.specs.Events.{event};
ghost use Rattle.ot_exec_outline.specs.Tree.{steps_size, step_size};
ghost use Rattle.ot_exec_outline.specs.View.{step_of, steps_in};
ghost use Rattle.ot_exec_outline.specs.Followed.{list_answer, steps_events, step_events, events_by, tasks, tasks_one, Fits, FitsOne};

use crate::decided::{answered, decided};
use crate::step::Step;
use ot_model::{Decl, Mode, Use};
use ot_race::{Deed, Event, fold_as, note, note_writes};
use ot_race_ways::note_reads;
use std::alloc::{AllocError, Global};

/// What has happened so far.
#[derive(Drop)]
struct Trail<'a> {
    tasks: u32,
    events: Vec<Event<'a>>,
}

/// Who takes steps: the number of the task, and what it declares.
#[derive(Clone, Copy)]
struct Owner<'a> {
    task: u32,
    own: Option<&'a Decl>,
}

/// The events of an outline on the way of these answers, each at its site.
pub fn follow<'a>(
    alloc: Global,
    steps: &'a Vec<Step>,
    answers: &[bool],
) -> Result<Vec<Event<'a>>, AllocError>
    requires fits { Fits (steps_in steps.now.items) }
    requires few { steps_size (steps_in steps.now.items) < 2 ^ 32 }
    ensures events { IfOk result (λ events. events_in events.items ≡ events_by (list_answer answers.now) (steps_in steps.now.items)) }
    ensures few { IfOk result (λ events. length events.items ≤ steps_size (steps_in steps.now.items)) }
{
    let mut trail = Trail {
        tasks: 0,
        events: Vec::new(alloc),
    };
    let owner = Owner { task: 0, own: None };
    follow_all(alloc, steps, &mut trail, owner, answers)?;
    Ok(trail.events)
}

#[cycle(follow)]
fn follow_all<'a>(
    alloc: Global,
    steps: &'a Vec<Step>,
    trail: &mut Trail<'a>,
    owner: Owner<'a>,
    answers: &[bool],
) -> Result<(), AllocError>
    requires fits { Fits (steps_in steps.now.items) }
    requires tasks_fit { trail.old.tasks + steps_size (steps_in steps.now.items) < 2 ^ 32 }
    requires events_fit { length trail.old.events.items + steps_size (steps_in steps.now.items) < 2 ^ 32 }
    ensures events { OnOk result (events_in trail.new.events.items
        ≡ events_in trail.old.events.items ++ steps_events (list_answer answers.now) (option_map (λ d. d.now) owner.entry.own) owner.entry.task (steps_in steps.now.items) trail.old.tasks) }
    ensures tasks { OnOk result (trail.new.tasks ≡ tasks (list_answer answers.now) (steps_in steps.now.items) trail.old.tasks) }
    ensures few_tasks { OnOk result (trail.new.tasks ≤ trail.old.tasks + steps_size (steps_in steps.now.items)) }
    ensures few_events { OnOk result (length trail.new.events.items ≤ length trail.old.events.items + steps_size (steps_in steps.now.items)) }
{
    for step in steps {
        follow_one(alloc, step, trail, owner, answers)?;
    }
    Ok(())
}

#[cycle(follow)]
fn follow_one<'a>(
    alloc: Global,
    step: &'a Step,
    trail: &mut Trail<'a>,
    owner: Owner<'a>,
    answers: &[bool],
) -> Result<(), AllocError>
    requires fits { FitsOne (step_of step.now) }
    requires tasks_fit { trail.old.tasks + step_size (step_of step.now) < 2 ^ 32 }
    requires events_fit { length trail.old.events.items + step_size (step_of step.now) < 2 ^ 32 }
    ensures events { OnOk result (events_in trail.new.events.items
        ≡ events_in trail.old.events.items ++ step_events (list_answer answers.now) (option_map (λ d. d.now) owner.entry.own) owner.entry.task (step_of step.now) trail.old.tasks) }
    ensures tasks { OnOk result (trail.new.tasks ≡ tasks_one (list_answer answers.now) (step_of step.now) trail.old.tasks) }
    ensures few_tasks { OnOk result (trail.new.tasks ≤ trail.old.tasks + step_size (step_of step.now)) }
    ensures few_events { OnOk result (length trail.new.events.items ≤ length trail.old.events.items + step_size (step_of step.now)) }
{
    let mut uses = Vec::new(alloc);
    match step {
        Step::Set(site, cell, expr) => {
            note_reads(expr, &mut uses)?;
            note(*cell, Mode::Writes, &mut uses)?;
            put(trail, owner.task, *site, Deed::Touches, uses)
        }
        Step::Fold(site, op, cell, expr) => {
            note_reads(expr, &mut uses)?;
            note(*cell, fold_as(owner.own, *op, *cell), &mut uses)?;
            put(trail, owner.task, *site, Deed::Touches, uses)
        }
        Step::Touch(site, touched) => {
            let uses = touched.as_slice().to_vec(alloc)?;
            put(trail, owner.task, *site, Deed::Touches, uses)
        }
        Step::If(site, choice, expr, one, two) => {
            note_reads(expr, &mut uses)?;
            put(trail, owner.task, *site, Deed::Touches, uses)?;
            if decided(answers, *choice, expr) {
                follow_all(alloc, one, trail, owner, answers)
            } else {
                follow_all(alloc, two, trail, owner, answers)
            }
        }
        Step::Choose(_, choice, one, two) => {
            if answered(answers, *choice) {
                follow_all(alloc, one, trail, owner, answers)
            } else {
                follow_all(alloc, two, trail, owner, answers)
            }
        }
        Step::Task(site, decl, body) => {
            trail.tasks += 1;
            let child = trail.tasks;
            put(trail, child, *site, Deed::Begins(owner.task, decl), uses)?;
            let inner = Owner {
                task: child,
                own: Some(decl),
            };
            follow_all(alloc, body, trail, inner, answers)
        }
        Step::Wait(site, wait) => put(trail, owner.task, *site, Deed::Awaits(wait.as_ref()), uses),
        Step::Group(site, _, cells, body) => {
            let start = trail.events.len();
            follow_all(alloc, body, trail, owner, answers)?;
            let count = trail.events.len() - start;
            note_writes(cells, &mut uses)?;
            put(trail, owner.task, *site, Deed::Leaves(count as u32), uses)
        }
    }
}

/// Notes an event.
fn put<'a>(
    trail: &mut Trail<'a>,
    task: u32,
    site: u32,
    deed: Deed<'a>,
    uses: Vec<Use>,
) -> Result<(), AllocError>
    ensures events { OnOk result (events_in trail.new.events.items ≡ events_in trail.old.events.items ++ event task site (deed_of deed.entry) uses.items ∷ []) }
    ensures one { OnOk result (length trail.new.events.items ≡ length trail.old.events.items + 1) }
    ensures tasks { trail.new.tasks ≡ trail.old.tasks }
{
    trail.events.push(Event {
        task,
        place: site,
        deed,
        uses,
    })?;
    Ok(())
}
