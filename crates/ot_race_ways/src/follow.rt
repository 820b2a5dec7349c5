//! The events on the way that has a number.
ghost use Rattle.std.specs.Prelude.{◌≡◌, ◌+◌, ◌++◌, ◌≤◌, ◌<◌, ◌^◌, ℕ, List, OnOk, length, option_map, [], ◌∷◌};
ghost use Rattle.ot_model.specs.View.{stmt_of, stmts_of};
ghost use Rattle.ot_model.specs.Tree.{size, size_one, tasks_in, tasks_in_one};
ghost use Rattle.ot_model.specs.Names.{NamedIn, OneNamedIn};
ghost use Rattle.ot_race.specs.View.{events_in, deed_of};
ghost use Rattle.ot_race_ways.specs.Ways.{ways, ways_one};
ghost use Rattle.ot_race_ways.specs.Numbered.{events_on, events_on_one, tasks_on, tasks_on_one, turns_on, turns_on_one};

use crate::extent::{extent_all, extent_one};
use crate::known::{known_number, left_for_second, takes_first};
use crate::reads::note_reads;
use crate::verdict::Turn;
use ot_model::{Decl, Mode, Stmt, Use};
use ot_race::{Deed, Event, fold_as, note, note_writes};
use std::alloc::{AllocError, Global};

/// What has happened on a way so far.
#[derive(Drop)]
pub(crate) struct Trail<'a> {
    pub(crate) tasks: u32,
    pub(crate) turns: Vec<Turn>,
    pub(crate) events: Vec<Event<'a>>,
}

/// Whose body is followed: the number of the task, and what it declares.
#[derive(Clone, Copy)]
pub(crate) struct Owner<'a> {
    pub(crate) task: u32,
    pub(crate) own: Option<&'a Decl>,
}

/// Follows the way of this number through a body, whose first statement has this place.
#[cycle(follow)]
pub(crate) fn follow_all<'a>(
    alloc: Global,
    body: &'a Vec<Stmt>,
    trail: &mut Trail<'a>,
    owner: Owner<'a>,
    place: u32,
    way: u32,
) -> Result<(), AllocError>
    requires named { (lens : List ℕ) × NamedIn lens (stmts_of body.now.items) }
    requires few_ways { ways (stmts_of body.now.items) < 1025 }
    requires tasks_fit { trail.old.tasks + tasks_in (stmts_of body.now.items) < 2 ^ 32 }
    requires places_fit { place + size (stmts_of body.now.items) < 2 ^ 32 }
    requires events_fit { length trail.old.events.items + size (stmts_of body.now.items) < 2 ^ 32 }
    ensures events { OnOk result (events_in trail.new.events.items
        ≡ events_in trail.old.events.items ++ events_on way (option_map (λ d. d.now) owner.entry.own) owner.entry.task place (stmts_of body.now.items) trail.old.tasks) }
    ensures turns { OnOk result (trail.new.turns.items ≡ trail.old.turns.items ++ turns_on way place (stmts_of body.now.items)) }
    ensures tasks { OnOk result (trail.new.tasks ≡ trail.old.tasks + tasks_on way (stmts_of body.now.items)) }
    ensures few_tasks { OnOk result (trail.new.tasks ≤ trail.old.tasks + tasks_in (stmts_of body.now.items)) }
    ensures few_events { OnOk result (length trail.new.events.items ≤ length trail.old.events.items + size (stmts_of body.now.items)) }
{
    let mut next = place;
    let mut left = way;
    for stmt in body {
        let extent = extent_one(stmt);
        follow_one(alloc, stmt, trail, owner, next, left % extent.ways)?;
        next += extent.statements;
        left /= extent.ways;
    }
    Ok(())
}

#[cycle(follow)]
fn follow_one<'a>(
    alloc: Global,
    stmt: &'a Stmt,
    trail: &mut Trail<'a>,
    owner: Owner<'a>,
    place: u32,
    way: u32,
) -> Result<(), AllocError>
    requires named { (lens : List ℕ) × OneNamedIn lens (stmt_of stmt.now) }
    requires few_ways { ways_one (stmt_of stmt.now) < 1025 }
    requires tasks_fit { trail.old.tasks + tasks_in_one (stmt_of stmt.now) < 2 ^ 32 }
    requires places_fit { place + size_one (stmt_of stmt.now) < 2 ^ 32 }
    requires events_fit { length trail.old.events.items + size_one (stmt_of stmt.now) < 2 ^ 32 }
    ensures events { OnOk result (events_in trail.new.events.items
        ≡ events_in trail.old.events.items ++ events_on_one way (option_map (λ d. d.now) owner.entry.own) owner.entry.task place (stmt_of stmt.now) trail.old.tasks) }
    ensures turns { OnOk result (trail.new.turns.items ≡ trail.old.turns.items ++ turns_on_one way place (stmt_of stmt.now)) }
    ensures tasks { OnOk result (trail.new.tasks ≡ trail.old.tasks + tasks_on_one way (stmt_of stmt.now)) }
    ensures few_tasks { OnOk result (trail.new.tasks ≤ trail.old.tasks + tasks_in_one (stmt_of stmt.now)) }
    ensures few_events { OnOk result (length trail.new.events.items ≤ length trail.old.events.items + size_one (stmt_of stmt.now)) }
{
    let mut uses = Vec::new(alloc);
    match stmt {
        Stmt::Set(cell, expr) => {
            note_reads(expr, &mut uses)?;
            note(*cell, Mode::Writes, &mut uses)?;
            put(trail, owner.task, place, Deed::Touches, uses)
        }
        Stmt::Fold(op, cell, expr) => {
            note_reads(expr, &mut uses)?;
            note(*cell, fold_as(owner.own, *op, *cell), &mut uses)?;
            put(trail, owner.task, place, Deed::Touches, uses)
        }
        Stmt::If(expr, one, two) => {
            note_reads(expr, &mut uses)?;
            put(trail, owner.task, place, Deed::Touches, uses)?;
            let extent = extent_all(one);
            let decided = known_number(expr);
            let first = takes_first(decided, way, extent.ways);
            trail.turns.push(Turn { place, first })?;
            if first {
                follow_all(alloc, one, trail, owner, place + 1, way)
            } else {
                let behind = place + 1 + extent.statements;
                let left = left_for_second(decided, way, extent.ways);
                follow_all(alloc, two, trail, owner, behind, left)
            }
        }
        Stmt::Task(decl, body) => {
            trail.tasks += 1;
            let child = trail.tasks;
            put(trail, child, place, Deed::Begins(owner.task, decl), uses)?;
            let inner = Owner {
                task: child,
                own: Some(decl),
            };
            follow_all(alloc, body, trail, inner, place + 1, way)
        }
        Stmt::Wait(wait) => put(trail, owner.task, place, Deed::Awaits(wait.as_ref()), uses),
        Stmt::Group(_, cells, body) => {
            let start = trail.events.len();
            follow_all(alloc, body, trail, owner, place + 1, way)?;
            let count = trail.events.len() - start;
            note_writes(cells, &mut uses)?;
            put(trail, owner.task, place, Deed::Leaves(count as u32), uses)
        }
    }
}

ghost use Rattle.ot_race.specs.Events.{event};

/// Notes an event.
fn put<'a>(
    trail: &mut Trail<'a>,
    task: u32,
    place: u32,
    deed: Deed<'a>,
    uses: Vec<Use>,
) -> Result<(), AllocError>
    ensures events { OnOk result (events_in trail.new.events.items ≡ events_in trail.old.events.items ++ event task place (deed_of deed.entry) uses.items ∷ []) }
    ensures one { OnOk result (length trail.new.events.items ≡ length trail.old.events.items + 1) }
    ensures tasks { trail.new.tasks ≡ trail.old.tasks }
    ensures turns { trail.new.turns ≡ trail.old.turns }
{
    trail.events.push(Event {
        task,
        place,
        deed,
        uses,
    })?;
    Ok(())
}
