//! A run that notes its events, each task executed where it is created.
ghost use Rattle.std.specs.Prelude.{◌≡◌, ◌+◌, ◌++◌, ◌≤◌, ◌<◌, ◌^◌, OnOk, length, option_map, [], ◌∷◌};
ghost use Rattle.ot_model.specs.View.{stmt_of, stmts_of, expr_of};
ghost use Rattle.ot_model.specs.Cells.{lengths, cell_of, with_cell};
ghost use Rattle.ot_model.specs.Tree.{size, size_one, tasks_in, tasks_in_one, val};
ghost use Rattle.ot_model.specs.Names.{NamedIn, OneNamedIn, IsInShape, ValueNamedIn};
ghost use Rattle.ot_model.specs.Serial.{state_of, serial, serial_one};
ghost use Rattle.ot_race.specs.Events.{this_way, events, events_one, event};
ghost use Rattle.ot_race.specs.View.{events_in, deed_of};

use crate::count::{count_all, count_one};
use crate::event::{Deed, Event};
use crate::uses::{fold_as, note, note_reads, note_writes};
use ot_model::{Cell, Cells, Counts, Decl, Expr, Fold, Look, Mode, Monoid, Stmt, Use, value};
use std::alloc::{AllocError, Global};

/// A run that goes on.
#[derive(Drop)]
pub(crate) struct Run<'a> {
    pub(crate) cells: Cells,
    pub(crate) counts: Counts,
    pub(crate) events: Vec<Event<'a>>,
}

/// Who runs a body: the number of the task, and what it declares.
#[derive(Clone, Copy)]
pub(crate) struct Owner<'a> {
    pub(crate) task: u32,
    pub(crate) own: Option<&'a Decl>,
}

/// Runs a body, whose first statement has this place.
#[cycle(run)]
#[tactic(auto, using(crate::proofs::EventLemmas::events_step))]
pub(crate) fn run_all<'a>(
    alloc: Global,
    body: &'a Vec<Stmt>,
    run: &mut Run<'a>,
    owner: Owner<'a>,
    place: u32,
) -> Result<(), AllocError>
    requires named { NamedIn (lengths run.old.cells) (stmts_of body.now.items) }
    requires units_fit { run.old.counts.units + size (stmts_of body.now.items) < 2 ^ 32 }
    requires tasks_fit { run.old.counts.tasks + tasks_in (stmts_of body.now.items) < 2 ^ 32 }
    requires places_fit { place + size (stmts_of body.now.items) < 2 ^ 32 }
    requires events_fit { length run.old.events.items + size (stmts_of body.now.items) < 2 ^ 32 }
    ensures run { OnOk result (state_of run.new.cells run.new.counts ≡ serial (stmts_of body.now.items) (state_of run.old.cells run.old.counts)) }
    ensures kept { OnOk result (lengths run.new.cells ≡ lengths run.old.cells) }
    ensures units { OnOk result (run.new.counts.units ≤ run.old.counts.units + size (stmts_of body.now.items)) }
    ensures tasks { OnOk result (run.new.counts.tasks ≤ run.old.counts.tasks + tasks_in (stmts_of body.now.items)) }
    ensures few { OnOk result (length run.new.events.items ≤ length run.old.events.items + size (stmts_of body.now.items)) }
    ensures events { OnOk result (events_in run.new.events.items
        ≡ events_in run.old.events.items ++ events this_way (option_map (λ d. d.now) owner.entry.own) owner.entry.task place (stmts_of body.now.items) (state_of run.old.cells run.old.counts)) }
{
    let mut next = place;
    for stmt in body {
        run_one(alloc, stmt, run, owner, next)?;
        next += count_one(stmt);
    }
    Ok(())
}

#[cycle(run)]
#[tactic(auto, using(crate::proofs::EventLemmas::events_first, crate::proofs::EventLemmas::events_second))]
fn run_one<'a>(
    alloc: Global,
    stmt: &'a Stmt,
    run: &mut Run<'a>,
    owner: Owner<'a>,
    place: u32,
) -> Result<(), AllocError>
    requires named { OneNamedIn (lengths run.old.cells) (stmt_of stmt.now) }
    requires units_fit { run.old.counts.units + size_one (stmt_of stmt.now) < 2 ^ 32 }
    requires tasks_fit { run.old.counts.tasks + tasks_in_one (stmt_of stmt.now) < 2 ^ 32 }
    requires places_fit { place + size_one (stmt_of stmt.now) < 2 ^ 32 }
    requires events_fit { length run.old.events.items + size_one (stmt_of stmt.now) < 2 ^ 32 }
    ensures run { OnOk result (state_of run.new.cells run.new.counts ≡ serial_one (stmt_of stmt.now) (state_of run.old.cells run.old.counts)) }
    ensures kept { OnOk result (lengths run.new.cells ≡ lengths run.old.cells) }
    ensures units { OnOk result (run.new.counts.units ≤ run.old.counts.units + size_one (stmt_of stmt.now)) }
    ensures tasks { OnOk result (run.new.counts.tasks ≤ run.old.counts.tasks + tasks_in_one (stmt_of stmt.now)) }
    ensures few { OnOk result (length run.new.events.items ≤ length run.old.events.items + size_one (stmt_of stmt.now)) }
    ensures events { OnOk result (events_in run.new.events.items
        ≡ events_in run.old.events.items ++ events_one this_way (option_map (λ d. d.now) owner.entry.own) owner.entry.task place (stmt_of stmt.now) (state_of run.old.cells run.old.counts)) }
{
    run.counts.units += 1;
    let mut uses = Vec::new(alloc);
    match stmt {
        Stmt::Set(cell, expr) => {
            note_reads(expr, &run.cells, &mut uses)?;
            note(*cell, Mode::Writes, &mut uses)?;
            let number = value(expr, &run.cells);
            run.cells.set(*cell, number);
            put(run, owner.task, place, Deed::Touches, uses)
        }
        Stmt::Fold(op, cell, expr) => {
            note_reads(expr, &run.cells, &mut uses)?;
            note(*cell, fold_as(owner.own, *op, *cell), &mut uses)?;
            fold_into(&mut run.cells, *op, *cell, expr);
            put(run, owner.task, place, Deed::Touches, uses)
        }
        Stmt::If(expr, one, two) => {
            note_reads(expr, &run.cells, &mut uses)?;
            put(run, owner.task, place, Deed::Touches, uses)?;
            if value(expr, &run.cells) == 0 {
                run_all(alloc, two, run, owner, place + 1 + count_all(one))
            } else {
                run_all(alloc, one, run, owner, place + 1)
            }
        }
        Stmt::Task(decl, body) => {
            run.counts.tasks += 1;
            let child = run.counts.tasks;
            put(run, child, place, Deed::Begins(owner.task, decl), uses)?;
            let inner = Owner {
                task: child,
                own: Some(decl),
            };
            run_all(alloc, body, run, inner, place + 1)
        }
        Stmt::Wait(wait) => put(run, owner.task, place, Deed::Awaits(wait.as_ref()), uses),
        Stmt::Group(_, cells, body) => {
            let start = run.events.len();
            run_all(alloc, body, run, owner, place + 1)?;
            let count = run.events.len() - start;
            note_writes(cells, &mut uses)?;
            put(run, owner.task, place, Deed::Leaves(count as u32), uses)
        }
    }
}

/// Notes an event.
fn put<'a>(
    run: &mut Run<'a>,
    task: u32,
    place: u32,
    deed: Deed<'a>,
    uses: Vec<Use>,
) -> Result<(), AllocError>
    ensures events { OnOk result (events_in run.new.events.items ≡ events_in run.old.events.items ++ event task place (deed_of deed.entry) uses.items ∷ []) }
    ensures one { OnOk result (length run.new.events.items ≡ length run.old.events.items + 1) }
    ensures cells { run.new.cells ≡ run.old.cells }
    ensures counts { run.new.counts ≡ run.old.counts }
{
    run.events.push(Event {
        task,
        place,
        deed,
        uses,
    })?;
    Ok(())
}

ghost use Rattle.ot_model.specs.Joining.{join_by};

/// Joins a cell with a value.
fn fold_into(cells: &mut Cells, op: Fold, cell: Cell, expr: &Expr)
    requires there { IsInShape (lengths cells.old) cell }
    requires named { ValueNamedIn (lengths cells.old) (expr_of expr.now) }
    ensures joined { cells.new ≡ with_cell cells.old cell (λ n. join_by op n (val (cell_of cells.old) (expr_of expr.now))) }
    ensures kept { lengths cells.new ≡ lengths cells.old }
{
    let number = value(expr, &*cells);
    let before = cells.at(cell);
    cells.set(cell, op.join(before, number));
}
