//! A run of a program that notes its tasks, each executed where it is created.
ghost use Rattle.std.specs.Prelude.{◌≡◌, ◌+◌, ◌++◌, ◌∷◌, [], ◌≤◌, ◌<◌, ◌^◌, nat_le, not, IfOk, OnOk, option_copied};
ghost use Rattle.std.specs.List.{filter};
ghost use Rattle.ot_model.specs.View.{stmt_of, stmts_of};
ghost use Rattle.ot_model.specs.Cells.{lengths};
ghost use Rattle.ot_model.specs.Tree.{size, size_one, tasks_in, tasks_in_one};
ghost use Rattle.ot_model.specs.Names.{NamedIn, OneNamedIn};
ghost use Rattle.ot_model.specs.Serial.{state_of, serial, serial_one};
ghost use Rattle.ot_check.specs.Offences.{awaits};
ghost use Rattle.ot_show_graph.specs.Created.{Creates, Awaits, Enters, Leaves};
ghost use Rattle.ot_show_graph.specs.Children.{created_of, all_of};
ghost use Rattle.ot_show_graph.specs.Graphs.{families_of, marks_of};
ghost use Rattle.ot_show_graph.specs.Passing.{children_in, children_one, created_at, task_entered, inside, inside_one, kin_within, is_within, passes, passes_one, spares, takes_child, children_unawaited, unawaited_one};

use crate::child::Child;
use crate::family::Family;
use crate::mark::Mark;
use crate::place::{behind, behind_all};
use ot_model::{Cell, Cells, Counts, Decl, Fold, Look, Monoid, Stmt, value};
use std::alloc::{AllocError, Global};

/// A run that goes on.
#[derive(Drop)]
pub(crate) struct Run<'a> {
    pub(crate) cells: Cells,
    pub(crate) counts: Counts,
    /// The children of the bodies that are over.
    pub(crate) families: Vec<Family<'a>>,
    /// What it has passed.
    pub(crate) marks: Vec<Mark<'a>>,
}

/// A body that is being run.
#[derive(Drop)]
pub(crate) struct Region<'a> {
    /// The number of the task whose body it is.
    pub(crate) parent: u32,
    pub(crate) children: Vec<Child<'a>>,
    /// Those of them that nothing has awaited, in order.
    pub(crate) pending: Vec<Child<'a>>,
}

/// Runs a body, whose first statement has this place.
#[cycle(run)]
pub(crate) fn run_all<'a>(
    alloc: Global,
    body: &'a Vec<Stmt>,
    run: &mut Run<'a>,
    region: &mut Region<'a>,
    place: u32,
) -> Result<(), AllocError>
    requires named { NamedIn (lengths run.old.cells) (stmts_of body.now.items) }
    requires units_fit { run.old.counts.units + size (stmts_of body.now.items) < 2 ^ 32 }
    requires tasks_fit { run.old.counts.tasks + tasks_in (stmts_of body.now.items) < 2 ^ 32 }
    requires short { place + size (stmts_of body.now.items) < 2 ^ 32 }
    ensures run { OnOk result (state_of run.new.cells run.new.counts ≡ serial (stmts_of body.now.items) (state_of run.old.cells run.old.counts)) }
    ensures kept { OnOk result (lengths run.new.cells ≡ lengths run.old.cells) }
    ensures units { OnOk result (run.new.counts.units ≤ run.old.counts.units + size (stmts_of body.now.items)) }
    ensures tasks { OnOk result (run.new.counts.tasks ≤ run.old.counts.tasks + tasks_in (stmts_of body.now.items)) }
    ensures parent { OnOk result (region.new.parent ≡ region.old.parent) }
    ensures children { OnOk result (all_of region.new.children.items
        ≡ all_of region.old.children.items ++ children_in place (stmts_of body.now.items) (state_of run.old.cells run.old.counts)) }
    ensures families { OnOk result (families_of run.new.families.items
        ≡ families_of run.old.families.items ++ inside place (stmts_of body.now.items) (state_of run.old.cells run.old.counts)) }
    ensures pending { OnOk result (all_of region.new.pending.items
        ≡ children_unawaited place (stmts_of body.now.items) (state_of run.old.cells run.old.counts) (all_of region.old.pending.items)) }
    ensures marks { OnOk result (marks_of run.new.marks.items
        ≡ marks_of run.old.marks.items ++ passes region.old.parent place (stmts_of body.now.items) (state_of run.old.cells run.old.counts) (all_of region.old.pending.items)) }
{
    let mut next = place;
    for stmt in body {
        run_one(alloc, stmt, run, region, next)?;
        next = behind(stmt, next);
    }
    Ok(())
}

#[cycle(run)]
fn run_one<'a>(
    alloc: Global,
    stmt: &'a Stmt,
    run: &mut Run<'a>,
    region: &mut Region<'a>,
    place: u32,
) -> Result<(), AllocError>
    requires named { OneNamedIn (lengths run.old.cells) (stmt_of stmt.now) }
    requires units_fit { run.old.counts.units + size_one (stmt_of stmt.now) < 2 ^ 32 }
    requires tasks_fit { run.old.counts.tasks + tasks_in_one (stmt_of stmt.now) < 2 ^ 32 }
    requires short { place + size_one (stmt_of stmt.now) < 2 ^ 32 }
    ensures run { OnOk result (state_of run.new.cells run.new.counts ≡ serial_one (stmt_of stmt.now) (state_of run.old.cells run.old.counts)) }
    ensures kept { OnOk result (lengths run.new.cells ≡ lengths run.old.cells) }
    ensures units { OnOk result (run.new.counts.units ≤ run.old.counts.units + size_one (stmt_of stmt.now)) }
    ensures tasks { OnOk result (run.new.counts.tasks ≤ run.old.counts.tasks + tasks_in_one (stmt_of stmt.now)) }
    ensures parent { OnOk result (region.new.parent ≡ region.old.parent) }
    ensures children { OnOk result (all_of region.new.children.items
        ≡ all_of region.old.children.items ++ children_one place (stmt_of stmt.now) (state_of run.old.cells run.old.counts)) }
    ensures families { OnOk result (families_of run.new.families.items
        ≡ families_of run.old.families.items ++ inside_one place (stmt_of stmt.now) (state_of run.old.cells run.old.counts)) }
    ensures pending { OnOk result (all_of region.new.pending.items
        ≡ unawaited_one place (stmt_of stmt.now) (state_of run.old.cells run.old.counts) (all_of region.old.pending.items)) }
    ensures marks { OnOk result (marks_of run.new.marks.items
        ≡ marks_of run.old.marks.items ++ passes_one region.old.parent place (stmt_of stmt.now) (state_of run.old.cells run.old.counts) (all_of region.old.pending.items)) }
{
    run.counts.units += 1;
    match stmt {
        Stmt::Set(cell, expr) => {
            let number = value(expr, &run.cells);
            run.cells.set(*cell, number);
            Ok(())
        }
        Stmt::Fold(op, cell, expr) => {
            let number = value(expr, &run.cells);
            let before = run.cells.at(*cell);
            run.cells.set(*cell, op.join(before, number));
            Ok(())
        }
        Stmt::If(expr, one, two) => {
            let first = place + 1;
            if value(expr, &run.cells) == 0 {
                run_all(alloc, two, run, region, behind_all(one, first))
            } else {
                run_all(alloc, one, run, region, first)
            }
        }
        Stmt::Task(decl, body) => run_task(alloc, decl, body, run, region, place),
        Stmt::Wait(decl) => await_children(alloc, decl.as_ref(), run, region),
        Stmt::Group(op, cells, body) => run_group(alloc, *op, cells, body, run, region, place),
    }
}

/// A task, of whose statement the unit is counted: it is created, and its body is run.
#[cycle(run)]
fn run_task<'a>(
    alloc: Global,
    decl: &'a Decl,
    body: &'a Vec<Stmt>,
    run: &mut Run<'a>,
    region: &mut Region<'a>,
    place: u32,
) -> Result<(), AllocError>
    requires named { NamedIn (lengths run.old.cells) (stmts_of body.now.items) }
    requires units_fit { run.old.counts.units + size (stmts_of body.now.items) < 2 ^ 32 }
    requires tasks_fit { run.old.counts.tasks + (1 + tasks_in (stmts_of body.now.items)) < 2 ^ 32 }
    requires short { place + 1 + size (stmts_of body.now.items) < 2 ^ 32 }
    ensures run { OnOk result (state_of run.new.cells run.new.counts ≡ serial (stmts_of body.now.items) (task_entered (state_of run.old.cells run.old.counts))) }
    ensures kept { OnOk result (lengths run.new.cells ≡ lengths run.old.cells) }
    ensures units { OnOk result (run.new.counts.units ≤ run.old.counts.units + size (stmts_of body.now.items)) }
    ensures tasks { OnOk result (run.new.counts.tasks ≤ run.old.counts.tasks + (1 + tasks_in (stmts_of body.now.items))) }
    ensures parent { OnOk result (region.new.parent ≡ region.old.parent) }
    ensures children { OnOk result (all_of region.new.children.items
        ≡ all_of region.old.children.items ++ created_at place decl.now (state_of run.old.cells run.old.counts) ∷ []) }
    ensures families { OnOk result (families_of run.new.families.items
        ≡ families_of run.old.families.items ++ (inside (place + 1) (stmts_of body.now.items) (task_entered (state_of run.old.cells run.old.counts))
        ++ kin_within place (stmts_of body.now.items) (task_entered (state_of run.old.cells run.old.counts)) ∷ [])) }
    ensures pending { OnOk result (all_of region.new.pending.items
        ≡ all_of region.old.pending.items ++ created_at place decl.now (state_of run.old.cells run.old.counts) ∷ []) }
    ensures marks { OnOk result (marks_of run.new.marks.items
        ≡ marks_of run.old.marks.items ++ Creates region.old.parent (created_at place decl.now (state_of run.old.cells run.old.counts))
        ∷ passes (run.old.counts.tasks + 1) (place + 1) (stmts_of body.now.items) (task_entered (state_of run.old.cells run.old.counts)) []) }
{
    run.counts.tasks += 1;
    let number = run.counts.tasks;
    let child = Child {
        number,
        place,
        decl,
    };
    enter(run, region, child)?;
    let mut inner = Region {
        parent: number,
        children: Vec::new(alloc),
        pending: Vec::new(alloc),
    };
    run_all(alloc, body, run, &mut inner, place + 1)?;
    let family = Family::of(alloc, number, inner.children)?;
    run.families.push(family)?;
    Ok(())
}

/// Notes a child that is created.
fn enter<'a>(run: &mut Run<'a>, region: &mut Region<'a>, child: Child<'a>) -> Result<(), AllocError>
    ensures parent { region.new.parent ≡ region.old.parent }
    ensures children { OnOk result (all_of region.new.children.items ≡ all_of region.old.children.items ++ created_of child.entry ∷ []) }
    ensures pending { OnOk result (all_of region.new.pending.items ≡ all_of region.old.pending.items ++ created_of child.entry ∷ []) }
    ensures marks { OnOk result (marks_of run.new.marks.items ≡ marks_of run.old.marks.items ++ Creates region.old.parent (created_of child.entry) ∷ []) }
    ensures families { run.new.families ≡ run.old.families }
    ensures cells { run.new.cells ≡ run.old.cells }
    ensures counts { run.new.counts ≡ run.old.counts }
{
    region.children.push(child)?;
    region.pending.push(child)?;
    run.marks.push(Mark::Task(region.parent, child))?;
    Ok(())
}

/// A group, of whose statement the unit is counted. Its end awaits the children that were created in it.
#[cycle(run)]
fn run_group<'a>(
    alloc: Global,
    op: Fold,
    cells: &'a Vec<Cell>,
    body: &'a Vec<Stmt>,
    run: &mut Run<'a>,
    region: &mut Region<'a>,
    place: u32,
) -> Result<(), AllocError>
    requires named { NamedIn (lengths run.old.cells) (stmts_of body.now.items) }
    requires units_fit { run.old.counts.units + size (stmts_of body.now.items) < 2 ^ 32 }
    requires tasks_fit { run.old.counts.tasks + tasks_in (stmts_of body.now.items) < 2 ^ 32 }
    requires short { place + 1 + size (stmts_of body.now.items) < 2 ^ 32 }
    ensures run { OnOk result (state_of run.new.cells run.new.counts ≡ serial (stmts_of body.now.items) (state_of run.old.cells run.old.counts)) }
    ensures kept { OnOk result (lengths run.new.cells ≡ lengths run.old.cells) }
    ensures units { OnOk result (run.new.counts.units ≤ run.old.counts.units + size (stmts_of body.now.items)) }
    ensures tasks { OnOk result (run.new.counts.tasks ≤ run.old.counts.tasks + tasks_in (stmts_of body.now.items)) }
    ensures parent { OnOk result (region.new.parent ≡ region.old.parent) }
    ensures children { OnOk result (all_of region.new.children.items
        ≡ all_of region.old.children.items ++ children_in (place + 1) (stmts_of body.now.items) (state_of run.old.cells run.old.counts)) }
    ensures families { OnOk result (families_of run.new.families.items
        ≡ families_of run.old.families.items ++ inside (place + 1) (stmts_of body.now.items) (state_of run.old.cells run.old.counts)) }
    ensures pending { OnOk result (all_of region.new.pending.items
        ≡ filter (is_within run.old.counts.tasks) (children_unawaited (place + 1) (stmts_of body.now.items) (state_of run.old.cells run.old.counts) (all_of region.old.pending.items))) }
    ensures marks { OnOk result (marks_of run.new.marks.items
        ≡ marks_of run.old.marks.items ++ Enters op cells.now.items
        ∷ (passes region.old.parent (place + 1) (stmts_of body.now.items) (state_of run.old.cells run.old.counts) (all_of region.old.pending.items) ++ Leaves ∷ [])) }
{
    let before = run.counts.tasks;
    run.marks.push(Mark::Enter(op, cells))?;
    run_all(alloc, body, run, region, place + 1)?;
    keep_before(&mut region.pending, before);
    run.marks.push(Mark::Leave)?;
    Ok(())
}

/// Leaves of the children those among the first so many tasks.
fn keep_before(pending: &mut Vec<Child<'_>>, tasks: u32)
    ensures { all_of pending.new.items ≡ filter (is_within tasks) (all_of pending.old.items) }
{
    pending.retain(|child| child.number <= tasks);
}

/// Notes a wait for those whom it awaits of the children that nothing has awaited.
fn await_children<'a>(
    alloc: Global,
    decl: Option<&'a Decl>,
    run: &mut Run<'a>,
    region: &mut Region<'a>,
) -> Result<(), AllocError>
    ensures parent { region.new.parent ≡ region.old.parent }
    ensures children { region.new.children ≡ region.old.children }
    ensures pending { OnOk result (all_of region.new.pending.items ≡ filter (spares (option_copied decl.entry)) (all_of region.old.pending.items)) }
    ensures marks { OnOk result (marks_of run.new.marks.items
        ≡ marks_of run.old.marks.items ++ Awaits region.old.parent (option_copied decl.entry) (filter (takes_child (option_copied decl.entry)) (all_of region.old.pending.items)) ∷ []) }
    ensures families { run.new.families ≡ run.old.families }
    ensures cells { run.new.cells ≡ run.old.cells }
    ensures counts { run.new.counts ≡ run.old.counts }
{
    let (awaited, left) = parted(alloc, decl, &region.pending)?;
    region.pending = left;
    run.marks.push(Mark::Wait(region.parent, decl, awaited))?;
    Ok(())
}

/// Those of these children whom a wait awaits, and the others.
fn parted<'a>(
    alloc: Global,
    wait: Option<&Decl>,
    pending: &[Child<'a>],
) -> Result<(Vec<Child<'a>>, Vec<Child<'a>>), AllocError>
    ensures awaited { IfOk result (λ both. all_of both.0.items ≡ filter (takes_child (option_copied wait.entry)) (all_of pending.now)) }
    ensures left { IfOk result (λ both. all_of both.1.items ≡ filter (spares (option_copied wait.entry)) (all_of pending.now)) }
{
    let mut awaited = Vec::new(alloc);
    let mut left = Vec::new(alloc);
    for child in pending {
        if is_awaited(wait, child.decl) {
            awaited.push(*child)?;
        } else {
            left.push(*child)?;
        }
    }
    Ok((awaited, left))
}

/// Whether a wait awaits a child that declares this: each where it has no clauses, and else those on which a task with
/// its declaration would depend (OpenMP API 5.2, section 15.5).
fn is_awaited(wait: Option<&Decl>, child: &Decl) -> bool
    ensures { result ≡ awaits (option_copied wait.entry) child.now }
{
    match wait {
        None => true,
        Some(decl) => decl.depends_on(child),
    }
}
