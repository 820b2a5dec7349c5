ghost use Rattle.std.specs.Prelude.{◌≡◌, ℕ, List, Some, IfOk, MatchOption, option_map};
ghost use Rattle.std.specs.Arc.{arc_value};
ghost use Rattle.ot_model.specs.Names.{OneNamedIn, NamedIn};
ghost use Rattle.ot_model.specs.Tree.{If, Task, Wait, Group, Next, End, append};
ghost use Rattle.ot_model.specs.View.{stmt_of, stmts_of};
ghost use Rattle.ot_parts.specs.Assigns.{assign_of, assigns_of};
ghost use Rattle.ot_parts.specs.Parts.{leading, part_of, parts_of, body_in};
ghost use Rattle.ot_parts.specs.Modes.{AssignsFit};

use crate::assign::Assign;
use crate::part::Part;
use crate::run::{Run, Tested};
use crate::share::share;
use ot_model::{Cell, Decl, Fold, Stmt};
use std::alloc::{AllocError, Global};
use std::mem;
use std::sync::Arc;

/// The parts of a body. What it names is to be there in arrays of some lengths.
#[cycle(making)]
pub fn parts_of(alloc: Global, body: &Vec<Stmt>) -> Result<Arc<Vec<Part>>, AllocError>
    requires named { (lens : List ℕ) × NamedIn lens (stmts_of body.now.items) }
    ensures { IfOk result (λ parts. parts_of (arc_value parts).items ≡ stmts_of body.now.items) }
{
    let mut parts = Vec::new(alloc);
    let mut run = Vec::new(alloc);
    for stmt in body {
        match as_assign(alloc, stmt)? {
            Some(assign) => run.push(assign)?,
            None => {
                let before = mem::replace(&mut run, Vec::new(alloc));
                parts.push(part(alloc, before, stmt)?)?;
            }
        }
    }
    end(alloc, parts, run)
}

/// A copy of the statement, where it is a set or a fold.
fn as_assign(alloc: Global, stmt: &Stmt) -> Result<Option<Assign>, AllocError>
    ensures { IfOk result (λ copied. MatchOption copied (leading (Next (stmt_of stmt.now) End) ≡ End) (λ a. assign_of a ≡ stmt_of stmt.now)) }
{
    match stmt {
        Stmt::Set(cell, value) => Ok(Some(Assign::Set(*cell, value.copy(alloc)?))),
        Stmt::Fold(op, cell, value) => Ok(Some(Assign::Fold(*op, *cell, value.copy(alloc)?))),
        _ => Ok(None),
    }
}

/// A run, and a control statement behind it.
#[cycle(making)]
fn part(alloc: Global, run: Vec<Assign>, stmt: &Stmt) -> Result<Part, AllocError>
    requires named { (lens : List ℕ) × OneNamedIn lens (stmt_of stmt.now) }
    requires fits { AssignsFit (assigns_of run.items) }
    requires control { leading (Next (stmt_of stmt.now) End) ≡ End }
    ensures run { IfOk result (λ p. (part_of p).run ≡ assigns_of run.items) }
    ensures control { IfOk result (λ p. (part_of p).control ≡ Some (stmt_of stmt.now)) }
{
    match stmt {
        Stmt::If(test, one, two) => {
            let run = Tested::new(alloc, run, test.copy(alloc)?)?;
            let one = parts_of(alloc, one)?;
            if_part(alloc, run, two, one)
        }
        Stmt::Task(decl, body) => task_part(alloc, Run::new(alloc, run)?, decl, body),
        Stmt::Wait(decl) => wait_part(alloc, Run::new(alloc, run)?, decl.as_ref()),
        Stmt::Group(op, cells, body) => group_part(
            alloc,
            Run::new(alloc, run)?,
            *op,
            cells.as_slice(),
            body,
        ),
        Stmt::Set(_, _) | Stmt::Fold(_, _, _) => unreachable!(),
    }
}

/// A run with a condition, and the `if` behind it, whose first body has these parts.
#[cycle(making)]
fn if_part(
    alloc: Global,
    run: Tested,
    two: &Vec<Stmt>,
    one: Arc<Vec<Part>>,
) -> Result<Part, AllocError>
    requires named { (lens : List ℕ) × NamedIn lens (stmts_of two.now.items) }
    ensures run { IfOk result (λ p. (part_of p).run ≡ run.assigns) }
    ensures control { IfOk result (λ p. (part_of p).control ≡ Some (If run.test (body_in one) (stmts_of two.now.items))) }
{
    let two = parts_of(alloc, two)?;
    Ok(Part::If(run, one, two))
}

/// A run, and a task behind it.
#[cycle(making)]
fn task_part(alloc: Global, run: Run, decl: &Decl, body: &Vec<Stmt>) -> Result<Part, AllocError>
    requires named { (lens : List ℕ) × NamedIn lens (stmts_of body.now.items) }
    ensures run { IfOk result (λ p. (part_of p).run ≡ run.assigns) }
    ensures control { IfOk result (λ p. (part_of p).control ≡ Some (Task decl.now (stmts_of body.now.items))) }
{
    let decl = share(alloc, decl.copy(alloc)?)?;
    let body = parts_of(alloc, body)?;
    Ok(Part::Task(run, decl, body))
}

/// A run, and a wait behind it.
fn wait_part(alloc: Global, run: Run, decl: Option<&Decl>) -> Result<Part, AllocError>
    ensures run { IfOk result (λ p. (part_of p).run ≡ run.assigns) }
    ensures control { IfOk result (λ p. (part_of p).control ≡ Some (Wait (option_map (λ d. d.now) decl.entry))) }
{
    Ok(Part::Wait(run, copy_wait(alloc, decl)?))
}

/// A run, and a group behind it.
#[cycle(making)]
fn group_part(
    alloc: Global,
    run: Run,
    op: Fold,
    cells: &[Cell],
    body: &Vec<Stmt>,
) -> Result<Part, AllocError>
    requires named { (lens : List ℕ) × NamedIn lens (stmts_of body.now.items) }
    ensures run { IfOk result (λ p. (part_of p).run ≡ run.assigns) }
    ensures control { IfOk result (λ p. (part_of p).control ≡ Some (Group op cells.now (stmts_of body.now.items))) }
{
    let cells = cells.to_vec(alloc)?;
    let body = parts_of(alloc, body)?;
    Ok(Part::Group(run, op, cells, body))
}

/// A copy of what a wait declares.
fn copy_wait(alloc: Global, decl: Option<&Decl>) -> Result<Option<Decl>, AllocError>
    ensures { IfOk result (λ copied. copied ≡ option_map (λ d. d.now) decl.entry) }
{
    match decl {
        None => Ok(None),
        Some(decl) => Ok(Some(decl.copy(alloc)?)),
    }
}

/// Ends a body with a run, if that has sets or folds.
fn end(alloc: Global, parts: Vec<Part>, run: Vec<Assign>) -> Result<Arc<Vec<Part>>, AllocError>
    requires fits { AssignsFit (assigns_of run.items) }
    ensures { IfOk result (λ shared. parts_of (arc_value shared).items ≡ append (parts_of parts.items) (assigns_of run.items)) }
{
    let mut parts = parts;
    if !run.is_empty() {
        parts.push(Part::End(Run::new(alloc, run)?))?;
    }
    match Arc::new(alloc, parts) {
        Ok(shared) => Ok(shared),
        Err(_) => Err(AllocError),
    }
}
