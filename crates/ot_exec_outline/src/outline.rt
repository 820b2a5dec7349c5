//! The outline of a program.
ghost use Rattle.std.specs.Prelude.{◌≡◌, ◌+◌, ◌<◌, ◌^◌, IfOk};
ghost use Rattle.ot_model.specs.View.{stmt_of, stmts_of};
ghost use Rattle.ot_model.specs.Tree.{size, size_one};
ghost use Rattle.ot_exec_outline.specs.Tree.{outline, outline_one};
ghost use Rattle.ot_exec_outline.specs.View.{step_of, steps_in};

use crate::step::Step;
use ot_model::{Program, Stmt};
use std::alloc::{AllocError, Global};

/// The outline of a program: its statements, each at its own number as the site.
pub fn outline_of(alloc: Global, program: &Program) -> Result<Vec<Step>, AllocError>
    ensures { IfOk result (λ steps. steps_in steps.items ≡ outline 1 (stmts_of program.now.body.items)) }
{
    let mut behind = 1;
    outline(alloc, &program.body, &mut behind)
}

/// The steps of a body whose first statement has this number, which becomes that behind it.
#[cycle(outline)]
fn outline(alloc: Global, body: &Vec<Stmt>, next: &mut u32) -> Result<Vec<Step>, AllocError>
    requires { next.old + size (stmts_of body.now.items) < 2 ^ 32 }
    ensures steps { IfOk result (λ steps. steps_in steps.items ≡ outline next.old (stmts_of body.now.items)) }
    ensures next { IfOk result (λ _. next.new ≡ next.old + size (stmts_of body.now.items)) }
{
    let mut steps = Vec::new(alloc);
    for stmt in body {
        steps.push(outline_one(alloc, stmt, next)?)?;
    }
    Ok(steps)
}

#[cycle(outline)]
fn outline_one(alloc: Global, stmt: &Stmt, next: &mut u32) -> Result<Step, AllocError>
    requires { next.old + size_one (stmt_of stmt.now) < 2 ^ 32 }
    ensures step { IfOk result (λ step. step_of step ≡ outline_one next.old (stmt_of stmt.now)) }
    ensures next { IfOk result (λ _. next.new ≡ next.old + size_one (stmt_of stmt.now)) }
{
    let site = *next;
    *next += 1;
    match stmt {
        Stmt::Set(cell, expr) => Ok(Step::Set(site, *cell, expr.copy(alloc)?)),
        Stmt::Fold(op, cell, expr) => Ok(Step::Fold(site, *op, *cell, expr.copy(alloc)?)),
        Stmt::If(expr, one, two) => {
            let expr = expr.copy(alloc)?;
            let one = outline(alloc, one, next)?;
            let two = outline(alloc, two, next)?;
            Ok(Step::If(site, site, expr, one, two))
        }
        Stmt::Task(decl, body) => {
            let decl = decl.copy(alloc)?;
            Ok(Step::Task(site, decl, outline(alloc, body, next)?))
        }
        Stmt::Wait(None) => Ok(Step::Wait(site, None)),
        Stmt::Wait(Some(decl)) => Ok(Step::Wait(site, Some(decl.copy(alloc)?))),
        Stmt::Group(op, cells, body) => {
            let cells = cells.as_slice().to_vec(alloc)?;
            Ok(Step::Group(site, *op, cells, outline(alloc, body, next)?))
        }
    }
}
