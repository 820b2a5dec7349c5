ghost use Rattle.std.specs.Prelude.{◌≡◌, ◌≤◌, ◌<◌, ◌+◌, ◌^◌, IsOk, IfOk};
ghost use Rattle.ot_model.specs.View.{stmt_of, stmts_of};
ghost use Rattle.ot_model.specs.Cells.{lengths};
ghost use Rattle.ot_model.specs.Tree.{size, size_one, tasks_in, tasks_in_one};
ghost use Rattle.ot_model.specs.Serial.{serial, serial_one, serial_run, state_of};
ghost use Rattle.ot_model.specs.Names.{NamedIn, OneNamedIn};

use crate::cells::Cells;
use crate::expr::{Look, value};
use crate::fold::Monoid;
use crate::program::Program;
use crate::stmt::Stmt;
use std::alloc::{AllocError, Global};

/// What a run has executed: task statements, and units (a unit is one executed statement).
#[derive(Clone, Copy, Debug, PartialEq, Eq)]
pub struct Counts {
    pub tasks: u32,
    pub units: u32,
}

/// Runs a program whose cells are all there, each task where it is created. It works in place and
/// takes no memory today; a refusal would leave the cells as they were.
pub fn plain_run(_alloc: Global, program: &Program, cells: &mut Cells) -> Result<Counts, AllocError>
    requires { NamedIn (lengths cells.old) (stmts_of program.now.body.items) }
    ensures run { IfOk result (λ counts. state_of cells.new counts ≡ serial_run (stmts_of program.now.body.items) cells.old) }
    ensures kept { lengths cells.new ≡ lengths cells.old }
    ensures works { IsOk result }
    ensures bounded_tasks { IfOk result (λ counts. counts.tasks ≤ program.now.tasks) }
    ensures bounded_units { IfOk result (λ counts. counts.units ≤ program.now.statements) }
{
    let mut counts = Counts { tasks: 0, units: 0 };
    run_all(&program.body, cells, &mut counts);
    Ok(counts)
}

#[cycle(run)]
fn run_all(body: &Vec<Stmt>, cells: &mut Cells, counts: &mut Counts)
    requires named { NamedIn (lengths cells.old) (stmts_of body.now.items) }
    requires units_fit { counts.old.units + size (stmts_of body.now.items) < 2 ^ 32 }
    requires tasks_fit { counts.old.tasks + tasks_in (stmts_of body.now.items) < 2 ^ 32 }
    ensures run { state_of cells.new counts.new ≡ serial (stmts_of body.now.items) (state_of cells.old counts.old) }
    ensures kept { lengths cells.new ≡ lengths cells.old }
    ensures units { counts.new.units ≤ counts.old.units + size (stmts_of body.now.items) }
    ensures tasks { counts.new.tasks ≤ counts.old.tasks + tasks_in (stmts_of body.now.items) }
{
    for stmt in body {
        run_one(stmt, cells, counts);
    }
}

#[cycle(run)]
fn run_one(stmt: &Stmt, cells: &mut Cells, counts: &mut Counts)
    requires named { OneNamedIn (lengths cells.old) (stmt_of stmt.now) }
    requires units_fit { counts.old.units + size_one (stmt_of stmt.now) < 2 ^ 32 }
    requires tasks_fit { counts.old.tasks + tasks_in_one (stmt_of stmt.now) < 2 ^ 32 }
    ensures run { state_of cells.new counts.new ≡ serial_one (stmt_of stmt.now) (state_of cells.old counts.old) }
    ensures kept { lengths cells.new ≡ lengths cells.old }
    ensures units { counts.new.units ≤ counts.old.units + size_one (stmt_of stmt.now) }
    ensures tasks { counts.new.tasks ≤ counts.old.tasks + tasks_in_one (stmt_of stmt.now) }
{
    counts.units += 1;
    match stmt {
        Stmt::Set(cell, expr) => {
            let number = value(expr, &*cells);
            cells.set(*cell, number);
        }
        Stmt::Fold(op, cell, expr) => {
            let number = value(expr, &*cells);
            let before = cells.at(*cell);
            cells.set(*cell, op.join(before, number));
        }
        Stmt::If(expr, one, two) => {
            if value(expr, &*cells) == 0 {
                run_all(two, cells, counts);
            } else {
                run_all(one, cells, counts);
            }
        }
        Stmt::Task(_, body) => {
            counts.tasks += 1;
            run_all(body, cells, counts);
        }
        Stmt::Wait(_) => {}
        Stmt::Group(_, _, body) => run_all(body, cells, counts),
    }
}
