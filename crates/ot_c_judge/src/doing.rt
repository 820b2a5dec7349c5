//! What a statement does with a cell, in a word.
ghost use Rattle.std.specs.Prelude.{◌≡◌, Some};
ghost use Rattle.ot_model.specs.View.{stmt_of, stmts_of};
ghost use Rattle.ot_c_judge.specs.Doing as meant;
ghost use Rattle.ot_c_judge.specs.Fits.{Fits};
ghost use Rattle.ot_c_judge.specs.FoundView.{stood_by};

use crate::found::{Stood, find_in};
use ot_model::{Cell, Program, Stmt};

/// What the statement at a place of a program does with a cell.
pub(crate) fn done_at(program: &Program, place: u32, cell: Cell) -> &'static str
    requires { Fits (stmts_of program.now.body.items) }
    ensures { result.now ≡ meant.done_at (stmts_of program.now.body.items) place cell }
{
    match find_in(&program.body, place, 1, None) {
        Ok(_) => "touched",
        Err(stood) => done_by(stood, cell),
    }
}

fn done_by(at: Stood<'_>, cell: Cell) -> &'static str
    ensures { result.now ≡ meant.done_by (Some (stood_by at.entry)) cell }
{
    does(at.statement, cell)
}

/// A statement writes the cell that it sets or folds into, and reads others.
fn does(statement: &Stmt, cell: Cell) -> &'static str
    ensures { result.now ≡ meant.does (stmt_of statement.now) cell }
{
    match statement {
        Stmt::Set(target, _) | Stmt::Fold(_, target, _) => written_if(*target, cell),
        Stmt::If(_, _, _) => "read",
        Stmt::Group(_, _, _) => "written",
        Stmt::Task(_, _) | Stmt::Wait(_) => "touched",
    }
}

fn written_if(target: Cell, cell: Cell) -> &'static str
    ensures { result.now ≡ meant.written_if target cell }
{
    if target == cell { "written" } else { "read" }
}
