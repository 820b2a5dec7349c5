//! What a program names: arrays, and the functions `min` and `max`.
ghost use Rattle.std.specs.Prelude.{◌≡◌};
ghost use Rattle.ot_model.specs.Programs.{expanded_of};
ghost use Rattle.ot_model.specs.View.{expr_of, stmt_of, stmts_of};
ghost use Rattle.ot_show_c.specs.Named as named;

use ot_model::{Cell, Decl, Expr, Fold, Op, Program, Section, Stmt};

/// A function that values and folds may call.
#[derive(Clone, Copy)]
pub enum Call {
    Min,
    Max,
}

/// Whether a program names the array of this number: in its body, or in what it shows.
pub fn names(program: &Program, array: usize) -> bool
    ensures { result ≡ named.names (expanded_of program.now) array }
{
    sections_name(&program.shows, array) || body_names(&program.body, array)
}

fn is_array(number: u32, array: usize) -> bool
    ensures { result ≡ named.is_array array number }
{
    number as usize == array
}

fn sections_name(sections: &[Section], array: usize) -> bool
    ensures { result ≡ named.sections_name array sections.now }
{
    sections
        .iter()
        .any(|section| is_array(section.array, array))
}

#[cycle(names)]
fn body_names(stmts: &[Stmt], array: usize) -> bool
    ensures { result ≡ named.body_names array (stmts_of stmts.now) }
{
    for stmt in stmts {
        if stmt_names(stmt, array) {
            return true;
        }
    }
    false
}

#[cycle(names)]
fn stmt_names(stmt: &Stmt, array: usize) -> bool
    ensures { result ≡ named.statement_names array (stmt_of stmt.now) }
{
    match stmt {
        Stmt::Set(cell, expr) => is_array(cell.array, array) || value_names(expr, array),
        Stmt::Fold(_, cell, expr) => is_array(cell.array, array) || value_names(expr, array),
        Stmt::If(expr, one, two) => {
            value_names(expr, array) || body_names(one, array) || body_names(two, array)
        }
        Stmt::Task(decl, body) => decl_names(decl, array) || body_names(body, array),
        Stmt::Wait(None) => false,
        Stmt::Wait(Some(decl)) => decl_names(decl, array),
        Stmt::Group(_, cells, body) => cells_name(cells, array) || body_names(body, array),
    }
}

fn value_names(expr: &Expr, array: usize) -> bool
    ensures { result ≡ named.value_names array (expr_of expr.now) }
{
    match expr {
        Expr::Number(_) => false,
        Expr::Cell(cell) => is_array(cell.array, array),
        Expr::Op(_, one, two) => value_names(one, array) || value_names(two, array),
        Expr::Pick(section, chosen) => {
            is_array(section.array, array) || value_names(chosen, array)
        }
    }
}

fn decl_names(decl: &Decl, array: usize) -> bool
    ensures { result ≡ named.uses_name array decl.now }
{
    decl.uses()
        .iter()
        .any(|used| is_array(used.cell.array, array))
}

fn cells_name(cells: &[Cell], array: usize) -> bool
    ensures { result ≡ named.cells_name array cells.now }
{
    cells.iter().any(|cell| is_array(cell.array, array))
}

/// Whether statements call the function.
#[cycle(calls)]
pub(crate) fn body_calls(stmts: &[Stmt], call: Call) -> bool
    ensures { result ≡ named.body_calls call (stmts_of stmts.now) }
{
    for stmt in stmts {
        if stmt_calls(stmt, call) {
            return true;
        }
    }
    false
}

#[cycle(calls)]
fn stmt_calls(stmt: &Stmt, call: Call) -> bool
    ensures { result ≡ named.statement_calls call (stmt_of stmt.now) }
{
    match stmt {
        Stmt::Set(_, expr) => value_calls(expr, call),
        Stmt::Fold(by, _, expr) => is_fold(call, *by) || value_calls(expr, call),
        Stmt::If(expr, one, two) => {
            value_calls(expr, call) || body_calls(one, call) || body_calls(two, call)
        }
        Stmt::Task(_, body) => body_calls(body, call),
        Stmt::Wait(_) => false,
        Stmt::Group(_, _, body) => body_calls(body, call),
    }
}

fn value_calls(expr: &Expr, call: Call) -> bool
    ensures { result ≡ named.value_calls call (expr_of expr.now) }
{
    match expr {
        Expr::Number(_) | Expr::Cell(_) => false,
        Expr::Op(op, one, two) => {
            is_op(call, *op) || value_calls(one, call) || value_calls(two, call)
        }
        Expr::Pick(_, chosen) => value_calls(chosen, call),
    }
}

fn is_op(call: Call, op: Op) -> bool
    ensures { result ≡ named.is_op call op }
{
    matches!((call, op), (Call::Min, Op::Min) | (Call::Max, Op::Max))
}

/// Whether a fold by this operation calls the function.
fn is_fold(call: Call, op: Fold) -> bool
    ensures { result ≡ named.is_fold_call call op }
{
    matches!((call, op), (Call::Min, Fold::Min) | (Call::Max, Fold::Max))
}
