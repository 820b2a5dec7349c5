//! Folds.
ghost use Rattle.std.specs.Prelude.{◌≡◌, ◌++◌, OnOk};
ghost use Rattle.ot_model.specs.View.{expr_of};
ghost use Rattle.ot_show_c.specs.Statements as written;

use crate::clause::pointer;
use crate::value::value;
use ot_model::{Cell, Decl, Expr, Fold, Mode};
use ot_show_print::Printer;
use std::alloc::AllocError;

/// A fold in the body of a task with this declaration: `a[0] += 2;`, or `a[0] = max(a[0], 2);`, a function, so that the
/// value is computed once.
pub(crate) fn fold(
    out: &mut Printer<'_>,
    own: &Decl,
    op: Fold,
    cell: Cell,
    expr: &Expr,
) -> Result<(), AllocError>
    ensures text { OnOk result (out.new.text ≡ out.old.text ++ written.c_fold out.old.names own.now op cell (expr_of expr.now)) }
    ensures names { out.new.names ≡ out.old.names }
{
    target(out, own, op, cell)?;
    if op.is_call() {
        out.words(" = ")?;
        out.words(op.sign())?;
        target(out, own, op, cell)?;
        out.words(", ")?;
        value(out, expr)?;
        out.words(");\n")
    } else {
        out.words(op.sign())?;
        value(out, expr)?;
        out.words(";\n")
    }
}

/// The cell that is folded into: where the task only folds into it by the operation, its own copy.
fn target(out: &mut Printer<'_>, own: &Decl, op: Fold, cell: Cell) -> Result<(), AllocError>
    ensures text { OnOk result (out.new.text ≡ out.old.text ++ written.target out.old.names own.now op cell) }
    ensures names { out.new.names ≡ out.old.names }
{
    if only_folds(own, op, cell) {
        pointer(out, op, cell)?;
        out.words("[0]")
    } else {
        out.cell(cell)
    }
}

/// Whether a task that declares this only folds into the cell, by the operation.
pub fn only_folds(own: &Decl, op: Fold, cell: Cell) -> bool
    ensures { result ≡ written.only_folds own.now op cell }
{
    match own.mode(cell) {
        Some(mode) => mode == Mode::Folds(op),
        None => false,
    }
}
