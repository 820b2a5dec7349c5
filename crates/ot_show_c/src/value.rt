//! Values. All is computed in unsigned numbers of 64 bits, which wrap as those of the language do.
ghost use Rattle.std.specs.Prelude.{◌≡◌, ◌++◌, OnOk};
ghost use Rattle.ot_model.specs.View.{expr_of};
ghost use Rattle.ot_show_c.specs.Statements as written;

use ot_model::{Expr, Op};
use ot_show_print::{Printer, is_nested};
use std::alloc::AllocError;

/// The greatest constant that needs no suffix in C.
const GREATEST_SIGNED: u64 = 9_223_372_036_854_775_807;

/// A constant beside unsigned numbers, or alone.
pub(crate) fn constant(out: &mut Printer<'_>, number: u64) -> Result<(), AllocError>
    ensures text { OnOk result (out.new.text ≡ out.old.text ++ written.constant number) }
    ensures names { out.new.names ≡ out.old.names }
{
    out.number(number)?;
    suffix(out, number)
}

fn suffix(out: &mut Printer<'_>, number: u64) -> Result<(), AllocError>
    ensures text { OnOk result (out.new.text ≡ out.old.text ++ written.suffix number) }
    ensures names { out.new.names ≡ out.old.names }
{
    if number > GREATEST_SIGNED {
        out.words("ULL")
    } else {
        Ok(())
    }
}

/// A value that stands alone: a right side, a condition or an argument.
#[cycle(value)]
pub(crate) fn value(out: &mut Printer<'_>, expr: &Expr) -> Result<(), AllocError>
    ensures text { OnOk result (out.new.text ≡ out.old.text ++ written.c_value out.old.names (expr_of expr.now)) }
    ensures names { out.new.names ≡ out.old.names }
{
    match expr {
        Expr::Number(number) => constant(out, *number),
        Expr::Cell(cell) => out.cell(*cell),
        Expr::Op(op, one, two) => {
            if op.is_call() {
                out.words(op.sign())?;
                value(out, one)?;
                out.words(", ")?;
                value(out, two)?;
                out.words(")")
            } else {
                left_side(out, one, two)?;
                out.words(op.sign())?;
                operand(out, two)
            }
        }
        Expr::Pick(section, chosen) => {
            out.name(section.array)?;
            out.words("[")?;
            first_of(out, section.start)?;
            operand(out, chosen)?;
            out.words(" % ")?;
            out.number(u64::from(section.len))?;
            out.words("]")
        }
    }
}

/// What stands before a sign. Two constants would be computed as signed numbers, so the first of them is unsigned.
#[cycle(value)]
fn left_side(out: &mut Printer<'_>, one: &Expr, two: &Expr) -> Result<(), AllocError>
    ensures text { OnOk result (out.new.text ≡ out.old.text ++ written.left_side out.old.names (expr_of one.now) (expr_of two.now)) }
    ensures names { out.new.names ≡ out.old.names }
{
    match one {
        Expr::Number(number) if is_number(two) => {
            out.number(*number)?;
            out.words("ULL")
        }
        _ => operand(out, one),
    }
}

/// A side of an operation: in brackets where it has a sign itself. A comparison would be an `int`.
#[cycle(value)]
fn operand(out: &mut Printer<'_>, expr: &Expr) -> Result<(), AllocError>
    ensures text { OnOk result (out.new.text ≡ out.old.text ++ written.operand out.old.names (expr_of expr.now)) }
    ensures names { out.new.names ≡ out.old.names }
{
    if is_int(expr) {
        out.words("(uint64_t)(")?;
        value(out, expr)?;
        out.words(")")
    } else if is_nested(expr) {
        out.words("(")?;
        value(out, expr)?;
        out.words(")")
    } else {
        value(out, expr)
    }
}

/// `2 + ` of a section from 2 on; nothing from 0 on.
fn first_of(out: &mut Printer<'_>, start: u32) -> Result<(), AllocError>
    ensures text { OnOk result (out.new.text ≡ out.old.text ++ written.first_offset start) }
    ensures names { out.new.names ≡ out.old.names }
{
    if start == 0 {
        return Ok(());
    }
    out.number(u64::from(start))?;
    out.words(" + ")
}

fn is_number(expr: &Expr) -> bool
    ensures { result ≡ written.is_number (expr_of expr.now) }
{
    matches!(expr, Expr::Number(_))
}

/// Whether it is an `int` in C.
fn is_int(expr: &Expr) -> bool
    ensures { result ≡ written.is_int (expr_of expr.now) }
{
    matches!(expr, Expr::Op(op, _, _) if is_comparison(*op))
}

fn is_comparison(op: Op) -> bool
    ensures { result ≡ written.is_comparison op }
{
    matches!(op, Op::Less | Op::Equal)
}
