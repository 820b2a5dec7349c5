//! The part of an array over which a group combines, and the parts of it that tasks name.
ghost use Rattle.std.specs.Prelude.{◌≡◌, option_map};
ghost use Rattle.ot_c_expressions.specs.Tree.{expr_of, item_of, part_of};
ghost use Rattle.ot_c_scope.specs.Scopes.{extent_of};
ghost use Rattle.ot_c_clauses.specs.Portions as meant;

use crate::section::{count_of, run_of, same_name};
use ot_c_expressions::{Expr, Item, Place};
use ot_c_scope::{Pointee, Portion, Scope, constant, run};
use ot_c_words::{IntegerType, Name};

/// Whether two values are the same, part by part, wherever they stand.
#[tactic(auto, unfolding(crate::specs::Portions::same_value))]
pub fn same_value(one: &Expr, two: &Expr) -> bool
    ensures { result ≡ meant.same_value (expr_of one.now) (expr_of two.now) }
{
    match (one, two) {
        (Expr::Number(_, n, kind), Expr::Number(_, m, other)) => *n == *m && *kind == *other,
        (Expr::Variable(_, x), Expr::Variable(_, y)) => same_name(*x, *y),
        (Expr::Cell(_, x, i), Expr::Cell(_, y, j)) => same_name(*x, *y) && same_value(i, j),
        (Expr::Cast(a), Expr::Cast(b)) => same_value(a, b),
        (Expr::Unary(_, sign, a), Expr::Unary(_, other, b)) => {
            *sign == *other && same_value(a, b)
        }
        (Expr::Call(_, call, a, b), Expr::Call(_, other, c, d)) => {
            *call == *other && same_value(a, c) && same_value(b, d)
        }
        (Expr::Op(_, sign, a, b), Expr::Op(_, other, c, d)) => {
            *sign == *other && same_value(a, c) && same_value(b, d)
        }
        (Expr::Choice(_, t, a, b), Expr::Choice(_, u, c, d)) => {
            same_value(t, u) && same_value(a, c) && same_value(b, d)
        }
        _ => false,
    }
}

/// Whether both are known, and one number.
fn same_known(one: Option<(u64, IntegerType)>, two: Option<(u64, IntegerType)>) -> bool
    ensures { result ≡ meant.same_known one two }
{
    match (one, two) {
        (Some((one, _)), Some((two, _))) => one == two,
        _ => false,
    }
}

/// Whether two sizes are one: the same known number, or the same text.
fn same_size(scope: &Scope<'_>, one: &Expr, two: &Expr) -> bool
    ensures { result ≡ meant.same_size scope.now (expr_of one.now) (expr_of two.now) }
{
    same_known(constant(scope, one), constant(scope, two)) || same_value(one, two)
}

fn same_run(one: Option<(u64, u64)>, two: Option<(u64, u64)>) -> bool
    ensures { result ≡ meant.same_run one two }
{
    match (one, two) {
        (Some((first, count)), Some((other, length))) => first == other && count == length,
        _ => false,
    }
}

#[tactic(auto, unfolding(crate::specs::Portions::same_cells))]
fn same_cells(scope: &Scope<'_>, one: &Place, two: &Place) -> bool
    ensures { result ≡ meant.same_cells scope.now (part_of one.now) (part_of two.now) }
{
    match (one, two) {
        (Place::Cells(first, count), Place::Cells(other, length)) => {
            same_size(scope, first, other) && same_size(scope, count, length)
        }
        _ => false,
    }
}

/// Whether an item names just the part of an array of so many cells that a group combines over.
fn is_portion(
    scope: &Scope<'_>,
    portion: &Portion<'_>,
    length: Option<usize>,
    place: &Place,
) -> bool
    ensures { result ≡ meant.is_portion scope.now (extent_of portion.now) length (part_of place.now) }
{
    let known = same_run(
        run_of(scope, length, portion.place),
        run_of(scope, length, place),
    );
    known || (same_cells(scope, portion.place, place) && !scope.hides(portion.around))
}

/// Whether an item is one that a group combines over, where that is an array's or a pointer's.
pub(crate) fn is_item(
    scope: &Scope<'_>,
    found: (Option<Pointee>, Option<usize>),
    item: &Item,
) -> bool
    ensures { result ≡ meant.is_item scope.now found (item_of item.now) }
{
    match found.0 {
        Some(_) => true,
        None => match scope.portion(item.array) {
            Some(portion) => is_portion(scope, &portion, found.1, &item.place),
            None => false,
        },
    }
}

/// Whether they are all cells of an array of so many.
fn is_all(length: Option<usize>, cells: (u64, u64)) -> bool
    ensures { result ≡ meant.is_all length cells }
{
    cells.0 == 0 && cells.1 == count_of(length) as u64
}

/// Whether these cells are known, and lie in others.
fn is_within(outer: (u64, u64), inner: Option<(u64, u64)>) -> bool
    ensures { result ≡ meant.is_within outer inner }
{
    let (first, count) = outer;
    match inner {
        Some((place, length)) => {
            first <= place && place - first <= count && length <= count - (place - first)
        }
        None => false,
    }
}

/// Whether cells that an index may name lie in those of a group, or those are all of the array.
fn lies_in(length: Option<usize>, outer: Option<(u64, u64)>, inner: Option<(u64, u64)>) -> bool
    ensures { result ≡ meant.lies_in length outer inner }
{
    match outer {
        Some(cells) => is_all(length, cells) || is_within(cells, inner),
        None => false,
    }
}

/// Whether it is a number above 0.
fn is_some_count(count: Option<(u64, IntegerType)>) -> bool
    ensures { result ≡ meant.is_some_count count }
{
    match count {
        Some((count, _)) => 0 < count,
        None => false,
    }
}

/// Whether cells begin at this index, of which there are some.
#[tactic(auto, unfolding(crate::specs::Portions::begins_at))]
fn begins_at(scope: &Scope<'_>, place: &Place, index: &Expr) -> bool
    ensures { result ≡ meant.begins_at scope.now (part_of place.now) (expr_of index.now) }
{
    match place {
        Place::Cells(first, count) => {
            same_size(scope, first, index) && is_some_count(constant(scope, count))
        }
        Place::Whole => false,
    }
}

/// Whether a cell at this index is one of the part that a group combines over, of an array of so many cells.
fn is_cell(scope: &Scope<'_>, portion: &Portion<'_>, length: Option<usize>, index: &Expr) -> bool
    ensures { result ≡ meant.is_cell scope.now (extent_of portion.now) length (expr_of index.now) }
{
    let known = lies_in(
        length,
        run_of(scope, length, portion.place),
        run(scope, index),
    );
    known || (begins_at(scope, portion.place, index) && !scope.hides(portion.around))
}

/// Whether a task has a copy of a cell at this index, where the name of an array of so many cells stands for its copy.
pub fn has_copy(scope: &Scope<'_>, array: Name, length: Option<usize>, index: &Expr) -> bool
    ensures { result ≡ meant.has_copy scope.now array length (expr_of index.now) }
{
    match scope.portion(array) {
        Some(portion) => is_cell(scope, &portion, length, index),
        None => false,
    }
}
