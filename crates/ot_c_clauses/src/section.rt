//! Items of clauses as sections of arrays.
ghost use Rattle.std.specs.Prelude.{◌≡◌, IfOk};
ghost use Rattle.serde_json.specs.View.{view};
ghost use Rattle.ot_c_expressions.specs.Tree.{item_of, over_of, part_of, range_of};
ghost use Rattle.ot_c_scope.specs.Results.{GivesAs};
ghost use Rattle.ot_c_clauses.specs.Sections as meant;

use ot_c_expressions::{Expr, Item, Place, Range};
use ot_c_overlap::is_difference;
use ot_c_scope::{CFault, Pointee, Reason, Scope, Sense, constant, json, run_by, size};
use ot_c_words::{IntegerType, Name};
use serde_json::Value;
use std::alloc::{AllocError, Global};

/// Why a name has no cells that a clause names.
pub fn no_cells(sense: Sense) -> Reason
    ensures { result ≡ meant.no_cells sense }
{
    match sense {
        Sense::Nothing => Reason::Unknown,
        Sense::Constant(_, _) => Reason::Constant,
        Sense::Turn(_) | Sense::Begins => Reason::LoopVariable,
        Sense::Cells(_, _) | Sense::Combined(_, _, _) => Reason::Combined,
        Sense::Pointer(_, _) => Reason::Pointer,
        Sense::Function(_) => Reason::Function,
    }
}

/// How many cells an array has.
pub(crate) fn count_of(length: Option<usize>) -> usize
    ensures { result ≡ meant.count_of length }
{
    match length {
        Some(count) => count,
        None => 1,
    }
}

/// Whether it is the first cell from a pointer on, and no other.
#[tactic(auto, unfolding(crate::specs::Sections::is_only))]
fn is_only(place: &Place) -> bool
    ensures { result ≡ meant.is_only (part_of place.now) }
{
    match place {
        Place::Cells(Expr::Number(_, first, _), Expr::Number(_, count, _)) => *first == 0
            && *count == 1,
        _ => false,
    }
}

/// The cell that a pointer points to.
pub(crate) fn pointed(
    alloc: Global,
    scope: &Scope<'_>,
    left: usize,
    cell: Pointee,
    place: &Place,
) -> Result<Value, CFault>
    ensures { GivesAs (λ v. view v) result (meant.cell_pointed_at scope.now left cell (part_of place.now)) }
{
    if !is_only(place) {
        return Err(CFault::Outside(left, Reason::Pointee));
    }
    let name = scope.named(alloc, Name::Other(cell.array))?;
    let first = Value::from(cell.place);
    Ok(json::three(alloc, name, first, Value::from(1u64))?)
}

/// How many cells an item has that no iterator counts. A difference would say that one does.
fn plain(alloc: Global, count: Value) -> Result<Value, AllocError>
    ensures { IfOk result (λ v. view v ≡ meant.plain (view count)) }
{
    if is_difference(&count) {
        return json::form2(alloc, "+", count, Value::from(0u64));
    }
    Ok(count)
}

/// A part of what has so many cells.
pub(crate) fn part(
    alloc: Global,
    scope: &Scope<'_>,
    left: usize,
    array: Name,
    length: Option<usize>,
    place: &Place,
) -> Result<Value, CFault>
    ensures { GivesAs (λ v. view v) result (meant.part scope.now left array length (part_of place.now)) }
{
    let name = scope.named(alloc, array)?;
    match place {
        Place::Whole => {
            let count = Value::from(count_of(length));
            Ok(json::three(alloc, name, Value::from(0u64), count)?)
        }
        Place::Cells(first, count) => {
            if length.is_none() {
                return Err(CFault::Outside(left, Reason::NoArray));
            }
            let (first, _) = size(alloc, scope, first)?;
            let (count, _) = size(alloc, scope, count)?;
            let count = plain(alloc, count)?;
            Ok(json::three(alloc, name, first, count)?)
        }
    }
}

/// Whether both are the same name, which means nothing by itself.
#[tactic(auto, unfolding(crate::specs::Sections::same_name))]
pub(crate) fn same_name(one: Name, two: Name) -> bool
    ensures { result ≡ meant.same_name one two }
{
    match (one, two) {
        (Name::Other(one), Name::Other(two)) => one == two,
        _ => false,
    }
}

/// Whether an item is one cell, at the place that an iterator counts.
#[tactic(auto, unfolding(crate::specs::Sections::is_counted))]
fn is_counted(variable: Name, place: &Place) -> bool
    ensures { result ≡ meant.is_counted variable (part_of place.now) }
{
    match place {
        Place::Cells(Expr::Variable(_, name), Expr::Number(_, 1, _)) => same_name(*name, variable),
        _ => false,
    }
}

/// The cells of an array that an iterator counts.
fn counted(
    alloc: Global,
    scope: &Scope<'_>,
    left: usize,
    over: &Range,
    array: Name,
    length: Option<usize>,
    place: &Place,
) -> Result<Value, CFault>
    ensures { GivesAs (λ v. view v) result (meant.iterated_cells scope.now left (range_of over.now) array length (part_of place.now)) }
{
    if length.is_none() || !is_counted(over.variable, place) {
        return Err(CFault::Outside(left, Reason::Iterator));
    }
    let name = scope.named(alloc, array)?;
    let (first, _) = size(alloc, scope, &over.start)?;
    let (end, _) = size(alloc, scope, &over.end)?;
    let count = json::form2(alloc, "-", end, first.clone()?)?;
    Ok(json::three(alloc, name, first, count)?)
}

/// The section that an item of a clause names, over which no open group combines.
pub(crate) fn section(
    alloc: Global,
    scope: &Scope<'_>,
    over: &Option<Range>,
    item: &Item,
) -> Result<Value, CFault>
    ensures { GivesAs (λ v. view v) result (meant.item_section scope.now (over_of over.now) (item_of item.now)) }
{
    let left = item.left;
    match scope.sense(item.array) {
        Sense::Cells(_, length) => match over {
            None => part(alloc, scope, left, item.array, length, &item.place),
            Some(over) => counted(alloc, scope, left, over, item.array, length, &item.place),
        },
        other => Err(CFault::Outside(left, no_cells(other))),
    }
}

fn run_between(
    first: Option<(u64, IntegerType)>,
    end: Option<(u64, IntegerType)>,
) -> Option<(u64, u64)>
    ensures { result ≡ meant.run_between first end }
{
    let (first, _) = first?;
    let (end, _) = end?;
    Some((first, end.saturating_sub(first)))
}

pub(crate) fn run_of(scope: &Scope<'_>, length: Option<usize>, place: &Place) -> Option<(u64, u64)>
    ensures { result ≡ meant.run_of scope.now length (part_of place.now) }
{
    match place {
        Place::Whole => Some((0, count_of(length) as u64)),
        Place::Cells(first, count) => run_by(constant(scope, first), constant(scope, count)),
    }
}

/// How many cells an array has.
fn length_of(sense: Sense) -> Option<usize>
    ensures { result ≡ meant.sense_length sense }
{
    match sense {
        Sense::Cells(_, length) => length,
        Sense::Nothing | Sense::Constant(_, _) | Sense::Turn(_) | Sense::Begins => None,
        Sense::Combined(_, _, _) | Sense::Pointer(_, _) | Sense::Function(_) => None,
    }
}

/// Which cells an item names: so many from a place on, where that is known.
pub(crate) fn cells_named(
    scope: &Scope<'_>,
    over: &Option<Range>,
    item: &Item,
) -> Option<(u64, u64)>
    ensures { result ≡ meant.item_run scope.now (over_of over.now) (item_of item.now) }
{
    match over {
        None => run_of(scope, length_of(scope.sense(item.array)), &item.place),
        Some(over) => run_between(constant(scope, &over.start), constant(scope, &over.end)),
    }
}
