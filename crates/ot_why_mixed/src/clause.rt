//! A clause, by where its section stands in one row of all cells.
ghost use Rattle.std.specs.Prelude.{◌≡◌, [], ◌||◌, if◌then◌else◌, length, Some, None, option_map, codes};
ghost use Rattle.serde_json.specs.Data.{array, no_items, item};
ghost use Rattle.serde_json.specs.View.{view, items_view};
ghost use Rattle.ot_model.specs.Programs.{Arrays, arrays_of};
ghost use Rattle.ot_model.specs.declared.fold.Fold.TheVariants.{Plus};
ghost use Rattle.ot_program.specs.Faults.{section_faults, clause_faults};
ghost use Rattle.ot_program.specs.Meanings.{section, clause, fold_of, is_word};
ghost use Rattle.ot_program.specs.declared.profile.Profile.{Profile};
ghost use Rattle.ot_why_place.specs.Spots.{trail_bindings};
ghost use Rattle.ot_why_mixed.specs.Rows.{row_at, row_of, row_by, Fits, place_from};

use ot_model::{ArrayShape, Fold};
use ot_program::is_word;
use ot_why_place::{Trail, letters, size_of};
use serde_json::Value;

/// Each array has so many places in the row, which is more than it has cells.
const PLACES: u128 = 1 << 32;

/// A clause: the array and the start of its section, where this begins and ends in the row, and by what the clause folds.
#[derive(Clone, Copy, Debug)]
pub(crate) struct Named<'a> {
    pub(crate) array: &'a str,
    pub(crate) start: u32,
    pub(crate) from: u128,
    pub(crate) to: u128,
    pub(crate) fold: Option<Fold>,
}

/// A clause without a fault.
pub(crate) fn clause_of<'a>(
    arrays: &[ArrayShape],
    part: &'a Value,
    trail: &Trail<'_, 'a>,
) -> Option<Named<'a>>
    ensures row { (shape : Arrays) (profile : Profile) → shape.arrays ≡ arrays_of arrays.now → clause_faults shape profile (trail_bindings trail.now) (view part.now) ≡ []
        → option_map row_by result ≡ Some (row_of shape (clause shape profile (trail_bindings trail.now) (view part.now))) }
    ensures fits { (shape : Arrays) (profile : Profile) → shape.arrays ≡ arrays_of arrays.now → clause_faults shape profile (trail_bindings trail.now) (view part.now) ≡ []
        → Fits (clause shape profile (trail_bindings trail.now) (view part.now)).section }
{
    match part {
        Value::Array(items) => clause_of_items(arrays, items, trail),
        _ => None,
    }
}

fn clause_of_items<'a>(
    arrays: &[ArrayShape],
    items: &'a [Value],
    trail: &Trail<'_, 'a>,
) -> Option<Named<'a>>
    ensures row { (shape : Arrays) (profile : Profile) → shape.arrays ≡ arrays_of arrays.now → clause_faults shape profile (trail_bindings trail.now) (array (items_view items.now)) ≡ []
        → option_map row_by result ≡ Some (row_of shape (clause shape profile (trail_bindings trail.now) (array (items_view items.now)))) }
    ensures fits { (shape : Arrays) (profile : Profile) → shape.arrays ≡ arrays_of arrays.now → clause_faults shape profile (trail_bindings trail.now) (array (items_view items.now)) ≡ []
        → Fits (clause shape profile (trail_bindings trail.now) (array (items_view items.now))).section }
{
    if items.len() == 2 {
        return clause_of_two(arrays, items, trail);
    }
    if items.len() == 3 {
        return clause_of_three(arrays, items, trail);
    }
    None
}

fn clause_of_two<'a>(
    arrays: &[ArrayShape],
    items: &'a [Value],
    trail: &Trail<'_, 'a>,
) -> Option<Named<'a>>
    requires { length items.now ≡ 2 }
    ensures row { (shape : Arrays) (profile : Profile) → shape.arrays ≡ arrays_of arrays.now → clause_faults shape profile (trail_bindings trail.now) (array (items_view items.now)) ≡ []
        → option_map row_by result ≡ Some (row_of shape (clause shape profile (trail_bindings trail.now) (array (items_view items.now)))) }
    ensures fits { (shape : Arrays) (profile : Profile) → shape.arrays ≡ arrays_of arrays.now → clause_faults shape profile (trail_bindings trail.now) (array (items_view items.now)) ≡ []
        → Fits (clause shape profile (trail_bindings trail.now) (array (items_view items.now))).section }
{
    match items {
        [tag, section] => section_of(arrays, section, fold_of_word(tag), trail),
        _ => unreachable!(),
    }
}

fn clause_of_three<'a>(
    arrays: &[ArrayShape],
    items: &'a [Value],
    trail: &Trail<'_, 'a>,
) -> Option<Named<'a>>
    requires { length items.now ≡ 3 }
    ensures row { (shape : Arrays) (profile : Profile) → shape.arrays ≡ arrays_of arrays.now → clause_faults shape profile (trail_bindings trail.now) (array (items_view items.now)) ≡ []
        → option_map row_by result ≡ Some (row_of shape (clause shape profile (trail_bindings trail.now) (array (items_view items.now)))) }
    ensures fits { (shape : Arrays) (profile : Profile) → shape.arrays ≡ arrays_of arrays.now → clause_faults shape profile (trail_bindings trail.now) (array (items_view items.now)) ≡ []
        → Fits (clause shape profile (trail_bindings trail.now) (array (items_view items.now))).section }
{
    match items {
        [_tag, op, section] => section_of(arrays, section, fold_of(op), trail),
        _ => unreachable!(),
    }
}

/// A section without a fault, in a clause that folds so.
fn section_of<'a>(
    arrays: &[ArrayShape],
    part: &'a Value,
    fold: Option<Fold>,
    trail: &Trail<'_, 'a>,
) -> Option<Named<'a>>
    ensures row { (shape : Arrays) → shape.arrays ≡ arrays_of arrays.now → section_faults shape (trail_bindings trail.now) (view part.now) ≡ []
        → option_map row_by result ≡ Some (row_at shape (section shape (trail_bindings trail.now) (view part.now)) fold) }
    ensures fits { (shape : Arrays) → shape.arrays ≡ arrays_of arrays.now → section_faults shape (trail_bindings trail.now) (view part.now) ≡ []
        → Fits (section shape (trail_bindings trail.now) (view part.now)) }
{
    match part {
        Value::Array(items) => section_of_items(arrays, items, fold, trail),
        _ => None,
    }
}

fn section_of_items<'a>(
    arrays: &[ArrayShape],
    items: &'a [Value],
    fold: Option<Fold>,
    trail: &Trail<'_, 'a>,
) -> Option<Named<'a>>
    ensures row { (shape : Arrays) → shape.arrays ≡ arrays_of arrays.now → section_faults shape (trail_bindings trail.now) (array (items_view items.now)) ≡ []
        → option_map row_by result ≡ Some (row_at shape (section shape (trail_bindings trail.now) (array (items_view items.now))) fold) }
    ensures fits { (shape : Arrays) → shape.arrays ≡ arrays_of arrays.now → section_faults shape (trail_bindings trail.now) (array (items_view items.now)) ≡ []
        → Fits (section shape (trail_bindings trail.now) (array (items_view items.now))) }
{
    if items.len() != 3 {
        return None;
    }
    match items {
        [name, start, len] => cells_of(arrays, name, start, len, fold, trail),
        _ => unreachable!(),
    }
}

fn cells_of<'a>(
    arrays: &[ArrayShape],
    name: &'a Value,
    start: &Value,
    len: &Value,
    fold: Option<Fold>,
    trail: &Trail<'_, 'a>,
) -> Option<Named<'a>>
    ensures row { (shape : Arrays) → shape.arrays ≡ arrays_of arrays.now → section_faults shape (trail_bindings trail.now) (array (item (view name.now) (item (view start.now) (item (view len.now) no_items)))) ≡ []
        → option_map row_by result ≡ Some (row_at shape (section shape (trail_bindings trail.now) (array (item (view name.now) (item (view start.now) (item (view len.now) no_items))))) fold) }
    ensures fits { (shape : Arrays) → shape.arrays ≡ arrays_of arrays.now → section_faults shape (trail_bindings trail.now) (array (item (view name.now) (item (view start.now) (item (view len.now) no_items)))) ≡ []
        → Fits (section shape (trail_bindings trail.now) (array (item (view name.now) (item (view start.now) (item (view len.now) no_items))))) }
{
    let array = letters(name);
    let (position, cells) = place_of(arrays, array)?;
    let first = size_of(start, trail);
    let from = position as u128 * PLACES + u128::from(first);
    Some(Named {
        array,
        start: first.min(u64::from(cells)) as u32,
        from,
        to: from + u128::from(size_of(len, trail)),
        fold,
    })
}

/// The position of an array, and how many cells it has.
fn place_of(arrays: &[ArrayShape], name: &str) -> Option<(usize, u32)>
    ensures { result ≡ place_from 0 (arrays_of arrays.now) name.now }
{
    for (position, array) in arrays.iter().enumerate() {
        if array.name.as_str() == name {
            return Some((position, array.len));
        }
    }
    None
}

/// By what a clause of this word folds, without an operation.
fn fold_of_word(tag: &Value) -> Option<Fold>
    ensures { result ≡ if is_word (view tag.now) (codes "in") || (is_word (view tag.now) (codes "out") || is_word (view tag.now) (codes "inout"))
        then None else Some Plus }
{
    if is_word(tag, "in") || is_word(tag, "out") || is_word(tag, "inout") {
        None
    } else {
        Some(Fold::Plus)
    }
}

fn fold_of(op: &Value) -> Option<Fold>
    ensures { result ≡ fold_of (view op.now) }
{
    match op {
        Value::String(text) => Fold::of_identifier(text.as_str()),
        _ => None,
    }
}
