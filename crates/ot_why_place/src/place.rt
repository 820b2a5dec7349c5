//! Where statements stand.
ghost use Rattle.std.specs.Prelude.{◌≡◌, IfOk, option_map, slice_get};
ghost use Rattle.serde_json.specs.Data.{array};
ghost use Rattle.serde_json.specs.View.{view, items_view};
ghost use Rattle.ot_program.specs.Meanings.{items};
ghost use Rattle.ot_why_place.specs.Spots.{spots_of, statements_of, item_numbered, place_at, value_at, place_by};
ghost use Rattle.ot_why_place.specs.Seeking.{seek, met_in, counts_by};

use crate::trail::{Place, Trail};
use crate::walk::{Step, Walk, Which};
use ot_program::{program_form, requested_program};
use serde_json::Value;
use std::alloc::{AllocError, Global};

/// Where the statement stands that has this number in replies to the request, which runs a program.
pub fn place_of<'a>(
    alloc: Global,
    request: &'a Value,
    number: u32,
) -> Result<Option<Place<'a>>, AllocError>
    ensures { IfOk result (λ found. option_map place_by found ≡ option_map place_at (item_numbered number (statements_of (view request.now)))) }
{
    if number == 0 {
        return Ok(None);
    }
    sought(alloc, request, Which::Statements, number - 1)
}

/// The same of all that the request's program has in order, from 0: the program itself, statements, loops with each of
/// their turns, and what is of no form.
pub fn entry_of<'a>(
    alloc: Global,
    request: &'a Value,
    index: u32,
) -> Result<Option<Place<'a>>, AllocError>
    ensures { IfOk result (λ found. option_map place_by found ≡ option_map place_at (slice_get (spots_of (view request.now)) index)) }
{
    sought(alloc, request, Which::All, index)
}

/// What stands in a line at a path.
pub fn value_at<'a>(line: &'a Value, path: &[usize]) -> Option<&'a Value>
    ensures { option_map (λ value. view value.now) result ≡ value_at (view line.now) path.now }
{
    match path {
        [] => Some(line),
        [index, rest @ ..] => value_at(item_at(line, *index)?, rest),
    }
}

/// An item of a list.
fn item_at<'a>(list: &'a Value, index: usize) -> Option<&'a Value>
    ensures { option_map (λ item. view item.now) result ≡ slice_get (items (view list.now)) index }
{
    match list {
        Value::Array(items) => item_of(items, index),
        _ => None,
    }
}

#[tactic(auto, using(crate::proofs::PlaceLemmas::items_at))]
fn item_of<'a>(list: &'a [Value], index: usize) -> Option<&'a Value>
    ensures { option_map (λ item. view item.now) result ≡ slice_get (items (array (items_view list.now))) index }
{
    if index < list.len() {
        Some(&list[index])
    } else {
        None
    }
}

fn sought<'a>(
    alloc: Global,
    request: &'a Value,
    which: Which,
    left: u32,
) -> Result<Option<Place<'a>>, AllocError>
    ensures { IfOk result (λ found. option_map place_by found ≡ met_in (seek (counts_by which) left (spots_of (view request.now)))) }
{
    let Some(program) = requested_program(request) else {
        return Ok(None);
    };
    let Some(form) = program_form(program) else {
        return Ok(None);
    };
    let walk = Walk {
        alloc,
        profile: form.profile,
        which,
    };
    match walk.program(form.shows, form.body, left)? {
        Step::Skipped(_) => Ok(None),
        Step::Met(place) => Ok(Some(place)),
    }
}
