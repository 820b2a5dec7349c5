//! What is at fault between a request and the arrays, with its numbers.
ghost use Rattle.std.specs.Prelude.{◌≡◌, ◌<◌, ◌^◌, Some, bytes_eq, sum, option_map, option_and_then};
ghost use Rattle.std.specs.Map.{lookup};
ghost use Rattle.serde_json.specs.View.{view, items_view};
ghost use Rattle.ot_model.specs.Programs.{arrays_of};
ghost use Rattle.ot_book.specs.Requests.{request_of, form_of, new_of, free_of, put_of, get_of};
ghost use Rattle.ot_why_reason.specs.Faults.{cells_count, fault_in, free_fault, new_fault, reach_fault, fault_by};

use crate::form::read_numbers;
use ot_book::{read_name, read_size};
use ot_model::ArrayShape;
use ot_program::is_word;
use ot_store::Limits;
use serde_json::Value;

/// Why the arrays refuse a request.
#[derive(Clone, Copy, Debug)]
pub enum Fault<'a> {
    /// 412: no array has this name.
    Unknown(&'a str),
    /// 413: the array with this name has so many cells.
    Taken(&'a str, u32),
    /// 414: from this cell on, so many cells of the array with this name, which has so many.
    Beyond(&'a str, u32, usize, u32),
    /// 415: all arrays have so many cells, so many more are asked for, and the tenant may have so many.
    TooManyCells(u64, u32, u32),
    /// 416: there are so many arrays, and the tenant may have so many.
    TooManyArrays(usize, u32),
}

/// Why these arrays refuse a request, where they do. It says nothing of a program that is run.
pub fn fault_of<'a>(
    request: &'a Value,
    arrays: &'a [ArrayShape],
    limits: &Limits,
) -> Option<Fault<'a>>
    requires { cells_count (arrays_of arrays.now) < 2 ^ 32 }
    ensures { option_map fault_by result ≡ option_and_then (fault_in limits.now (arrays_of arrays.now)) (request_of (view request.now)) }
{
    match request {
        Value::Array(items) => of_form(items, arrays, limits),
        _ => None,
    }
}

fn of_form<'a>(items: &'a [Value], arrays: &'a [ArrayShape], limits: &Limits) -> Option<Fault<'a>>
    requires { cells_count (arrays_of arrays.now) < 2 ^ 32 }
    ensures { option_map fault_by result ≡ option_and_then (fault_in limits.now (arrays_of arrays.now)) (form_of (items_view items.now)) }
{
    let len = items.len();
    if len != 2 && len != 3 && len != 4 {
        return None;
    }
    match items {
        [tag, name] => {
            if is_word(tag, "run") {
                None
            } else if is_word(tag, "free") {
                of_free(name, arrays)
            } else {
                None
            }
        }
        [tag, name, len] => {
            if is_word(tag, "new") {
                of_new(name, len, arrays, limits)
            } else {
                None
            }
        }
        [tag, name, start, last] => {
            if is_word(tag, "put") {
                of_put(name, start, last, arrays)
            } else if is_word(tag, "get") {
                of_get(name, start, last, arrays)
            } else {
                None
            }
        }
        _ => unreachable!(),
    }
}

fn of_free<'a>(name: &'a Value, arrays: &[ArrayShape]) -> Option<Fault<'a>>
    ensures { (l : Limits) → option_map fault_by result ≡ option_and_then (fault_in l (arrays_of arrays.now)) (free_of (view name.now)) }
{
    let name = read_name(name)?;
    match len_of(arrays, name) {
        Some(_) => None,
        None => Some(Fault::Unknown(name)),
    }
}

fn of_new<'a>(
    name: &'a Value,
    len: &Value,
    arrays: &[ArrayShape],
    limits: &Limits,
) -> Option<Fault<'a>>
    requires { cells_count (arrays_of arrays.now) < 2 ^ 32 }
    ensures { option_map fault_by result ≡ option_and_then (fault_in limits.now (arrays_of arrays.now)) (new_of (view name.now) (view len.now)) }
{
    let name = read_name(name)?;
    let len = read_size(len, 1)?;
    if let Some(has) = len_of(arrays, name) {
        return Some(Fault::Taken(name, has));
    }
    if arrays.len() >= limits.arrays as usize {
        return Some(Fault::TooManyArrays(arrays.len(), limits.arrays));
    }
    let has = count(arrays);
    if has + u64::from(len) > u64::from(limits.cells) {
        return Some(Fault::TooManyCells(has, len, limits.cells));
    }
    None
}

fn of_put<'a>(
    name: &'a Value,
    start: &Value,
    values: &Value,
    arrays: &[ArrayShape],
) -> Option<Fault<'a>>
    ensures { (l : Limits) → option_map fault_by result ≡ option_and_then (fault_in l (arrays_of arrays.now)) (put_of (view name.now) (view start.now) (view values.now)) }
{
    let name = read_name(name)?;
    let start = read_size(start, 0)?;
    let numbers = read_numbers(values)?;
    reach(name, start, numbers.len(), arrays)
}

fn of_get<'a>(
    name: &'a Value,
    start: &Value,
    len: &Value,
    arrays: &[ArrayShape],
) -> Option<Fault<'a>>
    ensures { (l : Limits) → option_map fault_by result ≡ option_and_then (fault_in l (arrays_of arrays.now)) (get_of (view name.now) (view start.now) (view len.now)) }
{
    let name = read_name(name)?;
    let start = read_size(start, 0)?;
    let len = read_size(len, 1)?;
    reach(name, start, len as usize, arrays)
}

/// Whether an array is there and has `count` cells from `start` on.
fn reach<'a>(name: &'a str, start: u32, count: usize, arrays: &[ArrayShape]) -> Option<Fault<'a>>
    requires { count < 2 ^ 63 }
    ensures { option_map fault_by result ≡ reach_fault name.now start count (lookup (bytes_eq name.now) (arrays_of arrays.now)) }
{
    let Some(has) = len_of(arrays, name) else {
        return Some(Fault::Unknown(name));
    };
    if start as usize + count > has as usize {
        Some(Fault::Beyond(name, start, count, has))
    } else {
        None
    }
}

/// How many cells the array with this name has.
pub(crate) fn len_of(arrays: &[ArrayShape], name: &str) -> Option<u32>
    ensures { result ≡ lookup (bytes_eq name.now) (arrays_of arrays.now) }
{
    for array in arrays {
        if name == array.name.as_str() {
            return Some(array.len);
        }
    }
    None
}

/// How many cells all arrays have.
fn count(arrays: &[ArrayShape]) -> u64
    requires { cells_count (arrays_of arrays.now) < 2 ^ 32 }
    ensures { result ≡ cells_count (arrays_of arrays.now) }
{
    let mut cells = 0;
    for array in arrays {
        cells += u64::from(array.len);
    }
    cells
}
