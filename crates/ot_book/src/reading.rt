//! What requests and replies are made of: the value of a line, names, sizes, numbers, and names with lengths.
ghost use Rattle.std.specs.Prelude.{◌≡◌, ◌≤◌, IfOk, IfSome, option_map};
ghost use Rattle.serde_json.specs.View.{view, items_view};
ghost use Rattle.ot_model.specs.Programs.{arrays_of};
ghost use Rattle.ot_book.specs.Answers.{value_of};
ghost use Rattle.ot_book.specs.Requests.{name_in, size_in, all_numbers, all_sized, sized_in, sized_of};
ghost use Rattle.ot_book.specs.RequestView.{sized_by};

use ot_model::ArrayShape;
use ot_program::is_name;
use serde_json::Value;
use std::alloc::{AllocError, Global};

/// The value of a line, where it is JSON in UTF-8.
pub fn read_line(alloc: Global, line: &[u8]) -> Result<Option<Value>, AllocError>
    ensures { IfOk result (λ value. option_map view value ≡ value_of line.now) }
{
    match Value::from_slice(alloc, line) {
        Ok(value) => Ok(Some(value)),
        Err(error) => {
            if error.is_memory() {
                return Err(AllocError);
            }
            Ok(None)
        }
    }
}

/// A name of an array.
pub fn read_name(value: &Value) -> Option<&str>
    ensures { option_map (λ name. name.now) result ≡ name_in (view value.now) }
{
    match value {
        Value::String(text) if is_name(text.as_str()) => Some(text.as_str()),
        _ => None,
    }
}

/// A whole number from `low` to 2^32 - 1.
pub fn read_size(value: &Value, low: u32) -> Option<u32>
    ensures size { result ≡ size_in low (view value.now) }
    ensures low { IfSome result (λ n. low ≤ n) }
{
    match value.as_u64() {
        Some(number) if u64::from(low) <= number && number < 1 << 32 => Some(number as u32),
        _ => None,
    }
}

/// Numbers from 0 to 2^64 - 1.
pub fn read_numbers(alloc: Global, items: &Vec<Value>) -> Result<Option<Vec<u64>>, AllocError>
    ensures { IfOk result (λ numbers. option_map (λ v. v.items) numbers ≡ all_numbers (items_view items.now.items)) }
{
    let mut numbers = Vec::with_capacity(alloc, items.len())?;
    for item in items {
        let Some(number) = item.as_u64() else {
            return Ok(None);
        };
        numbers.push(number)?;
    }
    Ok(Some(numbers))
}

/// Names of arrays with their lengths, each from `low` to 2^32 - 1.
pub fn read_arrays(
    alloc: Global,
    items: &Vec<Value>,
    low: u32,
) -> Result<Option<Vec<ArrayShape>>, AllocError>
    ensures { IfOk result (λ arrays. option_map (λ v. arrays_of v.items) arrays ≡ all_sized low (items_view items.now.items)) }
{
    let mut arrays = Vec::new(alloc);
    for item in items {
        let Some(array) = read_sized(alloc, item, low)? else {
            return Ok(None);
        };
        arrays.push(array)?;
    }
    Ok(Some(arrays))
}

fn read_sized(alloc: Global, value: &Value, low: u32) -> Result<Option<ArrayShape>, AllocError>
    ensures { IfOk result (λ array. option_map sized_by array ≡ sized_in low (view value.now)) }
{
    match value {
        Value::Array(items) => read_pair(alloc, items, low),
        _ => Ok(None),
    }
}

#[tactic(auto, using(crate::proofs::RequestLemmas::no_pair))]
fn read_pair(alloc: Global, items: &[Value], low: u32) -> Result<Option<ArrayShape>, AllocError>
    ensures { IfOk result (λ array. option_map sized_by array ≡ sized_of low (items_view items.now)) }
{
    if items.len() != 2 {
        return Ok(None);
    }
    match items {
        [name, len] => match (read_name(name), read_size(len, low)) {
            (Some(name), Some(len)) => Ok(Some(ArrayShape {
                name: String::from_str(alloc, name)?,
                len,
            })),
            _ => Ok(None),
        },
        _ => unreachable!(),
    }
}
