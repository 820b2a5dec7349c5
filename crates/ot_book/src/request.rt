ghost use Rattle.std.specs.Prelude.{◌≡◌, Some, None, IfOk, IfSome, option_map};
ghost use Rattle.serde_json.specs.Data.{item, no_items};
ghost use Rattle.serde_json.specs.View.{view, items_view};
ghost use Rattle.ot_book.specs.Requests.{request_of, form_of, numbers_in, new_of, free_of, put_of, get_of, IsProper, asks_checkpoint};
ghost use Rattle.ot_book.specs.RequestView.{asked_by};

use crate::reading::{read_name, read_numbers, read_size};
use ot_program::is_word;
use serde_json::Value;
use std::alloc::{AllocError, Global};

/// What a line asks.
#[derive(Debug, Drop)]
pub(crate) enum Request<'a> {
    /// Make an array of so many cells.
    New(&'a str, u32),
    /// Take an array away.
    Free(&'a str),
    /// Write numbers from a cell on.
    Put(&'a str, u32, Vec<u64>),
    /// Read so many cells from one on.
    Get(&'a str, u32, u32),
    /// Name the arrays.
    Arrays,
    /// Tell the units of all done replies.
    Used,
    /// Begin the log anew.
    Checkpoint,
    /// Run a program.
    Run(&'a Value),
}

/// What a value asks, where it asks anything.
pub(crate) fn read_request(alloc: Global, value: &Value) -> Result<Option<Request<'_>>, AllocError>
    ensures request { IfOk result (λ request. option_map asked_by request ≡ request_of (view value.now)) }
    ensures proper { IfOk result (λ request. IfSome request (λ r. IsProper (asked_by r))) }
{
    match value {
        Value::Array(items) => read_form(alloc, items),
        _ => Ok(None),
    }
}

/// Whether a value asks for a checkpoint.
pub(crate) fn asks_checkpoint(value: &Value) -> bool
    ensures { result ≡ asks_checkpoint (request_of (view value.now)) }
{
    match value {
        Value::Array(items) => is_checkpoint_form(items),
        _ => false,
    }
}

fn is_checkpoint_form(items: &[Value]) -> bool
    ensures { result ≡ asks_checkpoint (form_of (items_view items.now)) }
{
    if items.len() != 1 {
        return false;
    }
    is_word(&items[0], "checkpoint")
}

#[tactic(auto, using(crate::proofs::RequestLemmas::no_form))]
fn read_form(alloc: Global, items: &[Value]) -> Result<Option<Request<'_>>, AllocError>
    ensures request { IfOk result (λ request. option_map asked_by request ≡ form_of (items_view items.now)) }
    ensures proper { IfOk result (λ request. IfSome request (λ r. IsProper (asked_by r))) }
{
    let len = items.len();
    if len != 1 && len != 2 && len != 3 && len != 4 {
        return Ok(None);
    }
    match items {
        [tag] => Ok(word_request(tag)),
        [tag, last] => Ok(if is_word(tag, "run") {
            Some(Request::Run(last))
        } else if is_word(tag, "free") {
            free_request(last)
        } else {
            None
        }),
        [tag, name, len] => Ok(if is_word(tag, "new") {
            new_request(name, len)
        } else {
            None
        }),
        [tag, name, start, last] => {
            if is_word(tag, "put") {
                put_request(alloc, name, start, last)
            } else if is_word(tag, "get") {
                Ok(get_request(name, start, last))
            } else {
                Ok(None)
            }
        }
        _ => unreachable!(),
    }
}

fn word_request<'a>(tag: &Value) -> Option<Request<'a>>
    ensures request { option_map asked_by result ≡ form_of (item (view tag.now) no_items) }
    ensures proper { IfSome result (λ r. IsProper (asked_by r)) }
{
    if is_word(tag, "checkpoint") {
        Some(Request::Checkpoint)
    } else if is_word(tag, "list") {
        Some(Request::Arrays)
    } else if is_word(tag, "used") {
        Some(Request::Used)
    } else {
        None
    }
}

fn free_request(name: &Value) -> Option<Request<'_>>
    ensures request { option_map asked_by result ≡ free_of (view name.now) }
    ensures proper { IfSome result (λ r. IsProper (asked_by r)) }
{
    let name = read_name(name)?;
    Some(Request::Free(name))
}

fn new_request<'a>(name: &'a Value, len: &Value) -> Option<Request<'a>>
    ensures request { option_map asked_by result ≡ new_of (view name.now) (view len.now) }
    ensures proper { IfSome result (λ r. IsProper (asked_by r)) }
{
    let name = read_name(name)?;
    let len = read_size(len, 1)?;
    Some(Request::New(name, len))
}

fn put_request<'a>(
    alloc: Global,
    name: &'a Value,
    start: &Value,
    values: &Value,
) -> Result<Option<Request<'a>>, AllocError>
    ensures request { IfOk result (λ request. option_map asked_by request ≡ put_of (view name.now) (view start.now) (view values.now)) }
    ensures proper { IfOk result (λ request. IfSome request (λ r. IsProper (asked_by r))) }
{
    let (Some(name), Some(start)) = (read_name(name), read_size(start, 0)) else {
        return Ok(None);
    };
    let Some(values) = read_some_numbers(alloc, values)? else {
        return Ok(None);
    };
    Ok(Some(Request::Put(name, start, values)))
}

fn get_request<'a>(name: &'a Value, start: &Value, len: &Value) -> Option<Request<'a>>
    ensures request { option_map asked_by result ≡ get_of (view name.now) (view start.now) (view len.now) }
    ensures proper { IfSome result (λ r. IsProper (asked_by r)) }
{
    let name = read_name(name)?;
    let start = read_size(start, 0)?;
    let len = read_size(len, 1)?;
    Some(Request::Get(name, start, len))
}

/// At least one number from 0 to 2^64 - 1.
fn read_some_numbers(alloc: Global, value: &Value) -> Result<Option<Vec<u64>>, AllocError>
    ensures { IfOk result (λ numbers. option_map (λ v. v.items) numbers ≡ numbers_in (view value.now)) }
{
    let Value::Array(items) = value else {
        return Ok(None);
    };
    let Some(numbers) = read_numbers(alloc, items)? else {
        return Ok(None);
    };
    if numbers.is_empty() {
        Ok(None)
    } else {
        Ok(Some(numbers))
    }
}
