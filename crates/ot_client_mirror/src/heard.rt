//! What a server's reply tells.
ghost use Rattle.std.specs.Prelude.{◌≡◌, IfOk, option_map};
ghost use Rattle.serde_json.specs.Data.{item, no_items};
ghost use Rattle.serde_json.specs.View.{view, items_view};
ghost use Rattle.ot_client_mirror.specs.Mirrors.{one_behind, told_in_list, told_in, told_in_data, two_behind};
ghost use Rattle.ot_client_mirror.specs.HeardView.{told_as};

use ot_book::{read_arrays, read_line, read_size};
use ot_model::ArrayShape;
use ot_program::is_word;
use serde_json::Value;
use std::alloc::{AllocError, Global};

/// What a reply tells, of the replies that a mirror goes by. The request's number isn't kept.
#[derive(Debug, Drop)]
pub(crate) enum Heard {
    /// The line was taken.
    Taken,
    /// Names and lengths.
    Listed(Vec<ArrayShape>),
    /// The line was refused.
    Refused(Refusal),
}

/// What a server tells of a line that it refuses: the code, and of a program that could race the number of the statement.
#[derive(Clone, Copy, Debug, PartialEq, Eq)]
pub(crate) struct Refusal {
    pub(crate) code: u32,
    pub(crate) place: Option<u32>,
}

/// What a reply tells, where it is of one of the four forms.
pub(crate) fn hear(alloc: Global, reply: &[u8]) -> Result<Option<Heard>, AllocError>
    ensures { IfOk result (λ heard. option_map told_as heard ≡ told_in reply.now) }
{
    match read_line(alloc, reply)? {
        Some(value) => read_reply(alloc, &value),
        None => Ok(None),
    }
}

fn read_reply(alloc: Global, value: &Value) -> Result<Option<Heard>, AllocError>
    ensures { IfOk result (λ heard. option_map told_as heard ≡ told_in_data (view value.now)) }
{
    match value {
        Value::Array(items) => read_items(alloc, items),
        _ => Ok(None),
    }
}

#[tactic(auto, using(crate::proofs::HeardLemmas::no_reply))]
fn read_items(alloc: Global, items: &[Value]) -> Result<Option<Heard>, AllocError>
    ensures { IfOk result (λ heard. option_map told_as heard ≡ told_in_list (items_view items.now)) }
{
    let len = items.len();
    if len < 2 || len > 4 {
        return Ok(None);
    }
    match items {
        [tag, number] => Ok(read_taken(tag, number)),
        [tag, number, told] => match number.as_u64() {
            Some(_) => read_one(alloc, tag, told),
            None => Ok(None),
        },
        [tag, number, code, place] => match number.as_u64() {
            Some(_) => Ok(read_two(tag, code, place)),
            None => Ok(None),
        },
        _ => unreachable!(),
    }
}

fn read_taken(tag: &Value, number: &Value) -> Option<Heard>
    ensures { option_map told_as result ≡ told_in_list (item (view tag.now) (item (view number.now) no_items)) }
{
    if !is_word(tag, "ok") {
        return None;
    }
    match number.as_u64() {
        Some(_) => Some(Heard::Taken),
        None => None,
    }
}

fn read_one(alloc: Global, tag: &Value, told: &Value) -> Result<Option<Heard>, AllocError>
    ensures { IfOk result (λ heard. option_map told_as heard ≡ one_behind (view tag.now) (view told.now)) }
{
    if is_word(tag, "arrays") {
        let Value::Array(items) = told else {
            return Ok(None);
        };
        return Ok(match read_arrays(alloc, items, 0)? {
            Some(arrays) => Some(Heard::Listed(arrays)),
            None => None,
        });
    }
    if is_word(tag, "err") {
        return Ok(match read_size(told, 0) {
            Some(code) => Some(Heard::Refused(Refusal { code, place: None })),
            None => None,
        });
    }
    Ok(None)
}

fn read_two(tag: &Value, code: &Value, place: &Value) -> Option<Heard>
    ensures { option_map told_as result ≡ two_behind (view tag.now) (view code.now) (view place.now) }
{
    if !is_word(tag, "err") {
        return None;
    }
    match (read_size(code, 0), read_size(place, 0)) {
        (Some(code), Some(place)) => Some(Heard::Refused(Refusal {
            code,
            place: Some(place),
        })),
        _ => None,
    }
}
