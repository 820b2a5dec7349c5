//! What a server's replies tell.
ghost use Rattle.std.specs.Prelude.{◌≡◌, IfOk, option_map};
ghost use Rattle.serde_json.specs.Data.{item, no_items};
ghost use Rattle.serde_json.specs.View.{view, items_view};
ghost use Rattle.ot_client_keep.specs.Files.{list_in, listed_of, reply_in, reply_in_file};
ghost use Rattle.ot_client_keep.specs.Answers.{reply_by};

use ot_book::{read_arrays, read_line, read_numbers, read_size};
use ot_model::ArrayShape;
use ot_program::is_word;
use serde_json::Value;
use std::alloc::{AllocError, Global};

/// What a reply tells, for a request that was performed. Of its number nothing is kept but where a line was taken.
#[derive(Debug, Drop)]
pub(crate) enum Answer {
    /// The request was taken, and had this number.
    Taken(u32),
    /// The units of all runs.
    Used(u64),
    /// Names and lengths.
    Listed(Vec<ArrayShape>),
    /// The numbers of cells.
    Cells(Vec<u64>),
}

/// What a reply tells, where it is of one of the four forms.
pub(crate) fn read_answer(alloc: Global, reply: &[u8]) -> Result<Option<Answer>, AllocError>
    ensures { IfOk result (λ answer. option_map reply_by answer ≡ reply_in reply.now) }
{
    match read_line(alloc, reply)? {
        Some(value) => read_reply(alloc, &value),
        None => Ok(None),
    }
}

fn read_reply(alloc: Global, value: &Value) -> Result<Option<Answer>, AllocError>
    ensures { IfOk result (λ answer. option_map reply_by answer ≡ reply_in_file (view value.now)) }
{
    match value {
        Value::Array(items) => read_list(alloc, items),
        _ => Ok(None),
    }
}

#[tactic(auto, using(crate::proofs::ReplyLemmas::no_reply))]
fn read_list(alloc: Global, items: &[Value]) -> Result<Option<Answer>, AllocError>
    ensures { IfOk result (λ answer. option_map reply_by answer ≡ list_in (items_view items.now)) }
{
    let len = items.len();
    if len != 2 && len != 3 {
        return Ok(None);
    }
    match items {
        [tag, number] => Ok(read_taken(tag, number)),
        [tag, number, told] => match read_size(number, 1) {
            Some(_) => read_told(alloc, tag, told),
            None => Ok(None),
        },
        _ => unreachable!(),
    }
}

fn read_taken(tag: &Value, number: &Value) -> Option<Answer>
    ensures { option_map reply_by result ≡ list_in (item (view tag.now) (item (view number.now) no_items)) }
{
    if !is_word(tag, "ok") {
        return None;
    }
    match read_size(number, 1) {
        Some(number) => Some(Answer::Taken(number)),
        None => None,
    }
}

fn read_told(alloc: Global, tag: &Value, told: &Value) -> Result<Option<Answer>, AllocError>
    ensures { IfOk result (λ answer. option_map reply_by answer ≡ listed_of (view tag.now) (view told.now)) }
{
    if is_word(tag, "used") {
        return Ok(match told.as_u64() {
            Some(units) => Some(Answer::Used(units)),
            None => None,
        });
    }
    let Value::Array(items) = told else {
        return Ok(None);
    };
    if is_word(tag, "arrays") {
        return Ok(match read_arrays(alloc, items, 1)? {
            Some(arrays) => Some(Answer::Listed(arrays)),
            None => None,
        });
    }
    if is_word(tag, "cells") {
        return Ok(match read_numbers(alloc, items)? {
            Some(cells) => Some(Answer::Cells(cells)),
            None => None,
        });
    }
    Ok(None)
}
