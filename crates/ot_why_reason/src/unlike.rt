//! Lines that are JSON and no request: which request one begins like, and what that one wants.
ghost use Rattle.std.specs.Prelude.{vec_len, ◌<◌, IfOk};

use crate::form::{Form, Part, first_other, form_called};
use ot_book::{read_name, read_size};
use serde_json::Value;
use std::alloc::{AllocError, Global};

/// The words that requests begin with.
const WORDS: &str =
    "a request begins with one of the words new, free, put, get, list, used, checkpoint and run";

/// How many bytes of a line are shown at most.
const MAX_SHOWN: usize = 40;

/// Why a value is no request.
pub(crate) fn no_request(alloc: Global, value: &Value) -> Result<Vec<String>, AllocError>
    ensures { IfOk result (λ reasons. 0 < vec_len reasons) }
{
    let Value::Array(items) = value else {
        let shown = shown(alloc, value)?;
        let reason = format!(in alloc; "a request is a list, and this is {shown}")?;
        return without_word(alloc, reason);
    };
    let Some(tag) = items.first() else {
        return without_word(alloc, String::from_str(alloc, "the list is empty")?);
    };
    let Value::String(word) = tag else {
        let shown = shown(alloc, tag)?;
        let reason = format!(in alloc; "the list begins with {shown}, and not with a word")?;
        return without_word(alloc, reason);
    };
    match form_called(word.as_str()) {
        Some(form) => unlike_form(alloc, form, items),
        None => strange_word(alloc, word.as_str(), tag),
    }
}

/// A reason, and behind it the words of requests.
fn without_word(alloc: Global, reason: String) -> Result<Vec<String>, AllocError>
    ensures { IfOk result (λ reasons. 0 < vec_len reasons) }
{
    let mut reasons = Vec::new(alloc);
    reasons.push(reason)?;
    reasons.push(String::from_str(alloc, WORDS)?)?;
    Ok(reasons)
}

/// A list that begins with a word of no request.
fn strange_word(alloc: Global, word: &str, tag: &Value) -> Result<Vec<String>, AllocError>
    ensures { IfOk result (λ reasons. 0 < vec_len reasons) }
{
    let shown = shown(alloc, tag)?;
    let mut reasons = without_word(alloc, format!(in alloc; "no request begins with {shown}")?)?;
    let hint = match word {
        "bye" => "a goodbye is [\"bye\"] alone, with nothing between its signs",
        "hello" => "a greeting is the first line of a connection to a server, and of nothing else",
        _ => return Ok(reasons),
    };
    reasons.push(String::from_str(alloc, hint)?)?;
    Ok(reasons)
}

/// A list that begins like a request.
fn unlike_form(alloc: Global, form: Form, items: &[Value]) -> Result<Vec<String>, AllocError>
    ensures { IfOk result (λ reasons. 0 < vec_len reasons) }
{
    let mut reasons = Vec::new(alloc);
    let text = form.text;
    reasons.push(format!(in alloc; "it begins like {text}")?)?;
    let (has, wants) = (items.len(), form.parts.len() + 1);
    if has != wants {
        let noun = if has == 1 { "item" } else { "items" };
        reasons.push(format!(in alloc; "it has {has} {noun}, and not {wants}")?)?;
        return Ok(reasons);
    }
    for (place, part) in form.parts.iter().enumerate() {
        if let Some(item) = items.get(place + 1) {
            if let Some(reason) = unlike_part(alloc, place + 2, *part, item)? {
                reasons.push(reason)?;
            }
        }
    }
    Ok(reasons)
}

/// Why the item at this place, from 1, isn't such a part.
fn unlike_part(
    alloc: Global,
    place: usize,
    part: Part,
    item: &Value,
) -> Result<Option<String>, AllocError> {
    let (fits, wanted) = match part {
        Part::Name => (
            read_name(item).is_some(),
            "no name: a letter a to z, then at most 15 letters a to z, digits and _",
        ),
        Part::Start => (
            read_size(item, 0).is_some(),
            "no index: a whole number from 0 to 4294967295",
        ),
        Part::Len => (
            read_size(item, 1).is_some(),
            "no count of cells: a whole number from 1 to 4294967295",
        ),
        Part::Numbers => return unlike_numbers(alloc, place, item),
        Part::Program => return Ok(None),
    };
    if fits {
        return Ok(None);
    }
    let shown = shown(alloc, item)?;
    Ok(Some(format!(in alloc; "item {place} is {shown}, and {wanted}")?))
}

/// Why the item at this place, from 1, is no list of numbers.
fn unlike_numbers(alloc: Global, place: usize, item: &Value) -> Result<Option<String>, AllocError> {
    let Value::Array(numbers) = item else {
        let shown = shown(alloc, item)?;
        let reason = format!(in alloc; "item {place} is {shown}, and no list of numbers")?;
        return Ok(Some(reason));
    };
    if numbers.is_empty() {
        let reason = format!(in alloc; "item {place} is an empty list, and has to have a number")?;
        return Ok(Some(reason));
    }
    let Some(at) = first_other(numbers) else {
        return Ok(None);
    };
    let Some(number) = numbers.get(at) else {
        return Ok(None);
    };
    let shown = shown(alloc, number)?;
    Ok(Some(format!(in alloc;
        "number {} of item {place} is {shown}, and no whole number from 0 to 18446744073709551615",
        at.saturating_add(1)
    )?))
}

/// A value as it is written, where that is short, or else what kind of value it is.
fn shown(alloc: Global, value: &Value) -> Result<String, AllocError> {
    let kind = match value {
        Value::Object(_) => "an object",
        Value::Array(_) => "a list",
        Value::String(text) if text.len() > MAX_SHOWN => "a long text",
        _ => return value.to_string(alloc),
    };
    String::from_str(alloc, kind)
}
