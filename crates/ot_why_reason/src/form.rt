//! The forms of requests, and what stands in them.
ghost use Rattle.std.specs.Prelude.{◌≡◌, ℕ, List, Some, None, length, MatchOption, option_map};
ghost use Rattle.serde_json.specs.View.{view, items_view};
ghost use Rattle.ot_book.specs.Requests.{numbers_in, all_numbers};

use serde_json::Value;

/// What stands behind the word of a request.
#[derive(Clone, Copy, Debug, PartialEq, Eq)]
pub(crate) enum Part {
    /// The name of an array.
    Name,
    /// The index of a cell, from 0.
    Start,
    /// How many cells, from 1.
    Len,
    /// What cells hold, at least one number.
    Numbers,
    /// A program, of which other codes tell.
    Program,
}

/// A request: how it is written, and its parts behind the word.
#[derive(Clone, Copy, Debug)]
pub(crate) struct Form {
    pub(crate) text: &'static str,
    pub(crate) parts: &'static [Part],
}

/// The form of the request that begins with this word.
pub(crate) fn form_called(word: &str) -> Option<Form> {
    let (text, parts): (&'static str, &'static [Part]) = match word {
        "new" => ("[\"new\",name,len]", &[Part::Name, Part::Len]),
        "free" => ("[\"free\",name]", &[Part::Name]),
        "put" => (
            "[\"put\",name,start,[v,..]]",
            &[Part::Name, Part::Start, Part::Numbers],
        ),
        "get" => (
            "[\"get\",name,start,len]",
            &[Part::Name, Part::Start, Part::Len],
        ),
        "list" => ("[\"list\"]", &[]),
        "used" => ("[\"used\"]", &[]),
        "checkpoint" => ("[\"checkpoint\"]", &[]),
        "run" => ("[\"run\",program]", &[Part::Program]),
        _ => return None,
    };
    Some(Form { text, parts })
}

/// At least one number from 0 to 2^64 - 1: the items that stand for them.
pub(crate) fn read_numbers(value: &Value) -> Option<&[Value]>
    ensures { option_map (λ items. length items.now) result ≡ option_map (λ numbers. length numbers) (numbers_in (view value.now)) }
{
    let Value::Array(items) = value else {
        return None;
    };
    if items.is_empty() || first_other(items).is_some() {
        return None;
    }
    Some(items.as_slice())
}

/// The place of the first item that is no number from 0 to 2^64 - 1.
pub(crate) fn first_other(items: &[Value]) -> Option<usize>
    ensures { MatchOption result ((numbers : List ℕ) × (all_numbers (items_view items.now) ≡ Some numbers) × (length numbers ≡ length items.now))
        (λ _. all_numbers (items_view items.now) ≡ None) }
{
    for (place, item) in items.iter().enumerate() {
        let Some(_) = item.as_u64() else {
            return Some(place);
        };
    }
    None
}
