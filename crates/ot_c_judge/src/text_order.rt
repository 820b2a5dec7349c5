//! What is told beside the statements of a program's text, in their order.
ghost use Rattle.std.specs.Prelude.{◌≡◌, ◌∷◌, drop};
ghost use Rattle.serde_json.specs.Data.{array};
ghost use Rattle.serde_json.specs.View.{view, items_view};
ghost use Rattle.ot_c_judge.specs.TextOrder.{count_in, count_all, count_one, count_inside, has_body, count_first, count_before, told_in, told_at, told_of};

use ot_program::is_word;
use ot_why_place::value_at;
use serde_json::Value;

/// What is told beside the statement at a path of the program that a request runs, where something is told beside each in the
/// order of the text.
pub(crate) fn told_of(told: &[usize], request: &Value, path: &[usize]) -> Option<usize>
    ensures { result ≡ told_of told.now (view request.now) path.now }
{
    let body = value_at(request, [1, 2].as_slice())?;
    match path {
        [_, _, path @ ..] => told_in(told, body, path),
        _ => told_in(told, body, [].as_slice()),
    }
}

/// The same from a body on.
#[cycle(told)]
fn told_in(told: &[usize], body: &Value, path: &[usize]) -> Option<usize>
    ensures { result ≡ told_in told.now (view body.now) path.now }
{
    match path {
        [] => told.first().copied(),
        [index, path @ ..] => match body {
            Value::Array(items) => told_among(told, items, *index, path),
            _ => None,
        },
    }
}

/// The same from the statement at an index of a body on.
#[cycle(told)]
fn told_among(told: &[usize], items: &[Value], index: usize, path: &[usize]) -> Option<usize>
    ensures { result ≡ told_in told.now (array (items_view items.now)) (index ∷ path.now) }
{
    if index >= items.len() {
        return None;
    }
    told_at(behind_all(told, &items[..index]), &items[index], path)
}

/// The same from a statement on.
#[cycle(told)]
fn told_at(told: &[usize], statement: &Value, path: &[usize]) -> Option<usize>
    ensures { result ≡ told_at told.now (view statement.now) path.now }
{
    match path {
        [] => told.first().copied(),
        [index, path @ ..] => match statement {
            Value::Array(items) => told_inside(told, items, *index, path),
            _ => None,
        },
    }
}

/// The same from the body at an index of a statement on.
#[cycle(told)]
fn told_inside(told: &[usize], items: &[Value], index: usize, path: &[usize]) -> Option<usize>
    ensures { result ≡ told_at told.now (array (items_view items.now)) (index ∷ path.now) }
{
    if index >= items.len() {
        return None;
    }
    told_in(behind_before(told, items, index), &items[index], path)
}

/// What is told behind a statement, and what stands in it before the body at an index.
fn behind_before<'a>(told: &'a [usize], items: &[Value], index: usize) -> &'a [usize]
    ensures { result.now ≡ drop (count_before (array (items_view items.now)) index) told.now }
{
    let told = behind_own(told);
    if index == 3 {
        behind_first(told, items)
    } else {
        told
    }
}

/// What is told behind the first body of an `if`.
fn behind_first<'a>(told: &'a [usize], items: &[Value]) -> &'a [usize]
    ensures { result.now ≡ drop (count_first (array (items_view items.now))) told.now }
{
    if items.len() != 4 {
        return told;
    }
    match items {
        [tag, _, one, _] => {
            if is_word(tag, "if") {
                behind_in(told, one)
            } else {
                told
            }
        }
        _ => unreachable!(),
    }
}

fn behind_own(told: &[usize]) -> &[usize]
    ensures { result.now ≡ drop 1 told.now }
{
    match told {
        [] => told,
        [_, told @ ..] => told,
    }
}

/// What is told behind the statements of a body.
#[cycle(behind)]
fn behind_in<'a>(told: &'a [usize], body: &Value) -> &'a [usize]
    ensures { result.now ≡ drop (count_in (view body.now)) told.now }
{
    match body {
        Value::Array(items) => behind_all(told, items),
        _ => told,
    }
}

#[cycle(behind)]
fn behind_all<'a>(told: &'a [usize], items: &[Value]) -> &'a [usize]
    ensures { result.now ≡ drop (count_all (items_view items.now)) told.now }
{
    let mut left = told;
    for statement in items {
        left = behind_one(left, statement);
    }
    left
}

/// What is told behind a statement, and those in its bodies.
#[cycle(behind)]
fn behind_one<'a>(told: &'a [usize], statement: &Value) -> &'a [usize]
    ensures { result.now ≡ drop (count_one (view statement.now)) told.now }
{
    let told = behind_own(told);
    match statement {
        Value::Array(items) => behind_inside(told, items),
        _ => told,
    }
}

/// What is told behind the bodies of a statement.
#[cycle(behind)]
fn behind_inside<'a>(told: &'a [usize], items: &[Value]) -> &'a [usize]
    ensures { result.now ≡ drop (count_inside (items_view items.now)) told.now }
{
    if items.len() < 3 {
        return told;
    }
    if items.len() > 5 {
        return told;
    }
    match items {
        [tag, _, body] => {
            if has_body(tag) {
                return behind_in(told, body);
            }
            told
        }
        [tag, _, one, two] => {
            if is_word(tag, "if") {
                let told = behind_in(told, one);
                return behind_in(told, two);
            }
            if is_word(tag, "group") {
                return behind_in(told, two);
            }
            told
        }
        [tag, _, _, _, body] => {
            if is_word(tag, "for") {
                return behind_in(told, body);
            }
            told
        }
        _ => unreachable!(),
    }
}

/// Whether the last of three parts is a body.
fn has_body(tag: &Value) -> bool
    ensures { result ≡ has_body (view tag.now) }
{
    is_word(tag, "task") || is_word(tag, "group")
}
