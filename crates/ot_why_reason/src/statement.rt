//! What is no statement: which one it begins like, and what that one wants.
ghost use Rattle.std.specs.Prelude.{vec_len, ◌<◌, OnOk};

use crate::place::shown;
use serde_json::Value;
use std::alloc::{AllocError, Global};

/// The words that statements begin with.
const WORDS: &str =
    "a statement begins with one of the words set, add, if, for, task, wait and group";

/// The same in a `program2`.
const SECOND_WORDS: &str =
    "a statement begins with one of the words set, add, fold, if, for, task, wait and group";

/// How a statement is written, and how many items it has.
#[derive(Clone, Copy, Drop)]
struct Form {
    text: &'static str,
    least: usize,
    most: usize,
}

/// Puts why a value is no statement.
pub(crate) fn unlike_statement(
    alloc: Global,
    second: bool,
    value: &Value,
    reasons: &mut Vec<String>,
) -> Result<(), AllocError>
    ensures { OnOk result (vec_len reasons.old < vec_len reasons.new) }
{
    let words = if second { SECOND_WORDS } else { WORDS };
    let Value::Array(items) = value else {
        let shown = shown(alloc, value)?;
        reasons.push(format!(in alloc; "a statement is a list, and this is {shown}")?)?;
        reasons.push(String::from_str(alloc, words)?)?;
        return Ok(());
    };
    let Some(tag) = items.first() else {
        reasons.push(String::from_str(alloc, "the list is empty")?)?;
        reasons.push(String::from_str(alloc, words)?)?;
        return Ok(());
    };
    let form = match tag {
        Value::String(word) => form_called(word.as_str(), second),
        _ => None,
    };
    match form {
        Some(form) => unlike_form(alloc, &form, items.len(), reasons),
        None => strange_word(alloc, second, tag, words, reasons),
    }
}

/// A list of so many items that begins with the word of a statement.
fn unlike_form(
    alloc: Global,
    form: &Form,
    has: usize,
    reasons: &mut Vec<String>,
) -> Result<(), AllocError>
    ensures { OnOk result (vec_len reasons.old < vec_len reasons.new) }
{
    let (text, least, most) = (form.text, form.least, form.most);
    let noun = if has == 1 { "item" } else { "items" };
    reasons.push(format!(in alloc; "it begins like {text}")?)?;
    if has >= least && has <= most {
        return Ok(());
    }
    let reason = if least == most {
        format!(in alloc; "it has {has} {noun}, and not {least}")?
    } else {
        format!(in alloc; "it has {has} {noun}, and not {least} or {most}")?
    };
    reasons.push(reason)?;
    Ok(())
}

/// A list that begins with no word of a statement of its profile.
fn strange_word(
    alloc: Global,
    second: bool,
    tag: &Value,
    words: &str,
    reasons: &mut Vec<String>,
) -> Result<(), AllocError>
    ensures { OnOk result (vec_len reasons.old < vec_len reasons.new) }
{
    let shown = shown(alloc, tag)?;
    if let Value::String(word) = tag {
        if !second && form_called(word.as_str(), true).is_some() {
            reasons.push(format!(in alloc; "{shown} is a word of a `program2`")?)?;
            reasons.push(String::from_str(alloc, words)?)?;
            return Ok(());
        }
    }
    reasons.push(format!(in alloc; "no statement begins with {shown}")?)?;
    reasons.push(String::from_str(alloc, words)?)?;
    Ok(())
}

/// How the statement is written that begins with a word.
fn form_called(word: &str, second: bool) -> Option<Form> {
    match word {
        "set" => Some(of_items("[\"set\",cell,value]", 3)),
        "add" => Some(of_items("[\"add\",cell,value]", 3)),
        "fold" if second => Some(of_items("[\"fold\",op,cell,value]", 4)),
        "if" => Some(of_items("[\"if\",value,body,body]", 4)),
        "for" => Some(of_items("[\"for\",variable,size,size,body]", 5)),
        "task" => Some(of_items("[\"task\",[clause,..],body]", 3)),
        "wait" if second => Some(Form {
            text: "[\"wait\"] or [\"wait\",[clause,..]]",
            least: 1,
            most: 2,
        }),
        "wait" => Some(of_items("[\"wait\"]", 1)),
        "group" if second => Some(of_items("[\"group\",op,[section,..],body]", 4)),
        "group" => Some(of_items("[\"group\",[section,..],body]", 3)),
        _ => None,
    }
}

/// A form of just so many items.
fn of_items(text: &'static str, items: usize) -> Form {
    Form {
        text,
        least: items,
        most: items,
    }
}
