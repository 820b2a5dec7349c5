//! Why a program is refused, and where in the line that is.
ghost use Rattle.std.specs.Prelude.{vec_len, ◌≡◌, ◌<◌, ◌++◌, ◌∷◌, ℕ, List, IfOk};
ghost use Rattle.serde_json.specs.View.{view};
ghost use Rattle.ot_why_place.specs.Spots.{place_by};
ghost use Rattle.ot_why_fault.specs.Whys.{shape_of};
ghost use Rattle.ot_why_reason.specs.Places.{BeginsAt, placed_fault, entry_words, texts_of};

use crate::place::{Telling, at_line, shown};
use crate::reasoning::{all_of, cells};
use crate::run::has_operations;
use crate::sentences::wrong_in_program;
use crate::statement::unlike_statement;
use ot_model::{ArrayShape, Op};
use ot_program::Refusal;
use ot_store::Limits;
use ot_why_fault::{Count, Wanted, Why, first_fault};
use ot_why_place::{Place, entry_of, value_at};
use serde_json::Value;
use std::alloc::{AllocError, Global};

/// Where the first fault is of the program that a request runs, and what it is. Where that isn't what the request was refused
/// for, only that is told.
pub(crate) fn of_program(
    alloc: Global,
    request: &Value,
    arrays: &[ArrayShape],
    limits: &Limits,
    refusal: Refusal,
    telling: Telling,
) -> Result<Vec<String>, AllocError>
    ensures some { IfOk result (λ reasons. 0 < vec_len reasons) }
    ensures place { IfOk result (λ reasons. BeginsAt telling refusal (placed_fault (shape_of arrays.now limits.now.tasks) (view request.now)) (texts_of reasons.items)) }
{
    let Some(found) = first_fault(alloc, request, arrays, limits.tasks)? else {
        return refused_for(alloc, refusal);
    };
    if found.why.refusal() != refusal {
        return refused_for(alloc, refusal);
    }
    match entry_of(alloc, request, found.index)? {
        Some(place) => of_fault(alloc, request, &place, found.why, arrays, telling),
        None => of_why(alloc, has_operations(request), request, found.why, arrays),
    }
}

/// What a program was refused for.
fn refused_for(alloc: Global, refusal: Refusal) -> Result<Vec<String>, AllocError>
    ensures { IfOk result (λ reasons. 0 < vec_len reasons) }
{
    let mut reasons = Vec::new(alloc);
    reasons.push(String::from_str(alloc, wrong_in_program(refusal))?)?;
    Ok(reasons)
}

/// A place with what stands there, and the fault that this has.
fn of_fault(
    alloc: Global,
    request: &Value,
    place: &Place<'_>,
    why: Why<'_>,
    arrays: &[ArrayShape],
    telling: Telling,
) -> Result<Vec<String>, AllocError>
    ensures { IfOk result (λ reasons. (shown : List ℕ) × (others : List (List ℕ))
        × (texts_of reasons.items ≡ (entry_words telling (place_by place.now) ++ shown) ∷ others)) }
{
    let second = has_operations(request);
    let statement = match value_at(request, place.path.as_slice()) {
        Some(statement) => statement,
        None => request,
    };
    let mut reasons = of_why(alloc, second, statement, why, arrays)?;
    reasons.insert(0, at_line(alloc, place, statement, telling)?)?;
    Ok(reasons)
}

/// The fault that a statement has.
fn of_why(
    alloc: Global,
    second: bool,
    statement: &Value,
    why: Why<'_>,
    arrays: &[ArrayShape],
) -> Result<Vec<String>, AllocError>
    ensures { IfOk result (λ reasons. 0 < vec_len reasons) }
{
    let mut reasons = Vec::new(alloc);
    match why {
        Why::NoStatement => unlike_statement(alloc, second, statement, &mut reasons)?,
        Why::Unknown(_) => {
            reasons.push(words_of(alloc, why, second)?)?;
            reasons.push(all_of(alloc, arrays)?)?;
        }
        why => reasons.push(words_of(alloc, why, second)?)?,
    }
    Ok(reasons)
}

/// A fault in words.
fn words_of(alloc: Global, why: Why<'_>, second: bool) -> Result<String, AllocError> {
    match why {
        Why::Form(part, wanted) => {
            let shown = shown(alloc, part)?;
            format!(in alloc; "{shown} is {}", wanted_words(wanted, second))
        }
        Why::Unbound(name) => format!(in alloc; "no loop around binds the variable {name}"),
        Why::TooGreat(number) => format!(in alloc; "{number} is no size: it is above 4294967295"),
        Why::NotExact(sign, one, two) => not_exact(alloc, sign, one, two),
        Why::Unknown(name) => format!(in alloc; "there is no array {name}"),
        Why::NoCell(name, index, has) => {
            let noun = cells(u64::from(has));
            format!(in alloc; "the array {name} has {has} {noun}, and index {index} is beyond")
        }
        Why::NoCells(name, start, len, has) => {
            let noun = cells(u64::from(has));
            let sum = start.saturating_add(len);
            format!(in alloc;
                "the array {name} has {has} {noun}, and index {start} + length {len} is {sum}"
            )
        }
        Why::Empty(name, start) => {
            format!(in alloc; "the section of {name} from index {start} on has length 0")
        }
        Why::Mixed(name, index) => mixed_words(alloc, name, index, second),
        _ => too_much(alloc, why),
    }
}

/// An operation of two sizes that is no size.
fn not_exact(alloc: Global, sign: Op, one: u64, two: u64) -> Result<String, AllocError> {
    match sign {
        Op::Minus => format!(in alloc; "{one} - {two} is no size: it is below 0"),
        Op::Times => format!(in alloc; "{one} * {two} is no size: it is above 4294967295"),
        _ => format!(in alloc; "{one} + {two} is no size: it is above 4294967295"),
    }
}

fn mixed_words(alloc: Global, name: &str, index: u32, second: bool) -> Result<String, AllocError> {
    let more = if second {
        ", or under `red` by two operations"
    } else {
        ""
    };
    format!(in alloc; "{name}[{index}] stands under `red` and under another kind{more}")
}

/// What is too deep, or too many.
fn too_much(alloc: Global, why: Why<'_>) -> Result<String, AllocError> {
    match why {
        Why::Nested(level) => {
            let nesting = level.saturating_add(1);
            format!(in alloc; "its body is at nesting {nesting}, and may be at 16 at most")
        }
        Why::Deep(part, depth) => {
            let shown = shown(alloc, part)?;
            format!(in alloc; "{shown} has depth {depth}, and may have 24")
        }
        Why::TooMany(count, has, may) => {
            let what = counted(count);
            format!(in alloc; "with it the program has {has} {what}, and may have {may}")
        }
        Why::TooManyTasks(has, may) => {
            format!(in alloc; "with it the program has {has} task statements, and may have {may}")
        }
        _ => Ok(String::new(alloc)),
    }
}

fn counted(count: Count) -> &'static str {
    match count {
        Count::Statements => "statements",
        Count::Turns => "turns of loops",
        Count::Nodes => "nodes of values",
        Count::Cells => "cells of sections",
    }
}

/// What stands where something else was wanted.
fn wanted_words(wanted: Wanted, second: bool) -> &'static str {
    match wanted {
        Wanted::Program => {
            "no program: it is [\"program\",[section,..],body] or [\"program2\",[section,..],body]"
        }
        Wanted::List => "no list",
        Wanted::Name => "no name: a letter a to z, then at most 15 letters a to z, digits and _",
        Wanted::Number => "no whole number from 0 to 18446744073709551615",
        Wanted::Sign => "none of + - *, which are the operations of sizes",
        Wanted::Size => {
            "no size: a whole number from 0 to 4294967295, a variable, or [op,size,size]"
        }
        Wanted::Cell => "no cell: [\"c\",name,size]",
        Wanted::Section => "no section: [name,size,size]",
        Wanted::Operation => "none of + - * & | ^ < = min max, \"c\" and \"pick\"",
        Wanted::Value => {
            "no value: a number, a variable, [\"c\",name,size], [op,value,value] or [\"pick\",section,value]"
        }
        Wanted::Clause if second => {
            "no clause: [\"in\",section], [\"out\",section], [\"inout\",section] or [\"red\",op,section]"
        }
        Wanted::Clause => {
            "no clause: [\"in\",section], [\"out\",section], [\"inout\",section] or [\"red\",section]"
        }
        Wanted::WaitClause => {
            "no clause of a wait: [\"in\",section], [\"out\",section] or [\"inout\",section]"
        }
        Wanted::Fold => "none of + * & | ^ min max, which are the operations of folds",
    }
}
