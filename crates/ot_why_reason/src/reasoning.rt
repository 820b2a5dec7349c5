//! The reasons behind a refusal.
ghost use Rattle.std.specs.Prelude.{vec_len, ◌≡◌, ◌<◌, ◌^◌, Some, IfOk, option_map};
ghost use Rattle.serde_json.specs.Data.{Data};
ghost use Rattle.serde_json.specs.View.{view};
ghost use Rattle.ot_model.specs.Programs.{arrays_of};
ghost use Rattle.ot_program.specs.declared.fault.Refusal.{Refusal};
ghost use Rattle.ot_book.specs.declared.code.Code.TheVariants.{Program};
ghost use Rattle.ot_why_fault.specs.Whys.{shape_of};
ghost use Rattle.ot_why_reason.specs.Places.{BeginsAt, placed_fault, texts_of};
ghost use Rattle.ot_why_reason.specs.Faults.{cells_count};

use crate::fault::{Fault, fault_of};
use crate::json::no_json;
use crate::place::Telling;
use crate::program::of_program;
use crate::unlike::no_request;
use ot_book::Code;
use ot_model::ArrayShape;
use ot_store::Limits;
use serde_json::Value;
use std::alloc::{AllocError, Global};

/// Why a line was refused by this code, over these arrays, which are those before it, and within these limits: lines of
/// text, without an LF, at least one. The line's value is given, where it is JSON.
pub fn reasons(
    alloc: Global,
    line: &[u8],
    request: &Option<Value>,
    arrays: &[ArrayShape],
    limits: &Limits,
    code: Code,
    telling: Telling,
) -> Result<Vec<String>, AllocError>
    requires { cells_count (arrays_of arrays.now) < 2 ^ 32 }
    ensures some { IfOk result (λ reasons. 0 < vec_len reasons) }
    ensures place { (d : Data) (refusal : Refusal) → option_map view request.now ≡ Some d → code ≡ Program refusal →
        IfOk result (λ reasons. BeginsAt telling refusal (placed_fault (shape_of arrays.now limits.now.tasks) d) (texts_of reasons.items)) }
{
    match (request, code) {
        (None, _) => no_json(alloc, line, telling),
        (Some(request), Code::Program(refusal)) => {
            of_program(alloc, request, arrays, limits, refusal, telling)
        }
        (Some(request), _) => of_value(alloc, request, arrays, limits),
    }
}

/// Why a line of this value was refused: over these arrays, or for its form.
fn of_value(
    alloc: Global,
    value: &Value,
    arrays: &[ArrayShape],
    limits: &Limits,
) -> Result<Vec<String>, AllocError>
    requires { cells_count (arrays_of arrays.now) < 2 ^ 32 }
    ensures { IfOk result (λ reasons. 0 < vec_len reasons) }
{
    match fault_of(value, arrays, limits) {
        Some(fault) => of_fault(alloc, fault, arrays),
        None => no_request(alloc, value),
    }
}

/// A fault in words.
fn of_fault(
    alloc: Global,
    fault: Fault<'_>,
    arrays: &[ArrayShape],
) -> Result<Vec<String>, AllocError>
    ensures { IfOk result (λ reasons. 0 < vec_len reasons) }
{
    let mut reasons = Vec::new(alloc);
    let reason = match fault {
        Fault::Unknown(name) => {
            reasons.push(format!(in alloc; "there is no array {name}")?)?;
            all_of(alloc, arrays)?
        }
        Fault::Taken(name, has) => format!(in alloc;
            "the array {name} has {has} {}",
            cells(u64::from(has))
        )?,
        Fault::Beyond(name, start, count, has) => format!(in alloc;
            "the array {name} has {has} {}, and index {start} + length {count} is {}",
            cells(u64::from(has)),
            (start as usize).saturating_add(count)
        )?,
        Fault::TooManyCells(has, more, may) => format!(in alloc;
            "the tenant has {has} {}, and may have {may}: {more} more are too many",
            cells(has)
        )?,
        Fault::TooManyArrays(has, may) => {
            format!(in alloc; "the tenant has {has} arrays, and may have {may}")?
        }
    };
    reasons.push(reason)?;
    Ok(reasons)
}

pub(crate) fn cells(count: u64) -> &'static str {
    if count == 1 { "cell" } else { "cells" }
}

/// The arrays with their lengths.
pub(crate) fn all_of(alloc: Global, arrays: &[ArrayShape]) -> Result<String, AllocError> {
    if arrays.is_empty() {
        return String::from_str(alloc, "the tenant has no arrays");
    }
    let mut said = String::from_str(alloc, "the tenant has ")?;
    for (place, array) in arrays.iter().enumerate() {
        if place > 0 {
            said.push_str(", ")?;
        }
        let one = format!(in alloc;
            "{} of {} {}",
            array.name.as_str(),
            array.len,
            cells(u64::from(array.len))
        )?;
        said.push_str(one.as_str())?;
    }
    Ok(said)
}
