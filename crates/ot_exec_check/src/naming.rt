//! How cells are called.
use crate::placing::line_text;
use ot_exec_layout::{Sort, is_uneven};
use ot_exec_machine::Run;
use ot_exec_reading::{Reading, byte_of};
use ot_exec_tokens::Whole;
use ot_exec_tree::{Type, Unit};
use ot_model::Cell;
use std::alloc::{AllocError, Global};

/// How deep a type nests at most, as far as it is told.
const DEEPEST: u32 = 16;

/// `m[5]`, `d[0][0]`, `p.key`; what is allocated is called by its line.
pub(crate) fn cell_name(
    alloc: Global,
    reading: &Reading,
    whole: &Whole,
    run: &Run,
    cell: Cell,
) -> Result<String, AllocError> {
    let Some(object) = run.objects.get(cell.array as usize) else {
        return String::from_str(alloc, "a cell");
    };
    match reading.unit.variables.get(object.name as usize) {
        Some(variable) => {
            let mut name = String::from_str(alloc, reading.names.text(variable.name))?;
            put_path(
                reading,
                alloc,
                DEEPEST,
                variable.kind,
                cell.index,
                &mut name,
            )?;
            Ok(name)
        }
        None => {
            let made = object.name.saturating_sub(count_of_variables(reading));
            let line = line_text(alloc, whole, byte_of(&reading.tokens, made))?;
            let line = line.as_str();
            let index = cell.index;
            format!(in alloc; "cell {index} of what is allocated at {line}")
        }
    }
}

/// How many variables a text has: what is allocated has its token's number behind theirs.
fn count_of_variables(reading: &Reading) -> u32 {
    u32::try_from(reading.unit.variables.len()).unwrap_or(u32::MAX)
}

/// How many cells a type has, where that is known before the run.
fn cells_of(reading: &Reading, kind: u32) -> Option<u32> {
    let unit = &reading.unit;
    match reading.layouts.extent(unit, Sort::of(unit, kind)) {
        Some(extent) => Some(extent.cells.max(1)),
        None => None,
    }
}

/// Whether a type has a union whose members have cells of their own: how many it has isn't known here.
#[cycle(has_union)]
fn has_union(unit: &Unit, depth: u32, kind: u32) -> bool {
    if depth == 0 {
        return true;
    }
    match unit.types.get(kind as usize) {
        Some(Type::Array(of, _)) => has_union(unit, depth - 1, *of),
        Some(Type::Record(number)) => {
            is_uneven(unit, *number) || has_union_in(unit, depth - 1, *number)
        }
        _ => false,
    }
}

#[cycle(has_union)]
fn has_union_in(unit: &Unit, depth: u32, record: u32) -> bool {
    if depth == 0 {
        return true;
    }
    if let Some(record) = unit.records.get(record as usize)
        && let Some(members) = &record.members
    {
        for member in members {
            if has_union(unit, depth - 1, member.kind) {
                return true;
            }
        }
    }
    false
}

/// Puts the way from an object of this type to one of its cells behind its name.
fn put_path(
    reading: &Reading,
    alloc: Global,
    depth: u32,
    kind: u32,
    index: u32,
    name: &mut String,
) -> Result<(), AllocError> {
    if depth == 0 {
        return Ok(());
    }
    match reading.unit.types.get(kind as usize) {
        Some(Type::Array(of, _)) => {
            if has_union(&reading.unit, DEEPEST, *of) {
                return Ok(());
            }
            let Some(each) = cells_of(reading, *of) else {
                return Ok(());
            };
            if each == 0 {
                return Ok(());
            }
            let place = format!(in alloc; "[{}]", index / each)?;
            name.push_str(place.as_str())?;
            put_path(reading, alloc, depth - 1, *of, index % each, name)
        }
        _ => Ok(()),
    }
}
