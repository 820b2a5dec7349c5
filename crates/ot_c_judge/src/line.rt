//! Parts of what is said of a C text.
ghost use Rattle.std.specs.Prelude.{◌≡◌, ◌++◌, map, reverse, IfOk, OnOk, Some, string_bytes};
ghost use Rattle.ot_file_diagnosis.specs.DiagnosisView.{turn_by as told_by};
ghost use Rattle.ot_model.specs.Programs.{arrays_of};
ghost use Rattle.ot_why_place.specs.Spots.{turn_by};
ghost use Rattle.ot_c_judge.specs.SiteView.{site_by};
ghost use Rattle.ot_c_judge.specs.Lines.{turn_text, turns_listed, turns_text, c_cell_text, cell_by};

use crate::source::Site;
use ot_model::{ArrayShape, Cell};
use ot_why_place::Turn;
use std::alloc::{AllocError, Global};

/// ` (i = 1, j = 2)`: the turns of the loops around a place.
pub(crate) fn turns_text(alloc: Global, site: &Site<'_>) -> Result<String, AllocError>
    ensures { IfOk result (λ text. string_bytes text ≡ turns_text (site_by site.now).turns) }
{
    let mut text = String::new(alloc);
    if site.turns.is_empty() {
        return Ok(text);
    }
    text.push_str(" (")?;
    put_listed(alloc, site.turns.as_slice(), &mut text)?;
    text.push_str(")")?;
    Ok(text)
}

/// The turns with commas between them, the outermost first.
fn put_listed(alloc: Global, turns: &[Turn<'_>], out: &mut String) -> Result<(), AllocError>
    ensures { OnOk result (string_bytes out.new ≡ string_bytes out.old ++ turns_listed (map turn_by turns.now)) }
{
    match turns {
        [] => Ok(()),
        [inner] => put_turn(alloc, *inner, out),
        [inner, outer @ ..] => {
            put_listed(alloc, outer, out)?;
            out.push_str(", ")?;
            put_turn(alloc, *inner, out)
        }
    }
}

/// `i = 1`
fn put_turn(alloc: Global, turn: Turn<'_>, out: &mut String) -> Result<(), AllocError>
    ensures { OnOk result (string_bytes out.new ≡ string_bytes out.old ++ turn_text (turn_by turn.entry)) }
{
    let name = turn.name;
    let text = format!(in alloc; "{name} = {}", turn.number)?;
    out.push_str(text.as_str())
}

/// The turns of the loops around a place, the outermost first.
pub(crate) fn turns_of(
    alloc: Global,
    site: &Site<'_>,
) -> Result<Vec<ot_file_diagnosis::Turn>, AllocError>
    ensures { IfOk result (λ turns. map told_by turns.items ≡ reverse (site_by site.now).turns) }
{
    let mut turns = Vec::new(alloc);
    copy_turns(alloc, site.turns.as_slice(), &mut turns)?;
    Ok(turns)
}

fn copy_turns(
    alloc: Global,
    turns: &[Turn<'_>],
    out: &mut Vec<ot_file_diagnosis::Turn>,
) -> Result<(), AllocError>
    ensures { OnOk result (map told_by out.new.items ≡ map told_by out.old.items ++ reverse (map turn_by turns.now)) }
{
    match turns {
        [] => Ok(()),
        [inner, outer @ ..] => {
            copy_turns(alloc, outer, out)?;
            out.push(copied(alloc, *inner)?)?;
            Ok(())
        }
    }
}

fn copied(alloc: Global, turn: Turn<'_>) -> Result<ot_file_diagnosis::Turn, AllocError>
    ensures { IfOk result (λ told. told_by told ≡ turn_by turn.entry) }
{
    Ok(ot_file_diagnosis::Turn {
        name: String::from_str(alloc, turn.name)?,
        number: turn.number,
    })
}

/// `m[5]`; the cell of an array that has only one is called as the array is.
pub(crate) fn cell_text(
    alloc: Global,
    arrays: &[ArrayShape],
    cell: Cell,
) -> Result<String, AllocError>
    ensures { IfOk result (λ text. string_bytes text ≡ c_cell_text (arrays_of arrays.now) cell) }
{
    match arrays.get(cell.array as usize) {
        Some(array) => cell_of(alloc, array, cell.index),
        None => String::from_str(alloc, "?"),
    }
}

fn cell_of(alloc: Global, array: &ArrayShape, index: u32) -> Result<String, AllocError>
    ensures { IfOk result (λ text. string_bytes text ≡ cell_by (Some (string_bytes array.now.name, array.now.len)) index) }
{
    let name = array.name.as_str();
    if array.len == 1 {
        return String::from_str(alloc, name);
    }
    format!(in alloc; "{name}[{index}]")
}
