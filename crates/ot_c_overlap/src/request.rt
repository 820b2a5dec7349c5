//! The first overlap in the program that a request runs.
ghost use Rattle.std.specs.Prelude.{IfOk, ◌≡◌};
ghost use Rattle.serde_json.specs.View.{view};
ghost use Rattle.ot_model.specs.Programs.{arrays_of};
ghost use Rattle.ot_c_overlap.specs.Items.{items_of, ground};
ghost use Rattle.ot_c_overlap.specs.Overlaps.{IsFirst};

use crate::first::first_of;
use crate::item::Item;
use crate::names::Names;
use crate::order::writers_first;
use crate::walk::{Met, Walk};
use ot_model::ArrayShape;
use ot_program::{program_form, requested_program};
use serde_json::Value;
use std::alloc::{AllocError, Global};

/// Of the program that a request runs over these arrays, the entry of the first item of a `depend` clause that overlaps in part with
/// one that writes, of its own or of a sibling; those that write come first. `reds` is whether `red` is an item, as where tasks take part
/// in reductions by pointers.
pub fn first_overlap(
    alloc: Global,
    request: &Value,
    arrays: &[ArrayShape],
    reds: bool,
) -> Result<Option<u32>, AllocError>
    ensures { IfOk result (IsFirst (items_of (ground (arrays_of arrays.now) reds) (view request.now))) }
{
    let items = items_of(alloc, request, arrays, reds)?;
    let ordered = writers_first(alloc, &items)?;
    first_of(alloc, &ordered)
}

fn items_of(
    alloc: Global,
    request: &Value,
    arrays: &[ArrayShape],
    reds: bool,
) -> Result<Vec<Item>, AllocError>
    ensures { IfOk result (λ items. items.items ≡ items_of (ground (arrays_of arrays.now) reds) (view request.now)) }
{
    let mut met = Met {
        entries: 0,
        items: Vec::new(alloc),
    };
    let Some(program) = requested_program(request) else {
        return Ok(met.items);
    };
    let Some(form) = program_form(program) else {
        return Ok(met.items);
    };
    let names = Names::new(alloc, arrays)?;
    let walk = Walk {
        profile: form.profile,
        names: &names,
        reds,
    };
    walk.program(form.shows, form.body, &mut met)?;
    Ok(met.items)
}
