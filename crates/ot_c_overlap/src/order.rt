//! Items, those that write before those that don't.
ghost use Rattle.std.specs.Prelude.{◌≡◌, ◌++◌, IfOk, OnOk, ◌∷◌, [], if◌then◌else◌};
ghost use Rattle.std.specs.List.{filter};
ghost use Rattle.ot_c_overlap.specs.Overlaps.{writers_first, writes_so};

use crate::item::Item;
use std::alloc::{AllocError, Global};

/// The items, those that write before those that don't.
pub(crate) fn writers_first(alloc: Global, items: &[Item]) -> Result<Vec<Item>, AllocError>
    ensures { IfOk result (λ ordered. ordered.items ≡ writers_first items.now) }
{
    let mut ordered = Vec::new(alloc);
    put_those(items, true, &mut ordered)?;
    put_those(items, false, &mut ordered)?;
    Ok(ordered)
}

/// Puts the items that write behind, or those that don't.
fn put_those(items: &[Item], writes: bool, ordered: &mut Vec<Item>) -> Result<(), AllocError>
    ensures { OnOk result (ordered.new.items ≡ ordered.old.items ++ filter (writes_so writes) items.now) }
{
    for item in items {
        put_one(item, writes, ordered)?;
    }
    Ok(())
}

fn put_one(item: &Item, writes: bool, ordered: &mut Vec<Item>) -> Result<(), AllocError>
    ensures { OnOk result (ordered.new.items ≡ ordered.old.items ++ (if writes_so writes item.now then item.now ∷ [] else [])) }
{
    if item.writes == writes {
        ordered.push(*item)?;
    }
    Ok(())
}
