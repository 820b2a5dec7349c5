//! The first of some items that overlaps in part with one that writes before it.
ghost use Rattle.std.specs.Prelude.{IfOk};
ghost use Rattle.ot_c_overlap.specs.Overlaps.{IsFirstIn};

use crate::claims::Claims;
use crate::item::Item;
use std::alloc::{AllocError, Global};

/// The entry of the first item that overlaps in part with one that writes before it.
pub(crate) fn first_of(alloc: Global, items: &[Item]) -> Result<Option<u32>, AllocError>
    ensures { IfOk result (IsFirstIn items.now) }
{
    let mut claims = Claims::new(alloc);
    for item in items {
        if claims.clashes(item) {
            return Ok(Some(item.entry));
        }
        claims.take(item)?;
    }
    Ok(None)
}
