//! Worlds of tenants, and what they are told.
use ot_book::reply_text;
use ot_core::World;
use ot_store::{Limits, Store};
use std::alloc::{AllocError, Global};

/// So many tenants, at most 64, with these limits and arrays.
pub(crate) fn world_of(
    alloc: Global,
    tenants: u32,
    limits: Limits,
    store: &Store,
) -> Result<World, AllocError> {
    let mut openings = Vec::new(alloc);
    for tenant in 0..tenants.min(64) {
        let name = format!(in alloc; "t{tenant}")?;
        openings.push((name, limits, store.copy(alloc)?))?;
    }
    if openings.len() > 64 {
        return Err(AllocError);
    }
    World::new(alloc, openings)
}

/// What a tenant was told, a line each.
pub(crate) fn told(alloc: Global, world: &World, tenant: u32) -> Result<String, AllocError> {
    let mut text = String::new(alloc);
    let Some(replies) = world.replies(tenant) else {
        return String::from_str(alloc, "no tenant");
    };
    for reply in replies {
        let reply = reply_text(alloc, &reply)?;
        text.push_str(reply.as_str())?;
        text.push('\n')?;
    }
    Ok(text)
}
