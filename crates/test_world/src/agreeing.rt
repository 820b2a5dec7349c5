//! Two worlds that agree on a tenant, and what that comes to.
ghost use Rattle.std.specs.Prelude.{◌≡◌, ℕ, [], map, IsTrue, IfOk};
ghost use Rattle.ot_core.specs.Headline.{AgreeOn, NoneLostIn, ToldAlike};

use ot_core::{World, worlds_agree};
use ot_store::Store;
use std::alloc::{AllocError, Global};

/// Whether these are the same lines.
fn are_same(lines: &[Vec<u8>], others: &[Vec<u8>]) -> bool
    ensures { IsTrue result → map (λ line. line.items) lines.now ≡ map (λ line. line.items) others.now }
{
    lines == others
}

/// Whether there are no arrays in it.
fn is_empty(alloc: Global, store: &Store) -> Result<bool, AllocError>
    ensures { IfOk result (λ empty. IsTrue empty → store.now ≡ []) }
{
    Ok(store.list(alloc)?.is_empty())
}

/// Whether a tenant asked the same lines in both, within the same limits, and began without arrays.
fn agree(alloc: Global, one: &World, other: &World, tenant: u32) -> Result<bool, AllocError>
    ensures { IfOk result (λ agree. IsTrue agree → AgreeOn one.now other.now tenant) }
{
    let (Some(asked), Some(others)) = (one.asked(tenant), other.asked(tenant)) else {
        return Ok(false);
    };
    let (Some(base), Some(other_base)) = (one.base(tenant), other.base(tenant)) else {
        return Ok(false);
    };
    if !are_same(asked, others) {
        return Ok(false);
    }
    if one.limits(tenant) != other.limits(tenant) {
        return Ok(false);
    }
    if !is_empty(alloc, base)? {
        return Ok(false);
    }
    is_empty(alloc, other_base)
}

/// Whether two worlds agree on a tenant: then they never tell it different things.
pub(crate) fn tell_alike(
    alloc: Global,
    one: &World,
    other: &World,
    tenant: u32,
) -> Result<bool, AllocError>
    ensures { IfOk result (λ agree. IsTrue agree → NoneLostIn one.now tenant → NoneLostIn other.now tenant →
        (i : ℕ) → ToldAlike one.now other.now tenant i) }
{
    let agree = agree(alloc, one, other, tenant)?;
    if agree {
        worlds_agree(one, other, tenant);
    }
    Ok(agree)
}
