//! What events declare in C.
ghost use Rattle.std.specs.Prelude.{◌≡◌, IfOk, map};
ghost use Rattle.ot_race_order.specs.Orders.{depend_of, has_fold};

use ot_model::{Decl, Mode};
use std::alloc::{AllocError, Global};

/// The uses of a declaration that make dependences.
fn depend_of(alloc: Global, decl: &Decl) -> Result<Decl, AllocError>
    ensures { IfOk result (λ kept. kept ≡ depend_of decl.now) }
{
    let mut kept = Vec::new(alloc);
    for used in decl.uses() {
        if !is_fold(used.mode) {
            kept.push(*used)?;
        }
    }
    Ok(Decl::new(kept))
}

/// Whether a declaration has a fold.
pub(crate) fn has_fold(decl: &Decl) -> bool
    ensures { result ≡ has_fold decl.now }
{
    decl.uses().iter().any(|used| is_fold(used.mode))
}

ghost use Rattle.ot_model.specs.Cells.{is_fold};

pub(crate) fn is_fold(mode: Mode) -> bool
    ensures { result ≡ is_fold mode }
{
    matches!(mode, Mode::Folds(_))
}

ghost use Rattle.ot_race_order.specs.Instead.{instead};
ghost use Rattle.ot_race.specs.View.{deed_of, events_in};

use ot_race::{Deed, Event};

/// What each event declares in C, where that isn't what it declares in the language.
#[tactic(auto, using(crate::proofs::EventLemmas::declared_next))]
pub(crate) fn declared_by(
    alloc: Global,
    events: &[Event<'_>],
) -> Result<Vec<Option<Decl>>, AllocError>
    ensures { IfOk result (λ declared. declared.items ≡ map (λ e. instead e.deed) (events_in events.now)) }
{
    let mut declared = Vec::with_capacity(alloc, events.len())?;
    for event in events {
        declared.push(instead_of(alloc, event.deed)?)?;
    }
    Ok(declared)
}

fn instead_of(alloc: Global, deed: Deed<'_>) -> Result<Option<Decl>, AllocError>
    ensures { IfOk result (λ own. own ≡ instead (deed_of deed.entry)) }
{
    match deed {
        Deed::Begins(_, decl) => {
            if has_fold(decl) {
                Ok(Some(depend_of(alloc, decl)?))
            } else {
                Ok(None)
            }
        }
        Deed::Touches | Deed::Awaits(_) | Deed::Leaves(_) => Ok(None),
    }
}
