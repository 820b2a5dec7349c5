//! What stands in the node of a statement.
ghost use Rattle.std.specs.Prelude.{◌≡◌, IfOk, string_bytes};
ghost use Rattle.ot_show_print.specs.Shown.{names_of};
ghost use Rattle.ot_show_refusal.specs.Marked.{label_of};
ghost use Rattle.ot_show_refusal.specs.StandView.{standing_of};

use crate::stand::Stand;
use ot_model::ArrayShape;
use ot_show_print::Printer;
use std::alloc::{AllocError, Global};

/// Its number, and itself without its bodies.
pub(crate) fn label_of(
    alloc: Global,
    arrays: &[ArrayShape],
    stand: Stand<'_>,
) -> Result<String, AllocError>
    ensures { IfOk result (λ label. string_bytes label ≡ label_of (names_of arrays.now) (standing_of stand.entry)) }
{
    let mut out = Printer::new(alloc, arrays);
    out.number(u64::from(stand.place))?;
    out.words(": ")?;
    out.statement(stand.stmt)?;
    Ok(out.into_text())
}
