//! The two statements that are marked.
ghost use Rattle.std.specs.Prelude.{◌≡◌, IfOk, string_bytes};
ghost use Rattle.ot_show_print.specs.Shown.{names_of};
ghost use Rattle.ot_show_refusal.specs.Marked as marked;
ghost use Rattle.ot_show_refusal.specs.MarkedView.{pair_by, touch_by};
ghost use Rattle.ot_show_refusal.specs.StandView.{standing_of, standings_of};

use crate::label::label_of;
use crate::stand::{Stand, stand_at};
use ot_model::ArrayShape;
use ot_show_races::{Pair, Touch};
use ot_why_blame::Blame;
use std::alloc::{AllocError, Global};

/// The statement that offends, behind the other one; where there is no other, behind what it offends against.
pub(crate) fn pair_of(
    alloc: Global,
    arrays: &[ArrayShape],
    stands: &[Stand<'_>],
    place: u32,
    blame: &Blame,
) -> Result<Pair, AllocError>
    ensures { IfOk result (λ pair. pair_by pair ≡ marked.pair (names_of arrays.now) (standings_of stands.now) place blame.now.other (string_bytes blame.now.before)) }
{
    let second = touch_at(alloc, arrays, stands, place)?;
    let first = match blame.other {
        Some(other) => touch_at(alloc, arrays, stands, other)?,
        None => words_at(alloc, second.task, blame.before.as_str())?,
    };
    Ok(Pair { first, second })
}

/// Words at a task.
fn words_at(alloc: Global, task: u32, words: &str) -> Result<Touch, AllocError>
    ensures { IfOk result (λ touch. touch_by touch ≡ (task, words.now)) }
{
    let label = String::from_str(alloc, words)?;
    Ok(Touch { task, label })
}

/// The statement with this number, at the task that does it.
fn touch_at(
    alloc: Global,
    arrays: &[ArrayShape],
    stands: &[Stand<'_>],
    place: u32,
) -> Result<Touch, AllocError>
    ensures { IfOk result (λ touch. touch_by touch ≡ marked.touch_at (names_of arrays.now) (standings_of stands.now) place) }
{
    match stand_at(stands, place) {
        Some(stand) => touch_of(alloc, arrays, stand),
        None => words_at(alloc, 0, ""),
    }
}

fn touch_of(alloc: Global, arrays: &[ArrayShape], stand: Stand<'_>) -> Result<Touch, AllocError>
    ensures { IfOk result (λ touch. touch_by touch ≡ marked.touch (names_of arrays.now) (standing_of stand.entry)) }
{
    let label = label_of(alloc, arrays, stand)?;
    Ok(Touch {
        task: stand.holder(),
        label,
    })
}
