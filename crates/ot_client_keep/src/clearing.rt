//! A tenant has no array before a file's lines are sent.
ghost use Rattle.std.specs.Prelude.{MatchResult};
ghost use Rattle.ot_client_ask.specs.Streams.{link};
ghost use Rattle.ot_client_keep.specs.Questions.{StopsAsking};
ghost use Rattle.ot_client_keep.specs.Saving.{AreFreed, Clears, FreesAll, SeesNone};
ghost use Rattle.ot_model.specs.Programs.{arrays_of};

use crate::fault::KeepFault;
use crate::question::{ask_arrays, ask_checkpoint, ask_free};
use ot_client_ask::LineSource;
use ot_model::ArrayShape;
use ot_session::Sink;
use std::alloc::Global;

/// Sees that the tenant has no array, or frees those that it has where they are to be replaced. Its log begins anew.
pub(crate) fn clear<H: LineSource, W: Sink>(
    alloc: Global,
    replace: bool,
    heard: &mut H,
    wire: &mut W,
) -> Result<(), KeepFault>
    ensures { Clears replace (link (H.coming heard.old) (W.draft wire.old)) (link (H.coming heard.new) (W.draft wire.new)) result }
{
    if replace {
        return free_all(alloc, heard, wire);
    }
    see_none(alloc, heard, wire)
}

/// Sees that the tenant has no array, and lets its log begin anew.
fn see_none<H: LineSource, W: Sink>(
    alloc: Global,
    heard: &mut H,
    wire: &mut W,
) -> Result<(), KeepFault>
    ensures { SeesNone (link (H.coming heard.old) (W.draft wire.old)) (link (H.coming heard.new) (W.draft wire.new)) result }
{
    let found = match ask_arrays(alloc, heard, wire) {
        Ok(found) => found,
        Err(fault) => return Err(fault),
    };
    if !found.is_empty() {
        return Err(KeepFault::HasArrays);
    }
    match ask_checkpoint(alloc, heard, wire) {
        Ok(_) => Ok(()),
        Err(fault) => Err(fault),
    }
}

/// Lets the tenant's log begin anew, so that a full one is no hindrance, and frees its arrays.
fn free_all<H: LineSource, W: Sink>(
    alloc: Global,
    heard: &mut H,
    wire: &mut W,
) -> Result<(), KeepFault>
    ensures { FreesAll (link (H.coming heard.old) (W.draft wire.old)) (link (H.coming heard.new) (W.draft wire.new)) result }
{
    match ask_checkpoint(alloc, heard, wire) {
        Ok(_) => {}
        Err(fault) => return Err(fault),
    }
    let found = match ask_arrays(alloc, heard, wire) {
        Ok(found) => found,
        Err(fault) => return Err(fault),
    };
    free_each(alloc, found.as_slice(), heard, wire)
}

/// Frees these arrays, one after another.
fn free_each<H: LineSource, W: Sink>(
    alloc: Global,
    shapes: &[ArrayShape],
    heard: &mut H,
    wire: &mut W,
) -> Result<(), KeepFault>
    ensures { MatchResult result
        (λ done. AreFreed (arrays_of shapes.now)
        (link (H.coming heard.old) (W.draft wire.old)) (link (H.coming heard.new) (W.draft wire.new)))
        (λ fault. StopsAsking (link (H.coming heard.old) (W.draft wire.old)) (link (H.coming heard.new) (W.draft wire.new)) fault) }
{
    for shape in shapes {
        match ask_free(alloc, shape.name.as_str(), heard, wire) {
            Ok(_) => {}
            Err(fault) => return Err(fault),
        }
    }
    Ok(())
}
