//! A tenant's arrays, as a server tells them, and the end of a session.
ghost use Rattle.std.specs.Prelude.{◌≡◌, MatchResult, map};
ghost use Rattle.ot_client_ask.specs.Streams.{link};
ghost use Rattle.ot_model.specs.Programs.{arrays_of};
ghost use Rattle.ot_store.specs.Arrays.{arrays_listed};
ghost use Rattle.ot_client_keep.specs.Answers.{shape_sized};
ghost use Rattle.ot_client_keep.specs.Arrays.{named_by};
ghost use Rattle.ot_client_keep.specs.Questions.{TurnFails, StopsAsking, AsksInTurn, Turn, arrays_turns, cells_turn, SendsBye, array_sized};

use crate::array::Array;
use crate::fault::KeepFault;
use crate::question::{ask_arrays, ask_cells};
use ot_client_ask::{AskFault, LineSource};
use ot_model::ArrayShape;
use ot_session::{Sink, write_whole};
use std::alloc::Global;

/// Asks for the arrays' names, and then for the cells of each.
pub(crate) fn read_arrays<H: LineSource, W: Sink>(
    alloc: Global,
    heard: &mut H,
    wire: &mut W,
) -> Result<Vec<Array>, KeepFault>
    ensures { MatchResult result
        (λ arrays. AsksInTurn (link (H.coming heard.old) (W.draft wire.old))
        (link (H.coming heard.new) (W.draft wire.new)) (arrays_turns (map named_by arrays.items)))
        (λ fault. StopsAsking (link (H.coming heard.old) (W.draft wire.old)) (link (H.coming heard.new) (W.draft wire.new)) fault) }
{
    let shapes = match ask_arrays(alloc, heard, wire) {
        Ok(shapes) => shapes,
        Err(fault) => return Err(fault),
    };
    read_each(alloc, shapes.as_slice(), heard, wire)
}

/// Asks for the cells of each array.
fn read_each<H: LineSource, W: Sink>(
    alloc: Global,
    shapes: &[ArrayShape],
    heard: &mut H,
    wire: &mut W,
) -> Result<Vec<Array>, KeepFault>
    ensures { MatchResult result
        (λ arrays. AsksInTurn (link (H.coming heard.old) (W.draft wire.old))
        (link (H.coming heard.new) (W.draft wire.new)) (map cells_turn (map named_by arrays.items))
        × (arrays_listed (map named_by arrays.items) ≡ arrays_of shapes.now))
        (λ fault. StopsAsking (link (H.coming heard.old) (W.draft wire.old)) (link (H.coming heard.new) (W.draft wire.new)) fault) }
{
    let mut arrays = Vec::new(alloc);
    for shape in shapes {
        let array = match read_array(alloc, shape, heard, wire) {
            Ok(array) => array,
            Err(fault) => return Err(fault),
        };
        match arrays.push(array) {
            Ok(()) => {}
            Err(_) => return Err(KeepFault::Ask(AskFault::Memory)),
        }
    }
    Ok(arrays)
}

/// Asks for the cells of an array.
fn read_array<H: LineSource, W: Sink>(
    alloc: Global,
    shape: &ArrayShape,
    heard: &mut H,
    wire: &mut W,
) -> Result<Array, KeepFault>
    ensures { MatchResult result
        (λ array. (array_sized (named_by array) ≡ shape_sized shape.now)
        × Turn (cells_turn (named_by array)).0 (link (H.coming heard.old) (W.draft wire.old))
        (link (H.coming heard.new) (W.draft wire.new)) (cells_turn (named_by array)).1)
        (λ fault. StopsAsking (link (H.coming heard.old) (W.draft wire.old)) (link (H.coming heard.new) (W.draft wire.new)) fault) }
{
    let Ok(name) = String::from_str(alloc, shape.name.as_str()) else {
        return Err(KeepFault::Ask(AskFault::Memory));
    };
    match ask_cells(alloc, shape.name.as_str(), shape.len, heard, wire) {
        Ok(cells) => Ok(Array { name, cells }),
        Err(fault) => Err(fault),
    }
}

/// Says goodbye, as far as that can be sent, and waits until the stream is over: the tenant is free then.
pub(crate) fn say_bye<H: LineSource, W: Sink>(heard: &mut H, wire: &mut W)
    ensures { SendsBye (link (H.coming heard.old) (W.draft wire.old)) (link (H.coming heard.new) (W.draft wire.new)) }
{
    let _ = write_whole(wire, b"[\"bye\"]\n".as_slice());
    heard.wait_for_end();
}
