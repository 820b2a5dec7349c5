//! What a job does with its owners: it lends behind a group's end, and takes back before a group is opened.
ghost use Rattle.std.specs.Prelude.{◌≡◌, IfOk, IfSome, option_map};
ghost use Rattle.ot_owner.specs.Keeping.{IsOpenable};
ghost use Rattle.ot_job.specs.Calls.{IsBack, IsLentBy, MayLend, MayTakeBack};
ghost use Rattle.ot_job.specs.Opened.{IsRoomFor};

use crate::piece::Done;
use ot_model::{Cell, Cells, Fold};
use ot_owner::{Lent, Owners, Room, Slip};
use std::alloc::{AllocError, Global};

/// Closes the group whose end is passed, if one is, and lends what the slip says: so that the piece has
/// what was folded among its inputs. It takes no memory.
pub(crate) fn lend(owners: &mut Owners, cells: &mut Cells, passed: Option<u32>, slip: Slip) -> Lent
    requires { MayLend owners.old cells.old passed slip }
    ensures { IsLentBy owners.old.owned cells.old passed slip result owners.new.owned cells.new }
{
    let Some(group) = passed else {
        return owners.lease(cells, slip);
    };
    owners.close_group(cells, group);
    owners.lease(cells, slip)
}

/// Room for the group that comes next, if one does. What is out and open stays, whatever the answer.
pub(crate) fn room_for(
    owners: &mut Owners,
    alloc: Global,
    group: Option<(Fold, &[Cell])>,
) -> Result<Option<(Fold, Room)>, AllocError>
    ensures names { IfOk result (λ room. IsRoomFor (option_map (λ g. (g.0, g.1.now)) group.entry) room) }
    ensures openable { IfOk result (λ room. IfSome room (λ _. IsOpenable owners.new)) }
    ensures owned { owners.new.owned ≡ owners.old.owned }
{
    match group {
        Some((op, cells)) => Ok(Some((op, owners.room(alloc, cells)?))),
        None => Ok(None),
    }
}

/// Takes back what is out to the worker, and opens the group that comes next, if there is room for one.
/// It takes no memory.
pub(crate) fn take_back(
    owners: &mut Owners,
    cells: &mut Cells,
    done: Done,
    worker: u32,
    room: Option<(Fold, Room)>,
    group: u32,
)
    requires { MayTakeBack owners.old cells.old done.lent worker room group }
    ensures { IsBack owners.old.owned cells.old done worker room group owners.new.owned cells.new }
{
    done.give_back(owners, cells, worker);
    let Some((op, room)) = room else {
        return;
    };
    owners.open_group(group, op, room);
}
