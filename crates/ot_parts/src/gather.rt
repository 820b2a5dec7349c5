ghost use Rattle.std.specs.Prelude.{◌≡◌, IfOk, OnOk, MatchOption, drop};
ghost use Rattle.ot_model.specs.Tree.{append};
ghost use Rattle.ot_parts.specs.Assigns.{assigns_of};
ghost use Rattle.ot_parts.specs.Left.{PassesAll, StopsAt};
ghost use Rattle.ot_parts.specs.Parts.{part_of};

use crate::assign::Assign;
use crate::part::Part;
use std::alloc::{AllocError, Global};

/// Puts copies of the sets and folds from a place in a body on, up to the next control statement, behind a
/// run. The answer is the part in which that stands, if it does in this body.
pub(crate) fn gather<'a>(
    alloc: Global,
    parts: &'a Vec<Part>,
    at: usize,
    run: &mut Vec<Assign>,
) -> Result<Option<&'a Part>, AllocError>
    ensures { IfOk result (λ found. MatchOption found (PassesAll (drop at parts.now.items) (assigns_of run.old.items) (assigns_of run.new.items))
        (λ p. StopsAt (drop at parts.now.items) (assigns_of run.old.items) (assigns_of run.new.items) (part_of p.now))) }
{
    for i in at..parts.len() {
        let part = &parts[i];
        push_copies(alloc, run, part.assigns().as_slice())?;
        if part.has_control() {
            return Ok(Some(part));
        }
    }
    Ok(None)
}

fn push_copies(alloc: Global, run: &mut Vec<Assign>, more: &[Assign]) -> Result<(), AllocError>
    ensures { OnOk result (assigns_of run.new.items ≡ append (assigns_of run.old.items) (assigns_of more.now)) }
{
    for assign in more {
        run.push(assign.copy(alloc)?)?;
    }
    Ok(())
}
