ghost use Rattle.std.specs.Prelude.{◌≡◌, IfOk};
ghost use Rattle.std.specs.Arc.{arc_value};
ghost use Rattle.ot_model.specs.View.{stmts_of};
ghost use Rattle.ot_model.specs.Programs.{array_lengths, expanded_of, IsNamedIn};
ghost use Rattle.ot_parts.specs.Parts.{parts_of};
ghost use Rattle.ot_check.specs.Offences.{Offends, IsFirstOf, TellsFirst};

use crate::checked::Checked;
use crate::fault::{CheckFault, Offence};
use crate::standing::Standing;
use crate::walk::walk;
use ot_model::{Program, Shape};
use ot_parts::parts_of;
use std::alloc::{AllocError, Global};

/// The first offence of a program, with its place: that of the least place, and there the first in the order
/// of `Offence`. None where no path of any body has one. Each cell that the program names is to be in the shape.
pub fn first_offence(
    alloc: Global,
    program: &Program,
    shape: &Shape,
) -> Result<Option<(u32, Offence)>, AllocError>
    requires { IsNamedIn (array_lengths shape.now) (expanded_of program.now) }
    ensures { IfOk result (IsFirstOf (Offends (stmts_of program.now.body.items))) }
{
    let mut standing = Standing::of_root(alloc, shape)?;
    let walked = walk(alloc, &program.body, &mut standing, 1)?;
    Ok(walked.first)
}

/// Checks that no path of any body of a program has an offence. Each cell that the program names is
/// to be in the shape. What is told otherwise is the first offence. The program is given up then.
pub fn check(alloc: Global, program: Program, shape: &Shape) -> Result<Checked, CheckFault>
    requires { IsNamedIn (array_lengths shape.now) (expanded_of program) }
    ensures told { TellsFirst (Offends (stmts_of program.body.items)) result }
    ensures program { IfOk result (λ checked. checked.program ≡ program) }
    ensures parts { IfOk result (λ checked. parts_of (arc_value checked.parts).items ≡ stmts_of program.body.items) }
{
    match first_offence(alloc, &program, shape)? {
        Some((place, offence)) => Err(CheckFault::Offence(offence, place)),
        None => {
            let parts = parts_of(alloc, &program.body)?;
            Ok(Checked { program, parts })
        }
    }
}
