//! A text, judged.
ghost use Rattle.std.specs.Prelude.{IfOk};
ghost use Rattle.ot_c_program.specs.Files.{lowered_of};
ghost use Rattle.ot_c_judge.specs.Reports.{told_by};
ghost use Rattle.ot_c_text.specs.Judging.{Judges, JudgesProgram, JudgesBy, IsJudged};

use crate::reading::{Meaning, meaning_of};
use ot_c_judge::{CProgram, Order, Report, report_c};
use ot_c_program::{Lowered, Reductions};
use std::alloc::{AllocError, Global};

/// Judges a text of this name, and tells what is found. Nothing is told where it means no program that can be judged.
pub fn judge_text(alloc: Global, name: &str, text: &[u8]) -> Result<Option<Report>, AllocError>
    ensures { IfOk result (λ told. Judges name.now text.now (told_by told)) }
{
    match meaning_of(alloc, text)? {
        Meaning::Program(lowered) => judge_program(alloc, name, text, lowered),
        Meaning::Outside(_, _) => Ok(None),
    }
}

/// Judges a program by what orders its tasks in C: there a task that takes part in a reduction by a name has no dependence by
/// that, and one that does by a pointer has the one of an `in`. Where some do so and some so neither order is C's.
fn judge_program(
    alloc: Global,
    name: &str,
    text: &[u8],
    lowered: Lowered,
) -> Result<Option<Report>, AllocError>
    ensures { IfOk result (λ told. JudgesProgram name.now text.now (lowered_of lowered) lowered.reductions (told_by told)) }
{
    match lowered.reductions {
        Reductions::ByNames => judge_by(alloc, name, text, Order::OfC, lowered),
        Reductions::ByPointers => judge_by(alloc, name, text, Order::OfCByPointers, lowered),
        Reductions::Mixed(_) => Ok(None),
    }
}

fn judge_by(
    alloc: Global,
    name: &str,
    text: &[u8],
    order: Order,
    lowered: Lowered,
) -> Result<Option<Report>, AllocError>
    ensures { IfOk result (λ told. JudgesBy order name.now text.now (lowered_of lowered) (told_by told)) }
{
    report_c(alloc, name, text, judged(order, lowered))
}

/// A program as it is judged, where this orders its tasks. None of its cells is copied.
fn judged(order: Order, lowered: Lowered) -> CProgram
    ensures { IsJudged order (lowered_of lowered) result }
{
    CProgram {
        arrays: lowered.arrays,
        program: lowered.program,
        places: lowered.places,
        order,
    }
}
