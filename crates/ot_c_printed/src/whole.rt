//! A program's C, which is read back before it is given.
ghost use Rattle.std.specs.Prelude.{MatchResult, string_bytes};
ghost use Rattle.ot_model.specs.Programs.{arrays_of, expanded_of};
ghost use Rattle.ot_show_c.specs.Programs.{lists_of};
ghost use Rattle.ot_c_program.specs.Files.{lowered_of};
ghost use Rattle.ot_c_printed.specs.Printed.{Differs, IsPrinted, IsSame, NotBack, ReadsBack, WhyNot};

use crate::apart::compare_whole;
use crate::arrays::{same_arrays, shape_of};
use crate::fault::NoC;
use ot_c_program::Lowered;
use ot_c_text::{Meaning, meaning_of};
use ot_model::{ArrayShape, Program};
use ot_program::{ProgramFault, read_program};
use ot_show_c::c_text;
use std::alloc::Global;

/// The program as C, over arrays of these names and lengths that begin with these numbers, a list for each, where it is read back as
/// that program; or why it isn't.
pub fn c_checked(
    alloc: Global,
    program: &Program,
    arrays: &[ArrayShape],
    before: &[Vec<u64>],
) -> Result<String, NoC>
    ensures { MatchResult result
        (λ text. IsPrinted (arrays_of arrays.now) (lists_of before.now) (expanded_of program.now) (string_bytes text))
        (λ fault. WhyNot (arrays_of arrays.now) (lists_of before.now) (expanded_of program.now) fault) }
{
    let text = c_text(alloc, program, arrays, before)?;
    match read_back(alloc, program, arrays, before, text.as_bytes()) {
        Ok(()) => Ok(text),
        Err(fault) => Err(fault),
    }
}

/// Whether a text means the program.
fn read_back(
    alloc: Global,
    program: &Program,
    arrays: &[ArrayShape],
    before: &[Vec<u64>],
    text: &[u8],
) -> Result<(), NoC>
    ensures { MatchResult result
        (λ _. ReadsBack (arrays_of arrays.now) (lists_of before.now) (expanded_of program.now) text.now)
        (λ fault. NotBack (arrays_of arrays.now) (lists_of before.now) (expanded_of program.now) text.now fault) }
{
    match meaning_of(alloc, text)? {
        Meaning::Program(lowered) => compare(alloc, program, arrays, before, &lowered),
        Meaning::Outside(byte, reason) => Err(NoC::NotReadBack(byte, reason)),
    }
}

/// Whether what a text means is the program.
fn compare(
    alloc: Global,
    program: &Program,
    arrays: &[ArrayShape],
    before: &[Vec<u64>],
    lowered: &Lowered,
) -> Result<(), NoC>
    ensures { MatchResult result
        (λ _. IsSame (arrays_of arrays.now) (lists_of before.now) (expanded_of program.now) (lowered_of lowered.now))
        (λ fault. Differs (arrays_of arrays.now) (lists_of before.now) (expanded_of program.now) (lowered_of lowered.now) fault) }
{
    if !same_arrays(program, arrays, before, &lowered.arrays) {
        return Err(NoC::OtherArrays);
    }
    let shape = shape_of(alloc, arrays)?;
    match read_program(alloc, &lowered.program, &shape) {
        Ok(read) => compare_whole(alloc, &program.body, &read.body),
        Err(ProgramFault::Refused(refusal)) => Err(NoC::Refused(refusal)),
        Err(ProgramFault::Memory) => Err(NoC::Memory),
    }
}
