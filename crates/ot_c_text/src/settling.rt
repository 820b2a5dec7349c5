//! Which program of a file is taken.
ghost use Rattle.std.specs.Prelude.{◌≡◌, IfOk, Ok, map};
ghost use Rattle.ot_c_files.specs.Program.{file_of};
ghost use Rattle.ot_c_arrays.specs.Arrays.{c_array};
ghost use Rattle.ot_c_program.specs.Files.{lowered_of, lowered_by_turns};
ghost use Rattle.ot_c_text.specs.Settling as meant;

use ot_c_files::File;
use ot_c_program::{CArray, CFault, Lowered, cell_count, lower_by_turns};
use ot_c_words::{Known, Name, Word, Words};
use ot_model::{ArrayShape, Shape};
use ot_program::{ProgramFault, Refusal, read_program};
use std::alloc::{AllocError, Global};

/// A program of a file, or, where it isn't read as it stands, the one with its loops written out turn by turn, if there is one.
pub(crate) fn settled(
    alloc: Global,
    words: &Words,
    file: &File,
    lowered: Lowered,
) -> Result<Lowered, AllocError>
    ensures { IfOk result (λ l. Ok (lowered_of l) ≡ meant.reading_settled (meant.has_guards words.now.words.items) (Ok (lowered_of lowered))
        (lowered_by_turns words.now.names.keys words.now.starts.items (file_of file.now))) }
{
    if has_guards(&words.words) && is_beyond(alloc, &lowered)? {
        by_turns(alloc, words, file, lowered)
    } else {
        Ok(lowered)
    }
}

/// The program with its loops written out turn by turn, or this one where there is none.
fn by_turns(
    alloc: Global,
    words: &Words,
    file: &File,
    lowered: Lowered,
) -> Result<Lowered, AllocError>
    ensures { IfOk result (λ l. Ok (lowered_of l) ≡ meant.unless_refused (lowered_of lowered) (lowered_by_turns words.now.names.keys words.now.starts.items (file_of file.now))) }
{
    match lower_by_turns(alloc, words, file) {
        Ok(turns) => Ok(turns),
        Err(CFault::Outside(_, _)) => Ok(lowered),
        Err(CFault::Memory) => Err(AllocError),
    }
}

/// Whether `if` is among words.
fn has_guards(words: &[Word]) -> bool
    ensures { result ≡ meant.has_guards words.now }
{
    words.iter().any(|word| is_if(*word))
}

#[tactic(auto, unfolding(crate::specs::Settling::is_if))]
fn is_if(word: Word) -> bool
    ensures { result ≡ meant.is_if word }
{
    matches!(word, Word::Name(Name::Known(Known::If)))
}

/// Whether a program isn't read, as an index or a size isn't exact, or isn't in range.
fn is_beyond(alloc: Global, lowered: &Lowered) -> Result<bool, AllocError>
    ensures { IfOk result (λ beyond. beyond ≡ meant.is_beyond (lowered_of lowered.now)) }
{
    let shape = shape_of(alloc, &lowered.arrays)?;
    match read_program(alloc, &lowered.program, &shape) {
        Ok(_) => Ok(false),
        Err(ProgramFault::Refused(refusal)) => Ok(is_size(refusal)),
        Err(ProgramFault::Memory) => Err(AllocError),
    }
}

fn is_size(refusal: Refusal) -> bool
    ensures { result ≡ meant.is_size refusal }
{
    matches!(refusal, Refusal::Size | Refusal::OutOfRange)
}

/// How many task statements a program may have: no fewer than statements.
const MAX_TASKS: u32 = 20_000;

/// What a program over these arrays may name: fewer than 2^32 arrays, each shorter.
fn shape_of(alloc: Global, arrays: &[CArray]) -> Result<Shape, AllocError>
    ensures { IfOk result (λ shape. shape ≡ meant.settled_shape (map c_array arrays.now)) }
{
    let mut named = Vec::new(alloc);
    for array in arrays {
        let Ok(len) = u32::try_from(cell_count(array)) else {
            return Err(AllocError);
        };
        let name = String::from_str(alloc, array.name.as_str())?;
        named.push(ArrayShape { name, len })?;
    }
    if named.len() > u32::MAX as usize {
        return Err(AllocError);
    }
    Ok(Shape::new(named, MAX_TASKS))
}
