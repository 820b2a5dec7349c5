//! Programs of C, from their first line to their last.
ghost use Rattle.std.specs.Prelude.{◌≡◌, ◌++◌, OnOk, IfOk, string_bytes};
ghost use Rattle.ot_model.specs.Programs.{expanded_of, arrays_of};
ghost use Rattle.ot_show_c.specs.Programs as written;
ghost use Rattle.ot_show_c.specs.Programs.{IsProgram, lists_of};

use crate::array::{arrays_in_c, declaration};
use crate::named::{Call, body_calls, names};
use crate::statement::{block, line};
use ot_model::{ArrayShape, Cell, Decl, Program, Section};
use ot_show_print::Printer;
use std::alloc::{AllocError, Global};

const HEAD: &str = "/* The last run of a session, as C with OpenMP: it prints what the run shows. */
#include <inttypes.h>
#include <stdint.h>
#include <stdio.h>
";

const MIN: &str = "
static uint64_t min(uint64_t one, uint64_t two)
{
    return one < two ? one : two;
}
";

const MAX: &str = "
static uint64_t max(uint64_t one, uint64_t two)
{
    return one < two ? two : one;
}
";

const SHOW: &str = "
static void show(const uint64_t *cells, size_t count)
{
    for (size_t i = 0; i < count; i++)
        printf(\"%c%\" PRIu64, i == 0 ? '[' : ',', cells[i]);
    printf(\"]\");
}
";

const MAIN: &str = "
int main(void)
{
";

/// What stands before the lines of `main`.
const MARGIN: &str = "    ";

const REGION: &str = "    #pragma omp parallel
    #pragma omp single
";

/// The program as C, over arrays of these names and lengths that begin with these numbers, a list for each. It prints the
/// lists of the run's reply, on one line. Only arrays that the program names are in it. Its one refusal is of memory.
pub fn c_text(
    alloc: Global,
    program: &Program,
    arrays: &[ArrayShape],
    before: &[Vec<u64>],
) -> Result<String, AllocError>
    ensures { IfOk result (λ text. IsProgram (arrays_of arrays.now) (lists_of before.now) (expanded_of program.now) (string_bytes text)) }
{
    let arrays = arrays_in_c(alloc, arrays)?;
    let mut out = Printer::new(alloc, &arrays);
    front(&mut out, program, &arrays, before)?;
    region(alloc, &mut out, MARGIN, program)?;
    out.words("    return 0;\n}\n")?;
    Ok(out.into_text())
}

/// What stands before the program's body.
fn front(
    out: &mut Printer<'_>,
    program: &Program,
    arrays: &[ArrayShape],
    before: &[Vec<u64>],
) -> Result<(), AllocError>
    ensures text { OnOk result (out.new.text ≡ out.old.text ++ written.front (written.declared_from (expanded_of program.now) 0 (arrays_of arrays.now) (lists_of before.now)) (expanded_of program.now)) }
    ensures names { out.new.names ≡ out.old.names }
{
    out.words(HEAD)?;
    functions(out, program)?;
    out.words(MAIN)?;
    declarations(out, MARGIN, program, arrays, before)?;
    out.words(REGION)
}

/// The body, and what shows its cells.
fn region(
    alloc: Global,
    out: &mut Printer<'_>,
    margin: &str,
    program: &Program,
) -> Result<(), AllocError>
    ensures text { OnOk result (out.new.text ≡ out.old.text ++ written.region out.old.names margin.now (expanded_of program.now)) }
    ensures names { out.new.names ≡ out.old.names }
{
    let nothing = Decl::new(Vec::new(alloc));
    block(alloc, out, margin, &nothing, &program.body)?;
    out.words("\n")?;
    shows(out, margin, &program.shows)
}

/// The functions that the program calls.
fn functions(out: &mut Printer<'_>, program: &Program) -> Result<(), AllocError>
    ensures text { OnOk result (out.new.text ≡ out.old.text ++ written.functions (expanded_of program.now)) }
    ensures names { out.new.names ≡ out.old.names }
{
    words_if(out, body_calls(&program.body, Call::Min), MIN)?;
    words_if(out, body_calls(&program.body, Call::Max), MAX)?;
    words_if(out, any_shown(&program.shows), SHOW)
}

fn any_shown(shows: &[Section]) -> bool
    ensures { result ≡ written.any_shown shows.now }
{
    !shows.is_empty()
}

fn words_if(out: &mut Printer<'_>, wanted: bool, words: &str) -> Result<(), AllocError>
    ensures text { OnOk result (out.new.text ≡ out.old.text ++ written.words_if wanted words.now) }
    ensures names { out.new.names ≡ out.old.names }
{
    if wanted {
        return out.words(words);
    }
    Ok(())
}

/// The arrays that are named, with a line behind them.
fn declarations(
    out: &mut Printer<'_>,
    margin: &str,
    program: &Program,
    arrays: &[ArrayShape],
    before: &[Vec<u64>],
) -> Result<(), AllocError>
    ensures text { OnOk result (out.new.text ≡ out.old.text ++ written.declarations margin.now (written.declared_from (expanded_of program.now) 0 (arrays_of arrays.now) (lists_of before.now))) }
    ensures names { out.new.names ≡ out.old.names }
{
    let mut any = false;
    for number in 0..arrays.len().min(before.len()) {
        let named = names(program, number);
        declaration_if(out, named, margin, &arrays[number], &before[number])?;
        any |= named;
    }
    words_if(out, any, "\n")
}

fn declaration_if(
    out: &mut Printer<'_>,
    wanted: bool,
    margin: &str,
    array: &ArrayShape,
    numbers: &[u64],
) -> Result<(), AllocError>
    ensures text { OnOk result (out.new.text ≡ out.old.text ++ written.words_if wanted (written.declaration margin.now (written.c_declared (written.array_of array.now) numbers.now))) }
    ensures names { out.new.names ≡ out.old.names }
{
    if wanted {
        return declaration(out, margin, array, numbers);
    }
    Ok(())
}

/// Prints the lists of the reply.
fn shows(out: &mut Printer<'_>, margin: &str, shows: &[Section]) -> Result<(), AllocError>
    ensures text { OnOk result (out.new.text ≡ out.old.text ++ written.shows out.old.names margin.now shows.now) }
    ensures names { out.new.names ≡ out.old.names }
{
    line(out, margin, "printf(\"[\");")?;
    lists(out, margin, shows)?;
    line(out, margin, "printf(\"]\\n\");")
}

/// Prints the lists, with commas between them.
fn lists(out: &mut Printer<'_>, margin: &str, shows: &[Section]) -> Result<(), AllocError>
    ensures text { OnOk result (out.new.text ≡ out.old.text ++ written.lists out.old.names margin.now shows.now) }
    ensures names { out.new.names ≡ out.old.names }
{
    if shows.is_empty() {
        return Ok(());
    }
    show(out, margin, shows[0])?;
    for section in &shows[1..] {
        line(out, margin, "printf(\",\");")?;
        show(out, margin, *section)?;
    }
    Ok(())
}

fn show(out: &mut Printer<'_>, margin: &str, section: Section) -> Result<(), AllocError>
    ensures text { OnOk result (out.new.text ≡ out.old.text ++ written.show out.old.names margin.now section) }
    ensures names { out.new.names ≡ out.old.names }
{
    out.words(margin)?;
    out.words("show(&")?;
    out.cell(Cell {
        array: section.array,
        index: section.start,
    })?;
    out.words(", ")?;
    out.number(u64::from(section.len))?;
    out.words(");\n")
}
