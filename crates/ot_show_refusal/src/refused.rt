//! The picture of what a book was asked for last.
ghost use Rattle.std.specs.Prelude.{◌≡◌, ◌-◌, IfOk, IfSome, length, option_map, slice_get};
ghost use Rattle.ot_show_refusal.specs.Drawn.{DrawsLast, Draws};
ghost use Rattle.ot_store.specs.Arrays.{shape_in};
ghost use Rattle.ot_book.specs.ReplyView.{told_of};

use crate::picture::picture_of;
use ot_book::{Book, Entry, Told, read_line};
use ot_check::Offence;
use ot_show_races::dot_text;
use ot_why_blame::Blamed;
use ot_why_reason::{has_operations, program_in};
use std::alloc::{AllocError, Global};

/// A program that was refused, as text.
#[derive(Debug, Drop)]
pub struct Refused {
    /// A digraph in the language of `dot`.
    pub text: Vec<u8>,
    /// How many tasks it has.
    pub tasks: u32,
}

/// The picture of the program that the last request of a book was to run, where that was refused for what a statement of it does.
pub fn picture_on(alloc: Global, book: &Book) -> Result<Option<Refused>, AllocError>
    ensures { IfOk result (λ drawn. IfSome drawn (λ refused. DrawsLast book.now refused)) }
{
    let Some(entry) = last_entry(book) else {
        return Ok(None);
    };
    match &entry.told {
        Told::Offends(offence, place) => drawn(alloc, book, entry, *offence, *place),
        _ => Ok(None),
    }
}

/// The last line of a book's log, with what was told.
fn last_entry(book: &Book) -> Option<&Entry>
    ensures { option_map (λ entry. (entry.now.line.items, told_of entry.now.told)) result ≡ slice_get book.now.log (length book.now.log - 1) }
{
    book.log().last()
}

/// The program of a line, over the arrays of the book, none of which has changed since.
fn drawn(
    alloc: Global,
    book: &Book,
    entry: &Entry,
    offence: Offence,
    place: u32,
) -> Result<Option<Refused>, AllocError>
    ensures { IfOk result (λ drawn. IfSome drawn (λ refused. Draws (shape_in book.now.limits book.now.store) entry.now.line.items offence place refused)) }
{
    let Some(request) = read_line(alloc, entry.line.as_slice())? else {
        return Ok(None);
    };
    let shape = book.store().shape(alloc, &book.limits())?;
    let Some(program) = program_in(alloc, &request, &shape)? else {
        return Ok(None);
    };
    let blamed = Blamed {
        program: &program,
        arrays: shape.arrays(),
        has_operations: has_operations(&request),
    };
    let picture = picture_of(alloc, blamed, place, offence)?;
    let text = dot_text(alloc, &picture)?;
    Ok(Some(Refused {
        text,
        tasks: program.tasks,
    }))
}
