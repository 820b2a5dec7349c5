//! Pictures: of a text in C, of the last run of a session, and of a program that is refused.
use crate::checking::{ended_by, name_of, say, text_of, without_mark};
use crate::ended::Ended;
use crate::fault::Fault;
use crate::included::with_included;
use crate::judging::outcome_of_run;
use crate::{print_text, tell_bad_line};
use ot_book::Book;
use ot_exec_check::{Drawn, draw_run};
use ot_file_diagnosis::{Format, Paint, Source, put_found};
use ot_session::{Reading, Writing, write_whole};
use ot_show_graph::draw;
use ot_show_last::{LastFault, begun};
use ot_show_refusal::{Refused, picture_on};
use std::alloc::Global;
use std::io;
use std::rt::Files;

/// Above how many tasks their number is told.
const MANY_TASKS: u32 = 200;

/// Prints the last run of the session on standard input as a task graph, or the program that is refused in its first line that isn't
/// taken, and tells how large a large one is.
pub(crate) fn draw_session<R: Input + Print + Eprint>(
    rt: &R,
    alloc: Global,
) -> Result<Ended, Fault> {
    let Ok(mut book) = begun(alloc) else {
        return Err(Fault::Memory);
    };
    match draw(alloc, &mut book, &mut Reading::new(rt.reader())) {
        Ok(drawing) => {
            tell_many(rt, drawing.tasks);
            print_text(rt, drawing.text.as_str())
        }
        Err(fault) => draw_refused(rt, alloc, &book, fault),
    }
}

/// Prints the program that a book was asked for last, where this fault says that it was refused for what a statement of it does.
fn draw_refused<R: Print + Eprint>(
    rt: &R,
    alloc: Global,
    book: &Book,
    fault: LastFault,
) -> Result<Ended, Fault> {
    let LastFault::BadLine(number, answer) = fault else {
        return Err(Fault::from(fault));
    };
    match picture_on(alloc, book) {
        Ok(Some(refused)) => {
            let _ = tell_bad_line(rt, number, answer);
            print_refused(rt, &refused)
        }
        Ok(None) => Err(Fault::from(fault)),
        Err(_) => Err(Fault::Memory),
    }
}

fn print_refused<R: Print + Eprint>(rt: &R, refused: &Refused) -> Result<Ended, Fault> {
    tell_many(rt, refused.tasks);
    write_text(rt, refused.text.as_slice())?;
    Ok(Ended::Refused)
}

/// Tells how many tasks a picture has, where they are many.
fn tell_many(rt: &impl Eprint, tasks: u32) {
    if tasks > MANY_TASKS {
        let _ = eprintln!(rt; "omptask: {tasks} tasks");
    }
}

/// Draws the run of a text in C, up to the first race that is found, on standard output. What is found is told on standard error.
pub(crate) fn draw_file<R: Input + Print + Eprint + Files>(
    rt: &R,
    alloc: Global,
    path: &str,
) -> Result<Ended, Fault> {
    let text = text_of(rt, alloc, path, 0)?;
    let source = Source {
        name: name_of(path, ""),
        text: without_mark(text.as_slice()),
    };
    let whole = with_included(rt, alloc, &[], source)?;
    let Ok(drawn) = draw_run(alloc, &whole) else {
        return Err(Fault::Memory);
    };
    let shown = Source {
        name: source.name,
        text: whole.text(),
    };
    tell_found(rt, alloc, shown, &drawn)?;
    write_picture(rt, &drawn)?;
    Ok(ended_by(outcome_of_run(drawn.verdict)))
}

fn tell_found<R: Eprint>(
    rt: &R,
    alloc: Global,
    source: Source<'_>,
    drawn: &Drawn,
) -> Result<(), Fault> {
    let mut out = Vec::new(alloc);
    let format = Format::Text(Paint::Plain);
    match put_found(alloc, format, source, drawn.found.as_slice(), &mut out) {
        Ok(()) => {
            say(rt, out.as_slice());
            Ok(())
        }
        Err(_) => Err(Fault::Memory),
    }
}

/// Writes the picture, where there is one.
fn write_picture<R: Print>(rt: &R, drawn: &Drawn) -> Result<(), Fault> {
    let Some(picture) = &drawn.picture else {
        return Ok(());
    };
    write_text(rt, picture.as_slice())
}

fn write_text<R: Print>(rt: &R, text: &[u8]) -> Result<(), Fault> {
    match write_whole(&mut Writing::new(io::writer(rt)), text) {
        Ok(()) => Ok(()),
        Err(_) => Err(Fault::WriteFailed),
    }
}
