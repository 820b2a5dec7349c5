//! A session from bytes to bytes: lines come in, one reply goes out for each.
ghost use Rattle.std.specs.Prelude.{◌≡◌, None};
ghost use Rattle.ot_lines.specs.Lines.{hearing_opened};
ghost use Rattle.ot_session.specs.Serving.{session_bounds, IsServed};

use crate::device::Sink;
use crate::fault::{End, FrontFault};
use crate::turn::{Turn, tell_long};
use ot_book::{Book, Executor};
use ot_lines::{Bounds, Ended, LineFault, Lines, Source, listen};
use std::alloc::Global;

/// How a session reads: lines of at most 65,536 bytes, as many bytes a read, and 1,000,000 reads.
pub fn session_bounds() -> Bounds
    ensures { result ≡ session_bounds }
{
    Bounds {
        line: 65_536,
        read: 65_536,
        reads: 1_000_000,
    }
}

/// Serves one session: takes the lines of `source` into the book, performs them by `executor`, and
/// writes the replies to `sink`, each whole before the next line is taken. It begins with no request
/// of the book open and leaves none open.
pub fn serve<E: Executor, R: Source, W: Sink>(
    alloc: Global,
    book: &mut Book,
    executor: &mut E,
    source: &mut R,
    sink: &mut W,
) -> Result<End, FrontFault>
    requires { book.old.pending ≡ None }
    ensures { IsServed book.old book.new (R.flow source.old) (R.flow source.new) (W.draft sink.old) (W.draft sink.new) result }
{
    let Ok(mut lines) = Lines::new(alloc, session_bounds()) else {
        return Err(FrontFault::Memory);
    };
    serve_lines(alloc, &mut lines, book, executor, source, sink)
}

/// Serves one session as `serve` does, where its lines begin here.
pub(crate) fn serve_lines<E: Executor, R: Source, W: Sink>(
    alloc: Global,
    lines: &mut Lines,
    book: &mut Book,
    executor: &mut E,
    source: &mut R,
    sink: &mut W,
) -> Result<End, FrontFault>
    requires begun { lines.old ≡ hearing_opened session_bounds }
    requires closed { book.old.pending ≡ None }
    ensures { IsServed book.old book.new (R.flow source.old) (R.flow source.new) (W.draft sink.old) (W.draft sink.new) result }
{
    let mut turn = Turn { alloc, executor };
    match listen(lines, source, &mut turn, book, sink) {
        Ok(Ended::Stopped(stop)) => stop.result(),
        Ok(Ended::End) => Ok(End::EndOfInput),
        Ok(Ended::Long) => tell_long(sink),
        Err(LineFault::ReadFailed) => Err(FrontFault::ReadFailed),
        Err(LineFault::TooManyReads) => Err(FrontFault::TooManyTurns),
    }
}

/// Serves one session as `serve` does, in the room of lines that were heard before.
pub fn serve_behind<E: Executor, R: Source, W: Sink>(
    alloc: Global,
    lines: &mut Lines,
    book: &mut Book,
    executor: &mut E,
    source: &mut R,
    sink: &mut W,
) -> Result<End, FrontFault>
    requires { book.old.pending ≡ None }
    ensures { IsServed book.old book.new (R.flow source.old) (R.flow source.new) (W.draft sink.old) (W.draft sink.new) result }
{
    if lines.begin(session_bounds()).is_err() {
        return Err(FrontFault::Memory);
    }
    serve_lines(alloc, lines, book, executor, source, sink)
}
