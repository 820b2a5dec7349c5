//! A session that is read to its end.
ghost use Rattle.std.specs.Prelude.{◌≡◌, ◌≢◌, [], Err, IfOk};
ghost use Rattle.ot_lines.specs.Lines.{hearing_opened};
ghost use Rattle.ot_session.specs.Serving.{next_count, session_bounds};
ghost use Rattle.ot_show_last.specs.LastRuns.{Finds, beginner};
ghost use Rattle.ot_show_last.specs.Going.{GoesOnHearing, HearsSession, run_in, told_at_end};
ghost use Rattle.ot_show_last.specs.declared.fault.LastFault.TheVariants.{ReadFailed};

use crate::fault::{LastFault, Untaken};
use crate::found::LastRun;
use crate::request::Runner;
use ot_book::Book;
use ot_lines::{Ended, LineFault, Lines, Source, listen};
use ot_session::session_bounds;
use ot_store::{Limits, Store};
use std::alloc::Global;

/// The book of a tenant that begins, as `solo` has it.
pub fn begun(alloc: Global) -> Result<Book, LastFault>
    ensures { IfOk result (λ book. book ≡ beginner) }
{
    match Book::new(alloc, "t1", Limits::usual(), Store::empty(alloc)) {
        Ok(book) => Ok(book),
        Err(_) => Err(LastFault::Memory),
    }
}

/// Reads a session as `solo` does, to its goodbye or the end of input, and answers the last program that it ran,
/// or the first line that isn't taken.
pub fn last_run<R: Source>(alloc: Global, source: &mut R) -> Result<LastRun, LastFault>
    ensures finds { Finds (R.flow source.old).ahead (R.flow source.new).ahead result }
    ensures read_failed { result ≡ Err ReadFailed → (R.flow source.new).failures ≡ next_count (R.flow source.old).failures }
    ensures read_worked { result ≢ Err ReadFailed → (R.flow source.new).failures ≡ (R.flow source.old).failures }
{
    let Ok(mut book) = begun(alloc) else {
        return Err(LastFault::Memory);
    };
    last_run_in(alloc, &mut book, source)
}

/// The same with the book of a tenant that begins, which takes the session: behind a line that is refused, its last reply is the
/// refusal.
pub fn last_run_in<R: Source>(
    alloc: Global,
    book: &mut Book,
    source: &mut R,
) -> Result<LastRun, LastFault>
    requires { book.old ≡ beginner }
    ensures finds { Finds (R.flow source.old).ahead (R.flow source.new).ahead result }
    ensures read_failed { result ≡ Err ReadFailed → (R.flow source.new).failures ≡ next_count (R.flow source.old).failures }
    ensures read_worked { result ≢ Err ReadFailed → (R.flow source.new).failures ≡ (R.flow source.old).failures }
{
    let Ok(mut lines) = Lines::new(alloc, session_bounds()) else {
        return Err(LastFault::Memory);
    };
    let mut last = None;
    let read = hear_all(alloc, &mut lines, book, &mut last, source);
    told(read, last)
}

/// The last run, where all was read.
fn told(read: Result<(), LastFault>, last: Option<LastRun>) -> Result<LastRun, LastFault>
    ensures { result ≡ told_at_end read last }
{
    match read {
        Ok(()) => match last {
            Some(last) => Ok(last),
            None => Err(LastFault::NoRun),
        },
        Err(fault) => Err(fault),
    }
}

/// Hears a session to its end, or to the line that isn't taken.
fn hear_all<R: Source>(
    alloc: Global,
    lines: &mut Lines,
    book: &mut Book,
    last: &mut Option<LastRun>,
    source: &mut R,
) -> Result<(), LastFault>
    requires begins { GoesOnHearing [] [] book.old (run_in last.old) }
    requires begun { lines.old ≡ hearing_opened session_bounds }
    ensures hears { HearsSession (R.flow source.old).ahead (R.flow source.new).ahead (run_in last.new) result }
    ensures read_failed { result ≡ Err ReadFailed → (R.flow source.new).failures ≡ next_count (R.flow source.old).failures }
    ensures read_worked { result ≢ Err ReadFailed → (R.flow source.new).failures ≡ (R.flow source.old).failures }
{
    match listen(lines, source, &mut Runner { alloc }, book, last) {
        Ok(Ended::Stopped(stop)) => stop.result(),
        Ok(Ended::End) => Ok(()),
        Ok(Ended::Long) => Err(LastFault::BadLine(book.next_number(), Untaken::Long)),
        Err(LineFault::ReadFailed) => Err(LastFault::ReadFailed),
        Err(LineFault::TooManyReads) => Err(LastFault::TooManyReads),
    }
}
