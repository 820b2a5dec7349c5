//! A session of which the remarks alone are written.
ghost use Rattle.std.specs.Prelude.{◌≡◌, ◌≤◌, ◌++◌, ◌∷◌, [], ℕ, List, Option, None, Ok, length, IfOk};
ghost use Rattle.ot_lines.specs.Lines.{hearing_opened};
ghost use Rattle.ot_book.specs.Books.{Register, next_number};
ghost use Rattle.ot_session.specs.Session.{HasNoEnd, max_line};
ghost use Rattle.ot_session.specs.Serving.{draft, session_bounds};
ghost use Rattle.ot_session.specs.declared.fault.End.{End};
ghost use Rattle.ot_why_explain.specs.Explaining.{beginner, RemarksAlone};
ghost use Rattle.ot_why_explain.specs.Listening.{said_at, Hushed, HushedOn, HushesLine};
ghost use Rattle.ot_why_explain.specs.declared.explaining.Explained.TheVariants.{AllTaken};

use crate::explaining::{Explained, Talk, said_at};
use crate::telling::tell_last;
use ot_book::{Book, Solo};
use ot_lines::{Ended, Failed, LineFault, Lines, Listener, Source, listen};
use ot_session::{End, FrontFault, Sink, session_bounds, take_line};
use ot_store::{Limits, Store};
use std::alloc::Global;

/// Serves the one session of a new tenant, called `t1`, as `explain` does, and writes the remarks alone: of what `explain`
/// writes, the lines that begin with `# `. It answers what `explain` answers.
pub fn explain_quietly<R: Source, W: Sink>(
    alloc: Global,
    source: &mut R,
    sink: &mut W,
) -> Result<Explained, FrontFault>
    ensures { IfOk result (λ said. (new : Register) × (end : End) × RemarksAlone beginner new
        (R.flow source.old).ahead (R.flow source.new).ahead (R.flow source.new).latest (W.draft sink.old).held (W.draft sink.new).held end said) }
{
    let Ok(book) = Book::new(alloc, "t1", Limits::usual(), Store::empty(alloc)) else {
        return Err(FrontFault::Memory);
    };
    let Ok(mut lines) = Lines::new(alloc, session_bounds()) else {
        return Err(FrontFault::Memory);
    };
    let mut talk = Talk {
        book,
        said: Explained::AllTaken,
    };
    match remark_lines(alloc, &mut lines, &mut talk, source, sink) {
        Ok(end) => Ok(said_at(end, talk.said)),
        Err(fault) => Err(fault),
    }
}

/// Serves a session line by line.
fn remark_lines<R: Source, W: Sink>(
    alloc: Global,
    lines: &mut Lines,
    talk: &mut Talk,
    source: &mut R,
    sink: &mut W,
) -> Result<End, FrontFault>
    requires begun { lines.old ≡ hearing_opened session_bounds }
    requires closed { talk.old.book.pending ≡ None }
    requires says { talk.old.said ≡ AllTaken }
    ensures { IfOk result (λ end. RemarksAlone talk.old.book talk.new.book (R.flow source.old).ahead (R.flow source.new).ahead (R.flow source.new).latest
        (W.draft sink.old).held (W.draft sink.new).held end (said_at end talk.new.said)) }
{
    match listen(lines, source, &mut Remarker { alloc }, talk, sink) {
        Ok(Ended::Stopped(ended)) => ended,
        Ok(Ended::End) => Ok(End::EndOfInput),
        Ok(Ended::Long) => Ok(End::LongLine),
        Err(LineFault::ReadFailed) => Err(FrontFault::ReadFailed),
        Err(LineFault::TooManyReads) => Err(FrontFault::TooManyTurns),
    }
}

/// Takes the lines of a session, and tells of each what is to be said of its reply, but not the reply. An error is how
/// the session ends.
#[derive(Drop)]
struct Remarker {
    alloc: Global,
}

impl<W: Sink> Listener<Talk, W, Result<End, FrontFault>> for Remarker {
    ghost took = { λ old sink line new next result. HushesLine old.book old.said (W.draft sink).held line new.book new.said (W.draft next).held result };

    fn take(
        &mut self,
        talk: &mut Talk,
        sink: &mut W,
        line: &[u8],
    ) -> Result<(), Result<End, FrontFault>> {
        remark_line(self.alloc, talk, sink, line)
    }
}

/// A whole line of the session, without its LF.
fn remark_line<W: Sink>(
    alloc: Global,
    talk: &mut Talk,
    sink: &mut W,
    line: &[u8],
) -> Result<(), Result<End, FrontFault>>
    ensures goes { (first : Register) (start : Option (List ℕ)) (bytes : List ℕ) → first.pending ≡ None → HasNoEnd line.now → length line.now ≤ max_line →
        Hushed first start bytes talk.old.book (W.draft sink.old).held talk.old.said →
        HushedOn first start (bytes ++ (line.now ++ 10 ∷ [])) talk.old.book talk.new.book (W.draft sink.old).held (W.draft sink.new).held talk.old.said talk.new.said result }
    ensures grows { next_number talk.old.book ≤ next_number talk.new.book }
{
    if let Err(stop) = take_line(alloc, &mut talk.book, &mut Solo, &mut Unkept, line) {
        return Err(stop.result());
    }
    match tell_last(alloc, &talk.book, sink) {
        Ok(refused) => {
            if refused {
                talk.said = Explained::SomeRefused;
            }
            Ok(())
        }
        Err(fault) => Err(Err(fault)),
    }
}

/// A sink that keeps nothing, and tells so.
#[derive(Drop)]
struct Unkept;

impl Sink for Unkept {
    ghost draft = { λ s. draft None 0 };

    fn write(&mut self, bytes: &[u8]) -> Result<usize, Failed> {
        Ok(bytes.len())
    }
}
