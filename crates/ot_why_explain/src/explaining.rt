//! A session with remarks behind its refusals.
ghost use Rattle.std.specs.Prelude.{◌≡◌, ◌≤◌, ◌++◌, ◌∷◌, [], ℕ, List, Option, None, Ok, Err, length, IfOk, IfErr};
ghost use Rattle.ot_lines.specs.Lines.{hearing_opened};
ghost use Rattle.ot_book.specs.Books.{Register, next_number};
ghost use Rattle.ot_session.specs.Session.{HasNoEnd, max_line};
ghost use Rattle.ot_session.specs.Serving.{session_bounds};
ghost use Rattle.ot_session.specs.declared.fault.End.{End};
ghost use Rattle.ot_why_explain.specs.Explaining.{beginner, Explains, Remarks};
ghost use Rattle.ot_why_explain.specs.Listening.{Explaining, GoesOn, said_at, ExplainsLine};
ghost use Rattle.ot_why_explain.specs.declared.explaining.Explained.TheVariants.{AllTaken};

use crate::telling::tell_last;
use ot_book::{Book, Solo};
use ot_lines::{Ended, LineFault, Lines, Listener, Source, listen};
use ot_session::{End, FrontFault, Sink, session_bounds, take_line, tell_long};
use ot_store::{Limits, Store};
use std::alloc::Global;

/// Whether a session refused a request, or a line that it didn't take.
#[derive(Clone, Copy, Debug, PartialEq, Eq)]
pub enum Explained {
    AllTaken,
    SomeRefused,
}

/// A session that goes on.
#[derive(Drop)]
pub(crate) struct Talk {
    pub book: Book,
    pub said: Explained,
}

/// Serves the one session of a new tenant, called `t1`, and writes what a session writes. Behind each refusal
/// stand lines that begin with `# `: the first has its code and what that means, and of a program more tell what is
/// wrong with it. It answers `SomeRefused` where there was a refusal, or where the session ended at a line that it
/// didn't take, for its length or because the log was full.
pub fn explain<R: Source, W: Sink>(
    alloc: Global,
    source: &mut R,
    sink: &mut W,
) -> Result<Explained, FrontFault>
    ensures ended { IfOk result (λ said. (new : Register) × (end : End) × Explains beginner new
        (R.flow source.old).ahead (R.flow source.new).ahead (R.flow source.new).latest (W.draft sink.old).held (W.draft sink.new).held (Ok end)
        × Remarks beginner new (R.flow source.old).ahead (R.flow source.new).ahead (W.draft sink.old).held (W.draft sink.new).held end said) }
    ensures failed { IfErr result (λ fault. (new : Register) × Explains beginner new
        (R.flow source.old).ahead (R.flow source.new).ahead (R.flow source.new).latest (W.draft sink.old).held (W.draft sink.new).held (Err fault)) }
{
    let Ok(book) = Book::new(alloc, "t1", Limits::usual(), Store::empty(alloc)) else {
        return Err(FrontFault::Memory);
    };
    let Ok(mut lines) = Lines::new(alloc, session_bounds()) else {
        return Err(FrontFault::Memory);
    };
    let mut talk = Talk {
        book,
        said: Explained::AllTaken,
    };
    match explain_lines(alloc, &mut lines, &mut talk, source, sink) {
        Ok(end) => Ok(said_at(end, talk.said)),
        Err(fault) => Err(fault),
    }
}

/// What is said of a session that ends so, where this was said of its lines.
pub(crate) fn said_at(end: End, said: Explained) -> Explained
    ensures { result ≡ said_at end said }
{
    match end {
        End::Full | End::LongLine => Explained::SomeRefused,
        End::Bye | End::EndOfInput | End::Closed => said,
    }
}

/// Serves a session line by line.
fn explain_lines<R: Source, W: Sink>(
    alloc: Global,
    lines: &mut Lines,
    talk: &mut Talk,
    source: &mut R,
    sink: &mut W,
) -> Result<End, FrontFault>
    requires begun { lines.old ≡ hearing_opened session_bounds }
    requires closed { talk.old.book.pending ≡ None }
    requires says { talk.old.said ≡ AllTaken }
    ensures explains { Explains talk.old.book talk.new.book (R.flow source.old).ahead (R.flow source.new).ahead (R.flow source.new).latest
        (W.draft sink.old).held (W.draft sink.new).held result }
    ensures remarks { IfOk result (λ end. Remarks talk.old.book talk.new.book (R.flow source.old).ahead (R.flow source.new).ahead
        (W.draft sink.old).held (W.draft sink.new).held end (said_at end talk.new.said)) }
{
    match listen(lines, source, &mut Explainer { alloc }, talk, sink) {
        Ok(Ended::Stopped(ended)) => ended,
        Ok(Ended::End) => Ok(End::EndOfInput),
        Ok(Ended::Long) => tell_long(sink),
        Err(LineFault::ReadFailed) => Err(FrontFault::ReadFailed),
        Err(LineFault::TooManyReads) => Err(FrontFault::TooManyTurns),
    }
}

/// Takes the lines of a session, and tells of each what is to be said of its reply. An error is how the session ends.
#[derive(Drop)]
struct Explainer {
    alloc: Global,
}

impl<W: Sink> Listener<Talk, W, Result<End, FrontFault>> for Explainer {
    ghost took = { λ old sink line new next result. ExplainsLine old.book old.said (W.draft sink).held line new.book new.said (W.draft next).held result };

    fn take(
        &mut self,
        talk: &mut Talk,
        sink: &mut W,
        line: &[u8],
    ) -> Result<(), Result<End, FrontFault>> {
        explain_line(self.alloc, talk, sink, line)
    }
}

/// A whole line of the session, without its LF.
fn explain_line<W: Sink>(
    alloc: Global,
    talk: &mut Talk,
    sink: &mut W,
    line: &[u8],
) -> Result<(), Result<End, FrontFault>>
    ensures goes { (first : Register) (start : Option (List ℕ)) (bytes : List ℕ) → first.pending ≡ None → HasNoEnd line.now → length line.now ≤ max_line →
        Explaining first start bytes [] talk.old.book (W.draft sink.old).held talk.old.said →
        GoesOn first start (bytes ++ (line.now ++ 10 ∷ [])) [] talk.new.book (W.draft sink.new).held talk.new.said result }
    ensures grows { next_number talk.old.book ≤ next_number talk.new.book }
{
    if let Err(stop) = take_line(alloc, &mut talk.book, &mut Solo, sink, line) {
        return Err(stop.result());
    }
    match tell_last(alloc, &talk.book, sink) {
        Ok(refused) => {
            if refused {
                talk.said = Explained::SomeRefused;
            }
            Ok(())
        }
        Err(fault) => Err(Err(fault)),
    }
}
