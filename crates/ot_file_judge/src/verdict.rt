//! One request of a file, as the next one of a book.
ghost use Rattle.std.specs.Prelude.{◌≡◌, ◌≢◌, ◌<◌, false, None, Some, length, IfOk};
ghost use Rattle.ot_book.specs.ReplyView.{told_of};
ghost use Rattle.ot_book.specs.Answers as replies;
ghost use Rattle.ot_file_judge.specs.Found.{is_full, is_taken};
ghost use Rattle.ot_file_judge.specs.Judging.{book_passed, verdict_of, verdict_on};
ghost use Rattle.ot_book.specs.Books.{last_told};

use crate::fault::JudgeFault;
use ot_book::{Book, Opened, Told};
use std::alloc::Global;

/// What becomes of a request.
#[derive(Clone, Copy, Debug)]
pub(crate) enum Verdict {
    /// It isn't refused. Where it runs a program, the program isn't run.
    Taken,
    Refused,
    /// The book's log is full.
    Full,
}

impl Verdict {
    /// Whether the request isn't refused.
    pub(crate) fn is_taken(self) -> bool
        ensures { result ≡ is_taken self }
    {
        match self {
            Verdict::Taken => true,
            Verdict::Refused | Verdict::Full => false,
        }
    }

    /// Whether the log has no room for the request.
    pub(crate) fn is_full(self) -> bool
        ensures { result ≡ is_full self }
    {
        match self {
            Verdict::Full => true,
            Verdict::Taken | Verdict::Refused => false,
        }
    }
}

/// Takes a line as the next request of a book, and runs no program: in the book it stands as one for which there was no
/// memory.
pub(crate) fn judge_line(alloc: Global, book: &mut Book, line: &[u8]) -> Result<Verdict, JudgeFault>
    requires { book.old.pending ≡ None }
    ensures verdict { IfOk result (λ verdict. verdict ≡ verdict_of book.old line.now) }
    ensures passed { IfOk result (λ verdict. is_full verdict ≡ false → book.new ≡ book_passed book.old line.now) }
    ensures closed { book.new.pending ≡ None }
{
    match book.open(alloc, line)? {
        Opened::Full => Ok(Verdict::Full),
        Opened::Answered => verdict_on_last(book),
        Opened::ToRun(spec) => {
            book.close_refused(spec);
            Ok(Verdict::Taken)
        }
    }
}

/// What became of the last request of a book, where there was memory for it.
fn verdict_on_last(book: &Book) -> Result<Verdict, JudgeFault>
    requires { 0 < length book.now.log }
    ensures { IfOk result (λ verdict. (told : replies.Told) → last_told book.now ≡ Some told → (verdict ≡ verdict_on told) × (told ≢ replies.Lost)) }
{
    let Some(reply) = book.reply_at(book.log().len() - 1) else {
        unreachable!()
    };
    verdict_on(reply.told)
}

/// What became of a request that was told this, where there was memory for it.
fn verdict_on(told: &Told) -> Result<Verdict, JudgeFault>
    ensures { IfOk result (λ verdict. (verdict ≡ verdict_on (told_of told.now)) × (told_of told.now ≢ replies.Lost)) }
{
    match told {
        Told::Lost => Err(JudgeFault::Memory),
        Told::Refused(_) | Told::Offends(_, _) => Ok(Verdict::Refused),
        _ => Ok(Verdict::Taken),
    }
}
