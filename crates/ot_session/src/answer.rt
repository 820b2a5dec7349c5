//! One line of a session: the book takes it, and its reply is written.
ghost use Rattle.std.specs.Prelude.{◌≡◌, ◌≢◌, ◌<◌, ◌⊎◌, ℕ, None, length, take, string_bytes, IfOk, IfErr, OnOk, OnErr};
ghost use Rattle.std.specs.Io.KnownBytes.{Appends};
ghost use Rattle.ot_book.specs.declared.executor.NotDone.TheVariants as not_done;
ghost use Rattle.ot_session.specs.Serving.{count_after, failed_writes};
ghost use Rattle.ot_session.specs.Turns.{LogsLine, WouldRun};
ghost use Rattle.ot_session.specs.Session.{last_reply};
ghost use Rattle.ot_session.specs.declared.stop.Stop.TheVariants.{WriteFailed, Memory};

use crate::device::Sink;
use crate::stop::Stop;
use crate::whole::write_whole;
use ot_book::{Book, Executor, NotDone, Opened, reply_text};
use std::alloc::{AllocError, Global};

/// Takes a line as the next request and performs it whole, where the book has room for it. Where there
/// is no pool to run on, or the pool doesn't know the tenant, or memory ran out before the reply's place
/// was reserved, the book is as before.
pub(crate) fn answer<E: Executor>(
    alloc: Global,
    book: &mut Book,
    executor: &mut E,
    line: &[u8],
) -> Result<bool, NotDone>
    ensures takes { IfOk result (λ took. LogsLine book.old line.now took book.new) }
    ensures unlogged { OnErr result (book.new ≡ book.old) }
    ensures runs { IfErr result (λ why. why ≢ not_done.Memory → WouldRun book.old line.now) }
{
    let Ok(opened) = book.open(alloc, line) else {
        return Err(NotDone::Memory);
    };
    match opened {
        Opened::Full => Ok(false),
        Opened::Answered => Ok(true),
        Opened::ToRun(spec) => match executor.perform(alloc, &spec) {
            Ok(outcome) => {
                book.close(spec, outcome);
                Ok(true)
            }
            Err(NotDone::Memory) => {
                book.close_refused(spec);
                Ok(true)
            }
            Err(NotDone::Closed) => {
                book.forget(spec);
                Err(NotDone::Closed)
            }
            Err(NotDone::Stranger) => {
                book.forget(spec);
                Err(NotDone::Stranger)
            }
        },
    }
}

/// Writes the reply to the last line of the book, ended by one LF.
pub(crate) fn write_last<W: Sink>(alloc: Global, book: &Book, sink: &mut W) -> Result<(), Stop>
    requires { 0 < length book.now.log }
    ensures written { OnOk result (Appends (W.draft sink.old).held (W.draft sink.new).held (last_reply book.now)) }
    ensures cut { OnErr result ((n : ℕ) × Appends (W.draft sink.old).held (W.draft sink.new).held (take n (last_reply book.now))) }
    ensures stops { IfErr result (λ stop. (stop ≡ WriteFailed) ⊎ (stop ≡ Memory)) }
    ensures failures { (W.draft sink.new).failures ≡ count_after (failed_writes result) (W.draft sink.old).failures }
{
    let Ok(text) = last_text(alloc, book) else {
        return Err(Stop::Memory);
    };
    match write_whole(sink, text.as_bytes()) {
        Ok(()) => Ok(()),
        Err(_) => Err(Stop::WriteFailed),
    }
}

fn last_text(alloc: Global, book: &Book) -> Result<String, AllocError>
    requires { 0 < length book.now.log }
    ensures { IfOk result (λ text. string_bytes text ≡ last_reply book.now) }
{
    let Some(reply) = book.reply_at(book.log().len() - 1) else {
        unreachable!()
    };
    let mut text = reply_text(alloc, &reply)?;
    text.push('\n')?;
    Ok(text)
}
