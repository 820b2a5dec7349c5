//! One line of a session: the goodbye, or a request, its reply, and why there may be no further line.
ghost use Rattle.std.specs.Prelude.{◌≡◌, Some, IfOk, IfErr};
ghost use Rattle.ot_session.specs.Serving.{Writes, BreaksOffIn, TakesLine};
ghost use Rattle.ot_session.specs.Session.{closing};
ghost use Rattle.ot_session.specs.declared.fault.End.TheVariants as end;
ghost use Rattle.ot_session.specs.declared.fault.FrontFault.TheVariants as fault;

use crate::answer::{answer, write_last};
use crate::device::Sink;
use crate::fault::{End, FrontFault};
use crate::stop::Stop;
use crate::whole::write_whole;
use ot_book::{Book, Executor, NotDone};
use ot_lines::{Listener, is_bye};
use std::alloc::Global;

/// Takes the lines of a session into its book, and writes their replies.
#[derive(Drop)]
pub(crate) struct Turn<'a, E: Executor> {
    pub alloc: Global,
    pub executor: &'a mut E,
}

impl<'a, E: Executor, W: Sink> Listener<Book, W, Stop> for Turn<'a, E> {
    ghost took = { λ old sink line new next result. TakesLine old (W.draft sink) line new (W.draft next) result };

    fn take(&mut self, book: &mut Book, sink: &mut W, line: &[u8]) -> Result<(), Stop> {
        take_line(self.alloc, book, self.executor, sink, line)
    }
}

/// Takes a whole line of a session, without its LF. The reply to a request is written whole before it answers; where
/// no further line is to be taken it tells why.
pub fn take_line<E: Executor, W: Sink>(
    alloc: Global,
    book: &mut Book,
    executor: &mut E,
    sink: &mut W,
    line: &[u8],
) -> Result<(), Stop>
    ensures { TakesLine book.old (W.draft sink.old) line.now book.new (W.draft sink.new) result }
{
    if is_bye(line) {
        return Err(Stop::Bye);
    }
    let took = match answer(alloc, book, executor, line) {
        Ok(took) => took,
        Err(NotDone::Memory) => return Err(Stop::Memory),
        Err(NotDone::Closed) => return Err(Stop::Closed),
        Err(NotDone::Stranger) => return Err(Stop::Stranger),
    };
    if took {
        return write_last(alloc, book, sink);
    }
    match write_whole(sink, b"[\"full\"]\n".as_slice()) {
        Ok(()) => Err(Stop::Full),
        Err(_) => Err(Stop::WriteFailed),
    }
}

/// Tells that a line is longer than a line may be, which ends a session.
pub fn tell_long<W: Sink>(sink: &mut W) -> Result<End, FrontFault>
    ensures told { IfOk result (λ ended. (ended ≡ end.LongLine) × Writes (W.draft sink.old) (W.draft sink.new) (closing (Some end.LongLine))) }
    ensures cut { IfErr result (λ why. (why ≡ fault.WriteFailed) × BreaksOffIn (W.draft sink.old) (W.draft sink.new) (closing (Some end.LongLine))) }
{
    match write_whole(sink, b"[\"long\"]\n".as_slice()) {
        Ok(()) => Ok(End::LongLine),
        Err(_) => Err(FrontFault::WriteFailed),
    }
}
