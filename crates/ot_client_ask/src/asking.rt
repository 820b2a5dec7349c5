//! A client's session.
ghost use Rattle.std.specs.Prelude.{◌≡◌};
ghost use Rattle.ot_client_ask.specs.Asking.{Asks, Talks, is_silent, ways};
ghost use Rattle.ot_client_ask.specs.Exchanges.{asked_after};

use crate::asked::{AskFault, Asked, Tally};
use crate::exchange::{Step, exchange, leave};
use crate::greeting::greet;
use crate::remarker::{Remarker, Silence};
use crate::stream::LineSource;
use ot_session::Sink;
use std::alloc::Global;

/// Greets a server for a tenant, sends each line of `typed`, and prints its reply before the next line is
/// read. At the end of the lines, behind a goodbye among them, or, where the session is to `stop` at a refusal,
/// behind the first reply that refuses its line, it waits until the server ends the stream, so that the tenant
/// is free then. It tells how that went, and how many lines were answered before.
pub fn ask<T: LineSource, H: LineSource, W: Sink, P: Sink>(
    alloc: Global,
    name: &str,
    stop: bool,
    typed: &mut T,
    heard: &mut H,
    wire: &mut W,
    printed: &mut P,
) -> (Result<Asked, AskFault>, Tally)
    ensures { Asks is_silent name.now stop
        (ways (T.coming typed.old) (H.coming heard.old) (W.draft wire.old) (P.draft printed.old))
        (ways (T.coming typed.new) (H.coming heard.new) (W.draft wire.new) (P.draft printed.new)) result.0 result.1 }
{
    if let Err(fault) = greet(alloc, name, heard, wire) {
        return (Err(fault), Tally::new());
    }
    converse(alloc, stop, &mut Silence, typed, heard, wire, printed)
}

/// The same behind a greeting: line by line. What is said of a line and its reply is printed behind the reply.
pub fn converse<M: Remarker, T: LineSource, H: LineSource, W: Sink, P: Sink>(
    alloc: Global,
    stop: bool,
    remarker: &mut M,
    typed: &mut T,
    heard: &mut H,
    wire: &mut W,
    printed: &mut P,
) -> (Result<Asked, AskFault>, Tally)
    ensures { Talks M.says stop
        (ways (T.coming typed.old) (H.coming heard.old) (W.draft wire.old) (P.draft printed.old))
        (ways (T.coming typed.new) (H.coming heard.new) (W.draft wire.new) (P.draft printed.new)) result.0 result.1 }
{
    let mut asked = Asked::AllTaken;
    let mut tally = Tally::new();
    for _ in 0..u64::MAX {
        match exchange(alloc, remarker, typed, heard, wire, printed) {
            Ok(Step::Answered(is_refused)) => {
                asked = asked_after(asked, is_refused);
                tally = tally.with(is_refused);
                if stop && is_refused {
                    return (leave(heard, wire), tally);
                }
            }
            Ok(Step::Bye) => return (Ok(asked), tally),
            Ok(Step::CutShort) => return (Ok(Asked::CutShort), tally.with(true)),
            Err(fault) => return (Err(fault), tally),
        }
    }
    (Err(AskFault::TooManyLines), tally)
}

/// What a client comes to with one reply more.
fn asked_after(asked: Asked, is_refused: bool) -> Asked
    ensures { result ≡ asked_after asked is_refused }
{
    if is_refused {
        return Asked::SomeRefused;
    }
    asked
}
