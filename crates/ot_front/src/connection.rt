//! One connection: its greeting, and behind it the session of the book that was given.
ghost use Rattle.std.specs.Prelude.{◌≡◌, None, IfSome};
ghost use Rattle.ot_book.specs.Books.{Register};
ghost use Rattle.ot_front.specs.Greetings.{Connects, TellsEnd};
ghost use Rattle.ot_front.specs.Racks.{with_laid, ConnectsOver};
ghost use Rattle.ot_session.specs.Serving.{IsServed};

use crate::desk::Desk;
use crate::first_line::first_bounds;
use crate::greeting::greet_from;
use crate::rack::{OnDesk, Rack};
use ot_book::{Book, Executor};
use ot_lines::{Lines, Source};
use ot_pool::{Client, Pool};
use ot_session::{End, FrontFault, Sink, serve_behind};
use std::alloc::Global;
use std::sync::Wait;
use std::sync::ledger::Ledger;

/// Greets, and serves the session of the tenant that was named over a client of the pool. The book lies on
/// the desk again behind it, whatever ended the session. How the session ended, where a book was given.
pub fn serve_connection<R: Source, W: Sink, L: Ledger, T: Wait>(
    rt: &T,
    alloc: Global,
    pool: &Pool<L>,
    desk: &Desk,
    source: &mut R,
    sink: &mut W,
) -> Option<Result<End, FrontFault>>
    ensures connects { Connects desk.now (R.flow source.old).ahead (R.flow source.new).ahead (W.draft sink.old).held (W.draft sink.new).held result }
    ensures tells { IfSome result (TellsEnd (R.flow source.old) (R.flow source.new) (W.draft sink.old) (W.draft sink.new)) }
{
    connect(rt, alloc, pool, &mut OnDesk { rt, desk }, source, sink)
}

/// The same for any rack of books. A book that was given for the session is laid back as the session left it.
fn connect<B: Rack, R: Source, W: Sink, L: Ledger, T: Wait>(
    rt: &T,
    alloc: Global,
    pool: &Pool<L>,
    rack: &mut B,
    source: &mut R,
    sink: &mut W,
) -> Option<Result<End, FrontFault>>
    ensures connects { ConnectsOver (B.names rack.old) (R.flow source.old).ahead (R.flow source.new).ahead (W.draft sink.old).held (W.draft sink.new).held
        result (B.moves rack.old) (B.moves rack.new) }
    ensures tells { IfSome result (TellsEnd (R.flow source.old) (R.flow source.new) (W.draft sink.old) (W.draft sink.new)) }
{
    let Ok(mut lines) = Lines::new(alloc, first_bounds()) else {
        return None;
    };
    match greet_from(alloc, rack, &mut lines, source, sink) {
        Ok(Some(book)) => {
            let Some(tenant) = rack.position(book.name()) else {
                unreachable!()
            };
            let mut client = Client::new(rt, pool, tenant);
            Some(hold_session(alloc, rack, &mut lines, book, &mut client, source, sink))
        }
        Ok(None) => None,
        Err(_) => None,
    }
}

/// Serves the session of a book that was taken, in the room of the greeting, and lays it back. How it ended.
fn hold_session<B: Rack, E: Executor, R: Source, W: Sink>(
    alloc: Global,
    rack: &mut B,
    lines: &mut Lines,
    mut book: Book,
    executor: &mut E,
    source: &mut R,
    sink: &mut W,
) -> Result<End, FrontFault>
    requires { book.pending ≡ None }
    ensures { (after : Register) × IsServed book after (R.flow source.old) (R.flow source.new) (W.draft sink.old) (W.draft sink.new) result
        × (B.moves rack.new ≡ with_laid after (B.moves rack.old)) }
{
    let end = serve_behind(alloc, lines, &mut book, executor, source, sink);
    rack.lay_back(book);
    end
}
