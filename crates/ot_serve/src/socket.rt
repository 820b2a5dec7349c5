//! The server, from its names to the lines that it prints when it ends.
ghost use Rattle.std.specs.Prelude.{◌≡◌, ◌≢◌, ◌↔◌, ◌<◌, ◌≤◌, Err, None, IfOk, IfErr, OnOk, true, false, length, map, string_bytes, sum, vec_len};
ghost use Rattle.std.specs.List.{All};
ghost use Rattle.ot_session.specs.Serving.{next_count};
ghost use Rattle.ot_serve.specs.Serving.{IsInRange, Prints, are_tenants};
ghost use Rattle.ot_serve.specs.Starting.{IsLate, newcomer};

use crate::crew::run;
use crate::door::Door;
use crate::fault::Fault;
use crate::names::look_at_names;
use crate::serve::Serve;
use crate::usages::write_usage;
use ot_book::Book;
use ot_front::Desk;
use ot_pool::Usage;
use ot_session::{Sink, write_whole};
use ot_store::{Limits, Store};
use std::alloc::{AllocError, Global};
use std::fs::Files;
use std::marker::Brand;
use std::net::Net;
use std::sync::Wait;
use std::sync::ledger::Blank;
use std::thread::Threads;

/// Serves tenants with the usual limits and no arrays, each by its name, at a Unix socket. After as
/// many connections as are asked for it closes the pool, joins the workers, and writes the units of
/// each tenant, in their order, and of all. Without a count it goes on.
pub fn serve_socket<R: Threads + Wait + Sync + Files + Net, W: Sink>(
    rt: &R,
    alloc: Global,
    asked: &Serve,
    sink: &mut W,
) -> Result<(), Fault>
    requires { IsInRange asked.now }

    // The names are looked at first, and nothing else is done where they can't be those of tenants.
    ensures bad_name { result ≡ Err Fault.BadTenantName ↔ are_tenants (map string_bytes asked.now.names.items) ≡ false }
    ensures too_many { result ≡ Err Fault.TooManyTenants
        ↔ (are_tenants (map string_bytes asked.now.names.items) ≡ true) × (64 < length (map string_bytes asked.now.names.items)) }

    // What is printed, and that nothing is where the server fails otherwise.
    ensures prints { OnOk result (Prints (map string_bytes asked.now.names.items) (W.draft sink.old).held (W.draft sink.new).held) }
    ensures silent { IfErr result (λ fault. fault ≢ Fault.WriteFailed → (W.draft sink.new).held ≡ (W.draft sink.old).held) }
    ensures write_failed { result ≡ Err Fault.WriteFailed → (W.draft sink.new).failures ≡ next_count (W.draft sink.old).failures }
    ensures write_worked { result ≢ Err Fault.WriteFailed → (W.draft sink.new).failures ≡ (W.draft sink.old).failures }
{
    look_at_names(asked.names.as_slice())?;
    let usage = serve_desk(rt, alloc, asked)?;
    print_usage(alloc, asked.names.as_slice(), &usage, sink)
}

/// Serves tenants with empty books, from the making of the socket until the server ends: the units that were settled.
fn serve_desk<R: Threads + Wait + Sync + Files + Net>(
    rt: &R,
    alloc: Global,
    asked: &Serve,
) -> Result<Usage, Fault>
    requires range { IsInRange asked.now }
    requires names { are_tenants (map string_bytes asked.now.names.items) ≡ true }
    requires few { vec_len asked.now.names ≤ 64 }
    ensures each { IfOk result (λ usage. vec_len usage.by_tenant ≡ vec_len asked.now.names) }
    ensures adds_up { IfOk result (λ usage. sum usage.by_tenant.items ≡ usage.total) }
    ensures late { IfErr result IsLate }
{
    let Ok(desk) = lay_desk(alloc, asked.names.as_slice()) else {
        return Err(Fault::Memory);
    };
    let door = Door::build(rt, alloc, asked.socket.as_str())?;
    let blank = Blank::new(u64::from(asked.workers));
    let ended = run::<Brand, R>(rt, alloc, blank, asked, &desk, &door);
    door.remove(rt);
    ended
}

/// Writes the units of each tenant, in their order, and of all.
fn print_usage<W: Sink>(
    alloc: Global,
    names: &[String],
    usage: &Usage,
    sink: &mut W,
) -> Result<(), Fault>
    requires each { vec_len usage.now.by_tenant ≡ length names.now }
    requires adds_up { sum usage.now.by_tenant.items ≡ usage.now.total }
    ensures prints { OnOk result (Prints (map string_bytes names.now) (W.draft sink.old).held (W.draft sink.new).held) }
    ensures silent { IfErr result (λ fault. fault ≢ Fault.WriteFailed → (W.draft sink.new).held ≡ (W.draft sink.old).held) }
    ensures write_failed { result ≡ Err Fault.WriteFailed → (W.draft sink.new).failures ≡ next_count (W.draft sink.old).failures }
    ensures write_worked { result ≢ Err Fault.WriteFailed → (W.draft sink.new).failures ≡ (W.draft sink.old).failures }
    ensures names { IfErr result (λ fault. (fault ≢ Fault.BadTenantName) × (fault ≢ Fault.TooManyTenants)) }
{
    let Ok(text) = write_usage(alloc, names, usage) else {
        return Err(Fault::Memory);
    };
    match write_whole(sink, text.as_bytes()) {
        Ok(()) => Ok(()),
        Err(_) => Err(Fault::WriteFailed),
    }
}

/// A desk with an empty book for each tenant, in order.
fn lay_desk(alloc: Global, names: &[String]) -> Result<Desk, AllocError>
    requires names { are_tenants (map string_bytes names.now) ≡ true }
    requires few { length names.now ≤ 64 }
    ensures { IfOk result (λ desk. desk ≡ map string_bytes names.now) }
{
    Desk::new(alloc, empty_books(alloc, names)?)
}

/// An empty book for each tenant, in order.
fn empty_books(alloc: Global, names: &[String]) -> Result<Vec<Book>, AllocError>
    ensures names { IfOk result (λ books. map (λ book. book.name) books.items ≡ map string_bytes names.now) }
    ensures new { IfOk result (λ books. All (λ book. book ≡ newcomer book.name) books.items) }
    ensures closed { IfOk result (λ books. All (λ book. book.pending ≡ None) books.items) }
{
    let mut books = Vec::with_capacity(alloc, names.len())?;
    for name in names {
        books.push(empty_book(alloc, name.as_str())?)?;
    }
    Ok(books)
}

fn empty_book(alloc: Global, name: &str) -> Result<Book, AllocError>
    ensures { IfOk result (λ book. book ≡ newcomer name.now) }
{
    Book::new(alloc, name, Limits::usual(), Store::empty(alloc))
}
