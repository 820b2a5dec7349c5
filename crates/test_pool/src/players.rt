//! Tenants that ask for one job each, by a client of their own or in a session over one.
ghost use Rattle.std.specs.Prelude.{◌≡◌, IfOk, None};

use super::reading::job_of;
use ot_book::{Book, Executor, NotDone};
use ot_check::Outcome;
use ot_pool::{Client, Pool};
use ot_session::{Reading, Writing, serve};
use ot_store::{Limits, Store};
use std::alloc::{AllocError, Global};
use std::sync::Wait;
use std::sync::ledger::Ledger;

/// By what a tenant asks.
#[derive(Clone, Copy)]
pub(crate) enum By {
    Client,
    /// Lines in, replies out.
    Session,
}

/// What is told of an outcome: the executed task statements, the units and the cells.
fn outcome_text(alloc: Global, outcome: &Outcome) -> Result<String, AllocError> {
    let (tasks, units) = (outcome.counts.tasks, outcome.counts.units);
    let cells = match outcome.cells.arrays() {
        [array] => array.as_slice(),
        _ => &[],
    };
    format!(in alloc; "{tasks} {units} {cells:?}")
}

pub(crate) fn performed_text(
    alloc: Global,
    performed: Result<Outcome, NotDone>,
) -> Result<String, AllocError> {
    match performed {
        Ok(outcome) => outcome_text(alloc, &outcome),
        Err(why) => format!(in alloc; "{why:?}"),
    }
}

/// What a client is told of the job of a body over 1, 2, 3.
fn by_client<L: Ledger, R: Wait>(
    rt: &R,
    alloc: Global,
    pool: &Pool<L>,
    tenant: u32,
    body: &str,
) -> Result<String, AllocError> {
    let Ok(spec) = job_of(alloc, 3, body) else {
        return Err(AllocError);
    };
    let mut client = Client::new(rt, pool, tenant);
    performed_text(alloc, client.perform(alloc, &spec))
}

/// A book of a new tenant.
fn new_book(alloc: Global) -> Result<Book, AllocError>
    ensures { IfOk result (λ book. book.pending ≡ None) }
{
    Book::new(alloc, "t1", Limits::usual(), Store::empty(alloc))
}

/// What a session of a new tenant writes, how it ends, and how many requests it has logged then.
pub(crate) fn session<L: Ledger, R: Wait>(
    rt: &R,
    alloc: Global,
    pool: &Pool<L>,
    tenant: u32,
    lines: &str,
) -> Result<String, AllocError> {
    let mut book = new_book(alloc)?;
    let mut client = Client::new(rt, pool, tenant);
    let mut source = Reading::new(lines.as_bytes());
    let mut sink = Writing::new(Vec::new(alloc));
    let ended = serve(alloc, &mut book, &mut client, &mut source, &mut sink);
    let logged = book.log().len();
    match String::from_utf8(sink.into_inner()) {
        Ok(written) => format!(in alloc; "{written}{ended:?}, {logged} logged"),
        Err(_) => Err(AllocError),
    }
}

/// The same where it makes an array of 1, 2, 3 and runs a body, and shows the array.
fn by_session<L: Ledger, R: Wait>(
    rt: &R,
    alloc: Global,
    pool: &Pool<L>,
    tenant: u32,
    body: &str,
) -> Result<String, AllocError> {
    let lines = format!(in alloc;
        "[\"new\",\"a\",3]\n[\"put\",\"a\",0,[1,2,3]]\n[\"run\",[\"program\",[[\"a\",0,3]],{body}]]\n"
    )?;
    session(rt, alloc, pool, tenant, lines.as_str())
}

/// What a tenant is told of a body over 1, 2, 3.
pub(crate) fn ask<L: Ledger, R: Wait>(
    rt: &R,
    alloc: Global,
    pool: &Pool<L>,
    tenant: u32,
    by: By,
    body: &str,
) -> Result<String, AllocError> {
    match by {
        By::Client => by_client(rt, alloc, pool, tenant, body),
        By::Session => by_session(rt, alloc, pool, tenant, body),
    }
}
