//! A book that is kept beside the job that it waits for: its type says that the job may end the
//! request.
ghost use Rattle.std.specs.Prelude.{◌≡◌, ◌⊎◌};
ghost use Rattle.ot_book.specs.Books.{IsOpenFor, request_closed, request_refused};

use ot_book::{Book, Executor, Opened, Solo, reply_text};
use ot_check::JobSpec;
use ot_store::{Limits, Store};
use std::alloc::{AllocError, Global};

/// A book and the job of its open request.
#[derive(Drop)]
struct Held {
    book: Book,
    spec: JobSpec,
    ghost open: { IsOpenFor book spec },
}

/// Opens a line that runs a program.
fn hold(alloc: Global, mut book: Book, line: &str) -> Result<Option<Held>, AllocError> {
    match book.open(alloc, line.as_bytes())? {
        Opened::ToRun(spec) => Ok(Some(Held { book, spec })),
        _ => Ok(None),
    }
}

/// Runs the job, and ends the request by its outcome or for want of memory.
fn finish(alloc: Global, held: Held) -> Book
    ensures { (result ≡ request_closed held.book) ⊎ (result ≡ request_refused held.book) }
{
    let Held { mut book, spec } = held;
    match Solo.perform(alloc, &spec) {
        Ok(outcome) => book.close(spec, outcome),
        Err(_) => book.close_refused(spec),
    }
    book
}

/// The reply to a line that runs a program over no arrays.
fn held_and_finished(alloc: Global, line: &str) -> Result<Option<String>, AllocError> {
    let book = Book::new(alloc, "t1", Limits::usual(), Store::empty(alloc))?;
    let Some(held) = hold(alloc, book, line)? else {
        return Ok(None);
    };
    let book = finish(alloc, held);
    match book.reply_at(0) {
        Some(reply) => Ok(Some(reply_text(alloc, &reply)?)),
        None => Ok(None),
    }
}

#[test]
fn a_book_is_held_beside_its_job(rt: HostRuntime) {
    let line = r#"["run",["program",[],[["wait"]]]]"#;
    match held_and_finished(rt.alloc(), line) {
        Ok(Some(reply)) => assert_eq!(rt; reply.as_str(), r#"["done",1,0,1,[]]"#),
        _ => panic!(rt; "no reply"),
    }
}
