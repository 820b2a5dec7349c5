//! Sessions and connections for which memory is refused once: `tests/refused_allocations` says what must be seen
//! over all places at which it is.
ghost use Rattle.std.specs.Prelude.{◌≡◌, None, IfSome};

use crate::books::{USUAL, book_of, desk_of};
use crate::connections::{GREETING, connect};
use ot_book::{Book, Solo, reply_text};
use ot_pool::Pool;
use ot_session::{End, FrontFault, Reading, Writing, serve};
use ot_store::{Limits, Store};
use std::alloc::{AllocError, Global};
use std::marker::Brand;
use std::sync::Wait;
use std::sync::ledger::{Blank, Ledger};

/// Makes an array of 1, 2, 3.
const BEFORE: &str = "[\"new\",\"a\",3]\n[\"put\",\"a\",0,[1,2,3]]\n";

/// Gives the array 1, 2, 3.
const PUT: &str = "[\"put\",\"a\",0,[1,2,3]]\n";

/// Its second task reads what the first writes.
const RUN: &str =
    "[\"run\",[\"program\",[[\"a\",0,3]],[[\"task\",[[\"out\",[\"a\",0,1]]],[[\"set\",[\"c\",\"a\",0],7]]],\
[\"task\",[[\"in\",[\"a\",0,1]],[\"out\",[\"a\",1,1]]],[[\"set\",[\"c\",\"a\",1],[\"+\",[\"c\",\"a\",0],1]]]],[\"wait\"]]]]\n";

const BEHIND: &str = "[\"get\",\"a\",0,3]\n";

const FIRST_DONE: &str = "[\"done\",1,2,5,[[7,8,0]]]\n";

const PUT_DONE: &str = "[\"ok\",2]\n";

const DONE: &str = "[\"done\",3,2,5,[[7,8,3]]]\n";

const LOST: &str = "[\"err\",3,508]\n";

/// A session that is over: how it ended, how many requests are logged, and what it wrote.
#[derive(Drop)]
struct Over {
    ended: Result<End, FrontFault>,
    logged: usize,
    written: Vec<u8>,
}

/// A session of these lines. There is room for all that it writes.
fn session(alloc: Global, book: &mut Book, lines: &str) -> Result<Over, AllocError>
    requires { book.old.pending ≡ None }
    ensures { book.new.pending ≡ None }
{
    let mut source = Reading::new(lines.as_bytes());
    let mut sink = Writing::new(Vec::with_capacity(alloc, 200)?);
    let ended = serve(alloc, book, &mut Solo, &mut source, &mut sink);
    Ok(Over {
        ended,
        logged: book.log().len(),
        written: sink.into_inner(),
    })
}

/// A book whose first two requests make the array. It is none where memory is refused before the run.
fn begun(alloc: Global) -> Option<Book>
    ensures { IfSome result (λ book. book.pending ≡ None) }
{
    let Ok(mut book) = book_of(alloc, "t1", USUAL) else {
        return None;
    };
    match session(alloc, &mut book, BEFORE) {
        Ok(over) if over.written.as_slice() == b"[\"ok\",1]\n[\"ok\",2]\n".as_slice() => Some(book),
        _ => None,
    }
}

/// A book with an array of three cells, that has no requests. It is none where memory is refused.
fn with_array(alloc: Global) -> Option<Book>
    ensures { IfSome result (λ book. book.pending ≡ None) }
{
    let mut store = Store::empty(alloc);
    if store.create(alloc, "a", 3, &Limits::usual()).is_err() {
        return None;
    }
    Book::new(alloc, "t1", Limits::usual(), store).ok()
}

/// Whether a session of this line writes this. It writes something else where memory is refused.
fn answers(alloc: Global, book: &mut Book, line: &str, written: &str) -> bool
    requires { book.old.pending ≡ None }
    ensures { book.new.pending ≡ None }
{
    match session(alloc, book, line) {
        Ok(over) => over.written.as_slice() == written.as_bytes(),
        Err(_) => false,
    }
}

/// A book whose first two requests are the run, over the same array, and a put of what the array has before the run. It
/// is none where memory is refused before the run comes again.
fn begun_again(alloc: Global) -> Option<Book>
    ensures { IfSome result (λ book. book.pending ≡ None) }
{
    let mut book = with_array(alloc)?;
    if answers(alloc, &mut book, RUN, FIRST_DONE) && answers(alloc, &mut book, PUT, PUT_DONE) {
        return Some(book);
    }
    None
}

/// The third reply, or nothing. Where memory is refused it is asked again.
fn third_reply(alloc: Global, book: &Book) -> Result<String, AllocError> {
    let Some(reply) = book.reply_at(2) else {
        return Ok(String::new(alloc));
    };
    match reply_text(alloc, &reply) {
        Ok(text) => Ok(text),
        Err(_) => reply_text(alloc, &reply),
    }
}

/// How the session of the run ends, how many requests are logged then, what it has written, what the third
/// reply is, what a session behind it writes, and how all this is told.
type Row = (
    Result<End, FrontFault>,
    usize,
    &'static str,
    &'static str,
    &'static str,
    &'static str,
);

const ENDS: [Row; 6] = [
    (
        Ok(End::EndOfInput),
        3,
        DONE,
        DONE,
        "[\"cells\",4,[7,8,3]]\n",
        "nothing was refused",
    ),
    (
        Ok(End::EndOfInput),
        3,
        DONE,
        DONE,
        "[\"err\",4,508]\n",
        "memory was refused behind the run",
    ),
    (
        Ok(End::EndOfInput),
        3,
        DONE,
        DONE,
        "",
        "memory was refused behind the run",
    ),
    (
        Err(FrontFault::Memory),
        2,
        "",
        "",
        "[\"cells\",3,[1,2,3]]\n",
        "memory was refused: the run is not logged",
    ),
    (
        Ok(End::EndOfInput),
        3,
        LOST,
        LOST,
        "[\"cells\",4,[1,2,3]]\n",
        "memory was refused: the run is lost",
    ),
    (
        Err(FrontFault::Memory),
        3,
        "",
        DONE,
        "[\"cells\",4,[7,8,3]]\n",
        "memory was refused: the run is done and its reply not written",
    ),
];

/// How a run is told for which memory is refused once at most, if it came to any of these ends.
fn told_of_run(alloc: Global, book: &mut Book) -> Result<Option<&'static str>, AllocError>
    requires { book.old.pending ≡ None }
{
    let run = session(alloc, book, RUN)?;
    let third = third_reply(alloc, book)?;
    let behind = session(alloc, book, BEHIND)?;
    for (ended, logged, written, reply, said, told) in &ENDS {
        if run.ended == *ended
            && run.logged == *logged
            && run.written.as_slice() == written.as_bytes()
            && third.as_str() == reply.trim_end()
            && behind.written.as_slice() == said.as_bytes()
        {
            return Ok(Some(*told));
        }
    }
    Ok(None)
}

/// What is printed of a run for which memory is refused once at most. It is none where the run came to another end.
fn told_of(alloc: Global, book: Option<Book>) -> Option<&'static str>
    requires { IfSome book (λ book. book.pending ≡ None) }
{
    let Some(mut book) = book else {
        return Some("memory was refused before the run");
    };
    match told_of_run(alloc, &mut book) {
        Ok(told) => told,
        Err(_) => Some("memory was refused beside the run"),
    }
}

/// It passes whichever allocation fails, and prints what came of it.
#[test]
fn a_run_is_lost_whole_or_done_whole(rt: HostRuntime) {
    let told = told_of(rt.alloc(), begun(rt.alloc()));
    assert!(rt; told.is_some());
    let _ = println!(rt; "{}", told.unwrap_or(""));
}

/// The same of a run whose line came before.
#[test]
fn a_run_that_comes_again_is_lost_whole_or_done_whole(rt: HostRuntime) {
    let told = told_of(rt.alloc(), begun_again(rt.alloc()));
    assert!(rt; told.is_some());
    let _ = println!(rt; "{}", told.unwrap_or(""));
}

/// A connection, and what is written on it where nothing is refused.
const CONNECTION: &str = "[\"hello\",\"t1\"]\n[\"new\",\"a\",3]\n[\"list\"]\n";

const CONNECTION_TOLD: &str = "[\"hello\",\"t1\",1]\n[\"ok\",1]\n[\"arrays\",2,[[\"a\",3]]]\n";

/// Whether this begins as a welcome of `t1`.
fn is_welcome(written: &[u8]) -> bool {
    written.starts_with(b"[\"hello\",\"t1\",")
}

/// What came of a connection for which memory is refused once at most, if the book lies on the desk behind it.
fn told_of_connection<R: Wait>(rt: &R, alloc: Global) -> Result<Option<&'static str>, AllocError> {
    told_of_connection_on::<Brand, R>(rt, alloc, Blank::new(1))
}

fn told_of_connection_on<L: Ledger, R: Wait>(
    rt: &R,
    alloc: Global,
    blank: Blank,
) -> Result<Option<&'static str>, AllocError>
    requires name { blank.name ≡ L.name }
    requires parts { (blank.parts ≡ L.parts) × (blank.parts ≡ 1) }
{
    let desk = desk_of(alloc, USUAL)?;
    let (pool, _) = Pool::<L>::new(alloc, 1, 1, blank)?;
    let first = connect(rt, alloc, &pool, &desk, CONNECTION);
    let second = connect(rt, alloc, &pool, &desk, GREETING);
    let third = connect(rt, alloc, &pool, &desk, GREETING);
    if !is_welcome(&second) && !(second.is_empty() && is_welcome(&third)) {
        return Ok(None);
    }
    if !is_welcome(&first) || !is_welcome(&second) {
        return Ok(Some("memory was refused to a greeting"));
    }
    if first.as_slice() != CONNECTION_TOLD.as_bytes() {
        return Ok(Some("memory was refused to a session"));
    }
    Ok(Some("nothing was refused"))
}

/// It passes whichever allocation fails, and prints what came of it.
#[test]
fn a_book_comes_back_where_memory_is_refused(rt: HostRuntime) {
    match told_of_connection(&rt, rt.alloc()) {
        Ok(told) => {
            assert!(rt; told.is_some());
            let _ = println!(rt; "{}", told.unwrap_or(""));
        }
        Err(_) => {
            let _ = println!(rt; "memory was refused before the connection");
        }
    }
}
