//! Greetings over memory: the first line of a connection, what is told, and where the book is then.
ghost use Rattle.std.specs.Prelude.{◌≡◌, IfOk, IfSome, None};

use crate::books::{USUAL, book_of, desk_of};
use crate::fakes::Narrow;
use ot_book::{Book, Solo};
use ot_front::{Desk, greet};
use ot_session::{FrontFault, Reading, Writing, serve};
use std::alloc::Global;
use std::sync::Wait;
use std::test::Fail;

/// A greeting that is over: what was answered and written, and how many bytes nobody has read.
#[derive(Drop)]
struct Greeted {
    given: Result<Option<Book>, FrontFault>,
    written: Vec<u8>,
    left: usize,
}

impl Greeted {
    /// Whether this and nothing else was told, and a book given where it is a welcome.
    fn is(&self, told: &str, left: usize) -> bool {
        let welcome = told.starts_with("[\"hello\"");
        let given = match &self.given {
            Ok(given) => given.is_some() == welcome,
            Err(_) => false,
        };
        given && self.written.as_slice() == told.as_bytes() && self.left == left
    }
}

fn greet_with<R: Wait>(rt: &R, alloc: Global, desk: &Desk, input: &[u8]) -> Greeted
    ensures { IfOk result.given (λ given. IfSome given (λ book. book.pending ≡ None)) }
{
    let mut source = Reading::new(input);
    let mut sink = Writing::new(Vec::new(alloc));
    let given = greet(rt, alloc, desk, &mut source, &mut sink);
    Greeted {
        given,
        written: sink.into_inner(),
        left: source.into_inner().len(),
    }
}

const GREETING: &[u8] = b"[\"hello\",\"t1\"]\n";

const TWO_REQUESTS: &str = "[\"new\",\"a\",3]\n[\"put\",\"a\",0,[1,2,3]]\n[\"bye\"]\n";

/// A greeting of `t1` whose reply can be written up to so many bytes: its fault, and what was written.
fn cut_off<R: Wait>(
    rt: &R,
    alloc: Global,
    desk: &Desk,
    may_take: usize,
) -> (Option<FrontFault>, Vec<u8>) {
    let mut source = Reading::new(GREETING);
    let mut sink = Narrow {
        taken: Vec::new(alloc),
        may_take,
        failures: 0,
    };
    let given = greet(rt, alloc, desk, &mut source, &mut sink);
    (given.err(), sink.taken)
}

/// Where a book goes: the number of the first step that goes otherwise. It is taken, and `t1` is busy and
/// `t2` isn't. After two requests it is laid back, and can't be a second time. Then a greeting that can't be
/// told leaves it there, and the next one gets it.
fn first_other_step<R: Wait>(rt: &R, alloc: Global) -> Result<Option<u32>, Fail> {
    let desk = desk_of(alloc, USUAL)?;
    let Greeted { given, .. } = greet_with(rt, alloc, &desk, GREETING);
    let Ok(Some(mut book)) = given else {
        return Ok(Some(1));
    };
    if !greet_with(rt, alloc, &desk, GREETING).is("[\"err\",0,409]\n", 0) {
        return Ok(Some(2));
    }
    if !greet_with(rt, alloc, &desk, b"[\"hello\",\"t2\"]\n").is("[\"hello\",\"t2\",1]\n", 0) {
        return Ok(Some(3));
    }
    let mut source = Reading::new(TWO_REQUESTS.as_bytes());
    let mut sink = Writing::new(Vec::new(alloc));
    let _ = serve(alloc, &mut book, &mut Solo, &mut source, &mut sink);
    if desk.give_back(rt, book).is_err() {
        return Ok(Some(4));
    }
    if desk.give_back(rt, book_of(alloc, "t1", USUAL)?).is_ok() {
        return Ok(Some(5));
    }
    if desk.give_back(rt, book_of(alloc, "t3", USUAL)?).is_ok() {
        return Ok(Some(6));
    }
    for may_take in 0..17 {
        let (fault, written) = cut_off(rt, alloc, &desk, may_take);
        let front = &b"[\"hello\",\"t1\",3]\n".as_slice()[..may_take];
        if fault != Some(FrontFault::WriteFailed) || written.as_slice() != front {
            return Ok(Some(7));
        }
    }
    if !greet_with(rt, alloc, &desk, GREETING).is("[\"hello\",\"t1\",3]\n", 0) {
        return Ok(Some(8));
    }
    Ok(None)
}

#[test]
fn a_book_goes_and_comes_back(rt: HostRuntime) -> Result<(), Fail> {
    assert_eq!(rt; first_other_step(&rt, rt.alloc())?, None);
    Ok(())
}

/// The numbers of names.
#[test]
fn tenants_have_numbers(rt: HostRuntime) -> Result<(), Fail> {
    let desk = desk_of(rt.alloc(), USUAL)?;
    let numbers = (desk.position("t1"), desk.position("t2"), desk.position("t"));
    assert_eq!(rt; numbers, (Some(0), Some(1), None));
    Ok(())
}
