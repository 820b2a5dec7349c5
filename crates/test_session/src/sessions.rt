//! Whole sessions over memory: how they end, and what devices and executors that go wrong leave.
use crate::books::{USUAL, book_of};
use crate::fakes::{Counting, Dripping, Narrow, Refusing};
use ot_book::{NotDone, Solo};
use ot_session::{End, FrontFault, Reading, Writing, serve};
use ot_sim::sim_lines;
use std::alloc::Global;
use std::test::Fail;

const FIRST: &str = "[\"new\",\"a\",3]\n[\"put\",\"a\",0,[1,2,3]]\n[\"get\",\"a\",0,3]\n";

const FIRST_REPLIES: &str = "[\"ok\",1]\n[\"ok\",2]\n[\"cells\",3,[1,2,3]]\n";

/// A session that is over: how it ended, how many requests it logged, and what it wrote.
#[derive(Drop)]
struct Told {
    ended: Result<End, FrontFault>,
    logged: usize,
    written: Vec<u8>,
}

impl Told {
    fn is(&self, ended: Result<End, FrontFault>, logged: usize, written: &[u8]) -> bool {
        self.ended == ended && self.logged == logged && self.written.as_slice() == written
    }
}

/// A session of a new tenant.
fn session(alloc: Global, log: u32, reader: Dripping<'_>) -> Result<Told, Fail> {
    let mut book = book_of(alloc, "t1", log)?;
    let mut source = Reading::new(reader);
    let mut sink = Writing::new(Vec::new(alloc));
    let ended = serve(alloc, &mut book, &mut Solo, &mut source, &mut sink);
    Ok(Told {
        ended,
        logged: book.log().len(),
        written: sink.into_inner(),
    })
}

/// A session of the first three lines whose sink takes so many bytes.
fn cut_off(alloc: Global, may_take: usize) -> Result<Told, Fail> {
    let mut book = book_of(alloc, "t1", USUAL)?;
    let mut source = Reading::new(FIRST.as_bytes());
    let mut sink = Narrow {
        taken: Vec::new(alloc),
        may_take,
        failures: 0,
    };
    let ended = serve(alloc, &mut book, &mut Solo, &mut source, &mut sink);
    Ok(Told {
        ended,
        logged: book.log().len(),
        written: sink.taken,
    })
}

/// After how many bytes a failing write ends the session otherwise than it should, first. The replies
/// have 38 bytes, and the request whose reply is cut is logged.
fn first_other_write(alloc: Global) -> Result<Option<usize>, Fail> {
    for may_take in 0..38 {
        let logged = if may_take < 9 {
            1
        } else if may_take < 18 {
            2
        } else {
            3
        };
        let front = &FIRST_REPLIES.as_bytes()[..may_take];
        let told = cut_off(alloc, may_take)?;
        if !told.is(Err(FrontFault::WriteFailed), logged, front) {
            return Ok(Some(may_take));
        }
    }
    Ok(None)
}

#[test]
fn a_write_that_fails_at_each_place(rt: HostRuntime) -> Result<(), Fail> {
    assert_eq!(rt; first_other_write(rt.alloc())?, None);
    Ok(())
}

/// After how many bytes an input that ends, or one that fails, ends the session otherwise than it should,
/// first. The input has 52 bytes, read one by one.
fn first_other_read(alloc: Global, fails: bool) -> Result<Option<usize>, Fail> {
    let end = if fails {
        Err(FrontFault::ReadFailed)
    } else {
        Ok(End::EndOfInput)
    };
    for left in 0..53 {
        let (logged, bytes) = if left < 14 {
            (0, 0)
        } else if left < 36 {
            (1, 9)
        } else if left < 52 {
            (2, 18)
        } else {
            (3, 38)
        };
        let reader = Dripping {
            left,
            fails,
            ..Dripping::whole(FIRST.as_bytes(), 1)
        };
        let told = session(alloc, USUAL, reader)?;
        if !told.is(end, logged, &FIRST_REPLIES.as_bytes()[..bytes]) {
            return Ok(Some(left));
        }
    }
    Ok(None)
}

#[test]
fn a_read_that_fails_or_ends_at_each_place(rt: HostRuntime) -> Result<(), Fail> {
    assert_eq!(rt; first_other_read(rt.alloc(), true)?, None);
    assert_eq!(rt; first_other_read(rt.alloc(), false)?, None);
    Ok(())
}

/// So many lines of 60,000 spaces each.
pub(crate) fn blank_lines(alloc: Global, count: u32) -> Result<Vec<u8>, Fail> {
    let spaces = vec![in alloc; b' '; 60_000]?;
    let mut lines = Vec::new(alloc);
    for _ in 0..count {
        lines.extend_from_slice(&spaces)?;
        lines.push(b'\n')?;
    }
    Ok(lines)
}

/// The replies to 20 lines that are no JSON.
pub(crate) const NO_JSON: &str =
    "[\"err\",1,410]\n[\"err\",2,410]\n[\"err\",3,410]\n[\"err\",4,410]\n[\"err\",5,410]\n\
[\"err\",6,410]\n[\"err\",7,410]\n[\"err\",8,410]\n[\"err\",9,410]\n[\"err\",10,410]\n\
[\"err\",11,410]\n[\"err\",12,410]\n[\"err\",13,410]\n[\"err\",14,410]\n[\"err\",15,410]\n\
[\"err\",16,410]\n[\"err\",17,410]\n[\"err\",18,410]\n[\"err\",19,410]\n[\"err\",20,410]\n";

/// How many such lines come in, how many bytes a read, how the session ends, how many requests are logged,
/// and how many bytes of their replies are written.
const BLANK: [(u32, usize, Result<End, FrontFault>, usize, usize); 2] = [
    (17, 1, Err(FrontFault::TooManyTurns), 16, 231),
    (20, 65_536, Ok(End::EndOfInput), 20, 291),
];

fn first_other_blank(alloc: Global) -> Result<Option<u32>, Fail> {
    for (count, a_read, end, logged, bytes) in &BLANK {
        let lines = blank_lines(alloc, *count)?;
        let told = session(alloc, USUAL, Dripping::whole(&lines, *a_read))?;
        if !told.is(*end, *logged, &NO_JSON.as_bytes()[..*bytes]) {
            return Ok(Some(*count));
        }
    }
    Ok(None)
}

#[test]
fn reads_of_one_byte_and_of_many(rt: HostRuntime) -> Result<(), Fail> {
    assert_eq!(rt; first_other_blank(rt.alloc())?, None);
    Ok(())
}

/// The least room that a read is offered, in a session of two such lines and by sim in the same lines.
fn least_rooms(alloc: Global) -> Result<[usize; 2], Fail> {
    let lines = blank_lines(alloc, 2)?;
    let mut book = book_of(alloc, "t1", USUAL)?;
    let mut sink = Writing::new(Vec::new(alloc));
    let mut source = Reading::new(Dripping::whole(&lines, 1_000));
    let _ = serve(alloc, &mut book, &mut Solo, &mut source, &mut sink);
    let mut of_sim = Reading::new(Dripping::whole(&lines, 1_000));
    let _ = sim_lines(alloc, &mut of_sim, &mut sink);
    Ok([source.into_inner().least, of_sim.into_inner().least])
}

#[test]
fn each_read_has_room_for_4096_bytes(rt: HostRuntime) -> Result<(), Fail> {
    for least in least_rooms(rt.alloc())? {
        assert!(rt; (4_096..usize::MAX).contains(&least), "{least}");
    }
    Ok(())
}

/// The first three lines, a run, and a line that asks for the cells behind it.
const RUN: &str = "[\"new\",\"a\",3]\n[\"put\",\"a\",0,[1,2,3]]\n[\"get\",\"a\",0,3]\n\
[\"run\",[\"program\",[],[[\"set\",[\"c\",\"a\",0],9]]]]\n[\"get\",\"a\",0,3]\n";

/// Why the run isn't performed, how the session ends, how many requests are logged behind a second one
/// that asks for the cells again, and what both write.
const REFUSALS: [(NotDone, Result<End, FrontFault>, usize, &str); 3] = [
    (
        NotDone::Memory,
        Ok(End::EndOfInput),
        6,
        "[\"ok\",1]\n[\"ok\",2]\n[\"cells\",3,[1,2,3]]\n[\"err\",4,508]\n[\"cells\",5,[1,2,3]]\n[\"cells\",6,[1,2,3]]\n",
    ),
    (
        NotDone::Closed,
        Ok(End::Closed),
        4,
        "[\"ok\",1]\n[\"ok\",2]\n[\"cells\",3,[1,2,3]]\n[\"cells\",4,[1,2,3]]\n",
    ),
    (
        NotDone::Stranger,
        Err(FrontFault::Stranger),
        4,
        "[\"ok\",1]\n[\"ok\",2]\n[\"cells\",3,[1,2,3]]\n[\"cells\",4,[1,2,3]]\n",
    ),
];

/// How a session whose run isn't performed ended, and what stands in the book and was written after a
/// second one.
fn refused(alloc: Global, why: NotDone) -> Result<Told, Fail> {
    let mut book = book_of(alloc, "t1", USUAL)?;
    let mut sink = Writing::new(Vec::new(alloc));
    let mut source = Reading::new(RUN.as_bytes());
    let ended = serve(
        alloc,
        &mut book,
        &mut Refusing { why },
        &mut source,
        &mut sink,
    );
    let mut source = Reading::new("[\"get\",\"a\",0,3]\n".as_bytes());
    let _ = serve(alloc, &mut book, &mut Solo, &mut source, &mut sink);
    Ok(Told {
        ended,
        logged: book.log().len(),
        written: sink.into_inner(),
    })
}

fn first_other_refusal(alloc: Global) -> Result<Option<NotDone>, Fail> {
    for (why, end, logged, replies) in &REFUSALS {
        let told = refused(alloc, *why)?;
        if !told.is(*end, *logged, replies.as_bytes()) {
            return Ok(Some(*why));
        }
    }
    Ok(None)
}

#[test]
fn a_run_that_is_not_performed(rt: HostRuntime) -> Result<(), Fail> {
    assert_eq!(rt; first_other_refusal(rt.alloc())?, None);
    Ok(())
}

/// Runs of one, two and three statements, between them one that is no program and one that could race,
/// and behind the goodbye a run of four.
const RUNS: &str = "[\"new\",\"a\",1]\n\
[\"run\",[\"program\",[[\"a\",0,1]],[[\"add\",[\"c\",\"a\",0],1]]]]\n\
[\"run\",[\"program\",[],[[\"nonsense\"]]]]\n\
[\"run\",[\"program\",[],[[\"add\",[\"c\",\"a\",0],1],[\"add\",[\"c\",\"a\",0],1]]]]\n\
[\"run\",[\"program\",[],[[\"task\",[[\"out\",[\"a\",0,1]]],[[\"set\",[\"c\",\"a\",0],7]]],[\"set\",[\"c\",\"a\",0],1]]]]\n\
[\"run\",[\"program\",[],[[\"task\",[[\"out\",[\"a\",0,1]]],[[\"add\",[\"c\",\"a\",0],1]]],[\"wait\"]]]]\n\
[\"get\",\"a\",0,1]\n[\"bye\"]\n\
[\"run\",[\"program\",[],[[\"wait\"],[\"wait\"],[\"wait\"],[\"wait\"]]]]\n";

const RUN_REPLIES: &str =
    "[\"ok\",1]\n[\"done\",2,0,1,[[1]]]\n[\"err\",3,420]\n[\"done\",4,0,2,[]]\n\
[\"err\",5,427,3]\n[\"done\",6,1,3,[]]\n[\"cells\",7,[4]]\n";

const FULL_REPLIES: &str = "[\"ok\",1]\n[\"done\",2,0,1,[[1]]]\n[\"full\"]\n";

/// How many requests the log takes, how many statements the programs have that are performed, the end, how
/// many requests are logged, and what is written.
const PERFORMED: [(u32, &[u32], End, usize, &str); 2] = [
    (USUAL, &[1, 2, 3], End::Bye, 7, RUN_REPLIES),
    (2, &[1], End::Full, 2, FULL_REPLIES),
];

/// The number of requests of the first log with which the runs are performed otherwise than once each.
fn first_other_count(alloc: Global) -> Result<Option<u32>, Fail> {
    for (log, performed, end, logged, replies) in &PERFORMED {
        let mut book = book_of(alloc, "t1", *log)?;
        let mut executor = Counting {
            performed: Vec::new(alloc),
        };
        let mut source = Reading::new(RUNS.as_bytes());
        let mut sink = Writing::new(Vec::new(alloc));
        let ended = serve(alloc, &mut book, &mut executor, &mut source, &mut sink);
        let told = Told {
            ended,
            logged: book.log().len(),
            written: sink.into_inner(),
        };
        if executor.performed.as_slice() != *performed
            || !told.is(Ok(*end), *logged, replies.as_bytes())
        {
            return Ok(Some(*log));
        }
    }
    Ok(None)
}

#[test]
fn each_logged_run_is_performed_once(rt: HostRuntime) -> Result<(), Fail> {
    assert_eq!(rt; first_other_count(rt.alloc())?, None);
    Ok(())
}
