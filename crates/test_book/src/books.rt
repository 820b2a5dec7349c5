//! What a book answers that no session of the program shows: other limits than the usual ones, lines
//! that a session doesn't hand on, and the ways in which a run ends.
ghost use Rattle.std.specs.Prelude.{◌≡◌, IsTrue};

use ot_book::{Book, Executor, Opened, Solo, reply_text};
use ot_store::{Limits, Store, StoreFault};
use std::alloc::{AllocError, Global};
use std::process::Abort;

/// What a line is answered, and `full` where it isn't taken.
pub(crate) fn ask(alloc: Global, book: &mut Book, line: &str) -> Result<String, AllocError> {
    match book.open(alloc, line.as_bytes())? {
        Opened::Full => return String::from_str(alloc, "full"),
        Opened::Answered => {}
        Opened::ToRun(spec) => match Solo.perform(alloc, &spec) {
            Ok(outcome) => book.close(spec, outcome),
            Err(_) => book.forget(spec),
        },
    }
    last_reply(alloc, book, line)
}

/// The text of the last reply, which is to be to this line and to have the number before the next.
fn last_reply(alloc: Global, book: &Book, line: &str) -> Result<String, AllocError> {
    let Some(entry) = book.log().last() else {
        return String::from_str(alloc, "no line");
    };
    let Some(reply) = book.reply_at(book.log().len() - 1) else {
        return String::from_str(alloc, "no reply");
    };
    if entry.line.as_slice() == line.as_bytes() && reply.number < book.next_number() {
        reply_text(alloc, &reply)
    } else {
        String::from_str(alloc, "another line")
    }
}

/// What a line is answered that runs a program, where memory is wanting for the run.
fn refuse(alloc: Global, book: &mut Book, line: &str) -> Result<String, AllocError> {
    match book.open(alloc, line.as_bytes())? {
        Opened::ToRun(spec) => book.close_refused(spec),
        _ => return String::from_str(alloc, "no run"),
    }
    last_reply(alloc, book, line)
}

/// Opens a line and gives up its run where it has one, twice. The second time the book is to be as before: the first time
/// it may keep one program more.
fn forget(alloc: Global, book: &mut Book, line: &str) -> Result<String, AllocError> {
    undone(alloc, book, line)?;
    let before = format!(in alloc; "{book:?}")?;
    let said = undone(alloc, book, line)?;
    let after = format!(in alloc; "{book:?}")?;
    if after == before {
        return String::from_str(alloc, said);
    }
    Ok(after)
}

fn undone(alloc: Global, book: &mut Book, line: &str) -> Result<&'static str, AllocError> {
    match book.open(alloc, line.as_bytes())? {
        Opened::Full => Ok("full"),
        Opened::Answered => Ok("answered"),
        Opened::ToRun(spec) => {
            if !book.is_open() || !is_closed_to_others(alloc, book) {
                return Ok("open to others");
            }
            book.forget(spec);
            Ok("forgotten")
        }
    }
}

/// Asks a line while another is open. It isn't taken, and the book stays as it is.
fn is_closed_to(alloc: Global, book: &mut Book, line: &[u8]) -> bool
    ensures { IsTrue result → book.new ≡ book.old }
{
    matches!(book.open(alloc, line), Ok(Opened::Full))
}

/// Asks a line and a checkpoint while another request is open.
fn is_closed_to_others(alloc: Global, book: &mut Book) -> bool
    ensures { IsTrue result → book.new ≡ book.old }
{
    is_closed_to(alloc, book, b"{}") && is_closed_to(alloc, book, b"[\"checkpoint\"]")
}

/// A copy of the job of a line that runs a program, printed.
fn copy(alloc: Global, book: &mut Book, line: &str) -> Result<String, AllocError> {
    match book.open(alloc, line.as_bytes())? {
        Opened::ToRun(spec) => {
            let copy = spec.copy(alloc)?;
            format!(in alloc; "{copy:?}")
        }
        _ => String::from_str(alloc, "no run"),
    }
}

/// What a book tells of itself: its name, its limits, whether a request is open, the units of its
/// runs, how many lines are logged, and the cells of the arrays that it began with.
fn tell(alloc: Global, book: &Book) -> Result<String, AllocError> {
    let base = book.base().cells(alloc)?;
    format!(in alloc;
        "{} {:?} {} {} {} {base:?}",
        book.name(),
        book.limits(),
        book.is_open(),
        book.used(),
        book.log().len()
    )
}

/// What the log of a book begins with: the number of its first line, the units before it, and the cells
/// of the arrays; and the number of the next request.
fn tell_beginning(alloc: Global, book: &Book) -> Result<String, AllocError> {
    let base = book.base().cells(alloc)?;
    format!(in alloc;
        "{} {} {base:?} {}",
        book.first(),
        book.base_used(),
        book.next_number()
    )
}

/// What a line is answered that has line ends in place of its spaces, of which no session hands one
/// on.
fn ask_broken(alloc: Global, book: &mut Book, line: &str) -> Result<String, AllocError> {
    let line = line.replace(alloc, " ", "\n")?;
    ask(alloc, book, line.as_str())
}

/// How many programs a book says that it keeps: that stands last where it is printed.
fn keeps(alloc: Global, book: &Book) -> Result<String, AllocError> {
    let text = format!(in alloc; "{book:?}")?;
    match text.as_str().rsplit_once("kept: ") {
        Some((_, kept)) => String::from_str(alloc, kept),
        None => String::from_str(alloc, "nothing"),
    }
}

/// What is told of a row: a word says what is done with the line behind it.
fn told(alloc: Global, book: &mut Book, word: &str, line: &str) -> Result<String, AllocError> {
    match word {
        "ask" => ask(alloc, book, line),
        "broken" => ask_broken(alloc, book, line),
        "refuse" => refuse(alloc, book, line),
        "forget" => forget(alloc, book, line),
        "copy" => copy(alloc, book, line),
        "keeps" => keeps(alloc, book),
        "begins" => tell_beginning(alloc, book),
        _ => tell(alloc, book),
    }
}

fn is_right(alloc: Global, book: &mut Book, row: &str) -> bool {
    let Some((asked, gives)) = row.split_once(" gives ") else {
        return false;
    };
    let (word, line) = asked.split_once(' ').unwrap_or((asked, ""));
    match told(alloc, book, word, line) {
        Ok(said) => said.as_str() == gives,
        Err(_) => false,
    }
}

/// The first row that is told something else than it gives.
fn first_other(alloc: Global, book: &mut Book, rows: &'static str) -> Option<&'static str> {
    for row in rows.lines() {
        if !is_right(alloc, book, row) {
            return Some(row);
        }
    }
    None
}

/// Asserts that each row is told what it gives, of a book that begins with these arrays.
pub(crate) fn assert_rows(
    rt: &impl Abort,
    alloc: Global,
    limits: Limits,
    store: Result<Store, StoreFault>,
    rows: &'static str,
) {
    let Ok(store) = store else {
        panic!(rt; "no arrays");
    };
    match Book::new(alloc, "t1", limits, store) {
        Ok(mut book) => assert_eq!(rt; first_other(alloc, &mut book, rows), None),
        Err(_) => panic!(rt; "no book"),
    }
}

const LIMITS: Limits = Limits {
    arrays: 2,
    cells: 4,
    tasks: 1,
    log: 11,
};

const LIMITED: &str = r#"ask ["new","a",5] gives ["err",1,415]
ask ["new","a",2] gives ["ok",2]
ask ["new","a",3] gives ["err",3,413]
ask ["new","b",3] gives ["err",4,415]
ask ["new","b",2] gives ["ok",5]
ask ["new","b",1] gives ["err",6,413]
ask ["new","c",1] gives ["err",7,416]
ask ["put","b",1,[6]] gives ["ok",8]
ask ["get","b",0,2] gives ["cells",9,[0,6]]
ask ["run",["program",[["b",0,2],["a",0,2]],[]]] gives ["done",10,0,0,[[0,6],[0,0]]]
ask ["run",["program",[],[["task",[],[]],["task",[],[]]]]] gives ["err",11,423]
ask ["get","a",0,1] gives full
ask ["nothing"] gives full
ask [ gives full
forget ["put","a",0,[9]] gives full
forget ["run",["program",[],[]]] gives full
tell gives t1 Limits { arrays: 2, cells: 4, tasks: 1, log: 11 } false 0 11 Cells { arrays: [] }"#;

#[test]
fn limits_that_are_handed_in(rt: HostRuntime) {
    let none = Ok(Store::empty(rt.alloc()));
    assert_rows(&rt, rt.alloc(), LIMITS, none, LIMITED);
}

const NINE: Limits = Limits {
    arrays: 2,
    cells: 4,
    tasks: 1,
    log: 9,
};

const FREED: &str = r#"ask ["new","a",3] gives ["ok",1]
ask ["new","b",2] gives ["err",2,415]
ask ["new","b",1] gives ["ok",3]
ask ["new","c",1] gives ["err",4,416]
ask ["new","a",9] gives ["err",5,413]
ask ["free","a"] gives ["ok",6]
ask ["new","a",1] gives ["ok",7]
ask ["list"] gives ["arrays",8,[["b",1],["a",1]]]
ask ["used"] gives ["used",9,0]
ask ["used"] gives full
tell gives t1 Limits { arrays: 2, cells: 4, tasks: 1, log: 9 } false 0 9 Cells { arrays: [] }"#;

#[test]
fn arrays_that_are_freed_and_named(rt: HostRuntime) {
    let none = Ok(Store::empty(rt.alloc()));
    assert_rows(&rt, rt.alloc(), NINE, none, FREED);
}

const TASKS: &str = r#"ask ["list"] gives ["arrays",1,[]]
ask ["free","a"] gives ["err",2,412]
ask ["new","a",3] gives ["ok",3]
ask ["put","a",0,[1,2,3]] gives ["ok",4]
ask ["run",["program",[["a",0,3]],[["task",[["out",["a",0,1]]],[["set",["c","a",0],7]]],["task",[["in",["a",0,1]],["out",["a",1,1]]],[["set",["c","a",1],["+",["c","a",0],1]]]],["wait"]]]] gives ["done",5,2,5,[[7,8,3]]]
ask ["used"] gives ["used",6,5]
ask ["run",["program",[],[["set",["c","a",2],4],["task",[["in",["a",0,1]]],[["set",["c","a",0],9]]]]]] gives ["err",7,425,3]
ask ["run",["program",[],[["task",[["out",["a",0,1]]],[["set",["c","a",0],9]]],["set",["c","a",1],["c","a",0]]]]] gives ["err",8,427,3]
refuse ["run",["program",[],[["set",["c","a",0],9]]]] gives ["err",9,508]
ask ["used"] gives ["used",10,5]
ask ["get","a",0,3] gives ["cells",11,[7,8,3]]
ask ["list",1] gives ["err",12,411]
ask ["used",1] gives ["err",13,411]
ask ["free"] gives ["err",14,411]
ask ["free","A b"] gives ["err",15,411]
ask ["free","a",1] gives ["err",16,411]
ask ["Used"] gives ["err",17,411]
ask [] gives ["err",18,411]
ask ["list"] gives ["arrays",19,[["a",3]]]"#;

#[test]
fn programs_with_tasks(rt: HostRuntime) {
    let none = Ok(Store::empty(rt.alloc()));
    assert_rows(&rt, rt.alloc(), Limits::usual(), none, TASKS);
}

const RUNS: &str = r#"ask ["new","a",3] gives ["ok",1]
ask ["put","a",0,[1,2,3]] gives ["ok",2]
forget ["run",["program",[["a",0,3]],[["set",["c","a",0],9]]]] gives forgotten
ask {} gives ["err",3,411]
refuse ["run",["program",[["a",0,3]],[["set",["c","a",0],9]]]] gives ["err",4,508]
tell gives t1 Limits { arrays: 16, cells: 65536, tasks: 1024, log: 4096 } false 0 4 Cells { arrays: [] }
ask ["get","a",0,3] gives ["cells",5,[1,2,3]]
ask ["run",["program",[["a",0,3]],[["set",["c","a",0],9]]]] gives ["done",6,0,1,[[9,2,3]]]
ask ["bye"] gives ["err",7,411]
broken "a b" gives ["err",8,410]
tell gives t1 Limits { arrays: 16, cells: 65536, tasks: 1024, log: 4096 } false 1 8 Cells { arrays: [] }
ask ["run",["program",[],[["wait"],["wait"],["wait"]]]] gives ["done",9,0,3,[]]
tell gives t1 Limits { arrays: 16, cells: 65536, tasks: 1024, log: 4096 } false 4 9 Cells { arrays: [] }
copy ["run",["program",[["a",0,3]],[["wait"]]]] gives JobSpec { checked: Checked { program: Program { shows: [Section { array: 0, start: 0, len: 3 }], body: [Wait(None)], statements: 1, tasks: 0 }, parts: [Wait(Run { assigns: Assigns { list: None }, uses: Decl { uses: [] } }, None)] }, before: Cells { arrays: [[9, 2, 3]] } }"#;

#[test]
fn runs_that_end_in_other_ways(rt: HostRuntime) {
    let none = Ok(Store::empty(rt.alloc()));
    assert_rows(&rt, rt.alloc(), Limits::usual(), none, RUNS);
}

const KEPT: &str = r#"ask ["new","a",3] gives ["ok",1]
ask ["put","a",0,[1,2,3]] gives ["ok",2]
keeps gives 0 }
ask ["run",["program",[["a",0,3]],[["add",["c","a",0],1]]]] gives ["done",3,0,1,[[2,2,3]]]
keeps gives 1 }
ask ["run",["program",[["a",0,3]],[["add",["c","a",0],1]]]] gives ["done",4,0,1,[[3,2,3]]]
refuse ["run",["program",[["a",0,3]],[["add",["c","a",0],1]]]] gives ["err",5,508]
forget ["run",["program",[["a",0,3]],[["add",["c","a",0],1]]]] gives forgotten
ask ["get","a",0,1] gives ["cells",6,[3]]
ask ["run",["program",[],[["add",["c","b",0],1]]]] gives ["err",7,412]
keeps gives 1 }
ask ["new","b",1] gives ["ok",8]
ask ["run",["program",[["a",0,3]],[["add",["c","a",0],1]]]] gives ["done",9,0,1,[[4,2,3]]]
keeps gives 2 }
ask ["free","b"] gives ["ok",10]
ask ["run",["program",[["a",0,3]],[["add",["c","a",0],1]]]] gives ["done",11,0,1,[[5,2,3]]]
keeps gives 2 }
ask ["checkpoint"] gives ["ok",12]
ask ["run",["program",[["a",0,3]],[["add",["c","a",0],1]]]] gives ["done",13,0,1,[[6,2,3]]]
keeps gives 2 }
ask ["run",["program",[],[["set",["c","a",0],0]]]] gives ["done",14,0,1,[]]
ask ["run",["program",[],[["set",["c","a",0],1]]]] gives ["done",15,0,1,[]]
ask ["run",["program",[],[["set",["c","a",0],2]]]] gives ["done",16,0,1,[]]
ask ["run",["program",[],[["set",["c","a",0],3]]]] gives ["done",17,0,1,[]]
ask ["run",["program",[],[["set",["c","a",0],4]]]] gives ["done",18,0,1,[]]
ask ["run",["program",[],[["set",["c","a",0],5]]]] gives ["done",19,0,1,[]]
ask ["run",["program",[],[["set",["c","a",0],6]]]] gives ["done",20,0,1,[]]
keeps gives 8 }
ask ["run",["program",[],[["for","i",0,20000,[["set",["c","a",0],0]]]]]] gives ["done",21,0,20000,[]]
ask ["run",["program",[],[["for","i",0,20000,[["set",["c","a",0],1]]]]]] gives ["done",22,0,20000,[]]
ask ["run",["program",[],[["for","i",0,20000,[["set",["c","a",0],2]]]]]] gives ["done",23,0,20000,[]]
ask ["run",["program",[],[["for","i",0,20000,[["set",["c","a",0],3]]]]]] gives ["done",24,0,20000,[]]
ask ["run",["program",[],[["for","i",0,20000,[["set",["c","a",0],4]]]]]] gives ["done",25,0,20000,[]]
keeps gives 4 }
ask ["run",["program",[["a",0,3]],[["add",["c","a",0],1]]]] gives ["done",26,0,1,[[5,2,3]]]
keeps gives 4 }"#;

/// The same line over the same arrays isn't read again, and is answered as if it were. A book tells how many programs it
/// keeps: at most 8, with at most 80,000 statements in all.
#[test]
fn lines_that_come_again(rt: HostRuntime) {
    let none = Ok(Store::empty(rt.alloc()));
    assert_rows(&rt, rt.alloc(), Limits::usual(), none, KEPT);
}

/// Two arrays.
fn two_arrays(alloc: Global) -> Result<Store, StoreFault> {
    let mut store = Store::empty(alloc);
    store.create(alloc, "b", 1, &Limits::usual())?;
    store.create(alloc, "a", 3, &Limits::usual())?;
    match store.put("a", 1, &[5, 6]) {
        Ok(()) => Ok(store),
        Err(refusal) => Err(StoreFault::Refused(refusal)),
    }
}

const WRITTEN: &str = r#"ask ["put","b",0,[9]] gives ["ok",1]
ask ["get","b",0,1] gives ["cells",2,[9]]
ask ["get","a",0,3] gives ["cells",3,[0,5,6]]
tell gives t1 Limits { arrays: 16, cells: 65536, tasks: 1024, log: 4096 } false 0 3 Cells { arrays: [[0], [0, 5, 6]] }"#;

#[test]
fn a_book_that_begins_with_arrays(rt: HostRuntime) {
    assert_rows(
        &rt,
        rt.alloc(),
        Limits::usual(),
        two_arrays(rt.alloc()),
        WRITTEN,
    );
}
