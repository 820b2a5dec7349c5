//! Checkpoints of a book: what they are answered at a full log and behind other requests, and what the log
//! begins with then.
use super::books::{ask, assert_rows};
use ot_book::{Book, Told, is_checkpoint};
use ot_store::{Limits, Store};
use std::alloc::{AllocError, Global};

const TWO: Limits = Limits {
    arrays: 16,
    cells: 65_536,
    tasks: 1_024,
    log: 2,
};

const AT_A_FULL_LOG: &str = r#"begins gives 1 0 Cells { arrays: [] } 1
ask ["new","a",3] gives ["ok",1]
ask ["put","a",0,[1,2,3]] gives ["ok",2]
ask ["list"] gives full
ask ["checkpoint",1] gives full
ask ["checkpoint"] gives ["ok",3]
begins gives 3 0 Cells { arrays: [[1, 2, 3]] } 4
tell gives t1 Limits { arrays: 16, cells: 65536, tasks: 1024, log: 2 } false 0 1 Cells { arrays: [[1, 2, 3]] }
ask ["get","a",0,3] gives ["cells",4,[1,2,3]]
ask ["list"] gives full
begins gives 3 0 Cells { arrays: [[1, 2, 3]] } 5"#;

#[test]
fn a_checkpoint_at_a_full_log(rt: HostRuntime) {
    let none = Ok(Store::empty(rt.alloc()));
    assert_rows(&rt, rt.alloc(), TWO, none, AT_A_FULL_LOG);
}

const ONE: Limits = Limits { log: 1, ..TWO };

const TWO_IN_A_ROW: &str = r#"ask ["new","a",3] gives ["ok",1]
ask ["checkpoint"] gives ["ok",2]
ask ["checkpoint"] gives ["ok",3]
ask ["list"] gives full
begins gives 3 0 Cells { arrays: [[0, 0, 0]] } 4"#;

#[test]
fn two_checkpoints_in_a_row(rt: HostRuntime) {
    let none = Ok(Store::empty(rt.alloc()));
    assert_rows(&rt, rt.alloc(), ONE, none, TWO_IN_A_ROW);
}

const NONE: Limits = Limits { log: 0, ..TWO };

const WITHOUT_ROOM: &str = r#"ask ["list"] gives full
ask [ "checkpoint" ] gives ["ok",1]
ask ["list"] gives full
ask ["checkpoint"] gives ["ok",2]
begins gives 2 0 Cells { arrays: [] } 3"#;

#[test]
fn checkpoints_of_a_log_without_room(rt: HostRuntime) {
    let none = Ok(Store::empty(rt.alloc()));
    assert_rows(&rt, rt.alloc(), NONE, none, WITHOUT_ROOM);
}

const BEHIND_RUNS: &str = r#"ask ["checkpoint"] gives ["ok",1]
begins gives 1 0 Cells { arrays: [] } 2
ask ["new","a",3] gives ["ok",2]
ask ["put","a",0,[1,2,3]] gives ["ok",3]
ask ["run",["program",[["a",0,3]],[["task",[["out",["a",0,1]]],[["set",["c","a",0],7]]],["task",[["in",["a",0,1]],["out",["a",1,1]]],[["set",["c","a",1],["+",["c","a",0],1]]]],["wait"]]]] gives ["done",4,2,5,[[7,8,3]]]
ask ["checkpoint"] gives ["ok",5]
begins gives 5 5 Cells { arrays: [[7, 8, 3]] } 6
ask ["used"] gives ["used",6,5]
forget ["run",["program",[["a",0,3]],[["set",["c","a",0],9]]]] gives forgotten
refuse ["run",["program",[["a",0,3]],[["set",["c","a",0],9]]]] gives ["err",7,508]
ask ["checkpoint"] gives ["ok",8]
begins gives 8 5 Cells { arrays: [[7, 8, 3]] } 9
ask ["get","a",0,3] gives ["cells",9,[7,8,3]]
ask ["run",["program",[],[["set",["c","a",0],9]]]] gives ["done",10,0,1,[]]
ask ["free","a"] gives ["ok",11]
ask ["used"] gives ["used",12,6]
begins gives 8 5 Cells { arrays: [[7, 8, 3]] } 13
ask ["checkpoint",1] gives ["err",13,411]
broken [ "checkpoint" ] gives ["ok",14]
begins gives 14 6 Cells { arrays: [] } 15"#;

#[test]
fn checkpoints_behind_runs(rt: HostRuntime) {
    let none = Ok(Store::empty(rt.alloc()));
    assert_rows(&rt, rt.alloc(), Limits::usual(), none, BEHIND_RUNS);
}

/// Lines, and whether each asks for a checkpoint.
const LINES: [(&str, bool); 8] = [
    (r#"["checkpoint"]"#, true),
    (" [ \"checkpoint\" ]\r", true),
    (r#"["checkpoint",1]"#, false),
    (r#"["checkpoints"]"#, false),
    (r#""checkpoint""#, false),
    ("[]", false),
    ("", false),
    (r#"["list"]"#, false),
];

/// The first line of which something else is told.
fn first_other_line(alloc: Global) -> Result<Option<&'static str>, AllocError> {
    for (line, asks) in &LINES {
        if is_checkpoint(alloc, line.as_bytes())? != *asks {
            return Ok(Some(*line));
        }
    }
    Ok(None)
}

#[test]
fn lines_that_ask_for_a_checkpoint(rt: HostRuntime) {
    assert_eq!(rt; first_other_line(rt.alloc()), Ok(None));
}

/// Requests that are answered in each way but for want of memory.
const KINDS: [&str; 7] = [
    r#"["new","a",3]"#,
    r#"["put","a",0,[1,2,3]]"#,
    r#"["get","a",0,3]"#,
    r#"["list"]"#,
    r#"["used"]"#,
    r#"["run",["program",[["a",0,3],["a",1,1]],[["task",[["out",["a",0,1]]],[["set",["c","a",0],7]]]]]]"#,
    r#"["run",["program",[],[["task",[["out",["a",0,1]]],[]],["set",["c","a",0],1]]]]"#,
];

/// A book that was asked these, and one thing that is no request.
fn asked(alloc: Global) -> Result<Book, AllocError> {
    let mut book = Book::new(alloc, "t1", Limits::usual(), Store::empty(alloc))?;
    for line in KINDS {
        ask(alloc, &mut book, line)?;
    }
    ask(alloc, &mut book, "{}")?;
    Ok(book)
}

/// Whether a copy is printed as the original is.
fn copies(alloc: Global, told: &Told) -> Result<bool, AllocError> {
    let copy = told.copy(alloc)?;
    let text = format!(in alloc; "{copy:?}")?;
    Ok(text == format!(in alloc; "{told:?}")?)
}

/// How many of the things told have an equal copy, before the first that hasn't.
fn count_copies(alloc: Global) -> Result<usize, AllocError> {
    let book = asked(alloc)?;
    if !copies(alloc, &Told::Lost)? {
        return Ok(0);
    }
    for (number, entry) in book.log().iter().enumerate() {
        if !copies(alloc, &entry.told)? {
            return Ok(number);
        }
    }
    Ok(book.log().len())
}

#[test]
fn copies_of_what_is_told(rt: HostRuntime) {
    assert_eq!(rt; count_copies(rt.alloc()), Ok(8));
}
