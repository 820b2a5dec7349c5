//! What the cells of an open group hold and are worth, before a claim passes the group's end and behind it.
use super::choosers::Ends;
use super::driving::{Width, finish};
use super::three::ThreeCells;
use ot_program::ProgramFault;
use std::alloc::{AllocError, Global};
use test_reading::job_of;

/// Workers that each take a piece of the first claimable task, one after another, and the body, over 1, 2, 3. Given
/// is what the cells hold and what they are worth before the last of these claims, the same behind it, and what is
/// left in the end: the executed task statements, the units and the cells.
const FOLDS: &str =
    r#"1 1 1 1 1 2 1 1: [["group",[["a",0,1]],[["task",[["red",["a",0,1]]],[["add",["c","a",0],18446744073709551615]]],["task",[["red",["a",0,1]]],[["add",["c","a",0],1]]],["task",[["red",["a",0,1]]],[["add",["c","a",0],5]]]]]] gives [1, 2, 3] [6, 2, 3], [6, 2, 3] [6, 2, 3], 3 7 [6, 2, 3]
4 3 2 1 16 16 16 9: [["group",[["a",0,1]],[["task",[["red",["a",0,1]]],[["add",["c","a",0],18446744073709551615]]],["task",[["red",["a",0,1]]],[["add",["c","a",0],1]]],["task",[["red",["a",0,1]]],[["add",["c","a",0],5]]]]]] gives [1, 2, 3] [6, 2, 3], [6, 2, 3] [6, 2, 3], 3 7 [6, 2, 3]
1 1 1 1 1: [["group",[["a",0,1]],[["task",[["red",["a",0,1]]],[["add",["c","a",0],18446744073709551615]]],["task",[["red",["a",0,1]]],[["add",["c","a",0],1]]],["task",[["red",["a",0,1]]],[["add",["c","a",0],5]]]]]] gives [1, 2, 3] [1, 2, 3], [1, 2, 3] [1, 2, 3], 3 7 [6, 2, 3]
1 1 1 1 1 2: [["group",[["a",0,1]],[["task",[["red",["a",0,1]]],[["add",["c","a",0],18446744073709551615]]],["task",[["red",["a",0,1]]],[["add",["c","a",0],1]]],["task",[["red",["a",0,1]]],[["add",["c","a",0],5]]]]]] gives [1, 2, 3] [0, 2, 3], [1, 2, 3] [0, 2, 3], 3 7 [6, 2, 3]
1 1 1 1 2 1 3: [["group",[["a",0,1]],[["task",[["red",["a",0,1]]],[["task",[["red",["a",0,1]]],[["add",["c","a",0],4]]],["add",["c","a",0],3],["wait"]]]]]] gives [1, 2, 3] [8, 2, 3], [8, 2, 3] [8, 2, 3], 2 6 [8, 2, 3]
1 1 2 3: [["group",[["a",0,1]],[["task",[["red",["a",0,1]]],[["add",["c","a",0],5]]]]],["set",["c","a",1],["c","a",0]]] gives [1, 2, 3] [6, 2, 3], [6, 2, 3] [6, 2, 3], 1 4 [6, 6, 3]
1 1 1 2 1: [["group",[["a",0,1]],[["group",[["a",1,1]],[["task",[["red",["a",0,2]]],[["add",["c","a",0],4],["add",["c","a",1],5]]]]]]]] gives [1, 2, 3] [5, 7, 3], [1, 7, 3] [5, 7, 3], 1 5 [5, 7, 3]
4 3 2 1 16 16 16 9: program2 [["group","max",[["a",0,1]],[["task",[["red","max",["a",0,1]]],[["fold","max",["c","a",0],9]]],["task",[["red","max",["a",0,1]]],[["fold","max",["c","a",0],4]]],["task",[["red","max",["a",0,1]]],[["fold","max",["c","a",0],12]]]]]] gives [1, 2, 3] [12, 2, 3], [12, 2, 3] [12, 2, 3], 3 7 [12, 2, 3]
1 1 1 1 1 2: program2 [["group","max",[["a",0,1]],[["task",[["red","max",["a",0,1]]],[["fold","max",["c","a",0],9]]],["task",[["red","max",["a",0,1]]],[["fold","max",["c","a",0],4]]],["task",[["red","max",["a",0,1]]],[["fold","max",["c","a",0],12]]]]]] gives [1, 2, 3] [9, 2, 3], [1, 2, 3] [9, 2, 3], 3 7 [12, 2, 3]
1 1 1 1 2 1: program2 [["group","*",[["a",1,1]],[["task",[["red","*",["a",1,1]]],[["fold","*",["c","a",1],5]]],["task",[["red","*",["a",1,1]]],[["fold","*",["c","a",1],9223372036854775809]]]]]] gives [1, 2, 3] [1, 10, 3], [1, 10, 3] [1, 10, 3], 2 5 [1, 10, 3]
1 1 1 1 2: program2 [["group","&",[["a",2,1]],[["task",[["red","&",["a",2,1]]],[["fold","&",["c","a",2],6]]],["task",[["red","&",["a",2,1]]],[["fold","&",["c","a",2],18446744073709551614]]]]]] gives [1, 2, 3] [1, 2, 2], [1, 2, 3] [1, 2, 2], 2 5 [1, 2, 2]
1 2 1 16 3 1: program2 [["group","&",[["a",2,1]],[["task",[["red","&",["a",2,1]]],[["fold","&",["c","a",2],6]]],["task",[["red","&",["a",2,1]]],[["fold","&",["c","a",2],18446744073709551614]]]]]] gives [1, 2, 3] [1, 2, 2], [1, 2, 2] [1, 2, 2], 2 5 [1, 2, 2]
1 1 2 1: program2 [["group","min",[["a",0,3]],[["task",[["red","min",["a",0,3]]],[["fold","min",["c","a",2],1]]]]]] gives [1, 2, 3] [1, 2, 1], [1, 2, 1] [1, 2, 1], 1 3 [1, 2, 1]
1 1 1 2 3: program2 [["group","*",[["a",0,3]],[["task",[["red","*",["a",0,3]]],[]],["task",[["red","*",["a",0,3]]],[["fold","*",["c","a",1],0]]]]]] gives [1, 2, 3] [1, 2, 3], [1, 2, 3] [1, 2, 3], 2 4 [1, 0, 3]
1 1 1 2 1: program2 [["group","max",[["a",0,1]],[["group","*",[["a",1,1]],[["task",[["red","max",["a",0,1]],["red","*",["a",1,1]]],[["fold","max",["c","a",0],4],["fold","*",["c","a",1],5]]]]]]]] gives [1, 2, 3] [4, 10, 3], [1, 10, 3] [4, 10, 3], 1 5 [4, 10, 3]"#;

/// What the cells hold and what they are worth.
fn shown(alloc: Global, job: &ThreeCells) -> Result<String, AllocError> {
    format!(in alloc; "{:?} {:?}", job.stored(), job.worth())
}

/// The worker of this number.
fn worker(number: &str) -> u32 {
    number.parse::<u32>().unwrap_or(1)
}

/// A worker takes a piece of the first claimable task: its units, and what the cells hold and are worth meanwhile.
fn take(alloc: Global, job: &mut ThreeCells, worker: u32) -> Result<(u32, String), AllocError> {
    let piece = match job.claim(alloc, 0, worker.clamp(1, 16))? {
        Some(piece) => piece,
        None => return Err(AllocError),
    };
    let meanwhile = shown(alloc, job);
    match job.settle(alloc, piece.run()) {
        Ok(units) => Ok((units, meanwhile?)),
        Err((done, _)) => {
            job.fail(done);
            Err(AllocError)
        }
    }
}

/// What comes of a body of which these workers take pieces.
fn told(alloc: Global, workers: &str, body: &str) -> Result<String, ProgramFault> {
    let (earlier, last) = workers.rsplit_once(' ').unwrap_or(("", ""));
    let mut job = match ThreeCells::start(alloc, job_of(alloc, 1, body)?) {
        Ok(job) => job,
        Err(_) => return Err(ProgramFault::Memory),
    };
    let mut settled: u32 = 0;
    for number in earlier.split(' ') {
        let (units, _) = take(alloc, &mut job, worker(number))?;
        settled = settled.saturating_add(units);
    }
    let before = shown(alloc, &job)?;
    let (units, behind) = take(alloc, &mut job, worker(last))?;
    let settled = settled.saturating_add(units);
    let left = finish(alloc, job.into_job(), settled, &mut Ends::First, Width::One)?;
    Ok(format!(in alloc; "{before}, {behind}, {left}")?)
}

fn is_right(alloc: Global, row: &str) -> bool {
    let Some((asked, gives)) = row.split_once(" gives ") else {
        return false;
    };
    let (workers, body) = asked.split_once(": ").unwrap_or(("", ""));
    match told(alloc, workers, body) {
        Ok(said) => said.as_str() == gives,
        Err(_) => false,
    }
}

/// The first row of which something else comes.
fn first_other(alloc: Global) -> Option<&'static str> {
    for row in FOLDS.lines() {
        if !is_right(alloc, row) {
            return Some(row);
        }
    }
    None
}

#[test]
fn what_is_folded_is_stored_behind_the_end_of_its_group(rt: HostRuntime) {
    assert_eq!(rt; first_other(rt.alloc()), None);
}
