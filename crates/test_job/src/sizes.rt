//! Programs at the limits, run to their ends.
use super::choosers::Ends;
use super::driving::{Width, run};
use ot_program::ProgramFault;
use std::alloc::{AllocError, Global};
use std::time::Instant;
use test_reading::job_over;

/// So many cells, and a body that has a part many times over: its beginning, a part, how often the part
/// stands there, what stands behind it, a part that stands there as often, and its end. The cells begin
/// as 1, 2, 3 and so on. Given are the executed task statements, the units and the first cells.
const BODIES: &str =
    r#"3|[["for","i",0,1024,[["task",[["inout",["a",0,1]]],[["add",["c","a",0],1]]]]]]||0||| gives 1024 2048 [1025, 2, 3]
3|[["group",[["a",0,1]],[["for","i",0,1024,[["task",[["red",["a",0,1]]],[["add",["c","a",0],"i"]]]]]]],["set",["c","a",1],["c","a",0]]]||0||| gives 1024 2050 [523777, 523777, 3]
3||[["if",["c","a",0],|15|[["add",["c","a",0],1]]|,[]],["add",["c","a",1],1]]| gives 0 31 [2, 17, 3]
3||[["if",["c","a",0],|15|[["add",["c","a",0],1]]|,[]],["for","i",0,1300,[["add",["c","a",1],1]]]]| gives 0 19516 [2, 19502, 3]
3||[["task",[["inout",["a",0,1]]],|15|[["add",["c","a",0],1]]|],["wait"],["add",["c","a",0],1]]| gives 15 46 [17, 2, 3]
3||[["if",["c","a",0],[["group",[],[["task",[["inout",["a",0,1]]],|5|[["add",["c","a",0],1]]|]]],["add",["c","a",0],1]],[]]]| gives 5 21 [7, 2, 3]
3|[["for","i",0,20000,[["set",["c","a",0],"i"]]]]||0||| gives 0 20000 [19999, 2, 3]
3|[["for","i",0,20000,[["wait"]]]]||0||| gives 0 20000 [1, 2, 3]
3|[["for","i",0,10000,[["if",["c","a",0],[["add",["c","a",0],1]],[]]]]]||0||| gives 0 20000 [10001, 2, 3]
3|[["for","i",0,20000,[["group",[["a",0,1]],[]]]]]||0||| gives 0 20000 [1, 2, 3]
3|[["if",["c","a",0],[],[]],["if",0,[],[["for","i",0,19998,[["add",["c","a",0],1]]]]]]||0||| gives 0 20000 [19999, 2, 3]
3|[["task",[["inout",["a",0,1]]],[["for","i",0,9999,[["if",["c","a",0],[["add",["c","a",0],1]],[]]]]]]]||0||| gives 1 19999 [10000, 2, 3]
65536|[["set",["c","a",0],["pick",["a",0,65536],65535]]]||0||| gives 0 1 [65536, 2, 3, 4, 5, 6]
65536|[["for","i",0,16,[["if",["pick",["a",0,65536],65535],[["add",["c","a",0],1]],[]]]]]||0||| gives 0 32 [17, 2, 3, 4, 5, 6]
65536|[["for","i",0,16,[["task",[["inout",["a",0,65536]]],[["add",["c","a","i"],["c","a",0]]]]]]]||0||| gives 16 32 [2, 4, 5, 6, 7, 8]
65536|[["for","i",0,16,[["task",[["in",["a",1,65535]],["out",["a",0,1]]],[["set",["c","a",0],["c","a",["+","i",1]]]]]]]]||0||| gives 16 32 [17, 2, 3, 4, 5, 6]
65536|[["for","i",0,8,[["task",[["in",["a",1,65535]],["out",["a",0,1]]],[["set",["c","a",0],["pick",["a",1,65535],["-",65535,"i"]]]]]]]]||0||| gives 8 16 [65530, 2, 3, 4, 5, 6]"#;

/// Bodies of the same form at the limits of rows, of groups in each other, of children and of folds.
const LIMITS: &str =
    r#"65536|[["group",[["a",0,65536]],[["for","i",0,14,[["task",[["red",["a",0,65536]]],[["for","j",0,1000,[["add",["c","a",["+",["*",1000,"i"],"j"]],1]]]]]]]]]]||0||| gives 14 14015 [2, 3, 4, 5, 6, 7]
3||[["group",[],|14|[["task",[["inout",["a",0,1]]],[["add",["c","a",0],1]]]]|]]| gives 1 16 [2, 2, 3]
3|[["for","i",0,500,[["task",[],|[["group",[],|11|[["task",[],[]]]|]]|]]]] gives 1000 6500 [1, 2, 3]
65536|program2 [["for","i",0,16,[["group","max",[["a",0,600]],[["task",[["red","max",["a",0,600]]],[["for","j",0,600,[["fold","max",["c","a","j"],["*","i",50]]]]]]]]]]]||0||| gives 16 9632 [750, 750, 750, 750, 750, 750]"#;

/// So many cells: 1, 2, 3 and so on.
fn numbers(alloc: Global, len: u64) -> Result<Vec<u64>, AllocError> {
    (1..len.saturating_add(1)).collect::<Vec<u64>>(alloc)
}

/// A body of these parts.
fn body(alloc: Global, parts: &[&str]) -> Result<String, AllocError> {
    let [begin, before, times, inside, after, end] = parts else {
        return String::from_str(alloc, "not six parts");
    };
    let times = times.parse::<usize>().unwrap_or(0);
    let before = before.repeat(alloc, times)?;
    let after = after.repeat(alloc, times)?;
    format!(in alloc; "{begin}{before}{inside}{after}{end}")
}

/// What is left of the body of a row, with as many pieces out at a time as can be claimed, and the piece
/// claimed first or last settled first.
fn left(alloc: Global, asked: &str, ends: &mut Ends) -> Result<String, ProgramFault> {
    let (len, parts) = asked.split_once('|').unwrap_or(("", ""));
    let array = numbers(alloc, len.parse().unwrap_or(0))?;
    let parts = parts.split('|').collect::<Vec<&str>>(alloc)?;
    let text = body(alloc, parts.as_slice())?;
    let spec = job_over(alloc, array, text.as_str())?;
    Ok(run(alloc, spec, ends, Width::All)?)
}

fn is_right(alloc: Global, row: &str, ends: &mut Ends) -> bool {
    let Some((asked, gives)) = row.split_once(" gives ") else {
        return false;
    };
    match left(alloc, asked, ends) {
        Ok(said) => said.as_str() == gives,
        Err(_) => false,
    }
}

/// It prints how long each body takes.
#[test]
fn long_and_deep_bodies_go_to_their_end(rt: HostRuntime) {
    for row in BODIES.lines() {
        let start = Instant::now(&rt);
        assert!(rt; is_right(rt.alloc(), row, &mut Ends::Last), "{row}");
        if let Ok(start) = start
            && let Ok(time) = start.elapsed(&rt)
        {
            let _ = println!(rt; "{time:?} {row}");
        }
    }
}

#[test]
fn bodies_at_the_limits_want_no_memory_in_either_order(rt: HostRuntime) {
    for row in LIMITS.lines() {
        assert!(rt; is_right(rt.alloc(), row, &mut Ends::First), "{row}");
        assert!(rt; is_right(rt.alloc(), row, &mut Ends::Last), "{row}");
    }
}
