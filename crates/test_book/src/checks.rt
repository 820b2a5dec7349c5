//! A check for which memory is refused. What the checker tells of bodies stands in `tests/sessions`.
use ot_check::{CheckFault, check};
use std::alloc::Global;
use test_reading::{one_array, read};

/// A body with a group, tasks, an `if` and a wait, which is accepted.
const ACCEPTED: &str = r#"[],[
    ["group",[["a",0,1]],[["task",[["red",["a",0,1]]],[["add",["c","a",0],1]]]]],
    ["if",["c","a",0],[["task",[["out",["a",1,1]]],[["set",["c","a",1],1]]],["wait"]],[]],
    ["set",["c","a",1],2]]"#;

/// Checks it. Want of memory is told as the checker tells it, wherever it is met.
fn check_accepted(alloc: Global) -> Result<(), CheckFault> {
    let shape = one_array(alloc, 3, 4)?;
    match read(alloc, ACCEPTED, &shape) {
        Ok(program) => {
            let _checked = check(alloc, program, &shape)?;
            Ok(())
        }
        Err(_) => Err(CheckFault::Memory),
    }
}

/// It passes whichever allocation fails, and prints a line where one did.
#[test]
fn a_check_that_wants_memory_tells_nothing_else(rt: HostRuntime) {
    if let Err(fault) = check_accepted(rt.alloc()) {
        assert_eq!(rt; fault, CheckFault::Memory);
        let _ = println!(rt; "memory was refused");
    }
}
