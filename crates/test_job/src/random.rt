//! Bodies in random orders: one of each operation of folds, and the random ones of scripts/random_jobs.
use super::choosers::Random;
use super::driving::{Width, run};
use ot_check::JobSpec;
use ot_program::ProgramFault;
use std::alloc::{AllocError, Global};
use std::{env, fs};
use test_reading::job_over;

/// Bodies over 1 to 6, in which two tasks and a child of one fold: the executed task statements, the units and the cells.
const FOLDS: &str =
    r#"program2 [["group","+",[["a",4,2]],[["task",[["red","+",["a",4,2]],["in",["a",2,1]]],[["fold","+",["c","a",4],["c","a",2]],["task",[["red","+",["a",5,1]]],[["fold","+",["c","a",5],10]]],["wait"]]],["task",[["red","+",["a",4,2]]],[["fold","+",["c","a",5],7],["fold","+",["c","a",4],12]]]]],["set",["c","a",0],["+",["c","a",4],["c","a",5]]]] gives 3 10 [43, 2, 3, 4, 20, 23]
program2 [["group","*",[["a",4,2]],[["task",[["red","*",["a",4,2]],["in",["a",2,1]]],[["fold","*",["c","a",4],["c","a",2]],["task",[["red","*",["a",5,1]]],[["fold","*",["c","a",5],10]]],["wait"]]],["task",[["red","*",["a",4,2]]],[["fold","*",["c","a",5],7],["fold","*",["c","a",4],12]]]]],["set",["c","a",0],["+",["c","a",4],["c","a",5]]]] gives 3 10 [600, 2, 3, 4, 180, 420]
program2 [["group","&",[["a",4,2]],[["task",[["red","&",["a",4,2]],["in",["a",2,1]]],[["fold","&",["c","a",4],["c","a",2]],["task",[["red","&",["a",5,1]]],[["fold","&",["c","a",5],10]]],["wait"]]],["task",[["red","&",["a",4,2]]],[["fold","&",["c","a",5],7],["fold","&",["c","a",4],12]]]]],["set",["c","a",0],["+",["c","a",4],["c","a",5]]]] gives 3 10 [2, 2, 3, 4, 0, 2]
program2 [["group","|",[["a",4,2]],[["task",[["red","|",["a",4,2]],["in",["a",2,1]]],[["fold","|",["c","a",4],["c","a",2]],["task",[["red","|",["a",5,1]]],[["fold","|",["c","a",5],10]]],["wait"]]],["task",[["red","|",["a",4,2]]],[["fold","|",["c","a",5],7],["fold","|",["c","a",4],12]]]]],["set",["c","a",0],["+",["c","a",4],["c","a",5]]]] gives 3 10 [30, 2, 3, 4, 15, 15]
program2 [["group","^",[["a",4,2]],[["task",[["red","^",["a",4,2]],["in",["a",2,1]]],[["fold","^",["c","a",4],["c","a",2]],["task",[["red","^",["a",5,1]]],[["fold","^",["c","a",5],10]]],["wait"]]],["task",[["red","^",["a",4,2]]],[["fold","^",["c","a",5],7],["fold","^",["c","a",4],12]]]]],["set",["c","a",0],["+",["c","a",4],["c","a",5]]]] gives 3 10 [21, 2, 3, 4, 10, 11]
program2 [["group","min",[["a",4,2]],[["task",[["red","min",["a",4,2]],["in",["a",2,1]]],[["fold","min",["c","a",4],["c","a",2]],["task",[["red","min",["a",5,1]]],[["fold","min",["c","a",5],10]]],["wait"]]],["task",[["red","min",["a",4,2]]],[["fold","min",["c","a",5],7],["fold","min",["c","a",4],12]]]]],["set",["c","a",0],["+",["c","a",4],["c","a",5]]]] gives 3 10 [9, 2, 3, 4, 3, 6]
program2 [["group","max",[["a",4,2]],[["task",[["red","max",["a",4,2]],["in",["a",2,1]]],[["fold","max",["c","a",4],["c","a",2]],["task",[["red","max",["a",5,1]]],[["fold","max",["c","a",5],10]]],["wait"]]],["task",[["red","max",["a",4,2]]],[["fold","max",["c","a",5],7],["fold","max",["c","a",4],12]]]]],["set",["c","a",0],["+",["c","a",4],["c","a",5]]]] gives 3 10 [22, 2, 3, 4, 12, 10]"#;

/// Whether a job leaves this in each of so many orders.
fn leaves(
    alloc: Global,
    spec: &JobSpec,
    chooser: &mut Random,
    orders: u32,
    gives: &str,
) -> Result<bool, AllocError> {
    for _ in 0..orders {
        let said = run(alloc, spec.copy(alloc)?, chooser, Width::Any)?;
        if said.as_str() != gives {
            return Ok(false);
        }
    }
    Ok(true)
}

/// Whether the job of a row's body, over 1 to 6, leaves what the row gives in each of so many orders.
fn is_right(
    alloc: Global,
    row: &str,
    chooser: &mut Random,
    orders: u32,
) -> Result<bool, ProgramFault> {
    let Some((body, gives)) = row.split_once(" gives ") else {
        return Ok(false);
    };
    let spec = job_over(alloc, vec![in alloc; 1, 2, 3, 4, 5, 6]?, body)?;
    Ok(leaves(alloc, &spec, chooser, orders, gives)?)
}

/// The first row that isn't right.
fn first_other<'a>(alloc: Global, rows: &'a str, orders: u32) -> Option<&'a str> {
    let mut chooser = Random {
        number: 88172645463325252,
    };
    for row in rows.lines() {
        match is_right(alloc, row, &mut chooser, orders) {
            Ok(true) => {}
            _ => return Some(row),
        }
    }
    None
}

/// It runs the body of each row in random orders: of those above in 10,000, or, where RANDOM_JOBS names a file, of its
/// rows in as many as RANDOM_ORDERS says.
#[test]
fn random_orders_leave_what_bodies_mean(rt: HostRuntime) {
    let Ok(path) = env::var(&rt, "RANDOM_JOBS") else {
        assert_eq!(rt; first_other(rt.alloc(), FOLDS, 10_000), None);
        return;
    };
    let orders = match env::var(&rt, "RANDOM_ORDERS") {
        Ok(orders) => orders.parse::<u32>().unwrap_or(1),
        Err(_) => 1,
    };
    match fs::read_to_string(&rt, path.as_str()) {
        Ok(rows) => assert_eq!(rt; first_other(rt.alloc(), rows.as_str(), orders), None),
        Err(_) => panic!(rt; "no file"),
    }
}
