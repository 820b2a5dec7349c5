//! Each order in which pieces can be claimed and settled, by many workers.
use super::choosers::{Script, Takers};
use super::driving::{Width, run};
use ot_check::JobSpec;
use ot_program::ProgramFault;
use std::alloc::{AllocError, Global};
use test_reading::job_of;

/// Bodies by what they are, over 1, 2, 3: how many orders there are, and the executed task statements,
/// the units and the cells that each leaves. In each order the pieces are taken by one worker, by two in turn, and by
/// as many as pieces are out.
const BODIES: &str =
    r#"a reduction past the modulus: [["group",[["a",0,1]],[["task",[["red",["a",0,1]]],[["add",["c","a",0],18446744073709551615]]],["task",[["red",["a",0,1]]],[["add",["c","a",0],1]]],["task",[["red",["a",0,1]]],[["add",["c","a",0],5]]]]]] gives 675 orders to 3 7 [6, 2, 3]
tasks in a task, and the end of the job: [["task",[["inout",["a",0,3]]],[["task",[["out",["a",0,1]]],[["set",["c","a",0],4]]],["task",[["out",["a",1,1]]],[["set",["c","a",1],5]]],["wait"],["set",["c","a",2],["+",["c","a",0],["c","a",1]]]]]] gives 15288 orders to 3 7 [4, 5, 9]
an adder in an adder: [["group",[["a",0,1]],[["task",[["red",["a",0,1]]],[["task",[["red",["a",0,1]]],[["add",["c","a",0],4]]],["add",["c","a",0],3],["wait"]]]]]] gives 6 orders to 2 6 [8, 2, 3]
a group in a body of an if, in a task that adds beside another: [["group",[["a",0,1]],[["task",[["red",["a",0,1]],["inout",["a",1,1]]],[["if",["<",["c","a",1],3],[["group",[["a",1,1]],[["task",[["red",["a",1,1]]],[["add",["c","a",1],40]]],["add",["c","a",0],5]]]],[["set",["c","a",1],9]]],["add",["c","a",0],6]]],["task",[["red",["a",0,1]],["in",["a",2,1]]],[["add",["c","a",0],["c","a",2]]]]]],["set",["c","a",2],["+",["c","a",0],["c","a",1]]]] gives 10920 orders to 3 11 [15, 42, 57]
a reader with a group in a body of an if, a writer behind it, and an if behind both: [["task",[["in",["a",0,1]],["inout",["a",2,1]]],[["if",["=",["c","a",2],["+",["c","a",0],1]],[["set",["c","a",2],8]],[["group",[],[["task",[["in",["a",0,1]],["inout",["a",2,1]]],[["set",["c","a",2],["*",["c","a",0],7]]]]]],["add",["c","a",2],1]]]]],["task",[["out",["a",0,1]]],[["set",["c","a",0],50]]],["wait"],["if",["<",["c","a",0],["c","a",2]],[],[["set",["c","a",1],["-",["c","a",0],["c","a",2]]]]]] gives 1771 orders to 3 11 [50, 42, 8]
the greatest of three: program2 [["group","max",[["a",0,1]],[["task",[["red","max",["a",0,1]]],[["fold","max",["c","a",0],9]]],["task",[["red","max",["a",0,1]]],[["fold","max",["c","a",0],4]]],["task",[["red","max",["a",0,1]]],[["fold","max",["c","a",0],12]]]]]] gives 675 orders to 3 7 [12, 2, 3]
a product past the modulus: program2 [["group","*",[["a",1,1]],[["task",[["red","*",["a",1,1]]],[["fold","*",["c","a",1],5]]],["task",[["red","*",["a",1,1]]],[["fold","*",["c","a",1],9223372036854775809]]]]]] gives 15 orders to 2 5 [1, 10, 3]
the bits of both: program2 [["group","&",[["a",2,1]],[["task",[["red","&",["a",2,1]]],[["fold","&",["c","a",2],6]]],["task",[["red","&",["a",2,1]]],[["fold","&",["c","a",2],18446744073709551614]]]]]] gives 15 orders to 2 5 [1, 2, 2]
a folder in a folder: program2 [["group","*",[["a",0,1]],[["task",[["red","*",["a",0,1]]],[["task",[["red","*",["a",0,1]]],[["fold","*",["c","a",0],4]]],["fold","*",["c","a",0],3],["wait"]]]]]] gives 6 orders to 2 6 [12, 2, 3]
a group by another operation in a body of an if, in a task that folds beside another: program2 [["group","max",[["a",0,1]],[["task",[["red","max",["a",0,1]],["inout",["a",1,1]]],[["if",["<",["c","a",1],3],[["group","*",[["a",1,1]],[["task",[["red","*",["a",1,1]]],[["fold","*",["c","a",1],40]]],["fold","max",["c","a",0],5]]]],[["set",["c","a",1],9]]],["fold","max",["c","a",0],6]]],["task",[["red","max",["a",0,1]],["in",["a",2,1]]],[["fold","max",["c","a",0],["c","a",2]]]]]],["set",["c","a",2],["+",["c","a",0],["c","a",1]]]] gives 10920 orders to 3 11 [6, 80, 86]
one of two children awaited: program2 [["task",[["out",["a",0,1]]],[["set",["c","a",0],7]]],["task",[["in",["a",0,1]],["out",["a",1,1]]],[["set",["c","a",1],["+",["c","a",0],1]]]],["wait",[["in",["a",1,1]]]],["set",["c","a",2],["c","a",1]]] gives 53 orders to 2 6 [7, 8, 8]
a wait that writes, for readers: program2 [["task",[["in",["a",0,1]],["out",["a",1,1]]],[["set",["c","a",1],["c","a",0]]]],["task",[["in",["a",0,1]],["out",["a",2,1]]],[["set",["c","a",2],["c","a",0]]]],["wait",[["out",["a",0,1]]]],["set",["c","a",0],9]] gives 168 orders to 2 6 [9, 1, 1]
two waits in a row, for one child each: program2 [["task",[["out",["a",0,1]]],[["set",["c","a",0],7]]],["task",[["out",["a",1,1]]],[["set",["c","a",1],6]]],["wait",[["in",["a",1,1]]]],["wait",[["in",["a",0,1]]]],["set",["c","a",2],["+",["c","a",0],["c","a",1]]]] gives 270 orders to 2 7 [7, 6, 13]
a child that goes on behind a wait: program2 [["task",[["out",["a",0,1]]],[["set",["c","a",0],7]]],["task",[["out",["a",1,1]]],[["set",["c","a",1],6]]],["wait",[["in",["a",0,1]]]],["set",["c","a",0],["+",["c","a",0],1]],["wait",[["inout",["a",1,1]]]],["set",["c","a",1],["+",["c","a",1],["c","a",0]]]] gives 339 orders to 2 8 [8, 14, 3]
a wait in each body of an if: program2 [["task",[["out",["a",0,1]]],[["set",["c","a",0],7]]],["task",[["out",["a",1,1]]],[["set",["c","a",1],6]]],["if",["<",["c","a",2],9],[["wait",[["in",["a",0,1]]]],["set",["c","a",2],["c","a",0]]],[["wait"]]]] gives 1119 orders to 2 7 [7, 6, 7]
a wait in a group, for a child that folds: program2 [["group","max",[["a",0,1]],[["task",[["red","max",["a",0,1]],["out",["a",1,1]]],[["fold","max",["c","a",0],9],["set",["c","a",1],4]]],["task",[["red","max",["a",0,1]]],[["fold","max",["c","a",0],4]]],["wait",[["out",["a",1,1]]]],["set",["c","a",2],["c","a",1]]]]] gives 339 orders to 2 8 [9, 4, 4]
a wait at the end of a body, in a task: program2 [["task",[["inout",["a",0,3]]],[["task",[["out",["a",0,1]]],[["set",["c","a",0],7]]],["task",[["in",["a",0,1]],["out",["a",1,1]]],[["set",["c","a",1],["+",["c","a",0],1]]]],["wait",[["in",["a",0,2]]]]]],["wait",[["in",["a",2,1]]]],["set",["c","a",2],["+",["c","a",1],["c","a",2]]]] gives 4823 orders to 3 8 [7, 8, 11]
a wait for nobody: program2 [["task",[["out",["a",0,1]]],[["set",["c","a",0],7]]],["wait",[]],["set",["c","a",1],5],["wait",[["in",["a",0,1]]]],["set",["c","a",0],["+",["c","a",0],["c","a",1]]]] gives 15 orders to 1 6 [12, 5, 3]"#;

/// Bodies in each order, of which each piece is taken by any of three workers. Those that have taken none yet are
/// alike, so that n pieces are taken in (3^(n-1) + 1) / 2 ways: the 8 of a group with three tasks in 1094 ways in each of
/// 675 orders, the 6 of one with two in 122 ways in each of 15, the 7 of a task that folds in another in 365 ways in each
/// of 6, the 4 of the third body in 14 ways in one.
const BY_THREE: &str =
    r#"a reduction past the modulus: [["group",[["a",0,1]],[["task",[["red",["a",0,1]]],[["add",["c","a",0],18446744073709551615]]],["task",[["red",["a",0,1]]],[["add",["c","a",0],1]]],["task",[["red",["a",0,1]]],[["add",["c","a",0],5]]]]]] gives 738450 orders to 3 7 [6, 2, 3]
an adder in an adder: [["group",[["a",0,1]],[["task",[["red",["a",0,1]]],[["task",[["red",["a",0,1]]],[["add",["c","a",0],4]]],["add",["c","a",0],3],["wait"]]]]]] gives 2190 orders to 2 6 [8, 2, 3]
a read behind a group: [["group",[["a",0,1]],[["task",[["red",["a",0,1]]],[["add",["c","a",0],5]]]]],["set",["c","a",1],["c","a",0]]] gives 14 orders to 1 4 [6, 6, 3]"#;

/// The same of folds by other operations.
const FOLDS_BY_THREE: &str =
    r#"the greatest of three: program2 [["group","max",[["a",0,1]],[["task",[["red","max",["a",0,1]]],[["fold","max",["c","a",0],9]]],["task",[["red","max",["a",0,1]]],[["fold","max",["c","a",0],4]]],["task",[["red","max",["a",0,1]]],[["fold","max",["c","a",0],12]]]]]] gives 738450 orders to 3 7 [12, 2, 3]
a product past the modulus: program2 [["group","*",[["a",1,1]],[["task",[["red","*",["a",1,1]]],[["fold","*",["c","a",1],5]]],["task",[["red","*",["a",1,1]]],[["fold","*",["c","a",1],9223372036854775809]]]]]] gives 1830 orders to 2 5 [1, 10, 3]
the bits of both: program2 [["group","&",[["a",2,1]],[["task",[["red","&",["a",2,1]]],[["fold","&",["c","a",2],6]]],["task",[["red","&",["a",2,1]]],[["fold","&",["c","a",2],18446744073709551614]]]]]] gives 1830 orders to 2 5 [1, 2, 2]
a folder in a folder: program2 [["group","*",[["a",0,1]],[["task",[["red","*",["a",0,1]]],[["task",[["red","*",["a",0,1]]],[["fold","*",["c","a",0],4]]],["fold","*",["c","a",0],3],["wait"]]]]]] gives 2190 orders to 2 6 [12, 2, 3]"#;

/// How many orders there are and what each leaves, or the first that leaves something else than the
/// first of all.
fn orders(alloc: Global, spec: &JobSpec, takers: Takers) -> Result<String, AllocError> {
    let mut script = Script::new(Vec::new(alloc), takers);
    let first = run(alloc, spec.copy(alloc)?, &mut script, Width::Any)?;
    for count in 1..1_000_000_u32 {
        if !script.turn()? {
            return format!(in alloc; "{count} orders to {first}");
        }
        let said = run(alloc, spec.copy(alloc)?, &mut script, Width::Any)?;
        if said.as_str() != first.as_str() {
            return format!(in alloc; "{said} behind {count} orders to {first}");
        }
    }
    String::from_str(alloc, "more orders")
}

fn orders_of(alloc: Global, body: &str, takers: Takers) -> Result<String, ProgramFault> {
    let spec = job_of(alloc, 1, body)?;
    Ok(orders(alloc, &spec, takers)?)
}

fn is_right(alloc: Global, row: &str, takers: Takers) -> bool {
    let Some((named, gives)) = row.split_once(" gives ") else {
        return false;
    };
    let (_, body) = named.split_once(": ").unwrap_or(("", ""));
    match orders_of(alloc, body, takers) {
        Ok(said) => said.as_str() == gives,
        Err(_) => false,
    }
}

/// The first row that gives something else.
fn first_other(alloc: Global, rows: &'static str, takers: Takers) -> Option<&'static str> {
    for row in rows.lines() {
        if !is_right(alloc, row, takers) {
            return Some(row);
        }
    }
    None
}

#[test]
fn each_order_leaves_the_same(rt: HostRuntime) {
    for takers in [Takers::One, Takers::InTurn(0), Takers::Beside] {
        assert_eq!(rt;
            first_other(rt.alloc(), BODIES, takers),
            None,
            "by {takers:?}"
        );
    }
}

#[test]
fn each_order_by_each_worker_leaves_the_same(rt: HostRuntime) {
    assert_eq!(rt; first_other(rt.alloc(), BY_THREE, Takers::AnyOfThree), None);
}

#[test]
fn each_order_of_folds_by_each_worker_leaves_the_same(rt: HostRuntime) {
    assert_eq!(rt;
        first_other(rt.alloc(), FOLDS_BY_THREE, Takers::AnyOfThree),
        None
    );
}
