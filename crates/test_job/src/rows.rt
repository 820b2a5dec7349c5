//! What bodies leave, by whomever their moves are chosen.
use super::choosers::Ends;
use super::driving::{Width, run};
use ot_program::ProgramFault;
use std::alloc::{AllocError, Global};
use test_reading::job_of;

/// Bodies by what they are, over 1, 2, 3: the executed task statements, the units and the cells.
const BODIES: &str =
    r#"read after write: [["task",[["out",["a",0,1]]],[["set",["c","a",0],7]]],["task",[["in",["a",0,1]],["out",["a",1,1]]],[["set",["c","a",1],["+",["c","a",0],1]]]],["wait"]] gives 2 5 [7, 8, 3]
write after read: [["task",[["in",["a",0,1]],["out",["a",1,1]]],[["set",["c","a",1],["+",["c","a",0],1]]]],["task",[["out",["a",0,1]]],[["set",["c","a",0],9]]],["wait"]] gives 2 5 [9, 2, 3]
a reduction past the modulus: [["group",[["a",0,1]],[["task",[["red",["a",0,1]]],[["add",["c","a",0],18446744073709551615]]],["task",[["red",["a",0,1]]],[["add",["c","a",0],1]]],["task",[["red",["a",0,1]]],[["add",["c","a",0],5]]]]]] gives 3 7 [6, 2, 3]
tasks in a task, and the end of the job: [["task",[["inout",["a",0,3]]],[["task",[["out",["a",0,1]]],[["set",["c","a",0],4]]],["task",[["out",["a",1,1]]],[["set",["c","a",1],5]]],["wait"],["set",["c","a",2],["+",["c","a",0],["c","a",1]]]]]] gives 3 7 [4, 5, 9]
overlapping sections: [["task",[["inout",["a",0,2]]],[["set",["c","a",1],6]]],["task",[["inout",["a",1,2]]],[["set",["c","a",2],["*",["c","a",1],10]]]]] gives 2 4 [1, 6, 60]
an adder in an adder: [["group",[["a",0,1]],[["task",[["red",["a",0,1]]],[["task",[["red",["a",0,1]]],[["add",["c","a",0],4]]],["add",["c","a",0],3],["wait"]]]]]] gives 2 6 [8, 2, 3]
a read behind a group: [["group",[["a",0,1]],[["task",[["red",["a",0,1]]],[["add",["c","a",0],5]]]]],["set",["c","a",1],["c","a",0]]] gives 1 4 [6, 6, 3]
the empty program: [] gives 0 0 [1, 2, 3]
a difference below zero: [["set",["c","a",0],["-",["c","a",0],2]]] gives 0 1 [18446744073709551615, 2, 3]
a pick behind the end: [["set",["c","a",2],["pick",["a",0,3],7]]] gives 0 1 [1, 2, 2]
the first body of a condition: [["if",["<",["c","a",0],2],[["set",["c","a",2],9]],[["set",["c","a",2],4]]]] gives 0 2 [1, 2, 9]
the greatest of three: program2 [["group","max",[["a",0,1]],[["task",[["red","max",["a",0,1]]],[["fold","max",["c","a",0],9]]],["task",[["red","max",["a",0,1]]],[["fold","max",["c","a",0],4]]],["task",[["red","max",["a",0,1]]],[["fold","max",["c","a",0],12]]]]]] gives 3 7 [12, 2, 3]
a product past the modulus: program2 [["group","*",[["a",1,1]],[["task",[["red","*",["a",1,1]]],[["fold","*",["c","a",1],5]]],["task",[["red","*",["a",1,1]]],[["fold","*",["c","a",1],9223372036854775809]]]]]] gives 2 5 [1, 10, 3]
the bits of both: program2 [["group","&",[["a",2,1]],[["task",[["red","&",["a",2,1]]],[["fold","&",["c","a",2],6]]],["task",[["red","&",["a",2,1]]],[["fold","&",["c","a",2],18446744073709551614]]]]]] gives 2 5 [1, 2, 2]
the bits of any: program2 [["group","|",[["a",2,1]],[["task",[["red","|",["a",2,1]]],[["fold","|",["c","a",2],4]]],["task",[["red","|",["a",2,1]]],[["fold","|",["c","a",2],24]]]]]] gives 2 5 [1, 2, 31]
the bits of one: program2 [["group","^",[["a",2,1]],[["task",[["red","^",["a",2,1]]],[["fold","^",["c","a",2],6]]],["task",[["red","^",["a",2,1]]],[["fold","^",["c","a",2],18446744073709551615]]]]]] gives 2 5 [1, 2, 18446744073709551610]
the least, which is the cell's own: program2 [["group","min",[["a",2,1]],[["task",[["red","min",["a",2,1]]],[["fold","min",["c","a",2],4]]],["task",[["red","min",["a",2,1]]],[["fold","min",["c","a",2],18446744073709551615]]]]]] gives 2 5 [1, 2, 3]
a sum beside an addition: program2 [["group","+",[["a",0,1]],[["task",[["red","+",["a",0,1]]],[["fold","+",["c","a",0],18446744073709551615]]],["task",[["red","+",["a",0,1]]],[["add",["c","a",0],6]]]]]] gives 2 5 [6, 2, 3]
tasks that fold nothing, by each operation: program2 [["group","*",[["a",0,1]],[["task",[["red","*",["a",0,1]]],[]]]],["group","&",[["a",0,2]],[["task",[["red","&",["a",0,2]]],[]]]],["group","min",[["a",0,3]],[["task",[["red","min",["a",0,3]]],[]]]],["group","max",[["a",0,3]],[["task",[["red","max",["a",0,3]]],[]]]],["group","|",[["a",0,3]],[["task",[["red","|",["a",0,3]]],[]]]],["group","^",[["a",0,3]],[["task",[["red","^",["a",0,3]]],[]]]],["group","+",[["a",0,3]],[["task",[["red","+",["a",0,3]]],[]]]]] gives 7 14 [1, 2, 3]
two operations on two cells: program2 [["group","max",[["a",0,1]],[["group","*",[["a",1,1]],[["task",[["red","max",["a",0,1]],["red","*",["a",1,1]]],[["fold","max",["c","a",0],9],["fold","*",["c","a",1],3]]],["task",[["red","*",["a",1,1]],["red","max",["a",0,1]]],[["fold","max",["c","a",0],8],["fold","*",["c","a",1],4]]]]],["task",[["red","max",["a",0,1]]],[["fold","max",["c","a",0],11]]]]]] gives 3 10 [11, 24, 3]
a folder in a folder: program2 [["group","*",[["a",0,1]],[["task",[["red","*",["a",0,1]]],[["task",[["red","*",["a",0,1]]],[["fold","*",["c","a",0],4]]],["fold","*",["c","a",0],3],["wait"]]]]]] gives 2 6 [12, 2, 3]
folds by each operation on what is declared for writing: program2 [["task",[["inout",["a",0,3]]],[["fold","*",["c","a",0],9],["fold","&",["c","a",1],6],["fold","|",["c","a",2],4],["fold","^",["c","a",0],1],["fold","min",["c","a",1],1],["fold","max",["c","a",2],8],["fold","+",["c","a",1],["c","a",2]]]]] gives 1 8 [8, 9, 8]
one cell in groups by two operations: program2 [["group","*",[["a",0,1]],[["task",[["red","*",["a",0,1]]],[["fold","*",["c","a",0],5]]]]],["group","max",[["a",0,1]],[["task",[["red","max",["a",0,1]]],[["fold","max",["c","a",0],4]]],["task",[["red","max",["a",0,1]]],[["fold","max",["c","a",0],6]]]]],["set",["c","a",1],["c","a",0]]] gives 3 9 [6, 6, 3]
one of two children awaited: program2 [["task",[["out",["a",0,1]]],[["set",["c","a",0],7]]],["task",[["in",["a",0,1]],["out",["a",1,1]]],[["set",["c","a",1],["+",["c","a",0],1]]]],["wait",[["in",["a",1,1]]]],["set",["c","a",2],["c","a",1]]] gives 2 6 [7, 8, 8]
a wait that writes, for readers: program2 [["task",[["in",["a",0,1]],["out",["a",1,1]]],[["set",["c","a",1],["c","a",0]]]],["task",[["in",["a",0,1]],["out",["a",2,1]]],[["set",["c","a",2],["c","a",0]]]],["wait",[["out",["a",0,1]]]],["set",["c","a",0],9]] gives 2 6 [9, 1, 1]
two waits in a row, for one child each: program2 [["task",[["out",["a",0,1]]],[["set",["c","a",0],7]]],["task",[["out",["a",1,1]]],[["set",["c","a",1],6]]],["wait",[["in",["a",1,1]]]],["wait",[["in",["a",0,1]]]],["set",["c","a",2],["+",["c","a",0],["c","a",1]]]] gives 2 7 [7, 6, 13]
a child that goes on behind a wait: program2 [["task",[["out",["a",0,1]]],[["set",["c","a",0],7]]],["task",[["out",["a",1,1]]],[["set",["c","a",1],6]]],["wait",[["in",["a",0,1]]]],["set",["c","a",0],["+",["c","a",0],1]],["wait",[["inout",["a",1,1]]]],["set",["c","a",1],["+",["c","a",1],["c","a",0]]]] gives 2 8 [8, 14, 3]
a wait in each body of an if: program2 [["task",[["out",["a",0,1]]],[["set",["c","a",0],7]]],["task",[["out",["a",1,1]]],[["set",["c","a",1],6]]],["if",["<",["c","a",2],9],[["wait",[["in",["a",0,1]]]],["set",["c","a",2],["c","a",0]]],[["wait"]]]] gives 2 7 [7, 6, 7]
a wait in a group, for a child that folds: program2 [["group","max",[["a",0,1]],[["task",[["red","max",["a",0,1]],["out",["a",1,1]]],[["fold","max",["c","a",0],9],["set",["c","a",1],4]]],["task",[["red","max",["a",0,1]]],[["fold","max",["c","a",0],4]]],["wait",[["out",["a",1,1]]]],["set",["c","a",2],["c","a",1]]]]] gives 2 8 [9, 4, 4]
a wait at the end of a body, in a task: program2 [["task",[["inout",["a",0,3]]],[["task",[["out",["a",0,1]]],[["set",["c","a",0],7]]],["task",[["in",["a",0,1]],["out",["a",1,1]]],[["set",["c","a",1],["+",["c","a",0],1]]]],["wait",[["in",["a",0,2]]]]]],["wait",[["in",["a",2,1]]]],["set",["c","a",2],["+",["c","a",1],["c","a",2]]]] gives 3 8 [7, 8, 11]
a wait for nobody: program2 [["task",[["out",["a",0,1]]],[["set",["c","a",0],7]]],["wait",[]],["set",["c","a",1],5],["wait",[["in",["a",0,1]]]],["set",["c","a",0],["+",["c","a",0],["c","a",1]]]] gives 1 6 [12, 5, 3]
waits in tasks three deep: program2 [["task",[["inout",["a",0,3]]],[["task",[["inout",["a",0,2]]],[["task",[["out",["a",0,1]]],[["set",["c","a",0],7]]],["task",[["in",["a",0,1]],["out",["a",1,1]]],[["set",["c","a",1],["c","a",0]]]],["wait",[["in",["a",1,1]]]],["set",["c","a",1],["+",["c","a",1],1]],["wait",[["in",["a",0,1]]]]]],["wait",[["out",["a",0,1]]]],["set",["c","a",2],["+",["c","a",0],["c","a",1]]]]]] gives 4 11 [7, 8, 15]"#;

/// What is left of the body of a row.
fn left(alloc: Global, body: &str, mut ends: Ends, width: Width) -> Result<String, ProgramFault> {
    let spec = job_of(alloc, 1, body)?;
    Ok(run(alloc, spec, &mut ends, width)?)
}

fn is_right(alloc: Global, row: &str, ends: Ends, width: Width) -> bool {
    let Some((named, gives)) = row.split_once(" gives ") else {
        return false;
    };
    let (_, body) = named.split_once(": ").unwrap_or(("", ""));
    match left(alloc, body, ends, width) {
        Ok(said) => said.as_str() == gives,
        Err(_) => false,
    }
}

/// The first row that leaves something else than it gives.
fn first_other(alloc: Global, ends: Ends, width: Width) -> Option<&'static str> {
    for row in BODIES.lines() {
        if !is_right(alloc, row, ends, width) {
            return Some(row);
        }
    }
    None
}

const CHOOSERS: [(Ends, Width); 6] = [
    (Ends::First, Width::One),
    (Ends::Last, Width::One),
    (Ends::FirstInTurn, Width::One),
    (Ends::First, Width::All),
    (Ends::Last, Width::All),
    (Ends::FirstInTurn, Width::All),
];

#[test]
fn bodies_leave_what_they_mean(rt: HostRuntime) {
    for (ends, width) in CHOOSERS {
        assert_eq!(rt;
            first_other(rt.alloc(), ends, width),
            None,
            "by {ends:?} {width:?}"
        );
    }
}
