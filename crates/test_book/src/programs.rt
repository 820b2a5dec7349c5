//! What is read of programs, and what of their copies.
use super::reading::two_arrays;
use super::table::{Asked, assert_rows};
use ot_model::Shape;
use std::alloc::{AllocError, Global};
use test_reading::read;

/// Shows and a body, over `a` of 3 cells and `b` of 5, those of a `program2` behind this word, and the program that is
/// read.
const READ: &str = r#"[],[] gives Program { shows: [], body: [], statements: 0, tasks: 0 }
[["a",0,3]],[["for","i",0,3,[["set",["c","a","i"],["*","i","i"]]]]] gives Program { shows: [Section { array: 0, start: 0, len: 3 }], body: [Set(Cell { array: 0, index: 0 }, Op(Times, Number(0), Number(0))), Set(Cell { array: 0, index: 1 }, Op(Times, Number(1), Number(1))), Set(Cell { array: 0, index: 2 }, Op(Times, Number(2), Number(2)))], statements: 3, tasks: 0 }
[],[["for","i",0,2,[["for","i",5,6,[["add",["c","a",0],"i"]]],["add",["c","a",1],"i"]]]] gives Program { shows: [], body: [Fold(Plus, Cell { array: 0, index: 0 }, Number(5)), Fold(Plus, Cell { array: 0, index: 1 }, Number(0)), Fold(Plus, Cell { array: 0, index: 0 }, Number(5)), Fold(Plus, Cell { array: 0, index: 1 }, Number(1))], statements: 4, tasks: 0 }
[],[["for","i",1,2,[["for","i","i",["+","i",1],[["add",["c","a","i"],"i"]]]]]] gives Program { shows: [], body: [Fold(Plus, Cell { array: 0, index: 1 }, Number(1))], statements: 1, tasks: 0 }
[],[["for","i",5,5,[["nonsense"]]]] gives Program { shows: [], body: [], statements: 0, tasks: 0 }
[],[["for","i",6,5,[["nonsense"]]]] gives Program { shows: [], body: [], statements: 0, tasks: 0 }
[],[["for","i",0,40000,[]]] gives Program { shows: [], body: [], statements: 0, tasks: 0 }
[],[["if",["<",["c","a",0],2],[["set",["c","a",2],9]],[["set",["c","a",2],4]]]] gives Program { shows: [], body: [If(Op(Less, Cell(Cell { array: 0, index: 0 }), Number(2)), [Set(Cell { array: 0, index: 2 }, Number(9))], [Set(Cell { array: 0, index: 2 }, Number(4))])], statements: 3, tasks: 0 }
[],[["set",["c","a",2],["pick",["a",0,3],7]]] gives Program { shows: [], body: [Set(Cell { array: 0, index: 2 }, Pick(Section { array: 0, start: 0, len: 3 }, Number(7)))], statements: 1, tasks: 0 }
[],[["task",[["out",["a",0,1]]],[["set",["c","a",0],7]]],["task",[["in",["a",0,1]],["out",["a",1,1]]],[["set",["c","a",1],["+",["c","a",0],1]]]],["wait"]] gives Program { shows: [], body: [Task(Decl { uses: [Use { cell: Cell { array: 0, index: 0 }, mode: Writes }] }, [Set(Cell { array: 0, index: 0 }, Number(7))]), Task(Decl { uses: [Use { cell: Cell { array: 0, index: 0 }, mode: Reads }, Use { cell: Cell { array: 0, index: 1 }, mode: Writes }] }, [Set(Cell { array: 0, index: 1 }, Op(Plus, Cell(Cell { array: 0, index: 0 }), Number(1)))]), Wait(None)], statements: 5, tasks: 2 }
[],[["group",[["a",1,2],["a",0,1]],[["wait"]]],["wait"]] gives Program { shows: [], body: [Group(Plus, [Cell { array: 0, index: 1 }, Cell { array: 0, index: 2 }, Cell { array: 0, index: 0 }], [Wait(None)]), Wait(None)], statements: 3, tasks: 0 }
[["b",0,5],["a",1,2]],[["set",["c","b",4],["-",["c","a",0],18446744073709551615]],["set",["c","a",2],["c","b",4]],["set",["c","a",2],7]] gives Program { shows: [Section { array: 1, start: 0, len: 5 }, Section { array: 0, start: 1, len: 2 }], body: [Set(Cell { array: 1, index: 4 }, Op(Minus, Cell(Cell { array: 0, index: 0 }), Number(18446744073709551615))), Set(Cell { array: 0, index: 2 }, Cell(Cell { array: 1, index: 4 })), Set(Cell { array: 0, index: 2 }, Number(7))], statements: 3, tasks: 0 }
[],[["set",["c","b",0],["+",1,2]]] gives Program { shows: [], body: [Set(Cell { array: 1, index: 0 }, Op(Plus, Number(1), Number(2)))], statements: 1, tasks: 0 }
[],[["set",["c","b",0],["-",1,2]]] gives Program { shows: [], body: [Set(Cell { array: 1, index: 0 }, Op(Minus, Number(1), Number(2)))], statements: 1, tasks: 0 }
[],[["set",["c","b",0],["*",1,2]]] gives Program { shows: [], body: [Set(Cell { array: 1, index: 0 }, Op(Times, Number(1), Number(2)))], statements: 1, tasks: 0 }
[],[["set",["c","b",0],["&",1,2]]] gives Program { shows: [], body: [Set(Cell { array: 1, index: 0 }, Op(And, Number(1), Number(2)))], statements: 1, tasks: 0 }
[],[["set",["c","b",0],["|",1,2]]] gives Program { shows: [], body: [Set(Cell { array: 1, index: 0 }, Op(Or, Number(1), Number(2)))], statements: 1, tasks: 0 }
[],[["set",["c","b",0],["^",1,2]]] gives Program { shows: [], body: [Set(Cell { array: 1, index: 0 }, Op(Xor, Number(1), Number(2)))], statements: 1, tasks: 0 }
[],[["set",["c","b",0],["<",1,2]]] gives Program { shows: [], body: [Set(Cell { array: 1, index: 0 }, Op(Less, Number(1), Number(2)))], statements: 1, tasks: 0 }
[],[["set",["c","b",0],["=",1,2]]] gives Program { shows: [], body: [Set(Cell { array: 1, index: 0 }, Op(Equal, Number(1), Number(2)))], statements: 1, tasks: 0 }
[],[["set",["c","b",0],["min",1,2]]] gives Program { shows: [], body: [Set(Cell { array: 1, index: 0 }, Op(Min, Number(1), Number(2)))], statements: 1, tasks: 0 }
[],[["set",["c","b",0],["max",1,2]]] gives Program { shows: [], body: [Set(Cell { array: 1, index: 0 }, Op(Max, Number(1), Number(2)))], statements: 1, tasks: 0 }
[],[["task",[],[]]] gives Program { shows: [], body: [Task(Decl { uses: [] }, [])], statements: 1, tasks: 1 }
[],[["group",[],[]]] gives Program { shows: [], body: [Group(Plus, [], [])], statements: 1, tasks: 0 }
[["a",0,3]],[["set",["c","a",0],["pick",["a",0,3],["+",["c","a",1],7]]]] gives Program { shows: [Section { array: 0, start: 0, len: 3 }], body: [Set(Cell { array: 0, index: 0 }, Pick(Section { array: 0, start: 0, len: 3 }, Op(Plus, Cell(Cell { array: 0, index: 1 }), Number(7))))], statements: 1, tasks: 0 }
[["a",0,3]],[["if",5,[["group",[["a",0,1]],[["task",[["red",["a",0,1]]],[["add",["c","a",0],18446744073709551615]]]]],["wait"]],[["set",["c","a",1],9]]],["add",["c","a",2],["c","a",1]]] gives Program { shows: [Section { array: 0, start: 0, len: 3 }], body: [If(Number(5), [Group(Plus, [Cell { array: 0, index: 0 }], [Task(Decl { uses: [Use { cell: Cell { array: 0, index: 0 }, mode: Folds(Plus) }] }, [Fold(Plus, Cell { array: 0, index: 0 }, Number(18446744073709551615))])]), Wait(None)], [Set(Cell { array: 0, index: 1 }, Number(9))]), Fold(Plus, Cell { array: 0, index: 2 }, Cell(Cell { array: 0, index: 1 }))], statements: 7, tasks: 1 }
program2 [],[["fold","max",["c","a",2],9],["fold","*",["c","b",4],["c","a",0]]] gives Program { shows: [], body: [Fold(Max, Cell { array: 0, index: 2 }, Number(9)), Fold(Times, Cell { array: 1, index: 4 }, Cell(Cell { array: 0, index: 0 }))], statements: 2, tasks: 0 }
program2 [],[["fold","&",["c","a",0],1],["fold","|",["c","a",0],2],["fold","^",["c","a",0],3],["fold","min",["c","a",0],4]] gives Program { shows: [], body: [Fold(And, Cell { array: 0, index: 0 }, Number(1)), Fold(Or, Cell { array: 0, index: 0 }, Number(2)), Fold(Xor, Cell { array: 0, index: 0 }, Number(3)), Fold(Min, Cell { array: 0, index: 0 }, Number(4))], statements: 4, tasks: 0 }
program2 [],[["add",["c","a",0],5],["fold","+",["c","a",0],5]] gives Program { shows: [], body: [Fold(Plus, Cell { array: 0, index: 0 }, Number(5)), Fold(Plus, Cell { array: 0, index: 0 }, Number(5))], statements: 2, tasks: 0 }
program2 [],[["group","min",[["a",1,2]],[["wait"]]]] gives Program { shows: [], body: [Group(Min, [Cell { array: 0, index: 1 }, Cell { array: 0, index: 2 }], [Wait(None)])], statements: 2, tasks: 0 }
program2 [],[["wait",[["in",["a",0,2]],["out",["a",1,1]]]],["wait",[["inout",["a",2,1]]]],["wait",[]]] gives Program { shows: [], body: [Wait(Some(Decl { uses: [Use { cell: Cell { array: 0, index: 0 }, mode: Reads }, Use { cell: Cell { array: 0, index: 1 }, mode: Writes }] })), Wait(Some(Decl { uses: [Use { cell: Cell { array: 0, index: 2 }, mode: Writes }] })), Wait(Some(Decl { uses: [] }))], statements: 3, tasks: 0 }"#;

/// What is read, printed.
pub(crate) fn printed(alloc: Global, text: &str, shape: &Shape) -> Result<String, AllocError> {
    match read(alloc, text, shape) {
        Ok(program) => format!(in alloc; "{program:?}"),
        Err(fault) => format!(in alloc; "{fault:?}"),
    }
}

/// A copy of what is read, printed.
pub(crate) fn printed_copy(alloc: Global, text: &str, shape: &Shape) -> Result<String, AllocError> {
    match read(alloc, text, shape) {
        Ok(program) => {
            let copy = program.copy(alloc)?;
            format!(in alloc; "{copy:?}")
        }
        Err(fault) => format!(in alloc; "{fault:?}"),
    }
}

#[test]
fn what_is_read_of_programs(rt: HostRuntime) {
    assert_rows(&rt, rt.alloc(), Asked::Program, [3, 5, 4], READ);
}

#[test]
fn copies_are_as_their_originals(rt: HostRuntime) {
    assert_rows(&rt, rt.alloc(), Asked::Copy, [3, 5, 4], READ);
}

/// What a shape is told to have.
fn shown(alloc: Global) -> Result<String, AllocError> {
    let shape = two_arrays(alloc, 3, 5, 4)?;
    format!(in alloc; "{:?} {}", shape.arrays(), shape.tasks())
}

#[test]
fn a_shape_keeps_its_arrays_and_its_limit(rt: HostRuntime) {
    match shown(rt.alloc()) {
        Ok(text) => assert_eq!(rt;
            text.as_str(),
            "[ArrayShape { name: \"a\", len: 3 }, ArrayShape { name: \"b\", len: 5 }] 4"
        ),
        Err(_) => panic!(rt; "no memory"),
    }
}
