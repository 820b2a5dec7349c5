//! What tasks declare, and what two declarations are to each other.
use super::table::{Asked, assert_rows};
use ot_depend::Siblings;
use ot_model::{Decl, Shape, Stmt};
use std::alloc::{AllocError, Global};
use std::sync::Arc;
use test_reading::read;

/// A task over `a` and `b` of 9 cells each, and what is read of it: its cells in order, each with one
/// mode.
const DECLARED: &str =
    r#"[],[["task",[],[]]] gives Program { shows: [], body: [Task(Decl { uses: [] }, [])], statements: 1, tasks: 1 }
[],[["task",[["in",["a",2,1]]],[]]] gives Program { shows: [], body: [Task(Decl { uses: [Use { cell: Cell { array: 0, index: 2 }, mode: Reads }] }, [])], statements: 1, tasks: 1 }
[],[["task",[["out",["a",2,1]]],[]]] gives Program { shows: [], body: [Task(Decl { uses: [Use { cell: Cell { array: 0, index: 2 }, mode: Writes }] }, [])], statements: 1, tasks: 1 }
[],[["task",[["inout",["a",2,1]]],[]]] gives Program { shows: [], body: [Task(Decl { uses: [Use { cell: Cell { array: 0, index: 2 }, mode: Writes }] }, [])], statements: 1, tasks: 1 }
[],[["task",[["red",["a",2,1]]],[]]] gives Program { shows: [], body: [Task(Decl { uses: [Use { cell: Cell { array: 0, index: 2 }, mode: Folds(Plus) }] }, [])], statements: 1, tasks: 1 }
[],[["task",[["in",["a",2,1]],["in",["a",2,1]]],[]]] gives Program { shows: [], body: [Task(Decl { uses: [Use { cell: Cell { array: 0, index: 2 }, mode: Reads }] }, [])], statements: 1, tasks: 1 }
[],[["task",[["in",["a",2,1]],["out",["a",2,1]]],[]]] gives Program { shows: [], body: [Task(Decl { uses: [Use { cell: Cell { array: 0, index: 2 }, mode: Writes }] }, [])], statements: 1, tasks: 1 }
[],[["task",[["out",["a",2,1]],["in",["a",2,1]]],[]]] gives Program { shows: [], body: [Task(Decl { uses: [Use { cell: Cell { array: 0, index: 2 }, mode: Writes }] }, [])], statements: 1, tasks: 1 }
[],[["task",[["inout",["a",2,1]],["out",["a",2,1]]],[]]] gives Program { shows: [], body: [Task(Decl { uses: [Use { cell: Cell { array: 0, index: 2 }, mode: Writes }] }, [])], statements: 1, tasks: 1 }
[],[["task",[["red",["a",2,1]],["red",["a",2,1]]],[]]] gives Program { shows: [], body: [Task(Decl { uses: [Use { cell: Cell { array: 0, index: 2 }, mode: Folds(Plus) }] }, [])], statements: 1, tasks: 1 }
[],[["task",[["in",["a",2,3]],["out",["a",3,1]]],[]]] gives Program { shows: [], body: [Task(Decl { uses: [Use { cell: Cell { array: 0, index: 2 }, mode: Reads }, Use { cell: Cell { array: 0, index: 3 }, mode: Writes }, Use { cell: Cell { array: 0, index: 4 }, mode: Reads }] }, [])], statements: 1, tasks: 1 }
[],[["task",[["out",["a",3,2]],["in",["a",1,3]]],[]]] gives Program { shows: [], body: [Task(Decl { uses: [Use { cell: Cell { array: 0, index: 1 }, mode: Reads }, Use { cell: Cell { array: 0, index: 2 }, mode: Reads }, Use { cell: Cell { array: 0, index: 3 }, mode: Writes }, Use { cell: Cell { array: 0, index: 4 }, mode: Writes }] }, [])], statements: 1, tasks: 1 }
[],[["task",[["red",["b",0,1]],["in",["a",8,1]]],[]]] gives Program { shows: [], body: [Task(Decl { uses: [Use { cell: Cell { array: 0, index: 8 }, mode: Reads }, Use { cell: Cell { array: 1, index: 0 }, mode: Folds(Plus) }] }, [])], statements: 1, tasks: 1 }
[],[["task",[["red",["a",4,2]],["in",["a",2,2]],["red",["a",5,2]]],[]]] gives Program { shows: [], body: [Task(Decl { uses: [Use { cell: Cell { array: 0, index: 2 }, mode: Reads }, Use { cell: Cell { array: 0, index: 3 }, mode: Reads }, Use { cell: Cell { array: 0, index: 4 }, mode: Folds(Plus) }, Use { cell: Cell { array: 0, index: 5 }, mode: Folds(Plus) }, Use { cell: Cell { array: 0, index: 6 }, mode: Folds(Plus) }] }, [])], statements: 1, tasks: 1 }
[],[["task",[["in",["a",0,1]],["red",["a",0,1]]],[]]] gives Refused(MixedReduction)
[],[["task",[["red",["a",0,1]],["in",["a",0,1]]],[]]] gives Refused(MixedReduction)
[],[["task",[["red",["a",0,1]],["out",["a",0,1]]],[]]] gives Refused(MixedReduction)
[],[["task",[["red",["a",0,1]],["inout",["a",0,1]]],[]]] gives Refused(MixedReduction)
[],[["task",[["in",["a",0,1]],["red",["a",0,1]],["in",["a",0,1]]],[]]] gives Refused(MixedReduction)
[],[["task",[["red",["a",0,3]],["in",["a",2,3]]],[]]] gives Refused(MixedReduction)
[],[["task",[["red",["a",0,2]],["in",["a",2,3]]],[]]] gives Program { shows: [], body: [Task(Decl { uses: [Use { cell: Cell { array: 0, index: 0 }, mode: Folds(Plus) }, Use { cell: Cell { array: 0, index: 1 }, mode: Folds(Plus) }, Use { cell: Cell { array: 0, index: 2 }, mode: Reads }, Use { cell: Cell { array: 0, index: 3 }, mode: Reads }, Use { cell: Cell { array: 0, index: 4 }, mode: Reads }] }, [])], statements: 1, tasks: 1 }
[],[["task",[["red",["a",0,1]],["in",["b",0,1]]],[]]] gives Program { shows: [], body: [Task(Decl { uses: [Use { cell: Cell { array: 0, index: 0 }, mode: Folds(Plus) }, Use { cell: Cell { array: 1, index: 0 }, mode: Reads }] }, [])], statements: 1, tasks: 1 }
program2 [],[["task",[["red","max",["a",2,1]],["red","&",["a",1,1]]],[]]] gives Program { shows: [], body: [Task(Decl { uses: [Use { cell: Cell { array: 0, index: 1 }, mode: Folds(And) }, Use { cell: Cell { array: 0, index: 2 }, mode: Folds(Max) }] }, [])], statements: 1, tasks: 1 }
program2 [],[["task",[["red","max",["a",2,1]],["red","max",["a",2,1]]],[]]] gives Program { shows: [], body: [Task(Decl { uses: [Use { cell: Cell { array: 0, index: 2 }, mode: Folds(Max) }] }, [])], statements: 1, tasks: 1 }
program2 [],[["task",[["red","max",["a",2,1]],["red","min",["a",2,1]]],[]]] gives Refused(MixedReduction)
program2 [],[["task",[["red","^",["a",2,2]],["in",["a",1,2]]],[]]] gives Refused(MixedReduction)"#;

#[test]
fn a_cell_is_declared_once(rt: HostRuntime) {
    assert_rows(&rt, rt.alloc(), Asked::Program, [9, 9, 4], DECLARED);
}

/// Two tasks over the same arrays: whether the second depends on the first, whether they conflict, and
/// whether the second is ready before the first has finished.
const PAIRS: &str =
    r#"[],[["task",[["in",["a",0,1]]],[]],["task",[["in",["a",0,1]]],[]]] gives false false true
[],[["task",[["in",["a",0,1]]],[]],["task",[["out",["a",0,1]]],[]]] gives true true false
[],[["task",[["out",["a",0,1]]],[]],["task",[["in",["a",0,1]]],[]]] gives true true false
[],[["task",[["out",["a",0,1]]],[]],["task",[["out",["a",1,1]]],[]]] gives false false true
[],[["task",[["in",["a",0,1]]],[]],["task",[["red",["a",0,1]]],[]]] gives false true true
[],[["task",[["red",["a",0,1]]],[]],["task",[["red",["a",0,1]]],[]]] gives false false true
[],[["task",[["red",["a",0,1]]],[]],["task",[["out",["a",0,1]]],[]]] gives true true false
[],[["task",[],[]],["task",[["out",["a",0,9]]],[]]] gives false false true
[],[["task",[["out",["a",0,9]]],[]],["task",[],[]]] gives false false true
[],[["task",[["out",["a",3,1]]],[]],["task",[["out",["b",3,1]]],[]]] gives false false true
[],[["task",[["in",["a",0,4]],["out",["b",8,1]]],[]],["task",[["in",["a",2,7]],["in",["b",8,1]]],[]]] gives true true false
[],[["task",[["in",["a",0,9]],["red",["b",8,1]]],[]],["task",[["out",["b",0,8]],["in",["a",4,1]]],[]]] gives false false true
program2 [],[["task",[["red","max",["a",0,1]]],[]],["task",[["red","max",["a",0,1]]],[]]] gives false false true
program2 [],[["task",[["red","max",["a",0,1]]],[]],["task",[["red","min",["a",0,1]]],[]]] gives false true true
program2 [],[["task",[["red","*",["a",0,2]]],[]],["task",[["red","*",["a",0,1]],["red","&",["a",1,1]]],[]]] gives false true true"#;

/// The same of tasks that name all cells of `a` or `b`, of 65,536 cells each.
const LONG_PAIRS: &str =
    r#"[],[["task",[["in",["a",0,65536]]],[]],["task",[["in",["a",0,65536]]],[]]] gives false false true
[],[["task",[["in",["a",0,65536]]],[]],["task",[["in",["a",0,65535]],["out",["a",65535,1]]],[]]] gives true true false
[],[["task",[["out",["a",0,65536]]],[]],["task",[["out",["b",0,65536]]],[]]] gives false false true
[],[["task",[["out",["b",0,65536]]],[]],["task",[["out",["a",0,65536]]],[]]] gives false false true"#;

/// What two tasks are to each other.
pub(crate) fn met(alloc: Global, text: &str, shape: &Shape) -> Result<String, AllocError> {
    match read(alloc, text, shape) {
        Ok(program) => said_of_two(alloc, program.body.as_slice()),
        Err(fault) => format!(in alloc; "{fault:?}"),
    }
}

fn said_of_two(alloc: Global, body: &[Stmt]) -> Result<String, AllocError> {
    let [Stmt::Task(earlier, _), Stmt::Task(later, _)] = body else {
        return String::from_str(alloc, "not two tasks");
    };
    let ready = is_ready_behind(alloc, earlier, later)?;
    let (depends, conflicts) = (later.depends_on(earlier), later.conflicts(earlier));
    format!(in alloc; "{depends} {conflicts} {ready}")
}

/// Whether the second of two children is ready.
fn is_ready_behind(alloc: Global, earlier: &Decl, later: &Decl) -> Result<bool, AllocError> {
    let mut siblings = Siblings::new(alloc);
    let _ = siblings.add(alloc, Arc::new(alloc, earlier.copy(alloc)?)?, &[])?;
    let second = siblings.add(alloc, Arc::new(alloc, later.copy(alloc)?)?, &[])?;
    Ok(siblings.ready(second))
}

#[test]
fn declarations_meet_where_they_share_a_cell(rt: HostRuntime) {
    assert_rows(&rt, rt.alloc(), Asked::Pair, [9, 9, 4], PAIRS);
}

/// It ends in a moment.
#[test]
fn long_declarations_meet_as_fast_as_they_are_read(rt: HostRuntime) {
    assert_rows(&rt, rt.alloc(), Asked::Pair, [65536, 65536, 4], LONG_PAIRS);
}
