//! Whom a wait that declares cells awaits.
use super::table::{Asked, assert_rows};
use ot_depend::Siblings;
use ot_model::{Decl, Shape, Stmt};
use std::alloc::{AllocError, Global};
use std::sync::Arc;
use test_reading::read;

/// Tasks over `a` and `b` of 9 cells each, and before them a mark for each but the last: `x` where it
/// has finished. The last declares what a wait behind the others does. Whether that wait has to wait,
/// how many of the others have not finished, and the place of its first cell at which it has to wait, or how many
/// cells it has: of all of them, or of those from a place on that stands behind the marks.
const AWAITING: &str = r#"none of [],[["task",[["inout",["a",0,9]]],[]]] gives false 0 9
- of [],[["task",[["in",["a",0,1]]],[]],["task",[["in",["a",0,1]]],[]]] gives false 1 1
- of [],[["task",[["in",["a",0,1]]],[]],["task",[["out",["a",0,1]]],[]]] gives true 1 0
- of [],[["task",[["in",["a",0,1]]],[]],["task",[["inout",["a",0,1]]],[]]] gives true 1 0
- of [],[["task",[["out",["a",0,1]]],[]],["task",[["in",["a",0,1]]],[]]] gives true 1 0
- of [],[["task",[["out",["a",0,1]]],[]],["task",[["out",["a",0,1]]],[]]] gives true 1 0
- of [],[["task",[["inout",["a",0,1]]],[]],["task",[["in",["a",0,1]]],[]]] gives true 1 0
- of [],[["task",[["inout",["a",0,1]]],[]],["task",[["inout",["a",0,1]]],[]]] gives true 1 0
- of [],[["task",[["red",["a",0,1]]],[]],["task",[["in",["a",0,1]]],[]]] gives false 1 1
- of [],[["task",[["red",["a",0,1]]],[]],["task",[["out",["a",0,1]]],[]]] gives true 1 0
- of [],[["task",[["red",["a",0,1]]],[]],["task",[["inout",["a",0,1]]],[]]] gives true 1 0
x of [],[["task",[["in",["a",0,1]]],[]],["task",[["out",["a",0,1]]],[]]] gives false 0 1
x of [],[["task",[["out",["a",0,1]]],[]],["task",[["in",["a",0,1]]],[]]] gives false 0 1
x of [],[["task",[["inout",["a",0,1]]],[]],["task",[["inout",["a",0,1]]],[]]] gives false 0 1
x of [],[["task",[["red",["a",0,1]]],[]],["task",[["out",["a",0,1]]],[]]] gives false 0 1
- of [],[["task",[],[]],["task",[["inout",["a",0,9]]],[]]] gives false 1 9
- of [],[["task",[["inout",["a",0,9]]],[]],["task",[],[]]] gives false 1 0
- of [],[["task",[["out",["a",0,1]]],[]],["task",[["out",["a",1,1]]],[]]] gives false 1 1
- of [],[["task",[["out",["a",0,1]]],[]],["task",[["out",["b",0,1]]],[]]] gives false 1 1
- of [],[["task",[["out",["a",0,4]]],[]],["task",[["in",["a",3,2]]],[]]] gives true 1 0
- of [],[["task",[["out",["a",0,4]]],[]],["task",[["in",["a",4,2]]],[]]] gives false 1 2
- of [],[["task",[["in",["a",0,1]],["out",["b",8,1]]],[]],["task",[["in",["a",0,1]],["in",["b",8,1]]],[]]] gives true 1 1
- of [],[["task",[["in",["a",0,1]],["out",["b",8,1]]],[]],["task",[["in",["a",0,1]],["in",["b",7,1]]],[]]] gives false 1 2
- of [],[["task",[["in",["a",0,9]]],[]],["task",[["in",["a",0,8]],["out",["a",8,1]]],[]]] gives true 1 8
-- of [],[["task",[["in",["a",0,1]]],[]],["task",[["out",["a",0,1]]],[]],["task",[["in",["a",0,1]]],[]]] gives true 2 0
x- of [],[["task",[["in",["a",0,1]]],[]],["task",[["out",["a",0,1]]],[]],["task",[["in",["a",0,1]]],[]]] gives true 1 0
xx of [],[["task",[["in",["a",0,1]]],[]],["task",[["out",["a",0,1]]],[]],["task",[["out",["a",0,1]]],[]]] gives false 0 1
-x of [],[["task",[["in",["a",0,1]]],[]],["task",[["in",["a",0,1]]],[]],["task",[["out",["a",0,1]]],[]]] gives true 1 0
x- of [],[["task",[["in",["a",0,1]]],[]],["task",[["in",["a",0,1]]],[]],["task",[["out",["a",0,1]]],[]]] gives true 1 0
xx of [],[["task",[["in",["a",0,1]]],[]],["task",[["in",["a",0,1]]],[]],["task",[["out",["a",0,1]]],[]]] gives false 0 1
-x of [],[["task",[["in",["a",0,1]]],[]],["task",[["in",["a",0,1]]],[]],["task",[["in",["a",0,1]]],[]]] gives false 1 1
-x of [],[["task",[["red",["a",0,1]]],[]],["task",[["red",["a",0,1]]],[]],["task",[["inout",["a",0,1]]],[]]] gives true 1 0
xx of [],[["task",[["red",["a",0,1]]],[]],["task",[["red",["a",0,1]]],[]],["task",[["inout",["a",0,1]]],[]]] gives false 0 1
x-- of [],[["task",[["out",["a",0,1]]],[]],["task",[["out",["a",0,1]]],[]],["task",[["in",["a",0,1]]],[]],["task",[["in",["a",0,1]]],[]]] gives true 2 0
xx- of [],[["task",[["out",["a",0,1]]],[]],["task",[["out",["a",0,1]]],[]],["task",[["in",["a",0,1]]],[]],["task",[["in",["a",0,1]]],[]]] gives false 1 1
xx- of [],[["task",[["out",["a",0,1]]],[]],["task",[["out",["a",0,1]]],[]],["task",[["in",["a",0,1]]],[]],["task",[["out",["a",0,1]]],[]]] gives true 1 0
-x of [],[["task",[["out",["a",0,1]]],[]],["task",[["in",["b",0,1]]],[]],["task",[["out",["b",0,1]]],[]]] gives false 1 1
--- of [],[["task",[["out",["a",0,1]]],[]],["task",[["in",["a",0,1]],["out",["a",1,1]]],[]],["task",[["in",["a",2,1]]],[]],["task",[["in",["a",2,1]]],[]]] gives false 3 1
x-- of [],[["task",[["out",["a",0,1]]],[]],["task",[["in",["a",0,1]],["out",["a",1,1]]],[]],["task",[["in",["a",2,1]]],[]],["task",[["in",["a",1,1]]],[]]] gives true 2 0
-- of [],[["task",[["out",["a",4,1]]],[]],["task",[["out",["a",2,1]],["in",["a",6,3]]],[]],["task",[["in",["a",0,5]]],[]]] gives true 2 2
-x of [],[["task",[["out",["a",4,1]]],[]],["task",[["out",["a",2,1]],["in",["a",6,3]]],[]],["task",[["in",["a",0,5]]],[]]] gives true 1 4
xx of [],[["task",[["out",["a",4,1]]],[]],["task",[["out",["a",2,1]],["in",["a",6,3]]],[]],["task",[["in",["a",0,5]]],[]]] gives false 0 5
- from 0 of [],[["task",[["out",["a",0,1]],["out",["a",4,1]]],[]],["task",[["in",["a",0,9]]],[]]] gives true 1 0
- from 1 of [],[["task",[["out",["a",0,1]],["out",["a",4,1]]],[]],["task",[["in",["a",0,9]]],[]]] gives true 1 4
- from 4 of [],[["task",[["out",["a",0,1]],["out",["a",4,1]]],[]],["task",[["in",["a",0,9]]],[]]] gives true 1 4
- from 5 of [],[["task",[["out",["a",0,1]],["out",["a",4,1]]],[]],["task",[["in",["a",0,9]]],[]]] gives true 1 9
- from 9 of [],[["task",[["out",["a",0,1]],["out",["a",4,1]]],[]],["task",[["in",["a",0,9]]],[]]] gives true 1 9
x- from 1 of [],[["task",[["out",["a",0,1]]],[]],["task",[["out",["a",2,1]]],[]],["task",[["in",["a",0,5]]],[]]] gives true 1 2
-x from 1 of [],[["task",[["out",["a",0,1]]],[]],["task",[["out",["a",2,1]]],[]],["task",[["in",["a",0,5]]],[]]] gives true 1 5
xx from 3 of [],[["task",[["out",["a",0,1]]],[]],["task",[["out",["a",2,1]]],[]],["task",[["in",["a",0,5]]],[]]] gives false 0 5
- from 1 of [],[["task",[["in",["a",0,5]]],[]],["task",[["out",["a",0,1]],["in",["a",1,3]],["out",["a",4,1]]],[]]] gives true 1 4"#;

/// Whether the wait has to wait, how many children have not finished, and how many cells are free.
pub(crate) fn awaited(alloc: Global, text: &str, shape: &Shape) -> Result<String, AllocError> {
    let Some((marks, text)) = text.split_once(" of ") else {
        return String::from_str(alloc, "no marks");
    };
    let (marks, from) = marks.split_once(" from ").unwrap_or((marks, "0"));
    let from = from.parse().unwrap_or(0);
    match read(alloc, text, shape) {
        Ok(program) => said_of_last(alloc, marks, from, program.body.as_slice()),
        Err(fault) => format!(in alloc; "{fault:?}"),
    }
}

fn said_of_last(
    alloc: Global,
    marks: &str,
    from: usize,
    body: &[Stmt],
) -> Result<String, AllocError> {
    let Some((Stmt::Task(wait, _), children)) = body.split_last() else {
        return String::from_str(alloc, "no task");
    };
    let siblings = marked(alloc, marks, children)?;
    let (waits, unfinished) = (siblings.waits_for(wait), siblings.unfinished());
    let free = siblings.count_free(wait, from);
    format!(in alloc; "{waits} {unfinished} {free}")
}

/// These children, each with its mark.
fn marked(alloc: Global, marks: &str, children: &[Stmt]) -> Result<Siblings, AllocError> {
    let mut siblings = Siblings::new(alloc);
    for (mark, child) in marks.bytes().zip(children) {
        if let Stmt::Task(decl, _) = child {
            add(alloc, &mut siblings, decl, mark == b'x')?;
        }
    }
    Ok(siblings)
}

/// Adds a child, and finishes it at once where it is to be so and is ready.
fn add(
    alloc: Global,
    siblings: &mut Siblings,
    decl: &Decl,
    is_finished: bool,
) -> Result<(), AllocError> {
    let child = siblings.add(alloc, Arc::new(alloc, decl.copy(alloc)?)?, &[])?;
    if is_finished && siblings.ready(child) {
        siblings.finish(child);
    }
    Ok(())
}

#[test]
fn a_wait_awaits_the_unfinished_that_it_depends_on(rt: HostRuntime) {
    assert_rows(&rt, rt.alloc(), Asked::Awaiting, [9, 9, 4], AWAITING);
}
