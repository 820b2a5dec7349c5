//! Each limit of the reader at its value and one past it.
use super::table::{Asked, assert_rows};
use ot_model::Shape;
use ot_program::ProgramFault;
use std::alloc::{AllocError, Global};
use test_reading::read;

/// How many statements and task statements are read, or the code that they are refused with.
pub(crate) fn counted(alloc: Global, text: &str, shape: &Shape) -> Result<String, AllocError> {
    match read(alloc, text, shape) {
        Ok(program) => format!(in alloc; "{} {}", program.statements, program.tasks),
        Err(ProgramFault::Refused(refusal)) => format!(in alloc; "{}", refusal.code()),
        Err(ProgramFault::Memory) => String::from_str(alloc, "no memory"),
    }
}

/// Over `a` of 3 cells and `b` of 2^32 - 1, with 4 task statements.
const COUNTS: &str = r#"[],[["for","i",0,20000,[["set",["c","a",0],1]]]] gives 20000 0
[],[["for","i",0,20001,[["set",["c","a",0],1]]]] gives 422
[],[["for","i",0,10000,[["if",0,[["wait"]],[]]]]] gives 20000 0
[],[["for","i",0,10000,[["if",0,[["wait"]],[]]]],["wait"]] gives 422
[],[["for","i",0,10000,[["if",0,[],[["add",["c","a",0],1]]]]]] gives 20000 0
[],[["for","i",0,10001,[["if",0,[],[["add",["c","a",0],1]]]]]] gives 422
[],[["for","i",0,10000,[["group",[],[["wait"]]]]]] gives 20000 0
[],[["for","i",0,10001,[["group",[],[["wait"]]]]]] gives 422
[],[["for","i",0,40000,[]]] gives 0 0
[],[["for","i",0,40001,[]]] gives 422
[],[["for","i",0,200,[["for","j",0,199,[]]]]] gives 0 0
[],[["for","i",0,200,[["for","j",0,199,[]]]],["for","i",0,1,[]]] gives 422
[],[["for","i",0,200,[["for","j",0,200,[]]]]] gives 422
[],[["for","i",0,0,[]],["for","i",0,40000,[]],["for","i",7,7,[["set"]]]] gives 0 0
[],[["for","i",0,4294967295,[]]] gives 422
[],[["for","i",0,20000,[["set",["c","a",["-",["+","i",1],["+","i",1]]],["+",["+",["+",1,2],["+",3,4]],["pick",["b",0,1],["c","a",["*",0,"i"]]]]]]]] gives 20000 0
[],[["for","i",0,20000,[["set",["c","a",0],["+",["+",["+",1,2],["+",3,4]],["+",5,6]]]]]] gives 422
[],[["for","i",0,18181,[["set",["c","a",0],["+",["+",["+",1,2],["+",3,4]],["+",5,6]]]]],["set",["c","a",0],["+",["+",1,2],["+",3,["+",4,5]]]],["set",["c","a",3],1]] gives 414
[],[["for","i",0,18181,[["set",["c","a",0],["+",["+",["+",1,2],["+",3,4]],["+",5,6]]]]],["set",["c","a",0],["+",["+",1,2],["+",3,["+",4,5]]]],["set",["c","a",0],1]] gives 422
[],[["for","i",0,3,[["set",["c","a",0],["pick",["b",0,349524],["pick",["b",0,1],1]]]]],["group",[["b",0,1]],[]]] gives 4 0
[],[["for","i",0,3,[["set",["c","a",0],["pick",["b",0,349525],["pick",["b",0,1],1]]]]]] gives 422
[],[["for","i",0,3,[["set",["c","a",0],["pick",["b",0,349525],1]]]],["group",[["b",0,1]],[]]] gives 4 0
[],[["for","i",0,3,[["set",["c","a",0],["pick",["b",0,349525],1]]]],["group",[["b",0,1],["b",0,1]],[]]] gives 422
[],[["for","i",0,3,[["if",["pick",["b",0,349525],1],[],[]]]],["task",[["in",["b",0,1]],["out",["b",0,1]]],[]]] gives 422
[],[["for","i",0,3,[["add",["c","a",0],["pick",["b",0,349525],1]]]],["task",[["in",["b",0,1]]],[]]] gives 4 1
[],[["for","i",0,3,[["add",["c","a",0],["pick",["b",0,349525],1]]]],["task",[["in",["b",0,1]]],[]],["set",["c","a",0],["pick",["b",0,1],1]]] gives 422
[],[["set",["c","a",0],["pick",["b",0,4294967295],["pick",["b",0,4294967295],1]]]] gives 422
[],[["for","i",0,4,[["task",[["in",["b",0,131072]],["out",["b",65536,131072]]],[]]]]] gives 4 4
[],[["for","i",0,4,[["task",[["in",["b",0,131072]],["out",["b",65536,131072]]],[]]]],["group",[["b",0,1]],[]]] gives 422
[],[["for","i",0,4,[["task",[],[]]]]] gives 4 4
[],[["for","i",0,5,[["task",[],[]]]]] gives 423
[],[["if",0,[["task",[],[]],["task",[],[["task",[],[]]]]],[["group",[],[["task",[],[]]]],["task",[],[]]]]] gives 423
[],[["if",0,[["task",[],[]],["task",[],[["task",[],[]]]]],[["group",[],[["task",[],[]]]]]]] gives 6 4
[],[["for","i",0,4,[["set",["c","a",0],["pick",["b",0,262144],1]]]]] gives 4 0
[],[["for","i",0,4,[["set",["c","a",0],["pick",["b",0,262144],1]]]],["set",["c","a",0],["pick",["b",0,1],1]]] gives 422
[],[["for","i",0,4,[["group",[["b",0,131072],["b",0,131072]],[]]]]] gives 4 0
[],[["for","i",0,4,[["group",[["b",0,131072],["b",0,131072]],[]]]],["group",[["b",7,1]],[]]] gives 422
[],[["for","i",0,4,[["task",[["red",["b",0,262144]]],[]]]],["if",["pick",["b",0,1],0],[],[]]] gives 422
[],[["for","i",0,4,[["task",[["red",["b",0,262144]]],[]]]]] gives 4 4"#;

#[test]
fn counts_at_their_limits(rt: HostRuntime) {
    assert_rows(&rt, rt.alloc(), Asked::Counts, [3, 4294967295, 4], COUNTS);
}

/// Over `a` of 65,536 cells and `b` of 2^32 - 1. The body has a fault too, 420, which is told only
/// where the shows have none.
const SHOWS: &str = r#"[["b",0,1048576]],["set"] gives 420
[["b",4293918719,1048576]],["set"] gives 420
[["b",0,1048577]],["set"] gives 422
[["b",0,1048576],["a",0,1]],["set"] gives 422
[["b",0,1048575],["b",0,1]],["set"] gives 420
[["a",0,65536],["b",0,983040]],["set"] gives 420
[["a",0,65536],["b",0,983041]],["set"] gives 422
[["b",0,4294967295],["b",0,4294967295]],["set"] gives 422
[["b",0,4294967295],["a",0,65537]],["set"] gives 414
[["b",0,4294967295],["a",0,0]],["set"] gives 424"#;

#[test]
fn shows_have_at_most_1048576_cells(rt: HostRuntime) {
    assert_rows(
        &rt,
        rt.alloc(),
        Asked::Counts,
        [65536, 4294967295, 4],
        SHOWS,
    );
}

/// The same of a body that has a part many times over: its beginning, a part, how often the part
/// stands there, what stands behind it, a part that stands there as often, and its end.
pub(crate) fn grown(alloc: Global, row: &str, shape: &Shape) -> Result<String, AllocError> {
    let parts = row.split('|').collect::<Vec<&str>>(alloc)?;
    let text = grown_text(alloc, parts.as_slice())?;
    counted(alloc, text.as_str(), shape)
}

fn grown_text(alloc: Global, parts: &[&str]) -> Result<String, AllocError> {
    let [begin, before, times, inside, after, end] = parts else {
        return String::from_str(alloc, "not six parts");
    };
    let times = times.parse::<usize>().unwrap_or(0);
    let before = before.repeat(alloc, times)?;
    let after = after.repeat(alloc, times)?;
    format!(in alloc; "[],{begin}{before}{inside}{after}{end}")
}

/// Values that are deep by so many operations, alone and beside other faults.
const VALUES: &str = r#"[["set",["c","a",0],|["+",2,|23|1|]|]] gives 1 0
[["set",["c","a",0],|["+",2,|24|1|]|]] gives 422
[["set",["c","a",0],|["+",2,|25|1|]|]] gives 422
[["set",["c","a",0],|["+",2,|23|["c","a",0]|]|]] gives 1 0
[["set",["c","a",0],|["+",2,|24|["c","a",0]|]|]] gives 422
[["set",["c","a",0],|["+",2,|25|["c","a",0]|]|]] gives 422
[["set",["c","a",0],|["min",|23|1|,["c","a",0]]|]] gives 1 0
[["set",["c","a",0],|["min",|24|1|,["c","a",0]]|]] gives 422
[["set",["c","a",0],|["min",|25|1|,["c","a",0]]|]] gives 422
[["set",["c","a",0],|["min",|23|["c","a",0]|,["c","a",0]]|]] gives 1 0
[["set",["c","a",0],|["min",|24|["c","a",0]|,["c","a",0]]|]] gives 422
[["set",["c","a",0],|["min",|25|["c","a",0]|,["c","a",0]]|]] gives 422
[["set",["c","a",0],|["pick",["a",0,1],|23|1|]|]] gives 1 0
[["if",|["=",0,|23|1|]|,[],[]]] gives 1 0
[["add",["c","a",0],|["-",0,|23|1|]|]] gives 1 0
[["set",["c","a",0],|["pick",["a",0,1],|24|1|]|]] gives 422
[["if",|["=",0,|24|1|]|,[],[]]] gives 422
[["add",["c","a",0],|["-",0,|24|1|]|]] gives 422
[["set",["c","a",0],["max",|["+",2,|24|1|]|,1]],"set"] gives 422
[["set",["c","a",3],["max",|["+",2,|24|1|]|,1]],"set"] gives 414
[["set",["c","a",0],["max",|["+",2,|24|1|]|,["c","z",0]]],"set"] gives 412
[["set",["c","a",3],["max",|["+",2,|24|1|]|,["c","a","i"]]],"set"] gives 421
[["set",["c","a",0],["max",|["+",2,|24|1|]|,["pick"]]],"set"] gives 420"#;

#[test]
fn values_are_at_most_24_deep(rt: HostRuntime) {
    assert_rows(&rt, rt.alloc(), Asked::Grown, [3, 5, 1024], VALUES);
}

/// Sizes that are deep by so many operations, at each place of a size.
const SIZES: &str = r#"[["set",["c","a",|["+",0,|23|1|]|],1]] gives 1 0
[["set",["c","a",|["+",0,|24|1|]|],1]] gives 422
[["group",[["a",0,|["+",0,|23|1|]|]],[]]] gives 1 0
[["group",[["a",0,|["+",0,|24|1|]|]],[]]] gives 422
[["task",[["in",["a",|["+",0,|23|1|]|,1]]],[]]] gives 1 1
[["task",[["in",["a",|["+",0,|24|1|]|,1]]],[]]] gives 422
[["for","i",|["+",0,|23|1|]|,1,[]]] gives 0 0
[["for","i",|["+",0,|24|1|]|,1,[]]] gives 422
[["for","i",1,|["+",0,|23|1|]|,[]]] gives 0 0
[["for","i",1,|["+",0,|24|1|]|,[]]] gives 422
[["set",["c","a",0],["min",9,["min",9,["min",9,["min",9,["min",9,["min",9,["min",9,["min",9,["min",9,["min",9,["min",9,["min",9,["min",9,["min",9,["min",9,["min",9,["min",9,["min",9,["min",9,["min",9,["min",9,["min",9,["pick",["a",0,1],["c","a",|["+",0,|23|1|]|]]]]]]]]]]]]]]]]]]]]]]]]]] gives 1 0
[["set",["c","a",0],["min",9,["min",9,["min",9,["min",9,["min",9,["min",9,["min",9,["min",9,["min",9,["min",9,["min",9,["min",9,["min",9,["min",9,["min",9,["min",9,["min",9,["min",9,["min",9,["min",9,["min",9,["min",9,["pick",["a",0,1],["c","a",|["+",0,|24|1|]|]]]]]]]]]]]]]]]]]]]]]]]]]] gives 422"#;

#[test]
fn sizes_have_a_depth_of_their_own(rt: HostRuntime) {
    assert_rows(&rt, rt.alloc(), Asked::Grown, [3, 5, 1024], SIZES);
}

/// Bodies in so many others.
const BODIES: &str = r#"|[["if",1,|15|[]|,[]]]| gives 15 0
|[["if",1,|16|[]|,[]]]| gives 422
|[["if",1,|17|[]|,[]]]| gives 422
|[["if",1,[],|15|[]|]]| gives 15 0
|[["if",1,[],|16|[]|]]| gives 422
|[["if",1,[],|17|[]|]]| gives 422
|[["group",[],|15|[]|]]| gives 15 0
|[["group",[],|16|[]|]]| gives 422
|[["group",[],|17|[]|]]| gives 422
|[["for","i",0,1,|15|[]|]]| gives 0 0
|[["for","i",0,1,|16|[]|]]| gives 422
|[["for","i",0,1,|17|[]|]]| gives 422
|[["task",[],|15|[]|]]| gives 15 15
|[["task",[],|16|[]|]]| gives 422
|[["task",[],|17|[]|]]| gives 422
|[["for","i",0,1,|15|[["for","i",0,0,[]]]|]]| gives 422
|[["for","i",0,1,|15|[["for","i",0,0,1]]|]]| gives 420
|[["for","i",0,1,|15|[["if",1,[],[]]]|]]| gives 422
|[["for","i",0,1,|15|[["task",[],[]]]|]]| gives 422
|[["for","i",0,1,|15|[["group",[],[]]]|]]| gives 422
|[["for","i",0,1,|15|[["group",[["a",0,0]],[]]]|]]| gives 424
|[["for","i",0,1,|14|[["task",[],[["wait"]]]]|]]| gives 2 1
|[["for","i",0,1,|13|[["task",[],[["group",[],[["if",1,[],[]]]]]]]|]]| gives 422"#;

#[test]
fn bodies_are_nested_16_deep(rt: HostRuntime) {
    assert_rows(&rt, rt.alloc(), Asked::Grown, [3, 5, 1024], BODIES);
}

/// Bodies of so many statements and one or two more, and values of so many nodes.
const STATEMENTS: &str = r#"[|["set",["c","a",0],1],|19999|["set",["c","a",0],1]||] gives 20000 0
[|["set",["c","a",0],1],|19999|["set",["c","a",3],1]||] gives 414
[|["set",["c","a",0],1],|20000|["set",["c","a",0],1]||] gives 422
[|["set",["c","a",0],1],|20000|["set",["c","a",3],1]||] gives 414
[|["set",["c","a",0],1],|20001|["set",["c","a",3],1]||] gives 422
[|["set",["c","a",0],["+",["+",["+",1,1],["+",1,["c","a",1]]],["+",["+",1,["c","a",1]],["+",1,1]]]],|13333|["set",["c","a",0],["+",1,["+",1,1]]]||] gives 13334 0
[|["set",["c","a",0],["+",["+",["+",1,1],["+",1,["c","a",1]]],["+",["+",1,["c","a",1]],["+",1,1]]]],|13333|["set",["c","a",0],["+",["+",1,1],["+",1,1]]]||] gives 422
[|["set",["c","a",0],["+",["+",["+",1,1],["+",1,["c","a",1]]],["+",["+",1,["c","a",1]],["+",1,1]]]],|13333|["set",["c","a",0],["+",1,["+",1,1]]],["set",["c","a",0],1]||] gives 422"#;

#[test]
fn statements_are_counted_one_by_one(rt: HostRuntime) {
    assert_rows(&rt, rt.alloc(), Asked::Grown, [3, 5, 1024], STATEMENTS);
}
