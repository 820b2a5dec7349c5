//! Programs with many tasks, waits or declared cells, which are judged in a moment: no pair of tasks is looked at.
use crate::telling::told;
use std::alloc::Global;
use std::test::Fail;

/// In this order: a chain of 1,024 tasks and a read behind it that waits for none; a chain of 9,000; 9,000 tasks of which
/// each other one writes; rounds of 30 readers and a writer; 4,500 tasks with a wait behind each; a reader and a wait for
/// all readers of the cell, 4,500 times; two tasks that declare 65,536 cells.
const COSTS: &str =
    r#"2049 2048.0|[["for","i",0,1024,[["task",[["inout",["a",0,1]]],[["fold","+",["c","a",0],1]]]]],["set",["c","a",1],["c","a",0]]]
none|[["for","i",0,9000,[["task",[["inout",["a",0,1]]],[["fold","+",["c","a",0],1]]]]]]
none|[["for","i",0,4500,[["task",[["in",["a",0,1]]],[["if",["c","a",0],[],[]]]],["task",[["out",["a",0,1]]],[["set",["c","a",0],"i"]]]]]]
none|[["for","i",0,200,[["for","j",0,30,[["task",[["in",["a",0,1]]],[["if",["c","a",0],[],[]]]]]],["task",[["out",["a",0,1]]],[["set",["c","a",0],"i"]]]]]]
none|[["for","i",0,4500,[["task",[],[["set",["c","a","i"],1]]],["wait"]]]]
none|[["for","i",0,4500,[["task",[["in",["a",0,1]]],[["if",["c","a",0],[],[]]]],["wait",[["out",["a",0,1]]]]]]]
none|[["for","i",0,2,[["task",[["out",["a",0,65536]]],[["set",["c","a",["*","i",9000]],["c","a",0]]]]]]]
"#;

#[test]
fn costs(rt: HostRuntime) -> Result<(), Fail> {
    let alloc = rt.alloc();
    let mut rows = 0u32;
    for line in COSTS.lines() {
        if let Some((row, body)) = line.split_once("|") {
            let told = told(alloc, 65536, body)?;
            assert!(rt; told.as_str() == row, "{line} {told}");
            rows = rows.wrapping_add(1);
        }
    }
    assert!(rt; rows == 7);
    Ok(())
}
