//! All races of a run.
use crate::telling::told_all;
use ot_race_order::Order;
use std::alloc::Global;
use std::test::Fail;

/// In this order: nothing that races; two tasks that write one cell; three; the two of them that a dependence doesn't
/// order; two statements that race at two cells, which are told once; a writer, which four readers race with, before a
/// wait that awaits all; four tasks that write one cell, of whose six races two are told, and then none.
const LISTS: &str = r#"9 none|[["set",["c","a",0],1],["task",[],[["set",["c","a",0],1]]]]
9 4 2.0|[["task",[],[["set",["c","a",0],1]]],["task",[],[["set",["c","a",0],2]]]]
9 4 2.0, 6 2.0, 6 4.0|[["task",[],[["set",["c","a",0],1]]],["task",[],[["set",["c","a",0],2]]],["task",[],[["set",["c","a",0],3]]]]
9 4 2.0, 6 4.0|[["task",[["out",["a",1,1]]],[["set",["c","a",0],1]]],["task",[],[["set",["c","a",0],2]]],["task",[["in",["a",1,1]]],[["set",["c","a",0],3]]]]
9 4 2.0|[["task",[],[["set",["c","a",0],["c","a",1]]]],["task",[],[["set",["c","a",1],["c","a",0]]]]]
9 3 2.0, 4 2.0, 5 2.0, 6 2.0|[["task",[],[["set",["c","a",0],1]]],["set",["c","a",1],["c","a",0]],["set",["c","a",2],["c","a",0]],["set",["c","a",3],["c","a",0]],["set",["c","a",4],["c","a",0]],["wait"],["set",["c","a",5],["c","a",0]]]
2 4 2.0, 6 2.0 and 4|[["for","i",0,4,[["task",[],[["set",["c","a",0],"i"]]]]]]
0  and 6|[["for","i",0,4,[["task",[],[["set",["c","a",0],"i"]]]]]]
"#;

#[test]
fn lists(rt: HostRuntime) -> Result<(), Fail> {
    let alloc = rt.alloc();
    let mut rows = 0u32;
    for line in LISTS.lines() {
        if let Some((row, body)) = line.split_once("|") {
            if let Some((most, row)) = row.split_once(" ") {
                let most = if most == "9" {
                    9
                } else if most == "2" {
                    2
                } else {
                    0
                };
                let told = told_all(alloc, Order::OfLanguage, 16, most, body)?;
                assert!(rt; told.as_str() == row, "{line} {told}");
                rows = rows.wrapping_add(1);
            }
        }
    }
    assert!(rt; rows == 8);
    Ok(())
}
