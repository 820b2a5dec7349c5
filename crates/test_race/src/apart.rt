//! Runs whose events hold locks.
use crate::telling::told_apart;
use std::alloc::Global;
use std::test::Fail;

/// A row has what is told, a digit for each place from 1 on, and the body. The digit is the number of the set that events of
/// the place hold: 1 has lock 0, 2 has lock 1, 3 has both, and 0 none; places behind the digits hold none. In this order: two
/// tasks that write one cell under one lock; under two; one of them under none; one under two locks, and the other under one
/// of these; three tasks, of which the last shares a lock with both others; three, of which the last shares none; reads under
/// locks of their own; four tasks that write under one lock, a wait, and a read; the same without the wait; a sum whose task
/// reads and writes under a lock, beside one that only reads under it; two folds by one operation under two locks; two by two.
const ROWS: &str =
    r#"none|0101|[["task",[],[["set",["c","a",0],1]]],["task",[],[["set",["c","a",0],2]]]]
4 2.0|0102|[["task",[],[["set",["c","a",0],1]]],["task",[],[["set",["c","a",0],2]]]]
4 2.0|01|[["task",[],[["set",["c","a",0],1]]],["task",[],[["set",["c","a",0],2]]]]
none|0301|[["task",[],[["set",["c","a",0],1]]],["task",[],[["set",["c","a",0],2]]]]
4 2.0|010203|[["task",[],[["set",["c","a",0],1]]],["task",[],[["set",["c","a",0],2]]],["task",[],[["set",["c","a",0],3]]]]
6 4.0|010102|[["task",[],[["set",["c","a",0],1]]],["task",[],[["set",["c","a",0],2]]],["task",[],[["set",["c","a",0],3]]]]
none|0102|[["task",[],[["set",["c","a",1],["c","a",0]]]],["task",[],[["set",["c","a",2],["c","a",0]]]]]
none|01010101|[["for","i",0,4,[["task",[],[["set",["c","a",0],"i"]]]]],["wait"],["set",["c","a",1],["c","a",0]]]
9 8.0|01010101|[["for","i",0,4,[["task",[],[["set",["c","a",0],"i"]]]]],["set",["c","a",1],["c","a",0]]]
none|0101|[["task",[],[["set",["c","a",0],["+",["c","a",0],1]]]],["task",[],[["set",["c","a",1],["c","a",0]]]]]
none|00102|[["group","+",[["a",0,1]],[["task",[["red","+",["a",0,1]]],[["fold","+",["c","a",0],1]]],["task",[["red","+",["a",0,1]]],[["fold","+",["c","a",0],2]]]]]]
"#;

#[test]
fn apart(rt: HostRuntime) -> Result<(), Fail> {
    let alloc = rt.alloc();
    let mut rows = 0u32;
    for line in ROWS.lines() {
        if let Some((row, rest)) = line.split_once("|") {
            if let Some((digits, body)) = rest.split_once("|") {
                let told = told_apart(alloc, 16, 0, digits, body)?;
                assert!(rt; told.as_str() == row, "{line} {told}");
                rows = rows.wrapping_add(1);
            }
        }
    }
    assert!(rt; rows == 11);
    Ok(())
}

/// Each task holds lock 0 and one of its own: so many kinds of touches that don't race, up to 64, and more.
#[test]
fn many_kinds(rt: HostRuntime) -> Result<(), Fail> {
    let alloc = rt.alloc();
    let few = r#"[["for","i",0,64,[["task",[],[["set",["c","a",0],"i"]]]]]]"#;
    assert!(rt; told_apart(alloc, 16, 64, "", few)?.as_str() == "none");
    let many = r#"[["for","i",0,65,[["task",[],[["set",["c","a",0],"i"]]]]]]"#;
    assert!(rt; told_apart(alloc, 16, 65, "", many)?.as_str() == "many.0");
    Ok(())
}

/// 9,000 tasks that read and write a cell under one lock, and behind a wait 1,900 reads and one write: in a moment.
#[test]
fn costs_apart(rt: HostRuntime) -> Result<(), Fail> {
    let alloc = rt.alloc();
    let mut digits = String::new(alloc);
    for _ in 0..9000 {
        digits.push_str("01")?;
    }
    let body =
        r#"[["for","i",0,9000,[["task",[],[["set",["c","a",0],["+",["c","a",0],1]]]]]],["wait"],["for","i",0,1900,[["set",["c","a",1],["c","a",0]]]],["set",["c","a",0],1]]"#;
    let told = told_apart(alloc, 16, 0, digits.as_str(), body)?;
    assert!(rt; told.as_str() == "none", "{told}");
    Ok(())
}
