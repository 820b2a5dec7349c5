//! Programs with branches, of which all ways are judged.
use crate::telling::told_of_ways;
use ot_race_order::Order;
use std::alloc::{AllocError, Global};
use std::test::Fail;

/// Of each the first race on the first way that races, with the turns of that way: the place of each `if` with `+` where it
/// takes its first body, and else `-`. Way after way the first `if` turns soonest.
///
/// In this order: a task or a write; a task in the second body, with a write behind; a wait in one body of two, and in both; a
/// child of a child, or a wait; a group in a body; a task in the first body and a write in the second of a later `if`; three
/// deep, and two; a pick that reads another cell in the run; 10 `if`s, and 11; a task without touches that 8 waits in branches may
/// await; the same with a write; 5,000 `if`s, and these two with so many; two tasks that only a third orders, which stands in a body.
const BRANCHES: &str =
    r#"none|[["if",["c","a",0],[["task",[["out",["a",0,1]]],[["set",["c","a",0],7]]]],[["set",["c","a",0],5]]]]
4 3.0 1-|[["if",["c","a",2],[],[["task",[["out",["a",0,1]]],[["set",["c","a",0],7]]]]],["set",["c","a",0],1]]
5 2.0 3-|[["task",[["out",["a",0,1]]],[["set",["c","a",0],7]]],["if",["c","a",2],[["wait"]],[]],["set",["c","a",0],1]]
none|[["task",[["out",["a",0,1]]],[["set",["c","a",0],7]]],["if",["c","a",2],[["wait"]],[["wait"]]],["set",["c","a",0],["+",["c","a",0],1]]]
none|[["task",[["out",["a",0,1]]],[["if",["c","a",0],[["task",[["out",["a",0,1]]],[["set",["c","a",0],7]]]],[["wait"]]]]]]
none|[["if",["c","a",2],[["group","+",[],[["task",[["out",["a",0,1]]],[["set",["c","a",0],7]]]]]],[]],["set",["c","a",0],["+",["c","a",0],1]]]
5 3.0 1+ 4-|[["if",["c","a",2],[["task",[["out",["a",0,1]]],[["set",["c","a",0],7]]]],[]],["if",["c","a",2],[],[["set",["c","a",0],1]]]]
8 5.0 1+ 2+ 3+ 6- 7+|[["if",["c","a",2],[["if",["c","a",2],[["if",["c","a",2],[["task",[["out",["a",0,1]]],[["set",["c","a",0],7]]]],[]]],[]]],[]],["if",["c","a",2],[],[["if",["c","a",2],[["set",["c","a",1],["c","a",0]]],[]]]]]
3 2.0|[["task",[],[["set",["c","a",0],1]]],["set",["c","a",2],["pick",["a",0,2],["c","a",2]]]]
none|[["for","i",0,10,[["if",["c","a",0],[["set",["c","a",1],"i"]],[]]]]]
many|[["for","i",0,11,[["if",["c","a",0],[["set",["c","a",1],"i"]],[]]]]]
none|[["if",["c","a",0],[["task",[["out",["a",2,1]]],[]]],[]],["for","i",0,8,[["if",["c","a",0],[["wait"]],[]]]],["set",["c","a",2],1]]
20 3.2 1+ 4- 6- 8- 10- 12- 14- 16- 18-|[["if",["c","a",0],[["task",[["out",["a",2,1]]],[["set",["c","a",2],7]]]],[]],["for","i",0,8,[["if",["c","a",0],[["wait"]],[]]]],["set",["c","a",2],1]]
many|[["for","i",0,5000,[["if",["c","a",0],[["set",["c","a",1],"i"]],[]]]]]
many|[["if",["c","a",0],[["task",[["out",["a",2,1]]],[]]],[]],["for","i",0,5000,[["if",["c","a",0],[["wait"]],[]]]],["set",["c","a",2],1]]
many|[["if",["c","a",0],[["task",[["out",["a",2,1]]],[]]],[]],["for","i",0,5000,[["if",["c","a",0],[["wait"]],[]]]],["if",["c","a",0],[["wait"]],[["wait"]]],["set",["c","a",2],9]]
7 2.0 3-|[["task",[["out",["a",1,1]]],[["set",["c","a",0],1]]],["if",["c","a",2],[["task",[["in",["a",1,1]],["out",["a",2,1]]],[]]],[["wait",[["in",["a",2,1]]]]]],["task",[["in",["a",2,1]]],[["set",["c","a",0],2]]]]
"#;

/// The rows of a text, each of which is told as it says of an array of so many cells, where this orders tasks, or the first that isn't,
/// with what is told.
fn told_rows(
    alloc: Global,
    order: Order,
    cells: u32,
    rows: &'static str,
) -> Result<(u32, String), AllocError> {
    let mut passed = 0u32;
    for line in rows.lines() {
        if let Some((row, body)) = line.split_once("|") {
            let told = told_of_ways(alloc, order, cells, body)?;
            if told.as_str() != row {
                return Ok((passed, format!(in alloc; "{line} {told}")?));
            }
            passed = passed.wrapping_add(1);
        }
    }
    Ok((passed, String::new(alloc)))
}

#[test]
fn branches(rt: HostRuntime) -> Result<(), Fail> {
    let (passed, wrong) = told_rows(rt.alloc(), Order::OfLanguage, 3, BRANCHES)?;
    assert!(rt; passed == 17, "{wrong}");
    Ok(())
}

/// Branches whose conditions name no cell, in this order: a task in the body that isn't taken; in the one that is, by a sum, with a
/// write behind; the other body, by a difference; a write in the first turn alone, and in each but the first; a wait from the second
/// turn on; 5,000 of them; 10 others among 40; 11 others in a body that isn't taken, and in one that is; one in a body of another.
/// Then picks whose values name none: of the cell that no task writes; of the one that it writes; of the former in each turn.
const KNOWN: &str =
    r#"none|[["if",0,[["task",[["out",["a",0,1]]],[["set",["c","a",0],7]]]],[]],["set",["c","a",0],5]]
4 3.0 1+|[["if",["+",1,1],[["task",[["out",["a",0,1]]],[["set",["c","a",0],7]]]],[]],["set",["c","a",0],5]]
4 3.0 1-|[["if",["-",2,2],[],[["task",[["out",["a",0,1]]],[["set",["c","a",0],7]]]]],["set",["c","a",0],5]]
none|[["for","i",0,3,[["task",[],[["if",["=","i",0],[["set",["c","a",0],1]],[]]]]]]]
9 6.0 2- 5+ 8+|[["for","i",0,3,[["task",[],[["if",["<",0,"i"],[["set",["c","a",0],1]],[]]]]]]]
none|[["for","i",0,3,[["if",["<",0,"i"],[["wait"]],[]],["task",[],[["set",["c","a",0],1]]]]]]
none|[["for","i",0,5000,[["if",["=","i",7],[["set",["c","a",1],"i"]],[]]]]]
none|[["for","i",0,40,[["if",["<","i",30],[["set",["c","a",1],"i"]],[["if",["c","a",0],[["set",["c","a",1],"i"]],[]]]]]]]
none|[["if",0,[["for","i",0,11,[["if",["c","a",0],[["set",["c","a",1],"i"]],[]]]]],[]]]
many|[["if",1,[["for","i",0,11,[["if",["c","a",0],[["set",["c","a",1],"i"]],[]]]]],[]]]
6 4.0 1+ 2+|[["if",["c","a",2],[["if",["min",3,4],[["task",[["out",["a",0,1]]],[["set",["c","a",0],7]]]],[["wait"]]]],[]],["set",["c","a",0],5]]
none|[["task",[],[["set",["c","a",0],1]]],["set",["c","a",2],["pick",["a",0,2],3]]]
3 2.0|[["task",[],[["set",["c","a",0],1]]],["set",["c","a",2],["pick",["a",0,2],["-",4,2]]]]
none|[["task",[],[["set",["c","a",0],1]]],["for","i",0,2,[["set",["c","a",2],["pick",["a",0,2],["+",["*","i",2],1]]]]]]
"#;

#[test]
fn known_branches(rt: HostRuntime) -> Result<(), Fail> {
    let (passed, wrong) = told_rows(rt.alloc(), Order::OfLanguage, 3, KNOWN)?;
    assert!(rt; passed == 14, "{wrong}");
    Ok(())
}

/// The same over 65,536 cells, of which tasks declare nearly all: 7 beside 10 `if`s, which is too much, and one beside one.
const WIDE_BRANCHES: &str =
    r#"many|[["for","i",0,10,[["if",["c","a",0],[],[]]]],["for","i",0,7,[["task",[["out",["a",0,65535]]],[]]]]]
none|[["if",["c","a",0],[],[]],["task",[["out",["a",0,65535]]],[]]]
"#;

#[test]
fn wide_branches(rt: HostRuntime) -> Result<(), Fail> {
    let (passed, wrong) = told_rows(rt.alloc(), Order::OfLanguage, 65536, WIDE_BRANCHES)?;
    assert!(rt; passed == 2, "{wrong}");
    Ok(())
}

/// What is ordered by `red` alone in C, where no text in C says it, since a task may only fold into its own copy: a sibling behind, in
/// the group that declares the cell, and a wait for the cell.
const REDUCTIONS: &str =
    r#"6 4.0|[["group","+",[["a",2,1]],[["task",[["red","+",["a",2,1]],["out",["a",0,1]]],[["fold","+",["c","a",2],1],["set",["c","a",0],1]]],["task",[["out",["a",2,1]]],[["set",["c","a",1],["c","a",0]]]]]]]
6 4.0|[["group","+",[["a",2,1]],[["task",[["red","+",["a",2,1]],["out",["a",0,1]]],[["fold","+",["c","a",2],1],["set",["c","a",0],1]]],["wait",[["out",["a",2,1]]]],["set",["c","a",1],["c","a",0]]]]]
"#;

#[test]
fn reductions_in_c(rt: HostRuntime) -> Result<(), Fail> {
    let (passed, wrong) = told_rows(rt.alloc(), Order::OfC, 3, REDUCTIONS)?;
    assert!(rt; passed == 2, "{wrong}");
    Ok(())
}
