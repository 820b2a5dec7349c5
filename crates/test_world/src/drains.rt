//! Lines of two tenants, and what each is told, alone or beside the other, whatever the order in which events
//! are taken.
use super::agreeing::tell_alike;
use super::tenants::{told, world_of};
use ot_core::{Event, World};
use ot_store::{Limits, Store};
use std::alloc::{AllocError, Global};

/// Asks each line, which has the number of its tenant before it.
fn ask(alloc: Global, world: &mut World, lines: &str) -> Result<(), AllocError> {
    for line in lines.lines() {
        let (tenant, text) = line.split_once(' ').unwrap_or(("0", line));
        let tenant = if tenant == "1" { 1 } else { 0 };
        world.step(alloc, Event::Admit(tenant, text.as_bytes()))?;
    }
    Ok(())
}

/// Takes events until every line is answered: each time the first, the last, or the one in the middle.
fn answer(alloc: Global, world: &mut World, order: &str) -> Result<(), AllocError> {
    match order {
        "first" => world.drain(alloc, &mut |_| 0),
        "last" => world.drain(alloc, &mut |count: u64| count.saturating_sub(1)),
        _ => world.drain(alloc, &mut |count: u64| count / 2),
    }
}

/// A sum past 2^64 of the first tenant alone.
const ALONE: &str = r#"0 ["new","a",3]
0 ["put","a",0,[1,2,3]]
0 ["run",["program",[["a",0,3]],[["group",[["a",0,1]],[["task",[["red",["a",0,1]]],[["add",["c","a",0],18446744073709551615]]],["task",[["red",["a",0,1]]],[["add",["c","a",0],1]]],["task",[["red",["a",0,1]]],[["add",["c","a",0],5]]]]]]]]"#;

const ALONE_TOLD: [&str; 2] = [
    r#"["ok",1]
["ok",2]
["done",3,3,7,[[6,2,3]]]
"#,
    "",
];

/// The same beside a second tenant, of whose requests two are refused and one runs 1,024 tasks.
const BESIDE: &str = r#"1 {}
0 ["new","a",3]
1 ["get","zz",0,1]
0 ["put","a",0,[1,2,3]]
1 ["new","a",3]
1 ["run",["program",[["a",0,3]],[["for","i",0,1024,[["task",[["inout",["a",0,1]]],[["add",["c","a",0],1]]]]]]]]
0 ["run",["program",[["a",0,3]],[["group",[["a",0,1]],[["task",[["red",["a",0,1]]],[["add",["c","a",0],18446744073709551615]]],["task",[["red",["a",0,1]]],[["add",["c","a",0],1]]],["task",[["red",["a",0,1]]],[["add",["c","a",0],5]]]]]]]]"#;

const BESIDE_TOLD: [&str; 2] = [
    r#"["ok",1]
["ok",2]
["done",3,3,7,[[6,2,3]]]
"#,
    r#"["err",1,411]
["err",2,412]
["ok",3]
["done",4,1024,2048,[[1024,0,0]]]
"#,
];

/// The same sum and a nested task of the first tenant, beside a chain of the second and a program that is
/// refused.
const LINES: &str = r#"0 ["new","a",3]
1 {}
0 ["put","a",0,[1,2,3]]
1 ["get","a",0,1]
0 ["run",["program",[["a",0,3]],[["group",[["a",0,1]],[["task",[["red",["a",0,1]]],[["add",["c","a",0],18446744073709551615]]],["task",[["red",["a",0,1]]],[["add",["c","a",0],1]]],["task",[["red",["a",0,1]]],[["add",["c","a",0],5]]]]]]]]
1 ["new","a",3]
0 ["put","a",0,[1,2,3]]
1 ["run",["program",[["a",0,1]],[["for","i",0,16,[["task",[["inout",["a",0,1]]],[["add",["c","a",0],1]]]]]]]]
0 ["run",["program",[["a",0,3]],[["task",[["inout",["a",0,3]]],[["task",[["out",["a",0,1]]],[["set",["c","a",0],4]]],["task",[["out",["a",1,1]]],[["set",["c","a",1],5]]],["wait"],["set",["c","a",2],["+",["c","a",0],["c","a",1]]]]]]]]
1 ["run",["program",[],[["task",[["in",["a",0,1]]],[["set",["c","a",0],1]]]]]]"#;

const LINES_TOLD: [&str; 2] = [
    r#"["ok",1]
["ok",2]
["done",3,3,7,[[6,2,3]]]
["ok",4]
["done",5,3,7,[[4,5,9]]]
"#,
    r#"["err",1,411]
["err",2,412]
["ok",3]
["done",4,16,32,[[16]]]
["err",5,425,2]
"#,
];

/// Lines of two tenants, what they are told, and the order of events.
const ROWS: [(&str, [&str; 2], &str); 7] = [
    (ALONE, ALONE_TOLD, "first"),
    (ALONE, ALONE_TOLD, "last"),
    (BESIDE, BESIDE_TOLD, "first"),
    (BESIDE, BESIDE_TOLD, "last"),
    (LINES, LINES_TOLD, "first"),
    (LINES, LINES_TOLD, "last"),
    (LINES, LINES_TOLD, "middle"),
];

/// Two tenants all of whose lines are answered, in this order of events.
fn answered(alloc: Global, lines: &str, order: &str) -> Result<World, AllocError> {
    let mut world = world_of(alloc, 2, Limits::usual(), &Store::empty(alloc))?;
    ask(alloc, &mut world, lines)?;
    answer(alloc, &mut world, order)?;
    Ok(world)
}

/// Whether both are told this once all lines are answered in this order of events.
fn are_told(
    alloc: Global,
    lines: &'static str,
    said: [&str; 2],
    order: &str,
) -> Result<bool, AllocError> {
    let world = answered(alloc, lines, order)?;
    let [one, two] = said;
    Ok(told(alloc, &world, 0)?.as_str() == one && told(alloc, &world, 1)?.as_str() == two)
}

/// The number of the first row that is told otherwise.
fn first_other(alloc: Global) -> Option<usize> {
    for (number, (lines, said, order)) in ROWS.iter().enumerate() {
        if are_told(alloc, lines, *said, order) != Ok(true) {
            return Some(number);
        }
    }
    None
}

#[test]
fn each_order_of_events_gives_the_same_replies(rt: HostRuntime) {
    assert_eq!(rt; first_other(rt.alloc()), None);
}

/// Of each tenant, whether a world in which the first is alone agrees with one in which it is beside the second.
fn agreements(alloc: Global) -> Result<[bool; 2], AllocError> {
    let alone = answered(alloc, ALONE, "last")?;
    let beside = answered(alloc, BESIDE, "first")?;
    Ok([
        tell_alike(alloc, &alone, &beside, 0)?,
        tell_alike(alloc, &alone, &beside, 1)?,
    ])
}

#[test]
fn worlds_agree_on_a_tenant_that_asks_the_same(rt: HostRuntime) {
    assert_eq!(rt; agreements(rt.alloc()), Ok([true, false]));
}
