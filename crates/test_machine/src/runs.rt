//! Small codes, each with what is told of it.
use crate::codes::code_of;
use crate::telling::{told, told_of_faults};
use std::alloc::{AllocError, Global};
use std::test::Fail;

/// What is told, and a code. In this order: nothing; a store and a load; the second of three cells; a task's store beside a load, and
/// with a wait between them; the same with an undeferred task, and with one of which that isn't known; a chain of two tasks, and two
/// tasks without it; a wait for the cell, and for another one; tasks of three turns of a loop; a task that takes part in a region's
/// reduction, and one where no region is open; a task's store beside the end of the region, and beside a load in it.
const TASKS: &str = r#"0 0 none|stop
2 0 none|begin 0 4 7; number 1 5; store 11 0 1; load 12 2 0; stop
2 0 none|begin 0 4 7; number 1 1; advance 2 0 1 1; store 11 2 1; load 12 3 2; equal 4 1 3; branch 13 4 8; stop; number 0 0; load 99 1 0
3 0 21 22 7.0|begin 0 1 7; number 1 5; copy 2 0; copy 3 1; task 20 2 2 7 0; store 21 0 1; finish; load 22 4 0; stop
4 0 none|begin 0 1 7; number 1 5; copy 2 0; copy 3 1; task 20 2 2 7 0; store 21 0 1; finish; wait 23; load 22 4 0; stop
4 0 none|begin 0 1 7; number 1 5; copy 2 0; copy 3 1; number 4 0; task 20 2 2 8 5; store 21 0 1; finish; load 22 4 0; stop
4 1 21 22 7.0+|begin 0 1 7; number 1 5; copy 2 0; copy 3 1; unknown 4; task 20 2 2 8 5; store 21 0 1; finish; load 22 4 0; stop
5 0 none|begin 0 1 7; number 1 5; copy 2 0; copy 3 1; task 20 2 2 7 0 1 0; store 21 0 1; finish; task 24 2 2 10 0 0 0; load 25 1 0; finish; wait 23; stop
5 0 21 25 7.0|begin 0 1 7; number 1 5; copy 2 0; copy 3 1; task 20 2 2 7 0 1 0; store 21 0 1; finish; task 24 2 2 10 0; load 25 1 0; finish; wait 23; stop
4 0 none|begin 0 1 7; number 1 5; copy 2 0; copy 3 1; task 20 2 2 7 0 1 0; store 21 0 1; finish; waitfor 23 0 0; load 22 4 0; stop
4 0 21 22 7.0|begin 0 1 7; begin 1 1 8; copy 2 0; copy 3 1; task 20 2 2 7 0 1 0; store 21 0 1; finish; waitfor 23 0 1; load 22 4 0; stop
6 0 21<30:0 21<30:1 7.0|begin 0 1 7; number 1 0; number 2 3; number 3 1; context 4; within 4; less 5 1 2; repeat 30 5 16; turn 30 1; copy 6 0; copy 7 1; task 20 6 2 14 0; store 21 0 1; finish; add 1 1 3; jump 5; stop
3 0 none|begin 0 1 7; number 1 1; group 60 0 1; copy 2 0; copy 3 1; task 20 2 2 9 0; joins 61 0; number 1 1; finish; leave 62; load 63 4 0; stop
3 0 none|begin 0 4 7; number 1 4; group 60 0 1; number 2 3; advance 3 0 2 1; copy 4 3; copy 5 1; task 20 4 2 11 0; joins 61 0; number 1 1; finish; leave 62; load 63 6 0; stop
NoGroup 8 0 none|begin 0 4 7; number 1 3; group 60 0 1; number 2 3; advance 3 0 2 1; copy 4 3; copy 5 1; task 20 4 2 11 0; joins 61 0; number 1 1; finish; leave 62; load 63 6 0; stop
NoGroup 3 0 none|begin 0 1 7; copy 2 0; task 20 2 2 5 0; joins 61 0; finish; load 63 4 0; stop
4 0 none|begin 0 1 7; number 1 5; group 60; copy 2 0; copy 3 1; task 20 2 2 8 0; store 21 0 1; finish; leave 62; load 63 4 0; stop
4 0 21 63 7.0|begin 0 1 7; number 1 5; group 60; copy 2 0; copy 3 1; task 20 2 2 8 0; store 21 0 1; finish; load 63 4 0; leave 62; stop
"#;

/// In this order: null; beyond the last cell; before the first; a task's store beside the end of the object's life; a load behind that; a
/// branch by what isn't known, of which one way has a race; one of which one way has a fault; a store at an index that isn't known; all of
/// a range; what ends that didn't begin; a loop by what isn't known; one without end; a division by 0; objects of 8 times 4 cells, of an
/// unknown number, items of an unknown number, objects of too many cells; a call of what isn't known; an item that is no place; no form at all; a shift of pointers; null
/// beside a place; two ways with a race on the second.
const FAULTS: &str = r#"Null 1 0 none|number 0 0; load 1 2 0; stop
Outside 3 0 none|begin 0 4 7; number 1 4; advance 2 0 1 1; load 11 3 2; stop
Outside 7 0 none|begin 0 4 7; number 1 0; number 2 1; subtract 1 1 2; jump 6; stop; advance 3 0 1 1; store 12 3 1; stop
3 0 21 70 7.0|begin 0 1 7; number 1 5; copy 2 0; copy 3 1; task 20 2 2 7 0; store 21 0 1; finish; end 70 0; stop
Ended 2 0 none|begin 0 1 7; end 70 0; load 22 1 0; stop
3 1 21 22 7.0-|begin 0 1 7; number 1 5; copy 2 0; copy 3 1; task 20 2 2 7 0; store 21 0 1; finish; unknown 4; branch 31 4 10; wait 32; load 22 5 0; stop
Null 4 1 none|unknown 0; branch 31 0 3; stop; number 1 0; load 22 2 1; stop
3 0 21 22 7.3|begin 0 4 7; unknown 1; advance 2 0 1 1; copy 3 2; copy 4 1; task 20 3 2 8 0; store 21 0 1; finish; number 5 3; advance 6 0 5 1; load 22 7 6; stop
3 0 none|begin 0 4 7; unknown 1; advance 2 0 1 1 2; copy 3 2; copy 4 1; task 20 3 2 8 0; store 21 0 1; finish; number 5 2; advance 6 0 5 1; load 22 7 6; stop
3 0 21 22 7.1|begin 0 4 7; unknown 1; advance 2 0 1 1 2; copy 3 2; copy 4 1; task 20 3 2 8 0; store 21 0 1; finish; number 5 1; advance 6 0 5 1; load 22 7 6; stop
3 0 none|begin 0 4 7; number 5 1; advance 6 0 5 1; unknown 1; advance 2 6 1 1 2; copy 3 2; copy 4 1; task 20 3 2 10 0; store 21 0 1; finish; load 22 7 0; stop
3 0 21 22 7.3|begin 0 4 7; unknown 1; advance 2 0 1 1 9; copy 3 2; copy 4 1; task 20 3 2 8 0; store 21 0 1; finish; number 5 3; advance 6 0 5 1; load 22 7 6; stop
3 0 21 22 7.2|begin 0 4 7; number 1 3; copy 3 0; copy 4 1; task 20 3 2 7 0; writerange 21 0 1; finish; number 5 2; advance 6 0 5 1; load 22 7 6; stop
Broken 0 0 none|finish
Broken 0 0 none|return
Broken 0 0 none|leave 1
UnknownCondition 1 0 none|unknown 0; repeat 30 0 2; stop
TooManySteps 0 0 none|jump 0
DivideByZero 2 0 none|number 0 1; number 1 0; divide 2 0 1; stop
1 0 none|number 0 8; allocate 1 7 0 4; number 2 31; advance 3 1 2 1; store 11 3 2; stop
UnknownLength 1 0 none|unknown 0; allocate 1 7 0 4; stop
UnknownLength 2 0 none|begin 0 1 7; unknown 1; group 60 0 1; stop
TooMuch 1 0 none|number 0 4000000000; allocate 1 7 0 4000000000; stop
NoFunction 1 0 none|unknown 0; callby 40 0 1; stop
NoPlace 1 0 none|number 0 5; waitfor 23 1 0; stop
Broken 1 0 none|jump 1
0 0 none|begin 0 4 7; number 1 3; advance 2 0 1 1; number 3 0; equal 4 2 3; branch 13 4 7; jump 0; distance 5 2 0 1; equal 6 5 1; branch 14 6 11; stop; load 99 1 3
3 1 21 22 7.0-|begin 0 1 7; number 1 5; copy 2 0; copy 3 1; task 20 2 2 7 0; store 21 0 1; finish; unknown 4; branch 31 4 12; wait 32; load 22 5 0; stop; load 22 5 0; stop
"#;

fn passed(
    alloc: Global,
    functions: &[(u32, u32)],
    table: &'static str,
) -> Result<(u32, String), AllocError> {
    let mut rows = 0u32;
    for line in table.lines() {
        if let Some((row, text)) = line.split_once("|") {
            let code = code_of(alloc, 8, functions, text)?;
            let told = told(alloc, &code)?;
            if told.as_str() != row {
                return Ok((rows, format!(in alloc; "{line} {told}")?));
            }
            rows = rows.wrapping_add(1);
        }
    }
    Ok((rows, String::new(alloc)))
}

#[test]
fn tasks(rt: HostRuntime) -> Result<(), Fail> {
    let (rows, wrong) = passed(rt.alloc(), &[], TASKS)?;
    assert!(rt; rows == 18, "{wrong}");
    Ok(())
}

#[test]
fn faults(rt: HostRuntime) -> Result<(), Fail> {
    let (rows, wrong) = passed(rt.alloc(), &[], FAULTS)?;
    assert!(rt; rows == 28, "{wrong}");
    Ok(())
}

/// fib(10) by two tasks of each call, which is 55: 88 calls create tasks, each with 9 events. Then fib(2) without the wait for both.
const CALLS: &str =
    r#"792 0 none|number 0 10; call 39 0 0; number 1 55; equal 2 0 1; branch 51 2 6; stop; number 0 0; load 99 1 0; number 3 2; less 4 0 3; branch 40 4 12; return; begin 1 1 71 1; begin 2 1 72 1; copy 5 1; copy 6 0; task 41 5 4 22 0; number 3 1; subtract 2 1 3; call 42 0 2; store 43 0 2; finish; copy 5 2; copy 6 0; task 44 5 4 30 0; number 3 2; subtract 2 1 3; call 45 0 2; store 46 0 2; finish; wait 47; load 48 3 1; load 49 4 2; end 50 1; end 50 2; add 0 3 4; return
8 0 43<39 48<39 71.0|number 0 2; call 39 0 0; number 1 1; equal 2 0 1; branch 51 2 6; stop; number 0 0; load 99 1 0; number 3 2; less 4 0 3; branch 40 4 12; return; begin 1 1 71 1; begin 2 1 72 1; copy 5 1; copy 6 0; task 41 5 4 22 0; number 3 1; subtract 2 1 3; call 42 0 2; store 43 0 2; finish; copy 5 2; copy 6 0; task 44 5 4 30 0; number 3 2; subtract 2 1 3; call 45 0 2; store 46 0 2; finish; jump 31; load 48 3 1; load 49 4 2; end 50 1; end 50 2; add 0 3 4; return
"#;

#[test]
fn calls(rt: HostRuntime) -> Result<(), Fail> {
    let (rows, wrong) = passed(rt.alloc(), &[(8, 9)], CALLS)?;
    assert!(rt; rows == 2, "{wrong}");
    Ok(())
}

/// A call of itself without end.
#[test]
fn deep(rt: HostRuntime) -> Result<(), Fail> {
    let (rows, wrong) = passed(rt.alloc(), &[(0, 2)], "TooDeep 0 0 none|call 39 0 1; stop")?;
    assert!(rt; rows == 1, "{wrong}");
    Ok(())
}

/// The first fault on the ways of a code, with what is left of 4 ways: one question with a fault on the second way, and on the first;
/// two questions, and none on any of three ways; without a question; more ways than may be run, and more questions.
const WAYS: &str = r#"Null 4 2 -|unknown 0; branch 31 0 3; stop; number 1 0; load 22 2 1; stop
Null 3 3 +|unknown 0; branch 31 0 4; number 1 0; load 22 2 1; stop
none 1|unknown 0; branch 31 0 3; branch 31 0 3; stop
Broken 0 3 |finish
many 0|unknown 0; branch 31 0 2; branch 31 0 3; branch 31 0 4; stop
many 4|unknown 0; branch 31 0 2; branch 31 0 3; branch 31 0 4; branch 31 0 5; stop
"#;

#[test]
fn ways(rt: HostRuntime) -> Result<(), Fail> {
    let alloc = rt.alloc();
    let mut rows = 0u32;
    for line in WAYS.lines() {
        if let Some((row, text)) = line.split_once("|") {
            let code = code_of(alloc, 8, &[], text)?;
            let told = told_of_faults(alloc, &code, 3)?;
            assert!(rt; told.as_str() == row, "{line} {told}");
            rows = rows.wrapping_add(1);
        }
    }
    assert!(rt; rows == 6);
    Ok(())
}
