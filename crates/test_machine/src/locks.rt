//! Small codes with locks, each with what is told of it.
use crate::codes::code_of;
use crate::telling::told_apart;
use std::alloc::{AllocError, Global};
use std::test::Fail;

/// What is told, and a code, in which `changes` says what tasks write under locks. In this order: a task's store beside one by its parent, both
/// under one lock; under two locks; the parent's without one; a child's store while its parent holds the lock; a store under two locks beside
/// one under the second of them; under one that was given back before; the end of the object's life under the lock; the item of a
/// region whose end is under the lock; a lock by a place, and by another place of the same object; what is written under a lock isn't
/// known, so a branch asks; nor is it without a lock; another object's value is known under one.
const TOLD: &str =
    r#"5 0 none|changes 7; begin 0 1 7; number 1 5; copy 2 0; copy 3 1; task 20 2 2 9 0; lock 30 1; store 21 0 1; unlock 31 1; finish; lock 32 1; store 22 0 1; unlock 33 1; wait 23; end 24 0; stop
3 0 21 22 7.0|changes 7; begin 0 1 7; number 1 5; number 4 6; copy 2 0; copy 3 1; task 20 2 2 10 0; lock 30 1; store 21 0 1; unlock 31 1; finish; lock 32 4; store 22 0 1; unlock 33 4; stop
3 0 21 22 7.0|changes 7; begin 0 1 7; number 1 5; copy 2 0; copy 3 1; task 20 2 2 9 0; lock 30 1; store 21 0 1; unlock 31 1; finish; store 22 0 1; stop
3 0 21 22 7.0|changes 7; begin 0 1 7; number 1 5; lock 30 1; copy 2 0; copy 3 1; task 20 2 2 8 0; store 21 0 1; finish; store 22 0 1; unlock 31 1; stop
3 0 none|changes 7; begin 0 1 7; number 1 5; number 4 6; copy 2 0; copy 3 4; task 20 2 2 10 0; lock 30 1; store 21 0 1; unlock 31 1; finish; lock 32 1; lock 34 4; store 22 0 1; unlock 35 1; unlock 33 4; stop
3 0 21 22 7.0|changes 7; begin 0 1 7; number 1 5; number 4 6; copy 2 0; copy 3 1; task 20 2 2 10 0; lock 30 1; store 21 0 1; unlock 31 1; finish; lock 32 1; lock 34 4; unlock 35 1; store 22 0 1; unlock 33 4; stop
3 0 21 70 7.0|changes 7; begin 0 1 7; number 1 5; copy 2 0; copy 3 1; task 20 2 2 9 0; lock 30 1; store 21 0 1; unlock 31 1; finish; lock 32 1; end 70 0; unlock 33 1; stop
3 0 21 62 7.0|changes 7; begin 0 1 7; number 1 1; copy 2 0; copy 3 1; task 20 2 2 9 0; lock 30 1; store 21 0 1; unlock 31 1; finish; lock 32 1; group 60 0 1; leave 62; unlock 33 1; stop
3 0 none|changes 7; begin 0 1 7; begin 1 2 8; copy 2 0; copy 3 1; task 20 2 2 9 0; lock 30 1; store 21 0 1; unlock 31 1; finish; lock 32 1; store 22 0 1; unlock 33 1; stop
3 0 21 22 7.0|changes 7; begin 0 1 7; begin 1 2 8; number 5 1; advance 4 1 5 1; copy 2 0; copy 3 1; task 20 2 2 11 0; lock 30 1; store 21 0 1; unlock 31 1; finish; lock 32 4; store 22 0 1; unlock 33 4; stop
2 1 none|changes 7; begin 0 1 7; number 1 5; lock 30 1; store 21 0 1; load 22 2 0; unlock 31 1; branch 40 2 7; stop
2 1 none|changes 7; begin 0 1 7; number 1 5; lock 30 1; store 21 0 1; unlock 31 1; load 22 2 0; branch 40 2 7; stop
2 0 none|changes 8; begin 0 1 7; number 1 5; store 21 0 1; lock 30 1; load 22 2 0; unlock 31 1; branch 40 2 7; stop
"#;

/// In this order: a lock that is held already, and one that the parent holds; one that isn't held, and one that the parent holds; null, and what
/// isn't known; a store under a lock to what the code doesn't name, and to all of an array; more locks at once
/// than a task may hold, and more one after the other than there may be.
const FAULTS: &str = r#"Taken 2 0 none|number 1 5; lock 30 1; lock 31 1; stop
Taken 4 0 none|number 1 5; lock 30 1; copy 2 1; task 20 2 1 6 0; lock 31 0; finish; stop
NotHeld 1 0 none|number 1 5; unlock 31 1; stop
NotHeld 4 0 none|number 1 5; lock 30 1; copy 2 1; task 20 2 1 6 0; unlock 31 0; finish; stop
Null 1 0 none|number 1 0; lock 30 1; stop
NoPlace 1 0 none|unknown 1; lock 30 1; stop
Changes(7) 3 0 none|begin 0 1 7; number 1 5; lock 30 1; store 21 0 1; unlock 31 1; stop
Changes(7) 3 0 none|changes 8; begin 0 4 7; number 1 3; lock 30 1; writerange 21 0 1; unlock 31 1; stop
TooManyLocks 5 0 none|number 0 1; number 1 2000; number 2 1; less 3 0 1; repeat 30 3 8; lock 31 0; add 0 0 2; jump 3; stop
TooManyLocks 5 0 none|number 0 1; number 1 2000; number 2 1; less 3 0 1; repeat 30 3 9; lock 31 0; unlock 32 0; add 0 0 2; jump 3; stop
"#;

/// Tasks that depend by object 7 and touch object 8. In this order: two of `inoutset`, two of `mutexinoutset`; `inoutset` and then `in`, and
/// then `inout`; `mutexinoutset` of children of two tasks; a wait of `in` behind `inoutset`, and one of `inoutset`; `mutexinoutset` and then
/// `inoutset`; `in` and then `inoutset`.
const SETS: &str =
    r#"5 0 21 25 8.0|begin 0 1 7; begin 1 1 8; copy 2 1; copy 3 1; task 20 2 2 7 0 3 0; store 21 0 1; finish; copy 2 1; task 24 2 2 11 0 3 0; store 25 0 1; finish; stop
5 0 none|changes 8; begin 0 1 7; begin 1 1 8; copy 2 1; copy 3 1; task 20 2 2 7 0 2 0; store 21 0 1; finish; copy 2 1; task 24 2 2 11 0 2 0; store 25 0 1; finish; stop
6 0 none|begin 0 1 7; begin 1 1 8; copy 2 1; copy 3 1; task 20 2 2 7 0 3 0; store 21 0 1; finish; copy 2 1; task 24 2 2 11 0 0 0; load 25 1 0; finish; stop
5 0 none|begin 0 1 7; begin 1 1 8; copy 2 1; copy 3 1; task 20 2 2 7 0 3 0; store 21 0 1; finish; copy 2 1; task 24 2 2 11 0 1 0; load 25 1 0; finish; stop
8 0 21 25 8.0|changes 8; begin 0 1 7; begin 1 1 8; copy 2 0; copy 3 1; task 10 2 4 11 0; copy 2 1; copy 3 1; task 20 2 2 10 0 2 0; store 21 0 1; finish; finish; copy 2 0; copy 3 1; task 12 2 4 20 0; copy 2 1; copy 3 1; task 24 2 2 19 0 2 0; store 25 0 1; finish; finish; stop
5 0 none|begin 0 1 7; begin 1 1 8; copy 2 1; copy 3 1; task 20 2 2 7 0 3 0; store 21 0 1; finish; waitfor 23 0 0; load 25 4 1; stop
5 0 21 25 8.0|begin 0 1 7; begin 1 1 8; copy 2 1; copy 3 1; task 20 2 2 7 0 3 0; store 21 0 1; finish; waitfor 23 3 0; load 25 4 1; stop
6 0 none|changes 8; begin 0 1 7; begin 1 1 8; copy 2 1; copy 3 1; task 20 2 2 7 0 2 0; store 21 0 1; finish; copy 2 1; task 24 2 2 11 0 3 0; store 25 0 1; finish; stop
5 0 none|begin 0 1 7; begin 1 1 8; copy 2 1; copy 3 1; task 20 2 2 7 0 0 0; load 21 1 0; finish; copy 2 1; task 24 2 2 11 0 3 0; store 25 0 1; finish; stop
"#;

fn passed(alloc: Global, table: &'static str) -> Result<(u32, String), AllocError> {
    let mut rows = 0u32;
    for line in table.lines() {
        if let Some((row, text)) = line.split_once("|") {
            let code = code_of(alloc, 8, &[], text)?;
            let told = told_apart(alloc, &code)?;
            if told.as_str() != row {
                return Ok((rows, format!(in alloc; "{line} {told}")?));
            }
            rows = rows.wrapping_add(1);
        }
    }
    Ok((rows, String::new(alloc)))
}

#[test]
fn locks(rt: HostRuntime) -> Result<(), Fail> {
    let (rows, wrong) = passed(rt.alloc(), TOLD)?;
    assert!(rt; rows == 13, "{wrong}");
    Ok(())
}

#[test]
fn faults_of_locks(rt: HostRuntime) -> Result<(), Fail> {
    let (rows, wrong) = passed(rt.alloc(), FAULTS)?;
    assert!(rt; rows == 10, "{wrong}");
    Ok(())
}

#[test]
fn sets_of_siblings(rt: HostRuntime) -> Result<(), Fail> {
    let (rows, wrong) = passed(rt.alloc(), SETS)?;
    assert!(rt; rows == 9, "{wrong}");
    Ok(())
}
