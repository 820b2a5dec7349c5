//! Codes with many steps and events, which end in a moment.
use crate::codes::code_of;
use ot_exec_machine::{Limits, Reason, run_code};
use std::alloc::{AllocError, Global};
use std::test::Fail;

/// What the run of a code of 8 slots comes to, with the usual limits: its fault, or no fault, and how many events it has.
fn ran(alloc: Global, text: &str) -> Result<(Option<Reason>, usize), AllocError> {
    let code = code_of(alloc, 8, &[], text)?;
    let none = Vec::new(alloc);
    let run = run_code(alloc, &code, Limits::usual(), &none)?;
    let reason = match run.fault {
        Some(fault) => Some(fault.reason),
        None => None,
    };
    Ok((reason, run.log.len()))
}

/// A loop of 3,900,000 turns, each with 5 forms.
#[test]
fn long_loop(rt: HostRuntime) -> Result<(), Fail> {
    let text =
        "number 0 0; number 1 3900000; number 2 1; less 3 0 1; repeat 30 3 8; turn 31 0; add 0 0 2; jump 3; stop";
    let (reason, events) = ran(rt.alloc(), text)?;
    assert!(rt; reason.is_none() && events == 0);
    Ok(())
}

/// A loop that doesn't end.
#[test]
fn endless_loop(rt: HostRuntime) -> Result<(), Fail> {
    let (reason, _) = ran(rt.alloc(), "number 2 1; add 0 0 2; jump 1")?;
    assert!(rt; reason == Some(Reason::TooManySteps));
    Ok(())
}

/// As many stores as there may be events, and one more.
#[test]
fn many_stores(rt: HostRuntime) -> Result<(), Fail> {
    let text =
        "begin 4 8 7; number 0 0; number 1 2000000; number 2 1; less 3 0 1; repeat 30 3 9; store 11 4 0; add 0 0 2; jump 4; stop";
    let (reason, _) = ran(rt.alloc(), text)?;
    assert!(rt; reason == Some(Reason::TooManyEvents));
    Ok(())
}

/// An object with as many cells as there may be, which are written at once.
#[test]
fn large_object(rt: HostRuntime) -> Result<(), Fail> {
    let text = "begin 4 16777216 7; number 0 16777216; writerange 11 4 0; load 12 5 4; stop";
    let (reason, _) = ran(rt.alloc(), text)?;
    assert!(rt; reason == Some(Reason::TooManyEvents));
    Ok(())
}
