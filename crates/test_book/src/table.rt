//! Tables of texts and of what is told of them, and the first row that is told something else.
use super::awaiting::awaited;
use super::children::finished;
use super::declarations::met;
use super::limits::{counted, grown};
use super::programs::{printed, printed_copy};
use super::reading::two_arrays;
use super::rights::lent;
use super::rows::combined;
use ot_model::Shape;
use std::alloc::{AllocError, Global};
use std::process::Abort;

/// What a table asks of its texts.
#[derive(Clone, Copy)]
pub(crate) enum Asked {
    /// Its program, printed.
    Program,
    /// A copy of its program, printed.
    Copy,
    /// How many statements and task statements it has.
    Counts,
    /// The same, of a text that has a part many times over.
    Grown,
    /// What its two tasks are to each other.
    Pair,
    /// Which children are ready once so many have finished.
    Finished,
    /// Whether a wait has to wait, and for how many of its children at most.
    Awaiting,
    /// What comes of a lease.
    Lent,
    /// What comes of leases to workers that fold.
    Combined,
}

/// Asserts that each text of a table is told what its row gives.
pub(crate) fn assert_rows(
    rt: &impl Abort,
    alloc: Global,
    asked: Asked,
    shape: [u32; 3],
    rows: &'static str,
) {
    let [a, b, tasks] = shape;
    match two_arrays(alloc, a, b, tasks) {
        Ok(shape) => assert_eq!(rt; first_other(alloc, asked, &shape, rows), None),
        Err(_) => panic!(rt; "no memory"),
    }
}

/// The first row of a table that is told something else than it gives, want of memory among it. Each
/// row is a line: a text, ` gives `, and what is told of it.
fn first_other(
    alloc: Global,
    asked: Asked,
    shape: &Shape,
    rows: &'static str,
) -> Option<&'static str> {
    for row in rows.lines() {
        if !is_right(alloc, asked, shape, row) {
            return Some(row);
        }
    }
    None
}

fn is_right(alloc: Global, asked: Asked, shape: &Shape, row: &str) -> bool {
    let Some((text, gives)) = row.split_once(" gives ") else {
        return false;
    };
    match told(alloc, asked, text, shape) {
        Ok(said) => said.as_str() == gives,
        Err(_) => false,
    }
}

fn told(alloc: Global, asked: Asked, text: &str, shape: &Shape) -> Result<String, AllocError> {
    match asked {
        Asked::Program => printed(alloc, text, shape),
        Asked::Copy => printed_copy(alloc, text, shape),
        Asked::Counts => counted(alloc, text, shape),
        Asked::Grown => grown(alloc, text, shape),
        Asked::Pair => met(alloc, text, shape),
        Asked::Finished => finished(alloc, text),
        Asked::Awaiting => awaited(alloc, text, shape),
        Asked::Lent => lent(alloc, text),
        Asked::Combined => combined(alloc, text),
    }
}
