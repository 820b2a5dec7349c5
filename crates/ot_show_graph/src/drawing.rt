//! The task graph of the last run of a session.
ghost use Rattle.std.specs.Prelude.{◌≡◌, IfOk};
ghost use Rattle.ot_show_last.specs.LastRuns.{beginner};
ghost use Rattle.ot_show_graph.specs.Drawn.{Draws, DrawsLast};

use crate::dot::dot_text;
use crate::graph::graph_of;
use ot_book::Book;
use ot_session::Source;
use ot_show_last::{LastFault, LastRun, last_run_in};
use std::alloc::{AllocError, Global};

/// A task graph as text.
#[derive(Debug, Drop)]
pub struct Drawing {
    /// A digraph in the language of `dot`.
    pub text: String,
    /// How many tasks it has.
    pub tasks: u32,
}

/// The task graph of the last program that a session runs, which the book of a tenant that begins takes.
pub fn draw<R: Source>(alloc: Global, book: &mut Book, source: &mut R) -> Result<Drawing, LastFault>
    requires { book.old ≡ beginner }
    ensures { IfOk result (λ drawing. DrawsLast (R.flow source.old).ahead (R.flow source.new).ahead drawing) }
{
    match last_run_in(alloc, book, source) {
        Ok(last) => drawing_of(alloc, &last),
        Err(fault) => Err(fault),
    }
}

fn drawing_of(alloc: Global, last: &LastRun) -> Result<Drawing, LastFault>
    ensures { IfOk result (λ drawing. Draws last.now.spec last.now.arrays.items drawing) }
{
    match drawn(alloc, last) {
        Ok(drawing) => Ok(drawing),
        Err(_) => Err(LastFault::Memory),
    }
}

fn drawn(alloc: Global, last: &LastRun) -> Result<Drawing, AllocError>
    ensures { IfOk result (λ drawing. Draws last.now.spec last.now.arrays.items drawing) }
{
    let graph = graph_of(alloc, &last.spec)?;
    let text = dot_text(alloc, &graph, last.arrays.as_slice())?;
    Ok(Drawing {
        text,
        tasks: graph.tasks,
    })
}
