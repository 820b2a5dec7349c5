//! The task graph of a run.
ghost use Rattle.std.specs.Prelude.{◌≡◌, IfOk};
ghost use Rattle.ot_model.specs.Programs.{expanded_of};
ghost use Rattle.ot_check.specs.Jobs.{meaning_of};
ghost use Rattle.ot_show_graph.specs.Passing.{families, passed_by, AwaitExactly};
ghost use Rattle.ot_show_graph.specs.Graphs.{families_of, marks_of};

use crate::family::Family;
use crate::mark::Mark;
use crate::run::{Region, Run, run_all};
use ot_check::JobSpec;
use ot_model::Counts;
use std::alloc::{AllocError, Global};

/// The tasks of a run, each executed where it is created.
#[derive(Debug, Drop)]
pub struct Graph<'a> {
    /// The children of each body that is run, and who of them waits for whom by itself: of each task behind the
    /// tasks in it, and of the program last.
    pub families: Vec<Family<'a>>,
    /// What the run passes, in order: each task where it is created, waits, and where groups begin and end.
    pub marks: Vec<Mark<'a>>,
    /// How many tasks there are.
    pub tasks: u32,
}

/// The task graph of a program that is run from its cells: the families, each with its children and their numbers and
/// places, and the marks, each wait with the children that it awaits, are those of the serial run, and the links of each
/// family are those of its children.
pub fn graph_of<'a>(alloc: Global, spec: &'a JobSpec) -> Result<Graph<'a>, AllocError>
    ensures families { IfOk result (λ graph. families_of graph.families.items ≡ families (expanded_of spec.now.checked.program).body spec.now.before) }
    ensures marks { IfOk result (λ graph. marks_of graph.marks.items ≡ passed_by (expanded_of spec.now.checked.program).body spec.now.before) }
    ensures awaited { IfOk result (λ graph. AwaitExactly (marks_of graph.marks.items)) }
    ensures tasks { IfOk result (λ graph. graph.tasks ≡ (meaning_of spec.now).tasks) }
{
    let cells = spec.before().copy(alloc)?;
    let checked = spec.checked();
    let mut run = Run {
        cells,
        counts: Counts { tasks: 0, units: 0 },
        families: Vec::new(alloc),
        marks: Vec::new(alloc),
    };
    let mut region = Region {
        parent: 0,
        children: Vec::new(alloc),
        pending: Vec::new(alloc),
    };
    run_all(alloc, &checked.program.body, &mut run, &mut region, 1)?;
    let Region {
        parent,
        children,
        pending: _,
    } = region;
    let family = Family::of(alloc, parent, children)?;
    run.families.push(family)?;
    let Run {
        cells: _,
        counts,
        families,
        marks,
    } = run;
    Ok(Graph {
        families,
        marks,
        tasks: counts.tasks,
    })
}
