use crate::fault::Refusal;
use crate::limits::{MAX_CELLS, MAX_NODES, MAX_STATEMENTS, MAX_TURNS};
use ot_model::Section;

/// What was counted of a program so far: its statements, its task statements, the turns of its
/// `for`s, the nodes of its values, and the cells of its sections.
#[derive(Clone, Copy, Debug, PartialEq, Eq)]
pub(crate) struct Counts {
    pub(crate) statements: u32,
    pub(crate) tasks: u32,
    pub(crate) turns: u32,
    pub(crate) nodes: u32,
    pub(crate) cells: u32,
}

impl Counts {
    ghost use Rattle.ot_program.specs.walk.Counting.{no_counts, more_counts, within_limits, one_turn, one_task};

    pub(crate) fn none() -> Counts
        ensures { result ≡ no_counts }
    {
        Counts {
            statements: 0,
            tasks: 0,
            turns: 0,
            nodes: 0,
            cells: 0,
        }
    }

    /// The counts with so many statements, nodes and cells more, where none passes its limit.
    pub(crate) fn plus(self, statements: u32, nodes: u32, cells: u32) -> Result<Counts, Refusal>
        ensures { result ≡ within_limits (more_counts self statements nodes cells) }
    {
        let statements = u64::from(self.statements) + u64::from(statements);
        let nodes = u64::from(self.nodes) + u64::from(nodes);
        let cells = u64::from(self.cells) + u64::from(cells);
        if statements <= MAX_STATEMENTS && nodes <= MAX_NODES && cells <= MAX_CELLS {
            Ok(Counts {
                statements: statements as u32,
                tasks: self.tasks,
                turns: self.turns,
                nodes: nodes as u32,
                cells: cells as u32,
            })
        } else {
            Err(Refusal::TooLarge)
        }
    }

    /// The counts with a turn of a `for` more.
    pub(crate) fn turn(self) -> Result<Counts, Refusal>
        ensures { result ≡ one_turn self }
    {
        if self.turns < MAX_TURNS {
            Ok(Counts {
                turns: self.turns + 1,
                ..self
            })
        } else {
            Err(Refusal::TooLarge)
        }
    }

    /// The counts with a task statement more, of which there may be `limit`.
    pub(crate) fn task(self, limit: u32) -> Result<Counts, Refusal>
        ensures { result ≡ one_task limit self }
    {
        if self.tasks < limit {
            Ok(Counts {
                tasks: self.tasks + 1,
                ..self
            })
        } else {
            Err(Refusal::TooManyTasks)
        }
    }
}

ghost use Rattle.std.specs.Prelude.{◌≡◌, ◌-◌, ◌^◌, min};
ghost use Rattle.ot_program.specs.Limits.{cells_in};

/// How many cells sections have, or the greatest number of 32 bits where they have more.
pub(crate) fn cells(sections: &[Section]) -> u32
    ensures { result ≡ min (cells_in sections.now) (2 ^ 32 - 1) }
{
    let mut total: u32 = 0;
    for section in sections {
        total = total.saturating_add(section.len);
    }
    total
}
