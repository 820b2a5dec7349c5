//! The first race of the run that begins with these cells.
ghost use Rattle.std.specs.Prelude.{◌≡◌, ◌<◌, ◌^◌, IfOk, length};
ghost use Rattle.ot_model.specs.View.{stmts_of};
ghost use Rattle.ot_model.specs.Cells.{lengths};
ghost use Rattle.ot_model.specs.Names.{NamedIn};
ghost use Rattle.ot_race.specs.Events.{events_of, this_way};
ghost use Rattle.ot_race.specs.Races.{TellsFirst};
ghost use Rattle.ot_race.specs.View.{events_in};

use crate::event::Event;
use crate::judging::judge;
use crate::race::Race;
use crate::run::{Owner, Run, run_all};
use ot_model::{Cells, Counts, Program};
use std::alloc::{AllocError, Global};

/// The first race of the run of a program that begins with these cells, or that nothing races in it.
pub fn this_run(alloc: Global, program: &Program, cells: Cells) -> Result<Option<Race>, AllocError>
    requires { NamedIn (lengths cells) (stmts_of program.now.body.items) }
    ensures { IfOk result (TellsFirst (events_of this_way (stmts_of program.now.body.items) cells)) }
{
    let events = run_events(alloc, program, cells)?;
    judge(alloc, &events)
}

/// The events of the serial run of a program that begins with these cells.
pub fn run_events(
    alloc: Global,
    program: &Program,
    cells: Cells,
) -> Result<Vec<Event<'_>>, AllocError>
    requires { NamedIn (lengths cells) (stmts_of program.now.body.items) }
    ensures events { IfOk result (λ events. events_in events.items ≡ events_of this_way (stmts_of program.now.body.items) cells) }
    ensures few { IfOk result (λ events. length events.items < 2 ^ 32) }
{
    let mut run = Run {
        cells,
        counts: Counts { tasks: 0, units: 0 },
        events: Vec::new(alloc),
    };
    let owner = Owner { task: 0, own: None };
    run_all(alloc, &program.body, &mut run, owner, 1)?;
    Ok(run.events)
}
