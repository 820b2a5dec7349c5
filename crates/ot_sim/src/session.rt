//! Sim from bytes to bytes: lines come in, and each is answered before the next is taken.
ghost use Rattle.std.specs.Prelude.{◌≡◌};
ghost use Rattle.ot_lines.specs.Lines.{hearing_opened};
ghost use Rattle.ot_sim.specs.Playing.{empty_play};
ghost use Rattle.ot_sim.specs.Running.{sim_bounds, IsSimRun, PlaysHeldLine};

use crate::fault::{SimFault, Untold};
use crate::play::Play;
use ot_lines::{Bounds, Ended, LineFault, Lines, Listener, Source, listen};
use ot_session::Sink;
use std::alloc::Global;

/// How sim reads: a line has as many bytes as one of a session, and the words before it.
fn sim_bounds() -> Bounds
    ensures { result ≡ sim_bounds }
{
    Bounds {
        line: 65_600,
        read: 65_536,
        reads: 1_000_000,
    }
}

/// Takes the lines of `source`, in a world of the tenants that its first lines make, and writes what
/// each is answered to `sink`, whole before the next is taken. A rest without its LF is no line.
pub fn sim_lines<R: Source, W: Sink>(
    alloc: Global,
    source: &mut R,
    sink: &mut W,
) -> Result<(), SimFault>
    ensures { IsSimRun (R.flow source.old) (R.flow source.new) (W.draft sink.old) (W.draft sink.new) result }
{
    let Ok(mut lines) = Lines::new(alloc, sim_bounds()) else {
        return Err(SimFault::Memory);
    };
    let mut play = Play::new(alloc);
    let ended = play_lines(alloc, &mut lines, &mut play, source, sink);
    play.end();
    ended
}

/// Plays line by line.
fn play_lines<R: Source, W: Sink>(
    alloc: Global,
    lines: &mut Lines,
    play: &mut Play,
    source: &mut R,
    sink: &mut W,
) -> Result<(), SimFault>
    requires begun { lines.old ≡ hearing_opened sim_bounds }
    requires nobody { play.old ≡ empty_play }
    ensures { IsSimRun (R.flow source.old) (R.flow source.new) (W.draft sink.old) (W.draft sink.new) result }
{
    match listen(lines, source, &mut Player { alloc }, play, sink) {
        Ok(Ended::Stopped(untold)) => Err(untold.fault()),
        Ok(Ended::End) => Ok(()),
        Ok(Ended::Long) => Err(SimFault::LongLine),
        Err(LineFault::ReadFailed) => Err(SimFault::ReadFailed),
        Err(LineFault::TooManyReads) => Err(SimFault::TooManyTurns),
    }
}

/// Takes the lines of sim.
#[derive(Drop)]
struct Player {
    alloc: Global,
}

impl<W: Sink> Listener<Play, W, Untold> for Player {
    ghost took = { λ old sink line new next result. PlaysHeldLine old (W.draft sink) line new (W.draft next) result };

    fn take(&mut self, play: &mut Play, sink: &mut W, line: &[u8]) -> Result<(), Untold> {
        play.take(self.alloc, line, sink)
    }
}
