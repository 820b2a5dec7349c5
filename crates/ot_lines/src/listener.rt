//! Lines, one after another, for who takes them.
ghost use Rattle.ot_lines.specs.Lines.{Listens};

use crate::lines::{Heard, LineFault, Lines};
use crate::source::Source;

/// Who takes lines into a state and answers them. Each answer is made before the next line is heard.
pub trait Listener<S, A, X> {
    ghost use Rattle.std.specs.Prelude.{ℕ, List, Result, ⊤};

    // What a line does to the state and the answers, and whether the next one may be taken.
    ghost took: { S → A → List ℕ → S → A → Result ⊤ X → Type 0 };

    /// Takes a line, without its LF. An error tells why no further line is to be taken.
    fn take(&mut self, state: &mut S, answers: &mut A, line: &[u8]) -> Result<(), X>
        ensures { took state.old answers.old line.now state.new answers.new result };
}

/// How a stream was listened to.
#[derive(Clone, Copy, Debug, PartialEq, Eq)]
pub enum Ended<X> {
    /// To its end.
    End,
    /// To a line that is too long.
    Long,
    /// To the line that stopped who listens.
    Stopped(X),
}

/// Takes line after line.
pub fn listen<R: Source, S, A, X, L: Listener<S, A, X>>(
    lines: &mut Lines,
    source: &mut R,
    listener: &mut L,
    state: &mut S,
    answers: &mut A,
) -> Result<Ended<X>, LineFault>
    ensures { Listens L.took lines.old (R.flow source.old) state.old answers.old
        lines.new (R.flow source.new) state.new answers.new result }
{
    loop {
        match lines.next(source) {
            Ok(Heard::Line) => {}
            Ok(Heard::End) => return Ok(Ended::End),
            Ok(Heard::Long) => return Ok(Ended::Long),
            Err(fault) => return Err(fault),
        }
        if let Err(why) = listener.take(state, answers, lines.line()) {
            return Ok(Ended::Stopped(why));
        }
    }
}
