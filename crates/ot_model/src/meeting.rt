ghost use Rattle.std.specs.Prelude.{◌≡◌, ◌↔◌, IsTrue};
ghost use Rattle.ot_model.specs.Cells.{AreInOrder, MeetAtACell};
ghost use Rattle.ot_model.specs.Meeting.{asked};

use crate::stmt::{Mode, Use};

/// What is asked of two uses of one cell.
#[derive(Clone, Copy)]
pub(crate) enum Question {
    /// Whether they conflict.
    Conflicts,
    /// Whether at least one of them writes.
    IsWritten,
}

impl Question {
    fn is_met(self, one: Mode, two: Mode) -> bool
        ensures { result ≡ asked self one two }
    {
        match self {
            Question::Conflicts => one.conflicts(two),
            Question::IsWritten => one.one_writes(two),
        }
    }
}

/// Whether two lists of uses, each in order, have uses of one cell of which the question is met. It
/// passes once over both.
pub(crate) fn meet(question: Question, ones: &[Use], twos: &[Use]) -> bool
    requires ones { AreInOrder ones.now }
    requires twos { AreInOrder twos.now }
    ensures { IsTrue result ↔ MeetAtACell (asked question) ones.now twos.now }
{
    let mut i = 0;
    let mut j = 0;
    while i < ones.len() && j < twos.len() {
        let one = ones[i];
        let two = twos[j];
        if one.cell.is_before(two.cell) {
            i += 1;
        } else if two.cell.is_before(one.cell) {
            j += 1;
        } else if question.is_met(one.mode, two.mode) {
            return true;
        } else {
            i += 1;
            j += 1;
        }
    }
    false
}
