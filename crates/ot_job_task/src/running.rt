use ot_owner::{Lent, Right, RightRoom};
use ot_parts::Assigns;
use std::marker::Model;

/// What a task keeps of its piece that is out: the worker that has it, the sets and folds, which the piece
/// shares, and what it holds.
#[derive(Debug, Drop)]
pub struct Running {
    worker: u32,
    assigns: Assigns,
    right: Right,
}

impl Model for Running {
    ghost use Rattle.std.specs.Coded.{codes};
    ghost use Rattle.ot_model.specs.Code.{body_code};
    ghost use Rattle.ot_job_task.specs.Regions.{Run};

    ghost Value = { Run };

    ghost coded = { Prim.hlevel (codes, body_code) };

    ghost view = { λ r. record { worker = r.worker; assigns = r.assigns; lease = r.right } };
}

impl Running {
    ghost use Rattle.std.specs.Prelude.{◌≡◌, ◌↔◌, IsTrue};
    ghost use Rattle.ot_owner.specs.Lending.{lease_of, uses_of};

    /// The record of a piece with these sets and folds, for which this was lent to the worker. It takes no
    /// memory.
    pub fn new(worker: u32, assigns: Assigns, room: RightRoom, lent: &Lent) -> Running
        requires { uses_of lent.now ≡ room }
        ensures { result ≡ record { worker = worker; assigns = assigns; lease = lease_of lent.now } }
    {
        Running {
            worker,
            assigns,
            right: room.fill(lent.cells()),
        }
    }

    /// The worker that has the piece.
    pub(crate) fn worker(&self) -> u32
        ensures { result ≡ self.now.worker }
    {
        self.worker
    }

    /// Whether it is of these sets and folds, on these inputs.
    pub(crate) fn is_of(&self, assigns: &Assigns, lent: &Lent) -> bool
        ensures { IsTrue result ↔ (self.now.assigns ≡ assigns.now) × (self.now.lease ≡ lease_of lent.now) }
    {
        self.assigns.same_as(assigns) && self.right.is_behind(lent.cells())
    }
}
