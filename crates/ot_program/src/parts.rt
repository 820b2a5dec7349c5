//! The parts of one statement that stand in a list.
use crate::fault::{ProgramFault, Refusal};
use std::alloc::{AllocError, Global};
use std::marker::Model;

/// What was read of the parts. Each is looked at, also behind a fault, and of their faults the first in the order is told.
#[derive(Drop)]
pub(crate) struct Parts<T: Drop> {
    read: Vec<T>,
    fault: Option<Refusal>,
}

impl<T: Drop> Model for Parts<T> {
    ghost use Rattle.std.specs.Prelude.{List, Result};
    ghost use Rattle.ot_program.specs.declared.fault.Refusal.{Refusal};
    ghost use Rattle.ot_program.specs.walk.Together.{so_far};

    ghost Value = { Result (List T) Refusal };

    ghost view = { λ p. so_far p.fault p.read.items };
}

impl<T: Drop> Parts<T> {
    ghost use Rattle.std.specs.Prelude.{◌≡◌, [], Ok, OnOk};
    ghost use Rattle.ot_program.specs.Returned.{Gives};
    ghost use Rattle.ot_program.specs.walk.Together.{with_part};

    pub(crate) fn new(alloc: Global) -> Parts<T>
        ensures { result ≡ Ok [] }
    {
        Parts {
            read: Vec::new(alloc),
            fault: None,
        }
    }

    /// One part more, or its fault.
    pub(crate) fn put(&mut self, part: Result<T, Refusal>) -> Result<(), AllocError>
        ensures { OnOk result (self.new ≡ with_part self.old part) }
    {
        match (part, self.fault) {
            (Ok(part), _) => self.read.push(part)?,
            (Err(refusal), None) => self.fault = Some(refusal),
            (Err(refusal), Some(earlier)) => self.fault = Some(earlier.first(refusal)),
        }
        Ok(())
    }

    /// All parts, or the fault that is told of them.
    pub(crate) fn all(self) -> Result<Vec<T>, ProgramFault>
        ensures { Gives (λ v. v.items) result self }
    {
        match self.fault {
            None => Ok(self.read),
            Some(refusal) => Err(ProgramFault::Refused(refusal)),
        }
    }
}
