ghost use Rattle.std.specs.Prelude.{◌≡◌, IfOk, IfErr};
ghost use Rattle.ot_book.specs.declared.executor.NotDone.TheVariants.{Memory};
ghost use Rattle.ot_check.specs.Jobs.{Spec, IsMeaning};

use ot_check::{JobSpec, Outcome};
use ot_model::plain_run;
use std::alloc::{AllocError, Global};
use thiserror::Error;

/// Why a job has no outcome.
#[derive(Clone, Copy, Debug, PartialEq, Eq, Error)]
pub enum NotDone {
    #[error("no memory")]
    Memory,
    /// There is no pool to run on.
    #[error("closed")]
    Closed,
    /// The pool holds another job of this tenant, has none to collect, or has no such tenant.
    #[error("stranger")]
    Stranger,
}

impl From<AllocError> for NotDone {
    ghost from_gives = { λ _ e. e ≡ Memory };

    fn from(_error: AllocError) -> NotDone {
        NotDone::Memory
    }
}

/// What runs jobs.
pub trait Executor {
    /// Runs the job whole: the outcome is the serial meaning of its program from its cells.
    fn perform(&mut self, alloc: Global, spec: &JobSpec) -> Result<Outcome, NotDone>
        ensures { IfOk result (λ outcome. IsMeaning spec.now outcome) };
}

/// Runs jobs in the caller's thread, each task where it is created.
#[derive(Clone, Copy, Debug, PartialEq, Eq)]
pub struct Solo;

impl Executor for Solo {
    /// It refuses for want of memory alone.
    fn perform(&mut self, alloc: Global, spec: &JobSpec) -> Result<Outcome, NotDone>
        ensures meaning { IfOk result (λ outcome. IsMeaning spec.now outcome) }
        ensures memory { IfErr result (λ e. e ≡ Memory) }
    {
        let program = &spec.checked().program;
        let mut cells = spec.before().copy(alloc)?;
        let counts = plain_run(alloc, program, &mut cells)?;
        Ok(Outcome { cells, counts })
    }
}
