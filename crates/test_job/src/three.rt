//! Jobs over one array of three cells, of which is told what the cells hold and what they are worth.
ghost use Rattle.std.specs.Prelude.{◌≡◌, ◌∷◌, [], IsTrue, ◌≤◌};
ghost use Rattle.ot_model.specs.Cells.{lengths};

use ot_check::JobSpec;
use ot_job::{Done, Job, Piece, Refused};
use ot_model::Cell;
use std::alloc::{AllocError, Global};
use std::marker::Model;

const CELLS: [Cell; 3] = [
    Cell { array: 0, index: 0 },
    Cell { array: 0, index: 1 },
    Cell { array: 0, index: 2 },
];

/// Whether a spec begins with one array of three cells.
fn has_three(spec: &JobSpec) -> bool
    ensures { IsTrue result → lengths spec.now.before ≡ 3 ∷ [] }
{
    match spec.before().arrays() {
        [array] => array.len() == 3,
        _ => false,
    }
}

/// A job that is seen as the lengths of its arrays: it has one, of three cells.
#[derive(Debug, Drop)]
pub(crate) struct ThreeCells {
    job: Job,
}

impl Model for ThreeCells {
    ghost use Rattle.std.specs.Prelude.{◌≡◌, ◌∷◌, [], ℕ, List};
    ghost use Rattle.ot_model.specs.Cells.{lengths};

    ghost Value = { List ℕ };

    ghost view = { λ t. lengths t.job.cells };

    ghost invariant = { λ t. lengths t.job.cells ≡ 3 ∷ [] };
}

impl ThreeCells {
    /// A job that begins. Where memory is refused, the spec comes back.
    pub(crate) fn start(alloc: Global, spec: JobSpec) -> Result<ThreeCells, (JobSpec, AllocError)> {
        if !has_three(&spec) {
            return Err((spec, AllocError));
        }
        match Job::start(alloc, spec) {
            Ok(job) => Ok(ThreeCells { job }),
            Err(refused) => Err(refused),
        }
    }

    pub(crate) fn claim(
        &mut self,
        alloc: Global,
        pick: usize,
        worker: u32,
    ) -> Result<Option<Piece>, AllocError>
        requires { (1 ≤ worker) × (worker ≤ 16) }
    {
        self.job.claim(alloc, pick, worker)
    }

    pub(crate) fn settle(&mut self, alloc: Global, done: Done) -> Result<u32, (Done, Refused)> {
        self.job.settle(alloc, done)
    }

    pub(crate) fn fail(&mut self, done: Done) {
        self.job.fail(done);
    }

    pub(crate) fn claimable(&self) -> usize {
        self.job.claimable()
    }

    pub(crate) fn weight(&self) -> u64 {
        self.job.weight()
    }

    /// What the cells hold.
    pub(crate) fn stored(&self) -> [u64; 3] {
        let [first, second, third] = CELLS;
        [
            self.job.stored(first),
            self.job.stored(second),
            self.job.stored(third),
        ]
    }

    /// What the cells are worth.
    pub(crate) fn worth(&self) -> [u64; 3] {
        let [first, second, third] = CELLS;
        [
            self.job.worth(first),
            self.job.worth(second),
            self.job.worth(third),
        ]
    }

    pub(crate) fn into_job(self) -> Job {
        self.job
    }
}
