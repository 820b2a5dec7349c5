ghost use Rattle.std.specs.Prelude.{◌≡◌, List, IfOk, ◌<◌, IsSome, All};
ghost use Rattle.ot_model.specs.declared.stmt.Use.{Use};
ghost use Rattle.ot_owner.specs.Owning.{folds_in, loan_of};

use crate::lent::LentCell;
use crate::right::RightRoom;
use crate::rights::Loan;
use crate::spare::Spare;
use ot_model::{Cells, Decl, Look, Mode, Use};
use std::alloc::{AllocError, Global};
use std::marker::Model;
use std::sync::Arc;

/// All memory of a lease that is to come, of these uses and for this worker. No cell is read before the
/// lease.
#[derive(Debug, Drop)]
pub struct Slip {
    room: RightRoom,
    lent: Vec<LentCell>,
    /// Those of the uses that fold, so that the others aren't gone over for each group.
    folds: Vec<Use>,
    worker: u32,
}

impl Model for Slip {
    ghost use Rattle.std.specs.Prelude.{◌≡◌, ◌≤◌, ◌<◌, [], List, length, vec_capacity};
    ghost use Rattle.ot_model.specs.declared.stmt.Use.{Use};
    ghost use Rattle.ot_owner.specs.Keeping.{Prepared};
    ghost use Rattle.ot_owner.specs.Owning.{folds_in};

    ghost Value = { Prepared };

    ghost view = { λ s. record { uses = s.room; worker = s.worker } };

    ghost invariant = { λ s. (s.lent.items ≡ []) × (length s.room ≤ vec_capacity s.lent) × (s.worker < 17) × ((named : List Use) → folds_in named s.folds.items ≡ folds_in named s.room) };
}

impl Slip {
    ghost use Rattle.std.specs.Arc.{arc_value};
    ghost use Rattle.ot_model.specs.Cells.{cell_of, AreInOrder};
    ghost use Rattle.ot_owner.specs.Lending.{lent_from};

    /// Room for a lease of these uses to this worker, which is at most 16. Where the memory of a lease that
    /// ended is enough for it, it is used again.
    pub(crate) fn of(
        alloc: Global,
        decl: Arc<Decl>,
        worker: u32,
        spare: &mut Spare,
    ) -> Result<Slip, AllocError>
        requires { worker < 17 }
        ensures { IfOk result (λ slip. slip ≡ record { uses = arc_value decl; worker = worker }) }
    {
        let (firsts, lent) = spare.take(alloc, decl.uses().len())?;
        let room = RightRoom::new(decl, firsts);
        let folds = folding(alloc, room.uses())?;
        Ok(Slip {
            room,
            lent,
            folds,
            worker,
        })
    }

    /// The worker to whom is lent.
    pub(crate) fn worker(&self) -> u32
        ensures worker { result ≡ self.now.worker }
        ensures known { result < 17 }
    {
        self.worker
    }

    /// What is to be lent, in order of the cells.
    pub(crate) fn uses(&self) -> &[Use]
        ensures uses { result.now ≡ self.now.uses }
        ensures ordered { AreInOrder self.now.uses }
    {
        self.room.uses()
    }

    /// Those of the uses that fold.
    pub(crate) fn folds(&self) -> &[Use]
        ensures { (named : List Use) → folds_in named result.now ≡ folds_in named self.now.uses }
    {
        &self.folds
    }

    /// The lent cells and the loan of them, from the cells as they are. Each is to be there. It takes no
    /// memory.
    pub(crate) fn fill(self, cells: &Cells) -> (Vec<LentCell>, Loan)
        requires { All (λ u. IsSome (cell_of cells.now u.cell)) self.uses }
        ensures lent { result.0.items ≡ lent_from cells.now self.uses }
        ensures ordered { AreInOrder self.uses }
        ensures loan { result.1 ≡ loan_of self.worker (lent_from cells.now self.uses) }
    {
        let Slip {
            room,
            mut lent,
            folds: _,
            worker,
        } = self;
        for used in room.uses() {
            let first = used.mode.first(cells.at(used.cell));
            lent.push_reserved(LentCell {
                cell: used.cell,
                mode: used.mode,
                first,
                value: first,
            });
        }
        let right = room.fill(&lent);
        (lent, Loan { worker, right })
    }
}

/// Those of the uses that fold.
fn folding(alloc: Global, uses: &[Use]) -> Result<Vec<Use>, AllocError>
    ensures { IfOk result (λ folds. (named : List Use) → folds_in named folds.items ≡ folds_in named uses.now) }
{
    let mut folds = Vec::new(alloc);
    for used in uses {
        if matches!(used.mode, Mode::Folds(_)) {
            folds.push(*used)?;
        }
    }
    Ok(folds)
}
