ghost use Rattle.std.specs.Arc.{arc_value};
ghost use Rattle.std.specs.Prelude.{◌≡◌, ℕ, List, IfOk, IsSome, All, option_map};
ghost use Rattle.ot_model.specs.Names.{NamedIn};
ghost use Rattle.ot_model.specs.Cells.{AreInOrder, cell_of, lengths};
ghost use Rattle.ot_model.specs.View.{expr_of};
ghost use Rattle.ot_job_task.specs.Pieces.{leading, after_parts, test_of, awake};
ghost use Rattle.ot_job_task.specs.Assigns.{AreHeld};

use crate::task::Task;
use ot_model::{Decl, Expr};
use ot_owner::{Right, RightRoom};
use ot_parts::{Assigns, Leading};
use std::alloc::{AllocError, Global};
use std::sync::Arc;

/// All that a claim makes before the cells are lent: what the piece gets, and what its task keeps. The
/// values that the cells are lent with are to come.
pub struct Prepared {
    pub assigns: Assigns,
    /// The same sets and folds, for the task's record.
    pub shared: Assigns,
    pub condition: Option<Expr>,
    pub decl: Arc<Decl>,
    pub room: RightRoom,
}

/// What the task's next piece is made of. What the piece names is to be there in arrays of some lengths.
pub fn prepare(alloc: Global, task: &Task) -> Result<Prepared, AllocError>
    requires named { (lens : List ℕ) × NamedIn lens (awake task.now).rest }
    ensures assigns { IfOk result (λ p. p.assigns ≡ leading (awake task.now).rest) }
    ensures shared { IfOk result (λ p. p.shared ≡ p.assigns) }
    ensures test { IfOk result (λ p. option_map expr_of p.condition ≡ test_of (after_parts (awake task.now).rest)) }
    ensures held { IfOk result (λ p. AreHeld task.now (arc_value p.decl)) }
    ensures ordered { IfOk result (λ p. AreInOrder (arc_value p.decl)) }
    ensures there { (cells : List (List ℕ)) → NamedIn (lengths cells) (awake task.now).rest → IfOk result (λ p. All (λ u. IsSome (cell_of cells u.cell)) (arc_value p.decl)) }
    ensures room { IfOk result (λ p. p.room ≡ arc_value p.decl) }
{
    let Leading {
        assigns,
        condition,
        held,
    } = task.leading(alloc)?;
    let shared = assigns.share()?;
    let room = Right::room(alloc, Arc::try_clone(&held)?)?;
    Ok(Prepared {
        assigns,
        shared,
        condition,
        decl: held,
        room,
    })
}
