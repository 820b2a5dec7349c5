ghost use Rattle.std.specs.Prelude.{◌≡◌, IfOk, option_map, IfSome};
ghost use Rattle.std.specs.Arc.{arc_value};
ghost use Rattle.ot_model.specs.View.{expr_of};
ghost use Rattle.ot_parts.specs.Parts.{part_of, condition_at, condition_of};

use crate::assign::Assign;
use crate::assigns::Assigns;
use crate::holding::hold;
use crate::part::Part;
use crate::share::share;
use crate::touched::touched;
use ot_model::{Decl, Expr};
use std::alloc::{AllocError, Global};
use std::sync::Arc;

/// What comes first in what is left of a body: the sets and folds, which are shared, a copy of the condition
/// of an `if` behind them, and the cells that these touch in the modes in which a piece holds them, shared too
/// where these are the modes in which they are touched.
#[derive(Debug, Drop)]
pub struct Leading {
    pub assigns: Assigns,
    pub condition: Option<Expr>,
    pub held: Arc<Decl>,
}

impl Leading {
    ghost use Rattle.ot_model.specs.Cells.{AreInOrder};
    ghost use Rattle.ot_parts.specs.Assigns.{assigns_of, AreHeldBy};
    ghost use Rattle.ot_parts.specs.Modes.{AssignsFit, PicksFit};

    /// A part's run and condition, where a body declares this.
    pub(crate) fn of_part(
        alloc: Global,
        part: &Part,
        own: Option<&Decl>,
    ) -> Result<Leading, AllocError>
        ensures assigns { IfOk result (λ l. l.assigns ≡ (part_of part.now).run) }
        ensures condition { IfOk result (λ l. option_map expr_of l.condition ≡ condition_of (part_of part.now).control) }
        ensures held { IfOk result (λ l. AreHeldBy (option_map (λ o. o.now) own.entry) (part_of part.now).run (condition_of (part_of part.now).control) (arc_value l.held)) }
        ensures ordered { IfOk result (λ l. AreInOrder (arc_value l.held)) }
    {
        Ok(Leading {
            assigns: part.assigns().share()?,
            condition: copy_condition(alloc, part.condition())?,
            held: hold(alloc, part.uses(), own)?,
        })
    }

    /// These sets and folds and this condition, where a body declares this.
    pub(crate) fn of_run(
        alloc: Global,
        run: Vec<Assign>,
        condition: Option<Expr>,
        own: Option<&Decl>,
    ) -> Result<Leading, AllocError>
        requires fits { AssignsFit (assigns_of run.items) }
        requires test { IfSome condition (λ e. PicksFit (expr_of e)) }
        ensures assigns { IfOk result (λ l. l.assigns ≡ assigns_of run.items) }
        ensures condition { IfOk result (λ l. option_map expr_of l.condition ≡ option_map expr_of condition) }
        ensures held { IfOk result (λ l. AreHeldBy (option_map (λ o. o.now) own.entry) (assigns_of run.items) (option_map expr_of condition) (arc_value l.held)) }
        ensures ordered { IfOk result (λ l. AreInOrder (arc_value l.held)) }
    {
        let uses = share(alloc, touched(alloc, &run, condition.as_ref())?)?;
        Ok(Leading {
            assigns: Assigns::new(alloc, run, uses.uses())?,
            condition,
            held: hold(alloc, &uses, own)?,
        })
    }
}

/// A copy of the condition of a part's `if`, if there is one.
pub(crate) fn condition_at(alloc: Global, part: Option<&Part>) -> Result<Option<Expr>, AllocError>
    ensures { IfOk result (λ copied. option_map expr_of copied ≡ condition_at (option_map (λ p. part_of p.now) part.entry)) }
{
    match part {
        None => Ok(None),
        Some(part) => copy_condition(alloc, part.condition()),
    }
}

/// A copy of a condition, if there is one.
fn copy_condition(alloc: Global, condition: Option<&Expr>) -> Result<Option<Expr>, AllocError>
    ensures { IfOk result (λ copied. option_map expr_of copied ≡ option_map (λ e. expr_of e.now) condition.entry) }
{
    match condition {
        None => Ok(None),
        Some(condition) => Ok(Some(condition.copy(alloc)?)),
    }
}
