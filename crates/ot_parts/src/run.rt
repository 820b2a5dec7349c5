ghost use Rattle.std.specs.Prelude.{◌≡◌, IfOk, None, Some};
ghost use Rattle.std.specs.Arc.{arc_value};
ghost use Rattle.ot_parts.specs.Assigns.{assigns_of, AreTouched};
ghost use Rattle.ot_parts.specs.Modes.{AssignsFit, PicksFit};

use crate::assign::Assign;
use crate::assigns::Assigns;
use crate::share::share;
use crate::touched::touched;
use ot_model::{Decl, Expr};
use std::alloc::{AllocError, Global};
use std::marker::Model;
use std::sync::Arc;

/// Sets and folds that come one behind the other, with the cells that they touch, each in the strongest mode
/// in which they touch it.
#[derive(Debug, Drop)]
pub struct Run {
    assigns: Assigns,
    uses: Arc<Decl>,
}

impl Model for Run {
    ghost use Rattle.std.specs.Coded.{codes};
    ghost use Rattle.ot_model.specs.Code.{body_code};
    ghost use Rattle.ot_parts.specs.Assigns.{Plain};

    ghost Value = { Plain };

    ghost coded = { Prim.hlevel (codes, body_code) };

    ghost use Rattle.std.specs.Arc.{arc_value};
    ghost use Rattle.std.specs.Prelude.{None};
    ghost use Rattle.ot_parts.specs.Assigns.{AreTouched};

    ghost view = { λ r. record { assigns = r.assigns; uses = arc_value r.uses } };

    ghost invariant = { λ r. AreTouched r.assigns None (arc_value r.uses) };
}

/// Sets and folds, and the condition of an `if` that comes behind them, with the cells that these touch.
#[derive(Debug, Drop)]
pub struct Tested {
    assigns: Assigns,
    test: Expr,
    uses: Arc<Decl>,
}

impl Model for Tested {
    ghost use Rattle.std.specs.Coded.{codes};
    ghost use Rattle.ot_model.specs.Code.{body_code, value_code};
    ghost use Rattle.ot_parts.specs.Assigns.{Asked};

    ghost Value = { Asked };

    ghost coded = { Prim.hlevel (codes, body_code, value_code) };

    ghost use Rattle.std.specs.Arc.{arc_value};
    ghost use Rattle.std.specs.Prelude.{Some};
    ghost use Rattle.ot_model.specs.View.{expr_of};
    ghost use Rattle.ot_parts.specs.Assigns.{AreTouched};

    ghost view = { λ r. record { assigns = r.assigns; test = expr_of r.test; uses = arc_value r.uses } };

    ghost invariant = { λ r. AreTouched r.assigns (Some (expr_of r.test)) (arc_value r.uses) };
}

impl Run {
    /// The run of these sets and folds. Of none it takes no memory.
    pub(crate) fn new(alloc: Global, assigns: Vec<Assign>) -> Result<Run, AllocError>
        requires { AssignsFit (assigns_of assigns.items) }
        ensures { IfOk result (λ run. run.assigns ≡ assigns_of assigns.items) }
    {
        let uses = share(alloc, touched(alloc, &assigns, None)?)?;
        let assigns = Assigns::new(alloc, assigns, uses.uses())?;
        Ok(Run { assigns, uses })
    }

    /// Its sets and folds.
    pub fn assigns(&self) -> &Assigns
        ensures { result.now ≡ self.now.assigns }
    {
        &self.assigns
    }

    /// The cells that it touches.
    pub fn uses(&self) -> &Arc<Decl>
        ensures is { arc_value result.now ≡ self.now.uses }
        ensures touched { AreTouched self.now.assigns None self.now.uses }
    {
        &self.uses
    }
}

impl Tested {
    ghost use Rattle.ot_model.specs.View.{expr_of};

    /// The run of these sets and folds and this condition.
    pub(crate) fn new(alloc: Global, assigns: Vec<Assign>, test: Expr) -> Result<Tested, AllocError>
        requires fits { AssignsFit (assigns_of assigns.items) }
        requires test { PicksFit (expr_of test) }
        ensures assigns { IfOk result (λ run. run.assigns ≡ assigns_of assigns.items) }
        ensures test { IfOk result (λ run. run.test ≡ expr_of test) }
    {
        let uses = share(alloc, touched(alloc, &assigns, Some(&test))?)?;
        let assigns = Assigns::new(alloc, assigns, uses.uses())?;
        Ok(Tested {
            assigns,
            test,
            uses,
        })
    }

    /// Its sets and folds.
    pub fn assigns(&self) -> &Assigns
        ensures { result.now ≡ self.now.assigns }
    {
        &self.assigns
    }

    /// The condition.
    pub fn test(&self) -> &Expr
        ensures { expr_of result.now ≡ self.now.test }
    {
        &self.test
    }

    /// The cells that these touch.
    pub fn uses(&self) -> &Arc<Decl>
        ensures is { arc_value result.now ≡ self.now.uses }
        ensures touched { AreTouched self.now.assigns (Some self.now.test) self.now.uses }
    {
        &self.uses
    }
}
