use crate::assigns::Assigns;
use crate::run::{Run, Tested};
use ot_model::{Cell, Decl, Expr, Fold};
use std::alloc::AllocError;
use std::sync::Arc;

/// A run, and the control statement behind it. Whoever shares a body shares its parts.
#[derive(Debug, Drop)]
pub enum Part {
    /// No control statement is behind the run: it is the last of its body.
    End(Run),
    /// An `if`, whose condition stands with the run.
    If(Tested, Arc<Vec<Part>>, Arc<Vec<Part>>),
    Task(Run, Arc<Decl>, Arc<Vec<Part>>),
    Wait(Run, Option<Decl>),
    Group(Run, Fold, Vec<Cell>, Arc<Vec<Part>>),
}

impl Part {
    ghost use Rattle.std.specs.Arc.{arc_value};
    ghost use Rattle.std.specs.Prelude.{◌≡◌, is_some, option_map, IfOk};
    ghost use Rattle.ot_model.specs.View.{expr_of};
    ghost use Rattle.ot_parts.specs.Left.{comes, shows};
    ghost use Rattle.ot_parts.specs.Parts.{part_of, condition_of, branch_of, body_in, IsPart};
    ghost use Rattle.ot_parts.specs.Assigns.{AreTouched};

    /// Its sets and folds.
    pub fn assigns(&self) -> &Assigns
        ensures { result.now ≡ (part_of self.now).run }
    {
        match self {
            Part::If(run, _, _) => run.assigns(),
            Part::End(run)
            | Part::Task(run, _, _)
            | Part::Wait(run, _)
            | Part::Group(run, _, _, _) => run.assigns(),
        }
    }

    /// The condition of its `if`.
    pub fn condition(&self) -> Option<&Expr>
        ensures { option_map (λ e. expr_of e.now) result ≡ condition_of (part_of self.now).control }
    {
        match self {
            Part::If(run, _, _) => Some(run.test()),
            _ => None,
        }
    }

    /// The cells that its sets and folds and its condition touch.
    pub fn uses(&self) -> &Arc<Decl>
        ensures { AreTouched (part_of self.now).run (condition_of (part_of self.now).control) (arc_value result.now) }
    {
        match self {
            Part::If(run, _, _) => run.uses(),
            Part::End(run)
            | Part::Task(run, _, _)
            | Part::Wait(run, _)
            | Part::Group(run, _, _, _) => run.uses(),
        }
    }

    /// Whether a control statement is behind its run.
    pub(crate) fn has_control(&self) -> bool
        ensures is { result ≡ is_some (part_of self.now).control }
        ensures part { IsPart (part_of self.now) }
    {
        let _ = self.assigns().is_empty();
        !matches!(self, Part::End(_))
    }

    /// Whether something of it comes, where the sets and folds that come first are passed or not.
    pub(crate) fn comes(&self, passed: bool) -> bool
        ensures is { result ≡ comes passed (part_of self.now) }
        ensures part { IsPart (part_of self.now) }
    {
        self.has_control() || (!passed && !self.assigns().is_empty())
    }

    /// Whether its control statement comes next, where the sets and folds that come first are passed or not.
    pub(crate) fn shows(&self, passed: bool) -> bool
        ensures is { result ≡ shows passed (part_of self.now) }
        ensures part { IsPart (part_of self.now) }
    {
        self.has_control() && (passed || self.assigns().is_empty())
    }

    /// The body of its `if` that is taken, shared. It takes no memory, and is refused only where more share it
    /// than can be counted.
    pub(crate) fn branch(&self, taken: bool) -> Result<Option<Arc<Vec<Part>>>, AllocError>
        ensures { IfOk result (λ o. option_map body_in o ≡ branch_of taken (part_of self.now).control) }
    {
        match self {
            Part::If(_, one, two) => Ok(Some(Arc::try_clone(if taken { one } else { two })?)),
            _ => Ok(None),
        }
    }
}
