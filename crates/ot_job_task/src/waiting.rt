ghost use Rattle.std.specs.Prelude.{◌≡◌, List, Some, not, IfOk, option_map};
ghost use Rattle.ot_depend.specs.Siblings.{Sibling};
ghost use Rattle.ot_job_task.specs.Regions.{is_held};
ghost use Rattle.ot_job_task.specs.RegionView.{waiting_of, KnowsFree};

use ot_depend::Siblings;
use ot_model::Decl;
use std::alloc::{AllocError, Global};

/// The wait that a task has executed and has not gone on from.
#[derive(Debug, Drop)]
pub(crate) enum Waiting {
    /// It stands at none.
    Nowhere,
    /// One that declares nothing: it awaits each child.
    ForAll,
    /// One that declares cells. At so many of the first of them it awaits nobody: while the task stands
    /// here children only finish, so these need no other look.
    For(Decl, usize),
}

impl Waiting {
    /// At a wait that the task executes, which declares this.
    pub(crate) fn at(alloc: Global, decl: Option<&Decl>) -> Result<Waiting, AllocError>
        ensures wait { IfOk result (λ wait. waiting_of wait ≡ Some (option_map (λ d. d.now) decl.entry)) }
        ensures knows { IfOk result (λ wait. (children : List Sibling) → KnowsFree wait children) }
    {
        match decl {
            Some(decl) => Ok(Waiting::For(decl.copy(alloc)?, 0)),
            None => Ok(Waiting::ForAll),
        }
    }

    /// Whether the task may go on: each child that is awaited has finished. It takes no memory.
    pub(crate) fn lets_go(&self, children: &Siblings) -> bool
        requires { KnowsFree self.now children.now }
        ensures { result ≡ not (is_held (waiting_of self.now) children.now) }
    {
        match self {
            Waiting::Nowhere => true,
            Waiting::ForAll => children.unfinished() == 0,
            Waiting::For(decl, free) => children.count_free(decl, *free) >= decl.uses().len(),
        }
    }

    /// Passes the cells at which it awaits nobody any more. It takes no memory.
    pub(crate) fn pass_free(&mut self, children: &Siblings)
        requires { KnowsFree self.old children.now }
        ensures same { waiting_of self.new ≡ waiting_of self.old }
        ensures knows { KnowsFree self.new children.now }
    {
        if let Waiting::For(decl, free) = self {
            *free = children.count_free(decl, *free);
        }
    }

    /// Begins with the first of the cells again, as there is one child more. It takes no memory.
    pub(crate) fn begin_again(&mut self)
        ensures same { waiting_of self.new ≡ waiting_of self.old }
        ensures knows { (children : List Sibling) → KnowsFree self.new children }
    {
        if let Waiting::For(_, free) = self {
            *free = 0;
        }
    }
}
