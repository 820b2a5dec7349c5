ghost use Rattle.std.specs.Prelude.{◌≡◌, ◌≤◌, IfOk};
ghost use Rattle.ot_model.specs.View.{stmts_of};
ghost use Rattle.ot_model.specs.Tree.{size, tasks_in};

use crate::expr::Section;
use crate::stmt::{Stmt, copy_stmts};
use std::alloc::{AllocError, Global};

/// An expanded program: what is shown after it, and its body. It has at most 20,000 statements, and
/// its two counts are those of its body.
#[derive(Debug, Drop)]
pub struct Program {
    pub shows: Vec<Section>,
    pub body: Vec<Stmt>,
    pub statements: u32,
    pub tasks: u32,
    ghost statements_are: { statements ≡ size (stmts_of body.items) },
    ghost tasks_are: { tasks ≡ tasks_in (stmts_of body.items) },
    ghost few: { statements ≤ 20000 },
}

impl Program {
    ghost use Rattle.ot_model.specs.Programs.{expanded_of};

    /// The same program once more.
    pub fn copy(&self, alloc: Global) -> Result<Program, AllocError>
        ensures { IfOk result (λ copied. expanded_of copied ≡ expanded_of self.now) }
    {
        let shows = self.shows.as_slice().to_vec(alloc)?;
        let body = copy_stmts(alloc, &self.body)?;
        Ok(Program {
            shows,
            body,
            statements: self.statements,
            tasks: self.tasks,
        })
    }
}
