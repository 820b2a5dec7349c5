use crate::checked::Checked;
use ot_model::{Cells, Counts, Section, same_stmts};
use ot_parts::same_parts;
use std::alloc::{AllocError, Global};
use std::marker::Model;
use std::sync::Arc;

/// A checked program with the cells that it begins with: each cell that it names is one of them. Both are shared with
/// its copies.
#[derive(Debug, Drop)]
pub struct JobSpec {
    checked: Arc<Checked>,
    before: Arc<Cells>,
}

impl Model for JobSpec {
    ghost use Rattle.std.specs.Coded.{codes};
    ghost use Rattle.ot_check.specs.contracts.checked.Checked as e;
    ghost use Rattle.ot_check.specs.Jobs.{Spec};

    ghost Value = { Spec };

    ghost coded = { Prim.hlevel (codes, e.the_row.coded) };

    ghost use Rattle.ot_model.specs.Cells.{lengths};
    ghost use Rattle.ot_model.specs.Programs.{expanded_of, IsNamedIn};
    ghost use Rattle.std.specs.Arc.{arc_value};

    ghost view = { λ s. record { checked = arc_value s.checked; before = arc_value s.before } };

    ghost invariant = { λ s. IsNamedIn (lengths (arc_value s.before)) (expanded_of (arc_value s.checked).program) };
}

impl JobSpec {
    ghost use Rattle.ot_model.specs.Cells.{lengths};
    ghost use Rattle.ot_check.specs.Jobs.{AreSame};
    ghost use Rattle.std.specs.Arc.{arc_value};

    /// The program and its cells, among which are all that it names. It takes no memory.
    pub fn new(checked: Arc<Checked>, before: Arc<Cells>) -> JobSpec
        requires { IsNamedIn (lengths (arc_value before)) (expanded_of (arc_value checked).program) }
        ensures checked { result.checked ≡ arc_value checked }
        ensures before { result.before ≡ arc_value before }
    {
        JobSpec { checked, before }
    }

    /// The checked program.
    pub fn checked(&self) -> &Checked
        ensures checked { result.now ≡ self.now.checked }
        ensures named { IsNamedIn (lengths self.now.before) (expanded_of self.now.checked.program) }
    {
        &self.checked
    }

    /// The cells that it begins with.
    pub fn before(&self) -> &Cells
        ensures { result.now ≡ self.now.before }
    {
        &self.before
    }

    /// The checked program, held once more. It takes no memory, and is refused only where more hold it than can be
    /// counted.
    pub fn share(&self) -> Result<Arc<Checked>, AllocError>
        ensures { IfOk result (λ checked. arc_value checked ≡ self.now.checked) }
    {
        Arc::try_clone(&self.checked)
    }

    /// The same spec once more, held with this one. It takes no memory, and is refused only where more hold the program or
    /// the cells than can be counted.
    pub fn copy(&self, _alloc: Global) -> Result<JobSpec, AllocError>
        ensures { IfOk result (λ copied. AreSame copied self.now) }
    {
        let checked = Arc::try_clone(&self.checked)?;
        let before = Arc::try_clone(&self.before)?;
        Ok(JobSpec { checked, before })
    }

    /// Whether the other has the same program and the same cells. It takes no memory.
    pub fn same_as(&self, other: &JobSpec) -> bool
        ensures { IsTrue result ↔ AreSame self.now other.now }
    {
        same_program(&self.checked, &other.checked) && same_cells(&self.before, &other.before)
    }
}

ghost use Rattle.std.specs.Prelude.{◌≡◌, ◌↔◌, IsTrue, IfOk};
ghost use Rattle.ot_model.specs.Programs.{expanded_of, IsNamedIn};
ghost use Rattle.ot_model.specs.View.{stmts_of};

/// Whether two programs are the same. What they count follows from their bodies.
fn same_program(one: &Checked, other: &Checked) -> bool
    ensures { IsTrue result ↔ expanded_of one.now.program ≡ expanded_of other.now.program }
{
    same_shows(&one.program.shows, &other.program.shows) && same_body(one, other)
}

/// Whether two programs have the same body. Nearly always it is in the same parts, and these are compared faster.
fn same_body(one: &Checked, other: &Checked) -> bool
    ensures { IsTrue result ↔ stmts_of one.now.program.body.items ≡ stmts_of other.now.program.body.items }
{
    same_parts(&one.parts, &other.parts) || same_stmts(&one.program.body, &other.program.body)
}

fn same_shows(one: &[Section], other: &[Section]) -> bool
    ensures { IsTrue result ↔ one.now ≡ other.now }
{
    one == other
}

/// Whether two have the same numbers in the same cells.
fn same_cells(one: &Cells, other: &Cells) -> bool
    ensures { IsTrue result ↔ one.now ≡ other.now }
{
    one.arrays() == other.arrays()
}

/// What a job leaves: its cells, and what it has executed.
#[derive(Debug, Drop)]
pub struct Outcome {
    pub cells: Cells,
    pub counts: Counts,
}
