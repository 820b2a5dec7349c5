ghost use Rattle.std.specs.Prelude.{◌≡◌, ◌↔◌, IsTrue, IfOk, map};
ghost use Rattle.ot_model.specs.View.{stmt_of, stmts_of};
ghost use Rattle.ot_model.specs.Cells.{conflicts, one_writes, first_of, joined, AreInOrder, mode_in, DependsOn, Conflict};

use crate::declared::mode_in;
use crate::expr::{Cell, Expr};
use crate::fold::{Fold, Monoid};
use crate::meeting::{Question, meet};
use std::alloc::{AllocError, Global};
use std::marker::Model;

/// What a task does with a cell that it declares (`depend` and `in_reduction`, OpenMP API 5.2,
/// sections 15.9.5 and 5.5.10).
#[derive(Clone, Copy, Debug, PartialEq, Eq)]
pub enum Mode {
    /// `in` alone: it only reads the cell.
    Reads,
    /// `out` or `inout`: it may read and write the cell.
    Writes,
    /// `red`: it only folds values into the cell by this operation, in the reduction of an open group.
    Folds(Fold),
}

impl Mode {
    /// Whether uses of one cell in these modes conflict: they do unless both read or both fold by one
    /// operation.
    pub fn conflicts(self, other: Mode) -> bool
        ensures { result ≡ conflicts self other }
    {
        match (self, other) {
            (Mode::Reads, Mode::Reads) => false,
            (Mode::Folds(one), Mode::Folds(two)) => one != two,
            (_, _) => true,
        }
    }

    /// Whether at least one of two uses of a cell is a write. Then the later sibling depends on the
    /// earlier one.
    pub fn one_writes(self, other: Mode) -> bool
        ensures { result ≡ one_writes self other }
    {
        matches!(self, Mode::Writes) || matches!(other, Mode::Writes)
    }

    /// What a copy that is lent in this mode starts at: the stored number, but the unit of the
    /// operation under `Folds`.
    pub fn first(self, stored: u64) -> u64
        ensures { result ≡ first_of self stored }
    {
        match self {
            Mode::Reads | Mode::Writes => stored,
            Mode::Folds(op) => op.unit(),
        }
    }

    /// The stored number once a copy has come back.
    pub fn joined(self, stored: u64, copy: u64) -> u64
        ensures exact { result ≡ joined self stored copy }
        ensures unchanged { copy ≡ first_of self stored → result ≡ stored }
    {
        match self {
            Mode::Reads => stored,
            Mode::Writes => copy,
            Mode::Folds(op) => op.join(stored, copy),
        }
    }
}

/// A cell with what is done with it.
#[derive(Clone, Copy, Debug, PartialEq, Eq)]
pub struct Use {
    pub cell: Cell,
    pub mode: Mode,
}

/// What a task declares: its cells in order, each once, with one mode.
#[derive(Debug, Drop)]
pub struct Decl {
    uses: Vec<Use>,
}

impl Model for Decl {
    ghost use Rattle.std.specs.Prelude.{List};
    ghost use Rattle.ot_model.specs.declared.stmt.Use.{Use};
    ghost use Rattle.ot_model.specs.Cells.{AreInOrder};

    ghost Value = { List Use };

    ghost view = { λ d. d.uses.items };

    ghost invariant = { λ d. AreInOrder d.uses.items };
}

impl Decl {
    /// The declaration of these uses, which are to be in order, each cell once. It takes no memory.
    pub fn new(uses: Vec<Use>) -> Decl
        requires { AreInOrder uses.items }
        ensures { result ≡ uses.items }
    {
        Decl { uses }
    }

    /// The uses in order of their cells.
    pub fn uses(&self) -> &[Use]
        ensures uses { result.now ≡ self.now }
        ensures ordered { AreInOrder self.now }
    {
        self.uses.as_slice()
    }

    /// The mode in which it has a cell. It is None exactly where the cell isn't declared. It halves
    /// the list until it knows.
    pub fn mode(&self, cell: Cell) -> Option<Mode>
        ensures mode { result ≡ mode_in self.now cell }
        ensures ordered { AreInOrder self.now }
    {
        mode_in(&self.uses, cell)
    }

    /// Whether a task with this declaration depends on an earlier sibling with that one: they share
    /// a cell that at least one of the two writes. It passes once over both.
    pub fn depends_on(&self, earlier: &Decl) -> bool
        ensures { IsTrue result ↔ DependsOn earlier.now self.now }
    {
        meet(Question::IsWritten, &earlier.uses, &self.uses)
    }

    /// Whether the two conflict at a cell. It passes once over both.
    pub fn conflicts(&self, other: &Decl) -> bool
        ensures { IsTrue result ↔ Conflict self.now other.now }
    {
        meet(Question::Conflicts, &self.uses, &other.uses)
    }

    /// The same declaration once more.
    pub fn copy(&self, alloc: Global) -> Result<Decl, AllocError>
        ensures { IfOk result (λ copied. copied ≡ self.now) }
    {
        let uses = Vec::from_slice(alloc, &self.uses)?;
        Ok(Decl { uses })
    }

    /// Whether the two declare the same. It takes no memory.
    pub fn same_as(&self, other: &Decl) -> bool
        ensures { IsTrue result ↔ self.now ≡ other.now }
    {
        self.uses.as_slice() == other.uses.as_slice()
    }
}

/// A statement of an expanded program: no loops, no variables.
#[derive(Debug, Drop)]
pub enum Stmt {
    /// Writes the value to the cell.
    Set(Cell, Expr),
    /// Joins the cell with the value by the operation.
    Fold(Fold, Cell, Expr),
    /// Takes the first body where the value isn't 0, else the second.
    If(Expr, Vec<Stmt>, Vec<Stmt>),
    /// Creates a child task (OpenMP API 5.2, section 12.5).
    Task(Decl, Vec<Stmt>),
    /// Waits for the children created before, or where it declares cells for those of them on which an
    /// empty task that declares them would depend (`taskwait`, OpenMP API 5.2, section 15.5).
    Wait(Option<Decl>),
    /// A region whose end waits for all tasks created in it, with a reduction of these cells by
    /// the operation (`taskgroup` with `task_reduction`, OpenMP API 5.2, section 15.4).
    Group(Fold, Vec<Cell>, Vec<Stmt>),
}

impl Stmt {
    /// The same statement once more.
    #[cycle(copy)]
    pub fn copy(&self, alloc: Global) -> Result<Stmt, AllocError>
        ensures { IfOk result (λ copied. stmt_of copied ≡ stmt_of self.now) }
    {
        match self {
            Stmt::Set(cell, expr) => Ok(Stmt::Set(*cell, expr.copy(alloc)?)),
            Stmt::Fold(op, cell, expr) => Ok(Stmt::Fold(*op, *cell, expr.copy(alloc)?)),
            Stmt::If(expr, one, two) => {
                let expr = expr.copy(alloc)?;
                let one = copy_stmts(alloc, one)?;
                let two = copy_stmts(alloc, two)?;
                Ok(Stmt::If(expr, one, two))
            }
            Stmt::Task(decl, body) => {
                let decl = decl.copy(alloc)?;
                Ok(Stmt::Task(decl, copy_stmts(alloc, body)?))
            }
            Stmt::Wait(None) => Ok(Stmt::Wait(None)),
            Stmt::Wait(Some(decl)) => Ok(Stmt::Wait(Some(decl.copy(alloc)?))),
            Stmt::Group(op, cells, body) => {
                let cells = cells.as_slice().to_vec(alloc)?;
                Ok(Stmt::Group(*op, cells, copy_stmts(alloc, body)?))
            }
        }
    }

    /// Whether the two are the same statement. It takes no memory.
    #[cycle(same)]
    pub fn same_as(&self, other: &Stmt) -> bool
        ensures { IsTrue result ↔ stmt_of self.now ≡ stmt_of other.now }
    {
        match (self, other) {
            (Stmt::Set(c, a), Stmt::Set(d, x)) => c == d && a.same_as(x),
            (Stmt::Fold(o, c, a), Stmt::Fold(p, d, x)) => o == p && c == d && a.same_as(x),
            (Stmt::If(a, one, two), Stmt::If(x, three, four)) => {
                a.same_as(x) && same_stmts(one, three) && same_stmts(two, four)
            }
            (Stmt::Task(d, one), Stmt::Task(e, two)) => d.same_as(e) && same_stmts(one, two),
            (Stmt::Wait(None), Stmt::Wait(None)) => true,
            (Stmt::Wait(Some(d)), Stmt::Wait(Some(e))) => d.same_as(e),
            (Stmt::Group(o, c, one), Stmt::Group(p, d, two)) => {
                o == p && same_cells(c, d) && same_stmts(one, two)
            }
            (_, _) => false,
        }
    }
}

/// The same statements once more.
#[cycle(copy)]
pub(crate) fn copy_stmts(alloc: Global, stmts: &[Stmt]) -> Result<Vec<Stmt>, AllocError>
    ensures { IfOk result (λ copies. map stmt_of copies.items ≡ map stmt_of stmts.now) }
{
    let mut copies = Vec::with_capacity(alloc, stmts.len())?;
    for stmt in stmts {
        copies.push(stmt.copy(alloc)?)?;
    }
    Ok(copies)
}

fn same_cells(ones: &[Cell], twos: &[Cell]) -> bool
    ensures { IsTrue result ↔ ones.now ≡ twos.now }
{
    ones == twos
}

/// Whether the two are the same statements. It takes no memory.
#[cycle(same)]
pub fn same_stmts(ones: &[Stmt], twos: &[Stmt]) -> bool
    ensures { IsTrue result ↔ stmts_of ones.now ≡ stmts_of twos.now }
{
    if ones.len() != twos.len() {
        return false;
    }
    for i in 0..ones.len() {
        if !ones[i].same_as(&twos[i]) {
            return false;
        }
    }
    true
}
