//! What a task doesn't declare that a statement in it needs.
ghost use Rattle.std.specs.Prelude.{◌≡◌, ◌+◌, ◌≤◌, ◌^◌, ◌∷◌, [], not, find, map, option_map, Some, ◌++◌};
ghost use Rattle.ot_model.specs.View.{expr_of, stmt_of};
ghost use Rattle.ot_model.specs.Tree.{cells_of, cells_named};
ghost use Rattle.ot_model.specs.declared.stmt.Mode.TheVariants.{Reads};
ghost use Rattle.ot_parts.specs.Modes.{PicksFit};
ghost use Rattle.ot_check.specs.Offences.{use_as, allows, covers, exceeds};
ghost use Rattle.ot_c_judge.specs.Lacks.{lacks_by, lacks_to, lacks_for};
ghost use Rattle.ot_c_judge.specs.Fits.{FitsOne};
ghost use Rattle.ot_c_judge.specs.FoundView.{stood_by};

use crate::found::Stood;
use ot_check::Offence;
use ot_model::{Cell, Decl, Expr, Mode, Section, Stmt, Use};

/// The first use of a statement with such an offence that the task around it doesn't allow.
pub(crate) fn lacks_by(offence: Offence, at: Stood<'_>) -> Option<Use>
    requires { FitsOne (stmt_of at.statement.now) }
    ensures { result ≡ lacks_by offence (Some (stood_by at.entry)) }
{
    match offence {
        Offence::NotDeclared => lacks_to(at.own, at.statement),
        Offence::ChildBeyond => lacks_for(at.own, at.statement),
        Offence::ReductionMisuse | Offence::ConflictsWithChild | Offence::EndsWithChildren => None,
    }
}

/// The first use of a statement that the task around it doesn't allow.
fn lacks_to(own: Option<&Decl>, statement: &Stmt) -> Option<Use>
    requires { FitsOne (stmt_of statement.now) }
    ensures { result ≡ lacks_to (option_map (λ d. d.now) own.entry) (stmt_of statement.now) }
{
    match statement {
        Stmt::Set(cell, value) => lacks_touch(own, value, *cell, Mode::Writes),
        Stmt::Fold(op, cell, value) => lacks_touch(own, value, *cell, Mode::Folds(*op)),
        Stmt::If(value, _, _) => lacks_value(own, value),
        Stmt::Task(_, _) | Stmt::Wait(_) | Stmt::Group(_, _, _) => None,
    }
}

/// Of what a value reads, and then of the use of a cell.
fn lacks_touch(own: Option<&Decl>, value: &Expr, cell: Cell, mode: Mode) -> Option<Use>
    requires { PicksFit (expr_of value.now) }
    ensures { result ≡ find (λ u. not (allows (option_map (λ d. d.now) own.entry) u)) (map (use_as Reads) (cells_named (expr_of value.now)) ++ use_as mode cell ∷ []) }
{
    match lacks_value(own, value) {
        Some(used) => Some(used),
        None => lacks_use(own, Use { cell, mode }),
    }
}

fn lacks_use(own: Option<&Decl>, used: Use) -> Option<Use>
    ensures { result ≡ find (λ u. not (allows (option_map (λ d. d.now) own.entry) u)) (used ∷ []) }
{
    if allows(own, used) { None } else { Some(used) }
}

/// Of what a value reads.
fn lacks_value(own: Option<&Decl>, value: &Expr) -> Option<Use>
    requires { PicksFit (expr_of value.now) }
    ensures { result ≡ find (λ u. not (allows (option_map (λ d. d.now) own.entry) u)) (map (use_as Reads) (cells_named (expr_of value.now))) }
{
    match value {
        Expr::Number(_) => None,
        Expr::Cell(cell) => lacks_read(own, *cell),
        Expr::Op(_, one, two) => match lacks_value(own, one) {
            Some(used) => Some(used),
            None => lacks_value(own, two),
        },
        Expr::Pick(section, chosen) => match lacks_section(own, *section) {
            Some(used) => Some(used),
            None => lacks_value(own, chosen),
        },
    }
}

fn lacks_read(own: Option<&Decl>, cell: Cell) -> Option<Use>
    ensures { result ≡ find (λ u. not (allows (option_map (λ d. d.now) own.entry) u)) (use_as Reads cell ∷ []) }
{
    let mode = Mode::Reads;
    lacks_use(own, Use { cell, mode })
}

/// Of the cells of a section.
fn lacks_section(own: Option<&Decl>, section: Section) -> Option<Use>
    requires { section.start + section.len ≤ 2 ^ 32 }
    ensures { result ≡ find (λ u. not (allows (option_map (λ d. d.now) own.entry) u)) (map (use_as Reads) (cells_of section)) }
{
    for place in 0..section.len {
        let cell = Cell {
            array: section.array,
            index: section.start + place,
        };
        match lacks_read(own, cell) {
            Some(used) => return Some(used),
            None => {}
        }
    }
    None
}

/// Whether a body that declares this may use a cell so.
fn allows(own: Option<&Decl>, used: Use) -> bool
    ensures { result ≡ allows (option_map (λ d. d.now) own.entry) used }
{
    match own {
        None => true,
        Some(decl) => match decl.mode(used.cell) {
            None => false,
            Some(mode) => covers(mode, used.mode),
        },
    }
}

/// Whether a body that declares a cell in the one mode may use it in the other.
fn covers(declared: Mode, wanted: Mode) -> bool
    ensures { result ≡ covers declared wanted }
{
    match (declared, wanted) {
        (Mode::Writes, _) | (Mode::Reads, Mode::Reads) => true,
        (Mode::Folds(one), Mode::Folds(other)) => one == other,
        (_, _) => false,
    }
}

/// The first use of a child that goes beyond what the task around it declares.
fn lacks_for(own: Option<&Decl>, statement: &Stmt) -> Option<Use>
    ensures { result ≡ lacks_for (option_map (λ d. d.now) own.entry) (stmt_of statement.now) }
{
    match statement {
        Stmt::Task(decl, _) => first_beyond(own, decl.uses()),
        _ => None,
    }
}

fn first_beyond(own: Option<&Decl>, uses: &[Use]) -> Option<Use>
    ensures { result ≡ find (exceeds (option_map (λ d. d.now) own.entry)) uses.now }
{
    for used in uses {
        if exceeds(own, *used) {
            return Some(*used);
        }
    }
    None
}

/// Whether a child's use goes beyond what the body declares.
fn exceeds(own: Option<&Decl>, used: Use) -> bool
    ensures { result ≡ exceeds (option_map (λ d. d.now) own.entry) used }
{
    match used.mode {
        Mode::Folds(_) => false,
        Mode::Reads | Mode::Writes => !allows(own, used),
    }
}
