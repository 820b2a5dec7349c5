//! The first statement of a program that comes back as another one.
ghost use Rattle.std.specs.Prelude.{◌≡◌, ◌↔◌, ◌+◌, ◌<◌, ◌^◌, [], IfOk, IsTrue, MatchResult, option_map, true, false};
ghost use Rattle.ot_model.specs.Cells.{same_cell};
ghost use Rattle.ot_model.specs.Tree.{End, Group, Next, Set, Task, size, size_one};
ghost use Rattle.ot_model.specs.declared.fold.Fold.TheVariants.{Plus};
ghost use Rattle.ot_model.specs.View.{expr_of, stmt_of, stmts_of};
ghost use Rattle.ot_show_c.specs.Laws.{is_nothing, normal_group};
ghost use Rattle.ot_c_printed.specs.Apart.{Compares, ComparesFirst, ComparesGroup, ComparesOne, ComparesWhole};
ghost use Rattle.ot_c_printed.specs.Apart as meant;
ghost use Rattle.ot_c_printed.specs.declared.fault.NoC.TheVariants.{OtherProgram};

use crate::fault::NoC;
use ot_model::{Cell, Decl, Expr, Fold, Op, Stmt};
use ot_show_c::{each_once, only_folds};
use std::alloc::{AllocError, Global};

/// Whether what came back is a program's body as far as C tells it, in the region's group where the region becomes one.
pub(crate) fn compare_whole(alloc: Global, body: &[Stmt], back: &[Stmt]) -> Result<(), NoC>
    requires { 1 + size (stmts_of body.now) < 2 ^ 32 }
    ensures { ComparesWhole (stmts_of body.now) (stmts_of back.now) result }
{
    if has_group(body) {
        compare_region(alloc, body, back)
    } else {
        compare_first(alloc, body, back)
    }
}

/// Whether a group stands in a body outside of its tasks.
#[cycle(groups)]
fn has_group(stmts: &[Stmt]) -> bool
    ensures { result ≡ meant.body_has_group (stmts_of stmts.now) }
{
    for stmt in stmts {
        if has_group_one(stmt) {
            return true;
        }
    }
    false
}

/// Whether one stands in a statement.
#[cycle(groups)]
fn has_group_one(stmt: &Stmt) -> bool
    ensures { result ≡ meant.statement_has_group (stmt_of stmt.now) }
{
    match stmt {
        Stmt::If(_, one, two) => has_group(one) || has_group(two),
        Stmt::Group(_, _, _) => true,
        Stmt::Set(_, _) | Stmt::Fold(_, _, _) => false,
        Stmt::Task(_, _) | Stmt::Wait(_) => false,
    }
}

/// Whether what came back is a program's body as far as C tells it.
fn compare_first(alloc: Global, body: &[Stmt], back: &[Stmt]) -> Result<(), NoC>
    requires { 1 + size (stmts_of body.now) < 2 ^ 32 }
    ensures { ComparesFirst (stmts_of body.now) (stmts_of back.now) result }
{
    let nothing = Decl::new(Vec::new(alloc));
    let _behind = compare(alloc, &nothing, 1, body, back)?;
    Ok(())
}

/// The same, in the region's group.
fn compare_region(alloc: Global, body: &[Stmt], back: &[Stmt]) -> Result<(), NoC>
    requires { 1 + size (stmts_of body.now) < 2 ^ 32 }
    ensures { ComparesGroup (stmts_of body.now) (stmts_of back.now) result }
{
    if back.len() != 1 {
        return Err(NoC::OtherProgram(0));
    }
    compare_inside(alloc, body, &back[0])
}

fn compare_inside(alloc: Global, body: &[Stmt], region: &Stmt) -> Result<(), NoC>
    requires { 1 + size (stmts_of body.now) < 2 ^ 32 }
    ensures { ComparesGroup (stmts_of body.now) (Next (stmt_of region.now) End) result }
{
    match region {
        Stmt::Group(op, cells, inside) => {
            if !is_plain(*op, cells) {
                return Err(NoC::OtherProgram(0));
            }
            compare_first(alloc, body, inside)?;
            Ok(())
        }
        _ => Err(NoC::OtherProgram(0)),
    }
}

/// Whether a group is over no cell, as that of a region.
fn is_plain(op: Fold, cells: &[Cell]) -> bool
    ensures { IsTrue result ↔ ((op ≡ Plus) × (cells.now ≡ [])) }
{
    op == Fold::Plus && cells.is_empty()
}

/// Compares statements, of which the first has this number, in the body of a task with this declaration, with what came back of
/// them. It gives the number behind the last.
#[cycle(compare)]
fn compare(alloc: Global, own: &Decl, first: u32, stmts: &[Stmt], back: &[Stmt]) -> Result<u32, NoC>
    requires { first + size (stmts_of stmts.now) < 2 ^ 32 }
    ensures { Compares own.now first (stmts_of stmts.now) (stmts_of back.now) result }
{
    let mut number = first;
    let mut place = 0;
    for stmt in stmts {
        if is_nothing(stmt) {
            number += 1;
            continue;
        }
        if place >= back.len() {
            return Err(NoC::OtherProgram(number));
        }
        match compare_one(alloc, own, number, stmt, &back[place]) {
            Ok(next) => {
                number = next;
                place += 1;
            }
            Err(fault) => return Err(fault),
        }
    }
    if place < back.len() {
        return Err(NoC::OtherProgram(number));
    }
    Ok(number)
}

/// Whether nothing stands in C for a statement: a wait that declares no cell awaits nobody.
fn is_nothing(stmt: &Stmt) -> bool
    ensures { result ≡ is_nothing (stmt_of stmt.now) }
{
    match stmt {
        Stmt::Wait(Some(decl)) => decl.uses().is_empty(),
        _ => false,
    }
}

#[cycle(compare)]
fn compare_one(
    alloc: Global,
    own: &Decl,
    number: u32,
    stmt: &Stmt,
    other: &Stmt,
) -> Result<u32, NoC>
    requires { number + size_one (stmt_of stmt.now) < 2 ^ 32 }
    ensures { ComparesOne own.now number (stmt_of stmt.now) (stmt_of other.now) result }
{
    match stmt {
        Stmt::Fold(_, _, _) | Stmt::Wait(_) => numbered(number, stmt.same_as(other)),
        Stmt::Set(cell, expr) => {
            let told = told_set(alloc, own, *cell, expr)?;
            numbered(number, told.same_as(other))
        }
        Stmt::If(expr, one, two) => match other {
            Stmt::If(condition, three, four) => {
                if !expr.same_as(condition) {
                    return Err(NoC::OtherProgram(number));
                }
                let next = compare(alloc, own, number + 1, one, three)?;
                compare(alloc, own, next, two, four)
            }
            _ => Err(NoC::OtherProgram(number)),
        },
        Stmt::Task(decl, body) => compare_task(alloc, number, decl, body, other),
        Stmt::Group(op, cells, body) => compare_group(alloc, own, number, *op, cells, body, other),
    }
}

/// The number behind a statement without bodies, where it comes back.
fn numbered(number: u32, is_same: bool) -> Result<u32, NoC>
    requires { number + 1 < 2 ^ 32 }
    ensures { MatchResult result (λ next. (is_same ≡ true) × (next ≡ number + 1)) (λ fault. (is_same ≡ false) × (fault ≡ OtherProgram number)) }
{
    if is_same {
        Ok(number + 1)
    } else {
        Err(NoC::OtherProgram(number))
    }
}

#[cycle(compare)]
fn compare_task(
    alloc: Global,
    number: u32,
    decl: &Decl,
    body: &[Stmt],
    other: &Stmt,
) -> Result<u32, NoC>
    requires { number + size_one (Task decl.now (stmts_of body.now)) < 2 ^ 32 }
    ensures { ComparesOne decl.now number (Task decl.now (stmts_of body.now)) (stmt_of other.now) result }
{
    match other {
        Stmt::Task(declared, back) => {
            if !decl.same_as(declared) {
                return Err(NoC::OtherProgram(number));
            }
            compare(alloc, decl, number + 1, body, back)
        }
        _ => Err(NoC::OtherProgram(number)),
    }
}

#[cycle(compare)]
fn compare_group(
    alloc: Global,
    own: &Decl,
    number: u32,
    op: Fold,
    cells: &[Cell],
    body: &[Stmt],
    other: &Stmt,
) -> Result<u32, NoC>
    requires { number + size_one (Group op cells.now (stmts_of body.now)) < 2 ^ 32 }
    ensures { ComparesOne own.now number (Group op cells.now (stmts_of body.now)) (stmt_of other.now) result }
{
    match other {
        Stmt::Group(combines, over, back) => {
            if !is_group(alloc, op, cells, *combines, over)? {
                return Err(NoC::OtherProgram(number));
            }
            compare(alloc, own, number + 1, body, back)
        }
        _ => Err(NoC::OtherProgram(number)),
    }
}

/// Whether a group over cells comes back as one over these, by this operation.
fn is_group(
    alloc: Global,
    op: Fold,
    cells: &[Cell],
    combines: Fold,
    over: &[Cell],
) -> Result<bool, AllocError>
    ensures { IfOk result (λ same. IsTrue same ↔ normal_group op cells.now End ≡ Group combines over.now End) }
{
    if cells.is_empty() {
        return Ok(is_plain(combines, over));
    }
    let once = each_once(alloc, cells)?;
    Ok(op == combines && same_cells(&once, over))
}

fn same_cells(ones: &[Cell], others: &[Cell]) -> bool
    ensures { IsTrue result ↔ ones.now ≡ others.now }
{
    ones == others
}

/// Whether both are one cell.
fn is_cell(cell: Cell, other: Cell) -> bool
    ensures { result ≡ same_cell cell other }
{
    cell.array == other.array && cell.index == other.index
}

/// The operation of a fold that is a function.
#[tactic(auto, unfolding(crate::specs::Apart::function_fold))]
fn fold_of(op: Op) -> Option<Fold>
    ensures { result ≡ meant.function_fold op }
{
    match op {
        Op::Min => Some(Fold::Min),
        Op::Max => Some(Fold::Max),
        _ => None,
    }
}

/// By which operation a value is folded into a cell, unless the task only folds into its own copy by it.
fn unless_own<'a>(
    own: &Decl,
    cell: Cell,
    expr: &'a Expr,
    op: Option<Fold>,
) -> Option<(Fold, &'a Expr)>
    ensures { option_map (λ x. (x.0, expr_of x.1.now)) result ≡ meant.unless_own own.now cell (expr_of expr.now) op }
{
    let op = op?;
    if only_folds(own, op, cell) {
        None
    } else {
        Some((op, expr))
    }
}

/// What is folded into a cell that is set to the least or greatest of itself and a value. C has one text for that and for the
/// fold that does the same, which is read as the fold.
#[tactic(auto, unfolding(crate::specs::Apart::extreme_fold))]
fn fold_in<'a>(own: &Decl, cell: Cell, expr: &'a Expr) -> Option<(Fold, &'a Expr)>
    ensures { option_map (λ x. (x.0, expr_of x.1.now)) result ≡ meant.extreme_fold own.now cell (expr_of expr.now) }
{
    match expr {
        Expr::Op(op, one, two) => match &**one {
            Expr::Cell(other) => {
                if is_cell(cell, *other) {
                    unless_own(own, cell, two, fold_of(*op))
                } else {
                    None
                }
            }
            _ => None,
        },
        _ => None,
    }
}

/// What comes back of a set.
fn told_set(alloc: Global, own: &Decl, cell: Cell, expr: &Expr) -> Result<Stmt, AllocError>
    ensures { IfOk result (λ told. stmt_of told ≡ meant.told_statement own.now (Set cell (expr_of expr.now))) }
{
    match fold_in(own, cell, expr) {
        Some((op, more)) => Ok(Stmt::Fold(op, cell, more.copy(alloc)?)),
        None => Ok(Stmt::Set(cell, expr.copy(alloc)?)),
    }
}
