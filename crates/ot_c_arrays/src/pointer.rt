//! Pointers to cells of arrays.
ghost use Rattle.std.specs.Prelude.{◌≡◌, slice_get};
ghost use Rattle.ot_c_statements.specs.Tree.{site_of, stmt_of, list_of, body_of};
ghost use Rattle.ot_c_scope.specs.Results.{GivesAs};
ghost use Rattle.ot_c_arrays.specs.Arrays.{declared_view};
ghost use Rattle.ot_c_arrays.specs.Pointers as meant;

use crate::arrays::{Declared, number_of};
use indexmap::IndexSet;
use ot_c_expressions::left_of;
use ot_c_scope::kind::is_word;
use ot_c_scope::{CFault, Meaning, Pointee, Reason, Scope, constant};
use ot_c_statements::{Spot, Stmt};
use ot_c_words::{IntegerType, Name};
use std::alloc::Global;

/// So many cells, where they are of the type to which pointers point.
fn counted(left: usize, kind: IntegerType, count: usize) -> Result<usize, CFault>
    ensures { GivesAs (λ n. n) result (meant.pointed_count left kind count) }
{
    if is_word(kind) {
        Ok(count)
    } else {
        Err(CFault::Outside(left, Reason::OtherType))
    }
}

/// How many cells an array has.
fn count_by(left: usize, meaning: Option<Meaning>) -> Result<usize, CFault>
    ensures { GivesAs (λ n. n) result (meant.count_by left meaning) }
{
    match meaning {
        Some(Meaning::Cells(kind, Some(count))) => counted(left, kind, count),
        _ => Err(CFault::Outside(left, Reason::Pointee)),
    }
}

/// What a name means in the whole file.
fn meaning_of(meanings: &[Meaning], number: usize) -> Option<Meaning>
    ensures { result ≡ slice_get meanings.now number }
{
    match meanings.get(number) {
        Some(meaning) => Some(*meaning),
        None => None,
    }
}

/// The cell of an array at a place that is a constant.
fn pointee(
    alloc: Global,
    names: &IndexSet<String>,
    declared: &Declared,
    spot: &Spot,
) -> Result<Pointee, CFault>
    ensures { GivesAs (λ p. p) result (meant.pointee names.now.keys (declared_view declared.now) (site_of spot.now)) }
{
    let array = number_of(spot.left, spot.array)?;
    let count = count_by(spot.left, meaning_of(&declared.meanings, array))?;
    let scope = Scope::new(alloc, names, &declared.meanings, false);
    match constant(&scope, &spot.index) {
        Some((place, _)) => {
            if place < count as u64 {
                Ok(Pointee { array, place })
            } else {
                Err(CFault::Outside(left_of(&spot.index), Reason::Pointee))
            }
        }
        None => Err(CFault::Outside(left_of(&spot.index), Reason::Pointee)),
    }
}

/// Whether it is the cell of this array at this place.
fn is_same(array: usize, place: u64, cell: Pointee) -> bool
    ensures { result ≡ meant.is_same array place cell }
{
    array == cell.array && place == cell.place
}

/// A name that means nothing yet, or points there already, points to a cell.
fn pointing(
    left: usize,
    mut declared: Declared,
    name: usize,
    cell: Pointee,
) -> Result<Declared, CFault>
    ensures { GivesAs declared_view result (meant.pointing left (declared_view declared) name cell) }
{
    match declared.meanings.get(name) {
        None => return Err(CFault::Outside(left, Reason::NoName)),
        Some(Meaning::Nothing) => {}
        Some(Meaning::Pointer(array, place)) => {
            if is_same(*array, *place, cell) {
                return Ok(declared);
            }
            return Err(CFault::Outside(left, Reason::Pointee));
        }
        Some(_) => return Err(CFault::Outside(left, Reason::Twice)),
    }
    declared.meanings[name] = Meaning::Pointer(cell.array, cell.place);
    Ok(declared)
}

/// `uint64_t *p = &x[i];`, where the name of the pointer stands where so many words are left.
fn point(
    alloc: Global,
    names: &IndexSet<String>,
    left: usize,
    declared: Declared,
    pointer: Name,
    spot: &Spot,
) -> Result<Declared, CFault>
    ensures { GivesAs declared_view result (meant.point names.now.keys left (declared_view declared) pointer (site_of spot.now)) }
{
    let cell = pointee(alloc, names, &declared, spot)?;
    let number = number_of(left, pointer)?;
    pointing(left, declared, number, cell)
}

/// The pointers that a statement declares.
#[cycle(pointers)]
#[tactic(auto, unfolding(crate::specs::Pointers::pointers_in))]
fn pointers_in(
    alloc: Global,
    names: &IndexSet<String>,
    declared: Declared,
    stmt: &Stmt,
) -> Result<Declared, CFault>
    ensures { GivesAs declared_view result (meant.pointers_in names.now.keys (declared_view declared) (stmt_of stmt.now)) }
{
    match stmt {
        Stmt::Block(_, inner) | Stmt::For(_, _, inner) => pointers(alloc, names, declared, inner),
        Stmt::Task(_, _, inner) | Stmt::Group(_, _, inner) => {
            pointers(alloc, names, declared, inner)
        }
        Stmt::If(_, _, one, two) => {
            let declared = pointers(alloc, names, declared, one)?;
            pointers(alloc, names, declared, two)
        }
        Stmt::Point(left, pointer, spot) => { point(alloc, names, *left, declared, *pointer, spot) }
        Stmt::Assign(_, _, _, _) | Stmt::Wait(_, _) | Stmt::Yield(_) => Ok(declared),
        Stmt::Call(_, _, _) | Stmt::Print(_, _) | Stmt::Show(_, _, _) => Ok(declared),
    }
}

/// The pointers that statements declare.
#[cycle(pointers)]
pub fn pointers(
    alloc: Global,
    names: &IndexSet<String>,
    declared: Declared,
    stmts: &[Stmt],
) -> Result<Declared, CFault>
    ensures { GivesAs declared_view result (meant.pointers_from names.now.keys (declared_view declared) (body_of (list_of stmts.now))) }
{
    let mut declared = declared;
    for stmt in stmts {
        declared = pointers_in(alloc, names, declared, stmt)?;
    }
    Ok(declared)
}
