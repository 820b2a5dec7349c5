//! What a file declares.
ghost use Rattle.std.specs.Prelude.{◌≡◌, IfOk, length, map, string_bytes};
ghost use Rattle.ot_c_expressions.specs.Tree.{expr_of};
ghost use Rattle.ot_c_statements.specs.Tree.{exprs_of, index_of};
ghost use Rattle.ot_c_files.specs.Program.{initial_of, variable_of, variables_of, declaration_of};
ghost use Rattle.ot_c_scope.specs.Results.{GivesAs};
ghost use Rattle.ot_c_names.specs.Arrays.{with_zeros};
ghost use Rattle.ot_c_arrays.specs.Arrays.{c_array, declared_view};
ghost use Rattle.ot_c_arrays.specs.Arrays as meant;
ghost use Rattle.ot_c_arrays.specs.Each.{each_or_refused};

use indexmap::IndexSet;
use ot_c_expressions::{Expr, Unary, left_of};
use ot_c_files::{Declaration, Initial, Variable};
use ot_c_names::{CArray, is_taken, own_name};
use ot_c_scope::kind::{holds, holds_below, is_signed};
use ot_c_scope::{CFault, Meaning, Reason, Scope, constant};
use ot_c_words::{IntegerType, Name};
use ot_program::is_name;
use std::alloc::{AllocError, Global};

const MAX_CELLS: u64 = 65_536;

/// What a file has declared so far: what its names mean, and its arrays in their order.
#[derive(Debug, Drop)]
pub struct Declared {
    pub meanings: Vec<Meaning>,
    pub arrays: Vec<CArray>,
}

/// A name that stands where so many words are left, and means nothing yet, comes to mean this.
pub fn named(
    left: usize,
    mut declared: Declared,
    name: usize,
    meaning: Meaning,
) -> Result<Declared, CFault>
    ensures { GivesAs declared_view result (meant.with_meaning left (declared_view declared) name meaning) }
{
    match declared.meanings.get(name) {
        None => return Err(CFault::Outside(left, Reason::NoName)),
        Some(Meaning::Nothing) => {}
        Some(_) => return Err(CFault::Outside(left, Reason::Twice)),
    }
    declared.meanings[name] = meaning;
    Ok(declared)
}

/// The number that a value is wherever it is computed.
fn number(scope: &Scope<'_>, expr: &Expr) -> Result<u64, CFault>
    ensures { GivesAs (λ n. n) result (meant.number scope.now (expr_of expr.now)) }
{
    match constant(scope, expr) {
        Some((number, _)) => Ok(number),
        None => Err(CFault::Outside(left_of(expr), Reason::NoConstant)),
    }
}

/// How many cells an array has, if it is one.
fn length(scope: &Scope<'_>, length: &Option<Expr>) -> Result<Option<usize>, CFault>
    ensures { GivesAs (λ n. n) result (meant.length scope.now (index_of length.now)) }
{
    let Some(length) = length else {
        return Ok(None);
    };
    let count = number(scope, length)?;
    if count == 0 || count > MAX_CELLS {
        return Err(CFault::Outside(left_of(length), Reason::NoLength));
    }
    Ok(Some(count as usize))
}

/// A number that a type holds.
fn held(left: usize, kind: IntegerType, known: Option<(u64, IntegerType)>) -> Result<u64, CFault>
    ensures { GivesAs (λ n. n) result (meant.held_number left kind known) }
{
    match known {
        Some((number, _)) if holds(kind, number) => Ok(number),
        _ => Err(CFault::Outside(left, Reason::NoConstant)),
    }
}

/// The number that is so much below zero, modulo 2^64, where both its type and the cell's hold it.
fn below(left: usize, kind: IntegerType, known: Option<(u64, IntegerType)>) -> Result<u64, CFault>
    ensures { GivesAs (λ n. n) result (meant.below left kind known) }
{
    match known {
        Some((number, by)) if is_signed(by) && holds_below(kind, number) => {
            Ok(0u64.wrapping_sub(number))
        }
        _ => Err(CFault::Outside(left, Reason::NoConstant)),
    }
}

/// What a cell of a type begins with.
#[tactic(auto, unfolding(crate::specs::Arrays::first))]
fn first(scope: &Scope<'_>, kind: IntegerType, expr: &Expr) -> Result<u64, CFault>
    ensures { GivesAs (λ n. n) result (meant.first scope.now kind (expr_of expr.now)) }
{
    match expr {
        Expr::Unary(left, Unary::Minus, expr) => below(*left, kind, constant(scope, expr)),
        _ => held(left_of(expr), kind, constant(scope, expr)),
    }
}

/// A cell behind others.
fn number_step(
    scope: &Scope<'_>,
    kind: IntegerType,
    mut cells: Vec<u64>,
    expr: &Expr,
) -> Result<Vec<u64>, CFault>
    ensures { GivesAs (λ v. v.items) result (meant.number_step scope.now kind cells.items (expr_of expr.now)) }
{
    let cell = first(scope, kind, expr)?;
    cells.push(cell)?;
    Ok(cells)
}

fn numbers(
    alloc: Global,
    scope: &Scope<'_>,
    kind: IntegerType,
    exprs: &[Expr],
) -> Result<Vec<u64>, CFault>
    ensures { GivesAs (λ v. v.items) result (meant.numbers scope.now kind (exprs_of exprs.now)) }
{
    let mut cells = Vec::new(alloc);
    for expr in exprs {
        cells = number_step(scope, kind, cells, expr)?;
    }
    Ok(cells)
}

/// The first cells of an array, and how many zeros stand behind them. None is made here, where no limit has been looked at. An array
/// has fewer than 2^32 cells.
fn filled(left: usize, cells: Vec<u64>, count: usize) -> Result<(Vec<u64>, u32), CFault>
    ensures { GivesAs (λ x. with_zeros x.0.items x.1) result (meant.filled_cells left cells.items count) }
{
    if cells.len() > count {
        return Err(CFault::Outside(left, Reason::NoLength));
    }
    match u32::try_from(count - cells.len()) {
        Ok(zeros) => Ok((cells, zeros)),
        Err(_) => Err(CFault::Memory),
    }
}

/// The only cell of a variable.
fn only(
    scope: &Scope<'_>,
    kind: IntegerType,
    cells: Vec<u64>,
    expr: &Expr,
) -> Result<(Vec<u64>, u32), CFault>
    ensures { GivesAs (λ x. with_zeros x.0.items x.1) result (meant.number_step scope.now kind cells.items (expr_of expr.now)) }
{
    let cells = number_step(scope, kind, cells, expr)?;
    Ok((cells, 0))
}

/// The cells of a variable or an array as it begins, the first ones and how many zeros.
fn begun(
    alloc: Global,
    scope: &Scope<'_>,
    left: usize,
    kind: IntegerType,
    length: Option<usize>,
    initial: &Initial,
) -> Result<(Vec<u64>, u32), CFault>
    ensures { GivesAs (λ x. with_zeros x.0.items x.1) result (meant.beginning_cells scope.now left kind length (initial_of initial.now)) }
{
    match (length, initial) {
        (None, Initial::Nothing) => filled(left, Vec::new(alloc), 1),
        (Some(count), Initial::Nothing) => filled(left, Vec::new(alloc), count),
        (None, Initial::Value(expr)) => only(scope, kind, Vec::new(alloc), expr),
        (Some(count), Initial::Values(exprs)) => {
            let cells = numbers(alloc, scope, kind, exprs)?;
            filled(left, cells, count)
        }
        (None, Initial::Values(_)) => Err(CFault::Outside(left, Reason::NoConstant)),
        (Some(_), Initial::Value(expr)) => {
            Err(CFault::Outside(left_of(expr), Reason::NoConstant))
        }
    }
}

/// How many cells a variable has, and these, the first ones and how many zeros.
fn cells_of(
    alloc: Global,
    names: &IndexSet<String>,
    meanings: &[Meaning],
    kind: IntegerType,
    variable: &Variable,
) -> Result<(Option<usize>, (Vec<u64>, u32)), CFault>
    ensures { GivesAs (λ x. (x.0, with_zeros x.1.0.items x.1.1)) result (meant.array_cells names.now.keys meanings.now kind (variable_of variable.now)) }
{
    let scope = Scope::new(alloc, names, meanings, false);
    let length = length(&scope, &variable.length)?;
    let left = variable.left;
    let cells = begun(alloc, &scope, left, kind, length, &variable.initial)?;
    Ok((length, cells))
}

/// The number of a name among those of the text.
pub fn number_of(left: usize, name: Name) -> Result<usize, CFault>
    ensures { GivesAs (λ n. n) result (meant.name_number left name) }
{
    match name {
        Name::Other(number) => Ok(number),
        Name::Known(_) => Err(CFault::Outside(left, Reason::Reserved)),
    }
}

fn is_declared(arrays: &[CArray], name: &str) -> bool
    ensures { result ≡ meant.is_declared (map c_array arrays.now) name.now }
{
    for array in arrays {
        if array.name.as_str() == name {
            return true;
        }
    }
    false
}

/// A name that the language has, and that no array has by another name in C, as `at` and `A_at` would. Few names are
/// taken, so few are looked for.
fn new_name(alloc: Global, left: usize, arrays: &[CArray], name: &str) -> Result<String, CFault>
    ensures { GivesAs (λ s. string_bytes s) result (meant.new_name left (map c_array arrays.now) name.now) }
{
    if is_taken(name) && is_declared(arrays, name) {
        return Err(CFault::Outside(left, Reason::Twice));
    }
    if !is_name(name) {
        return Err(CFault::Outside(left, Reason::NoName));
    }
    Ok(String::from_str(alloc, name)?)
}

/// The name of the array that is called so in C.
fn name_of(
    alloc: Global,
    names: &IndexSet<String>,
    left: usize,
    arrays: &[CArray],
    number: usize,
) -> Result<String, CFault>
    ensures { GivesAs (λ s. string_bytes s) result (meant.array_name_in_c names.now.keys left (map c_array arrays.now) number) }
{
    match names.get_index(number) {
        Some(name) => new_name(alloc, left, arrays, own_name(name.as_str())),
        None => Err(CFault::Outside(left, Reason::NoName)),
    }
}

/// A variable or an array behind others.
fn variable_step(
    alloc: Global,
    names: &IndexSet<String>,
    kind: IntegerType,
    declared: Declared,
    variable: &Variable,
) -> Result<Declared, CFault>
    ensures { GivesAs declared_view result (meant.variable_step names.now.keys kind (declared_view declared) (variable_of variable.now)) }
{
    let left = variable.left;
    let number = number_of(left, variable.name)?;
    let name = name_of(alloc, names, left, &declared.arrays, number)?;
    let (length, begun) = cells_of(alloc, names, &declared.meanings, kind, variable)?;
    let (cells, zeros) = begun;
    let mut declared = named(left, declared, number, Meaning::Cells(kind, length))?;
    declared.arrays.push(CArray { name, cells, zeros })?;
    Ok(declared)
}

/// Variables and arrays of a type behind others.
fn variables(
    alloc: Global,
    names: &IndexSet<String>,
    kind: IntegerType,
    declared: Declared,
    variables: &[Variable],
) -> Result<Declared, CFault>
    ensures { GivesAs declared_view result (each_or_refused (meant.variable_step names.now.keys kind) (declared_view declared) (variables_of variables.now)) }
{
    let mut declared = declared;
    for variable in variables {
        declared = variable_step(alloc, names, kind, declared, variable)?;
    }
    Ok(declared)
}

/// What a declaration declares, behind others.
pub fn declaration(
    alloc: Global,
    names: &IndexSet<String>,
    declared: Declared,
    declaration: &Declaration,
) -> Result<Declared, CFault>
    ensures { GivesAs declared_view result (meant.declare_all names.now.keys (declared_view declared) (declaration_of declaration.now)) }
{
    let kind = declaration.kind;
    variables(alloc, names, kind, declared, &declaration.variables)
}
