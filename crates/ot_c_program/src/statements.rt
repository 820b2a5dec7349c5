//! Statements.
ghost use Rattle.std.specs.Prelude.{◌≡◌, ◌++◌, map, IfOk};
ghost use Rattle.serde_json.specs.View.{view};
ghost use Rattle.ot_c_expressions.specs.Tree.{expr_of, clauses_of};
ghost use Rattle.ot_c_statements.specs.Tree.{aim_of, course_of, exprs_of, site_of, stmt_of, list_of, body_of};
ghost use Rattle.ot_c_scope.specs.Results.{GivesAs};
ghost use Rattle.ot_c_clauses.specs.Clauses.{head_of};
ghost use Rattle.ot_c_lines.specs.Extremes.{kept_of};
ghost use Rattle.ot_c_lines.specs.Lines.{lines_of};
ghost use Rattle.ot_c_program.specs.Statements.{bounds_of, called_of, source_of};
ghost use Rattle.ot_c_program.specs.Statements as meant;

use ot_c_clauses::{Heading, Taking, group_operation, headed, no_cells, operation_word};
use ot_c_expressions::{Clause, Expr, Operation, Sign, left_of};
use ot_c_lines::{
    Extreme, Lines, assignment, both_lines, extreme_folded, kept_if, lines_copy, no_lines,
    one_line, one_line_with,
};
use ot_c_meaning::value;
use ot_c_scope::kind::is_word;
use ot_c_scope::{CFault, Reason, Scope, Sense, Turn, json, size};
use ot_c_statements::{Spot, Stmt, Target, Turns};
use ot_c_words::{IntegerType, Name};
use ot_program::is_name;
use serde_json::Value;
use std::alloc::{AllocError, Global};

/// What becomes of a function's body.
#[derive(Debug, Drop)]
pub(crate) enum Became {
    Lines(Lines),
    Outside(usize, Reason),
}

/// What becomes of a function where it is called, in regions and outside of them.
#[derive(Debug, Drop)]
pub(crate) struct Called {
    pub(crate) inside: Became,
    pub(crate) outside: Became,
}

/// How loops are written.
#[derive(Clone, Copy, Debug, PartialEq, Eq)]
pub enum Loops {
    /// As they stand in the file.
    AsTheyStand,
    /// Turn by turn, where an `if` stands in them.
    ByTurns,
}

/// How many words the file has, what functions are, by their numbers, and how loops are written.
#[derive(Clone, Copy)]
pub(crate) struct Source<'a> {
    pub(crate) words: usize,
    pub(crate) functions: &'a [Called],
    pub(crate) loops: Loops,
}

/// A value is read: `["if", value, [], []]`.
fn read(alloc: Global, scope: &Scope<'_>, left: usize, expr: &Expr) -> Result<Lines, CFault>
    ensures { GivesAs lines_of result (meant.value_read scope.now left (expr_of expr.now)) }
{
    let worth = value(alloc, scope, expr)?;
    let none = json::list(Vec::new(alloc));
    let nothing = json::list(Vec::new(alloc));
    let statement = json::form3(alloc, "if", worth.value, none, nothing)?;
    Ok(one_line(alloc, left, statement, Vec::new(alloc))?)
}

/// A value is read behind others.
fn read_step(
    alloc: Global,
    scope: &Scope<'_>,
    left: usize,
    lines: Lines,
    expr: &Expr,
) -> Result<Lines, CFault>
    ensures { GivesAs lines_of result (meant.read_step scope.now left (lines_of lines) (expr_of expr.now)) }
{
    let more = read(alloc, scope, left, expr)?;
    both_lines(lines, more)
}

/// Values that are printed are read.
fn print(alloc: Global, scope: &Scope<'_>, left: usize, exprs: &[Expr]) -> Result<Lines, CFault>
    ensures { GivesAs lines_of result (meant.print scope.now left (exprs_of exprs.now)) }
{
    let mut lines = no_lines(alloc);
    for expr in exprs {
        lines = read_step(alloc, scope, left, lines, expr)?;
    }
    Ok(lines)
}

/// A wait, with clauses or without.
fn wait<'a>(
    alloc: Global,
    scope: &Scope<'a>,
    left: usize,
    clauses: &'a [Clause],
) -> Result<Lines, CFault>
    ensures { GivesAs lines_of result (meant.wait scope.now left (clauses_of clauses.now)) }
{
    region_at(scope, name_at(left))?;
    waits(alloc, scope, left, clauses)
}

/// The same, wherever it stands.
fn waits<'a>(
    alloc: Global,
    scope: &Scope<'a>,
    left: usize,
    clauses: &'a [Clause],
) -> Result<Lines, CFault>
    ensures { GivesAs lines_of result (meant.waits scope.now left (clauses_of clauses.now)) }
{
    match clauses {
        [] => wait_for_all(alloc, left),
        _ => wait_for(alloc, scope, left, clauses),
    }
}

fn wait_for_all(alloc: Global, left: usize) -> Result<Lines, CFault>
    ensures { GivesAs lines_of result (meant.wait_for_all left) }
{
    let statement = json::form0(alloc, "wait")?;
    Ok(one_line(alloc, left, statement, Vec::new(alloc))?)
}

fn wait_for<'a>(
    alloc: Global,
    scope: &Scope<'a>,
    left: usize,
    clauses: &'a [Clause],
) -> Result<Lines, CFault>
    ensures { GivesAs lines_of result (meant.wait_for scope.now left (clauses_of clauses.now)) }
{
    let heading = headed(alloc, name_at(left), scope.again(alloc)?, clauses)?;
    let statement = json::form1(alloc, "wait", json::list(heading.clauses))?;
    Ok(one_line(alloc, left, statement, Vec::new(alloc))?)
}

/// Where the name of a directive stands that begins where so many words are left, with the one word `#pragma omp`.
pub(crate) fn name_at(left: usize) -> usize
    ensures { result ≡ meant.directive_name_at left }
{
    left.saturating_sub(1)
}

/// Tasks, waits and groups stand in a parallel region.
fn region_at(scope: &Scope<'_>, left: usize) -> Result<(), CFault>
    ensures { GivesAs (λ x. x) result (meant.within_region scope.now left) }
{
    if scope.inside() {
        Ok(())
    } else {
        Err(CFault::Outside(left, Reason::NoRegion))
    }
}

/// The bounds of a loop, and its variable's name.
#[derive(Drop)]
pub(crate) struct Bounds {
    pub(crate) name: Value,
    pub(crate) first: Value,
    pub(crate) end: Value,
}

/// An `int` that begins with a number of another type may be another number.
fn may_begin(kind: IntegerType, first: IntegerType) -> bool
    ensures { result ≡ meant.may_begin kind first }
{
    match kind {
        IntegerType::Int => matches!(first, IntegerType::Int),
        IntegerType::Unsigned | IntegerType::Long | IntegerType::UnsignedLong => true,
    }
}

/// The end of a loop, or where it has a turn too the number behind it.
fn end_of(alloc: Global, through: bool, end: Value) -> Result<Value, CFault>
    ensures { GivesAs (λ v. view v) result (Ok (meant.end_of_range through (view end))) }
{
    if through {
        Ok(json::form2(alloc, "+", end, Value::from(1u64))?)
    } else {
        Ok(end)
    }
}

/// The place in a loop's body, or in its bounds.
pub(crate) fn turn_of(turns: &Turns, begun: bool) -> Turn
    ensures { result ≡ meant.loop_turn (course_of turns.now) begun }
{
    Turn {
        variable: turns.variable,
        kind: turns.kind,
        begun,
    }
}

pub(crate) fn bounded(alloc: Global, scope: &Scope<'_>, turns: &Turns) -> Result<Bounds, CFault>
    ensures { GivesAs bounds_of result (meant.bounds scope.now (course_of turns.now)) }
{
    if !is_name(scope.text(turns.variable)) {
        return Err(CFault::Outside(turns.left, Reason::NoName));
    }
    let around = scope.with_turn(alloc, turn_of(turns, false))?;
    let (first, first_kind) = size(alloc, &around, &turns.start)?;
    let (end, _) = size(alloc, &around, &turns.end)?;
    if !may_begin(turns.kind, first_kind) {
        return Err(CFault::Outside(left_of(&turns.start), Reason::Narrow));
    }
    let end = end_of(alloc, turns.through, end)?;
    let name = json::text(alloc, scope.text(turns.variable))?;
    Ok(Bounds { name, first, end })
}

/// `if`
pub(crate) fn branch(
    alloc: Global,
    left: usize,
    test: Value,
    one: Lines,
    two: Lines,
) -> Result<Lines, CFault>
    ensures { GivesAs lines_of result (Ok (meant.branch left (view test) (lines_of one) (lines_of two))) }
{
    let first = json::list(one.statements);
    let second = json::list(two.statements);
    let statement = json::form3(alloc, "if", test, first, second)?;
    let mut places = one.places;
    let mut more = two.places;
    places.append(&mut more)?;
    let mut taking = one.taking;
    let mut others = two.taking;
    taking.append(&mut others)?;
    Ok(one_line_with(alloc, left, statement, places, taking)?)
}

/// `for`
pub(crate) fn repeated(
    alloc: Global,
    left: usize,
    bounds: Bounds,
    inner: Lines,
) -> Result<Lines, CFault>
    ensures { GivesAs lines_of result (Ok (meant.loop_lines left (bounds_of bounds) (lines_of inner))) }
{
    let list = json::list(inner.statements);
    let statement = json::form4(alloc, "for", bounds.name, bounds.first, bounds.end, list)?;
    Ok(one_line_with(alloc, left, statement, inner.places, inner.taking)?)
}

/// What the clauses of a task say, in whose body the scope is that of the task.
pub(crate) fn task_heading<'a>(
    alloc: Global,
    scope: &Scope<'a>,
    left: usize,
    clauses: &'a [Clause],
) -> Result<Heading<'a>, CFault>
    ensures { GivesAs head_of result (meant.task_head scope.now left (clauses_of clauses.now)) }
{
    let name = name_at(left);
    region_at(scope, name)?;
    headed(alloc, name, scope.within_task(alloc)?, clauses)
}

/// How a task that begins where so many words are left takes part in reductions, before those in it.
fn taking_of(
    alloc: Global,
    left: usize,
    own: &[Taking],
    within: Vec<(usize, Taking)>,
) -> Result<Vec<(usize, Taking)>, AllocError>
    ensures { IfOk result (λ v. v.items ≡ map (λ t. (left, t)) own.now ++ within.items) }
{
    let mut taking = Vec::new(alloc);
    for way in own {
        taking.push((left, *way))?;
    }
    let mut others = within;
    taking.append(&mut others)?;
    Ok(taking)
}

/// A task that takes part in reductions so.
pub(crate) fn task(
    alloc: Global,
    left: usize,
    clauses: Vec<Value>,
    taking: &[Taking],
    inner: Lines,
) -> Result<Lines, CFault>
    ensures { GivesAs lines_of result (Ok (meant.task left (map view clauses.items) taking.now (lines_of inner))) }
{
    let clauses = json::list(clauses);
    let list = json::list(inner.statements);
    let statement = json::form2(alloc, "task", clauses, list)?;
    let taking = taking_of(alloc, left, taking, inner.taking)?;
    Ok(one_line_with(alloc, left, statement, inner.places, taking)?)
}

/// By which operation a group combines, and what its clauses say.
pub(crate) fn group_heading<'a>(
    alloc: Global,
    scope: &Scope<'a>,
    left: usize,
    clauses: &'a [Clause],
) -> Result<(Operation, Heading<'a>), CFault>
    ensures { GivesAs (λ x. (x.0, head_of x.1)) result (meant.group_head scope.now left (clauses_of clauses.now)) }
{
    let name = name_at(left);
    region_at(scope, name)?;
    let operation = group_operation(clauses)?;
    let heading = headed(alloc, name, scope.again(alloc)?, clauses)?;
    Ok((operation, heading))
}

/// A group.
pub(crate) fn group(
    alloc: Global,
    left: usize,
    operation: Operation,
    sections: Vec<Value>,
    inner: Lines,
) -> Result<Lines, CFault>
    ensures { GivesAs lines_of result (Ok (meant.group left operation (map view sections.items) (lines_of inner))) }
{
    let word = json::text(alloc, operation_word(operation))?;
    let sections = json::list(sections);
    let list = json::list(inner.statements);
    let statement = json::form3(alloc, "group", word, sections, list)?;
    Ok(one_line_with(alloc, left, statement, inner.places, inner.taking)?)
}

/// Cells of an array, to which `show` has a pointer.
fn shown_by(alloc: Global, left: usize, sense: Sense) -> Result<Lines, CFault>
    ensures { GivesAs lines_of result (meant.shown_by left sense) }
{
    match sense {
        Sense::Cells(_, None) => Err(CFault::Outside(left, Reason::NoArray)),
        Sense::Cells(kind, Some(_)) => {
            if is_word(kind) {
                Ok(no_lines(alloc))
            } else {
                Err(CFault::Outside(left, Reason::OtherType))
            }
        }
        other => Err(CFault::Outside(left, no_cells(other))),
    }
}

/// Cells that are shown outside of regions: all are, whatever is called for.
fn show(alloc: Global, scope: &Scope<'_>, left: usize, spot: &Spot) -> Result<Lines, CFault>
    ensures { GivesAs lines_of result (meant.show scope.now left (site_of spot.now)) }
{
    if scope.inside() {
        Err(CFault::Outside(left, Reason::Function))
    } else {
        shown_by(alloc, spot.left, scope.sense(spot.array))
    }
}

/// The statements of a function, wherever it is called.
fn once_more(alloc: Global, became: &Became) -> Result<Lines, CFault>
    ensures { GivesAs lines_of result (meant.became_of became.now) }
{
    match became {
        Became::Lines(lines) => Ok(lines_copy(alloc, lines)?),
        Became::Outside(left, reason) => Err(CFault::Outside(*left, *reason)),
    }
}

/// Which function it is, if it is one.
fn function_by(left: usize, sense: Sense) -> Result<usize, CFault>
    ensures { GivesAs (λ n. n) result (meant.function_by left sense) }
{
    match sense {
        Sense::Function(number) => Ok(number),
        _ => Err(CFault::Outside(left, Reason::Function)),
    }
}

/// Which function a name is that is called here.
fn function_at(scope: &Scope<'_>, left: usize, name: Name, exprs: &[Expr]) -> Result<usize, CFault>
    ensures { GivesAs (λ n. n) result (meant.function_called scope.now left name (exprs_of exprs.now)) }
{
    match exprs {
        [] => {
            if scope.combines() {
                Err(CFault::Outside(left, Reason::CallInGroup))
            } else {
                function_by(left, scope.sense(name))
            }
        }
        _ => Err(CFault::Outside(left, Reason::Function)),
    }
}

/// A call: the statements of the function, in which names mean what they do where it stands.
fn call(
    alloc: Global,
    functions: &[Called],
    scope: &Scope<'_>,
    left: usize,
    name: Name,
    exprs: &[Expr],
) -> Result<Lines, CFault>
    ensures { GivesAs lines_of result (meant.call (map called_of functions.now) scope.now left name (exprs_of exprs.now)) }
{
    let number = function_at(scope, left, name, exprs)?;
    match functions.get(number) {
        None => Err(CFault::Outside(left, Reason::Function)),
        Some(called) => {
            if scope.inside() {
                once_more(alloc, &called.inside)
            } else {
                once_more(alloc, &called.outside)
            }
        }
    }
}

/// An assignment.
fn assigned(
    alloc: Global,
    scope: &Scope<'_>,
    left: usize,
    target: &Target,
    sign: Option<Sign>,
    expr: &Expr,
) -> Result<Lines, CFault>
    ensures { GivesAs lines_of result (meant.assignment_line scope.now left (aim_of target.now) sign (expr_of expr.now)) }
{
    let statement = assignment(alloc, scope, target, sign, expr)?;
    Ok(one_line(alloc, left, statement, Vec::new(alloc))?)
}

/// What an `if` keeps in a task's own copy is folded into it.
pub(crate) fn kept(
    alloc: Global,
    scope: &Scope<'_>,
    left: usize,
    extreme: &Extreme<'_>,
) -> Result<Lines, CFault>
    ensures { GivesAs lines_of result (meant.extreme_kept scope.now left (kept_of extreme.now)) }
{
    let statement = extreme_folded(alloc, scope, extreme)?;
    Ok(one_line(alloc, left, statement, Vec::new(alloc))?)
}

/// A statement.
#[cycle(statement)]
#[tactic(auto, unfolding(crate::specs::Statements::lowered_statement))]
pub(crate) fn statement<'a>(
    alloc: Global,
    source: &Source<'_>,
    scope: &Scope<'a>,
    stmt: &'a Stmt,
) -> Result<Lines, CFault>
    ensures { GivesAs lines_of result (meant.lowered_statement (source_of source.now) scope.now (stmt_of stmt.now)) }
{
    match stmt {
        Stmt::Block(_, inner) => body(alloc, source, scope, inner),
        Stmt::Assign(left, target, sign, expr) => {
            assigned(alloc, scope, *left, target, *sign, expr)
        }
        Stmt::If(left, test, one, two) => {
            if let Some(extreme) = kept_if(scope, test, one, two) {
                return kept(alloc, scope, *left, &extreme);
            }
            let test = value(alloc, scope, test)?;
            let one = body(alloc, source, scope, one)?;
            let two = body(alloc, source, scope, two)?;
            branch(alloc, *left, test.value, one, two)
        }
        Stmt::For(left, turns, inner) => {
            let bounds = bounded(alloc, scope, turns)?;
            let around = scope.with_turn(alloc, turn_of(turns, true))?;
            let inner = body(alloc, source, &around, inner)?;
            repeated(alloc, *left, bounds, inner)
        }
        Stmt::Task(left, clauses, inner) => {
            let heading = task_heading(alloc, scope, *left, clauses)?;
            let inner = body(alloc, source, &heading.scope, inner)?;
            task(alloc, *left, heading.clauses, &heading.taking, inner)
        }
        Stmt::Wait(left, clauses) => wait(alloc, scope, *left, clauses),
        Stmt::Group(left, clauses, inner) => {
            let (operation, heading) = group_heading(alloc, scope, *left, clauses)?;
            let inner = body(alloc, source, &heading.scope, inner)?;
            group(alloc, *left, operation, heading.clauses, inner)
        }
        Stmt::Yield(_) | Stmt::Point(_, _, _) => Ok(no_lines(alloc)),
        Stmt::Call(left, name, exprs) => {
            call(alloc, source.functions, scope, *left, *name, exprs)
        }
        Stmt::Print(left, exprs) => print(alloc, scope, *left, exprs),
        Stmt::Show(left, spot, _) => show(alloc, scope, *left, spot),
    }
}

/// A statement behind others.
#[cycle(statement)]
fn body_step<'a>(
    alloc: Global,
    source: &Source<'_>,
    scope: &Scope<'a>,
    lines: Lines,
    stmt: &'a Stmt,
) -> Result<Lines, CFault>
    ensures { GivesAs lines_of result (meant.lines_behind (lines_of lines) (meant.lowered_statement (source_of source.now) scope.now (stmt_of stmt.now))) }
{
    let more = statement(alloc, source, scope, stmt)?;
    both_lines(lines, more)
}

/// Statements.
#[cycle(statement)]
pub(crate) fn body<'a>(
    alloc: Global,
    source: &Source<'_>,
    scope: &Scope<'a>,
    stmts: &'a [Stmt],
) -> Result<Lines, CFault>
    ensures { GivesAs lines_of result (meant.body (source_of source.now) scope.now (body_of (list_of stmts.now))) }
{
    let mut lines = no_lines(alloc);
    for stmt in stmts {
        lines = body_step(alloc, source, scope, lines, stmt)?;
    }
    Ok(lines)
}
