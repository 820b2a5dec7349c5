//! Loops that are written out turn by turn.
ghost use Rattle.std.specs.Prelude.{◌≡◌, [], ◌∷◌, ◌+◌, ◌-◌, ◌<◌, ◌^◌, ℕ, IfOk, IfSome};
ghost use Rattle.std.specs.List.{range_with_len};
ghost use Rattle.ot_c_statements.specs.Tree.{stmt_of, list_of, body_of};
ghost use Rattle.ot_c_scope.specs.Results.{GivesAs};
ghost use Rattle.ot_c_arrays.specs.Each.{each_or_refused};
ghost use Rattle.ot_why_place.specs.Spots.{trail_bindings};
ghost use Rattle.ot_c_lines.specs.Lines.{lines_of, none};
ghost use Rattle.ot_c_program.specs.Statements.{bounds_of, source_of, lines_behind};
ghost use Rattle.ot_c_program.specs.Turns as meant;

use crate::known::known;
use crate::statements::{
    Bounds, Loops, Source, body, bounded, branch, group, group_heading, kept, repeated, statement,
    task, task_heading, turn_of,
};
use ot_c_lines::{Lines, both_lines, first_place, kept_if, no_lines};
use ot_c_meaning::value;
use ot_c_scope::{CFault, Reason, Scope};
use ot_c_statements::Stmt;
use ot_why_place::{Trail, Turn};
use serde_json::Value;
use std::alloc::{AllocError, Global};

/// What is known where statements are written turn by turn.
#[derive(Clone, Copy)]
struct Course<'t> {
    source: Source<'t>,
    /// The numbers of loops' variables, the innermost first.
    numbers: Trail<'t, 't>,
}

/// Whether an `if` stands in a body.
#[cycle(branches)]
#[tactic(auto, unfolding(crate::specs::Turns::has_branch))]
fn has_branch(stmts: &[Stmt]) -> bool
    ensures { result ≡ meant.has_branch (body_of (list_of stmts.now)) }
{
    for stmt in stmts {
        if has_branch_one(stmt) {
            return true;
        }
    }
    false
}

/// Whether an `if` stands in a statement.
#[cycle(branches)]
#[tactic(auto, unfolding(crate::specs::Turns::has_branch_one))]
fn has_branch_one(stmt: &Stmt) -> bool
    ensures { result ≡ meant.has_branch_one (stmt_of stmt.now) }
{
    match stmt {
        Stmt::If(_, _, _, _) => true,
        Stmt::Block(_, inner) | Stmt::For(_, _, inner) => has_branch(inner),
        Stmt::Task(_, _, inner) | Stmt::Group(_, _, inner) => has_branch(inner),
        Stmt::Assign(_, _, _, _) | Stmt::Wait(_, _) | Stmt::Yield(_) => false,
        Stmt::Call(_, _, _) | Stmt::Print(_, _) => false,
        Stmt::Show(_, _, _) | Stmt::Point(_, _, _) => false,
    }
}

/// The first turn of a loop and the end, where both are known and of 32 bits.
fn turns_between(first: Option<u64>, end: Option<u64>) -> Option<(u64, u64)>
    ensures turns { result ≡ meant.turns_between first end }
    ensures short { IfSome result (λ range. range.1 < 2 ^ 32) }
{
    let first = first?;
    let end = end?;
    if first < 1 << 32 && end < 1 << 32 {
        Some((first, end))
    } else {
        None
    }
}

/// Those of a loop in whose body an `if` stands.
fn turns_of(branches: bool, numbers: &Trail<'_, '_>, bounds: &Bounds) -> Option<(u64, u64)>
    ensures turns { result ≡ meant.turns_of branches (trail_bindings numbers.now) (bounds_of bounds.now) }
    ensures short { IfSome result (λ range. range.1 < 2 ^ 32) }
{
    if branches {
        turns_between(known(&bounds.first, numbers), known(&bounds.end, numbers))
    } else {
        None
    }
}

/// What is written of a loop has at most so many words, where each statement may have as many as the file.
const MAX_WORDS: usize = 2_000_000;

/// The second behind the first, unless there are too many, or too many words in them.
fn within_words(words: usize, one: Lines, two: Lines) -> Result<Lines, CFault>
    ensures { GivesAs lines_of result (meant.within_words words (lines_of one) (lines_of two)) }
{
    if one.places.len() + two.places.len() > MAX_WORDS / words.max(1) {
        return Err(CFault::Outside(first_place(&two), Reason::TooMany));
    }
    both_lines(one, two)
}

/// One turn of a loop.
fn one_turn(bounds: &Bounds, number: u64) -> Result<Bounds, AllocError>
    requires { number + 1 < 2 ^ 32 }
    ensures { IfOk result (λ b. bounds_of b ≡ meant.turn_range (bounds_of bounds.now) number) }
{
    Ok(Bounds {
        name: bounds.name.clone()?,
        first: Value::from(number),
        end: Value::from(number + 1),
    })
}

/// Whether an `if` leaves out its first body, where its condition has this number, if it is known.
fn leaves_first(number: Option<u64>) -> bool
    ensures { result ≡ meant.leaves_first number }
{
    match number {
        Some(number) => number == 0,
        None => false,
    }
}

/// The same of its second body.
fn leaves_second(number: Option<u64>) -> bool
    ensures { result ≡ meant.leaves_second number }
{
    match number {
        Some(number) => number != 0,
        None => false,
    }
}

/// A statement.
#[cycle(turned)]
#[tactic(auto, unfolding(crate::specs::Turns::turned_lines))]
fn turned<'a>(
    alloc: Global,
    course: &Course<'_>,
    scope: &Scope<'a>,
    stmt: &'a Stmt,
) -> Result<Lines, CFault>
    ensures { GivesAs lines_of result (meant.turned_lines (source_of course.now.source) (trail_bindings course.now.numbers) scope.now (stmt_of stmt.now)) }
{
    let source = &course.source;
    match stmt {
        Stmt::Block(_, inner) => turned_body(alloc, course, scope, inner),
        Stmt::If(left, test, one, two) => {
            if let Some(extreme) = kept_if(scope, test, one, two) {
                return kept(alloc, scope, *left, &extreme);
            }
            let test = value(alloc, scope, test)?.value;
            let number = known(&test, &course.numbers);
            let one = unless_left(alloc, course, scope, leaves_first(number), one)?;
            let two = unless_left(alloc, course, scope, leaves_second(number), two)?;
            branch(alloc, *left, test, one, two)
        }
        Stmt::For(left, turns, inner) => {
            let bounds = bounded(alloc, scope, turns)?;
            let around = scope.with_turn(alloc, turn_of(turns, true))?;
            match turns_of(has_branch(inner), &course.numbers, &bounds) {
                None => {
                    let inner = body(alloc, source, &around, inner)?;
                    repeated(alloc, *left, bounds, inner)
                }
                Some(range) => {
                    let whole = Loop {
                        left: *left,
                        name: scope.text(turns.variable),
                        bounds: &bounds,
                    };
                    looped(alloc, course, &around, whole, range, inner)
                }
            }
        }
        Stmt::Task(left, clauses, inner) => {
            let heading = task_heading(alloc, scope, *left, clauses)?;
            let inner = turned_body(alloc, course, &heading.scope, inner)?;
            task(alloc, *left, heading.clauses, &heading.taking, inner)
        }
        Stmt::Group(left, clauses, inner) => {
            let (operation, heading) = group_heading(alloc, scope, *left, clauses)?;
            let inner = turned_body(alloc, course, &heading.scope, inner)?;
            group(alloc, *left, operation, heading.clauses, inner)
        }
        Stmt::Assign(_, _, _, _) | Stmt::Wait(_, _) | Stmt::Yield(_) => {
            statement(alloc, source, scope, stmt)
        }
        Stmt::Call(_, _, _) | Stmt::Print(_, _) => statement(alloc, source, scope, stmt),
        Stmt::Show(_, _, _) | Stmt::Point(_, _, _) => statement(alloc, source, scope, stmt),
    }
}

/// Statements, or nothing where they are left out.
#[cycle(turned)]
fn unless_left<'a>(
    alloc: Global,
    course: &Course<'_>,
    scope: &Scope<'a>,
    left: bool,
    stmts: &'a [Stmt],
) -> Result<Lines, CFault>
    ensures { GivesAs lines_of result (meant.unless_left left (meant.turned_from (source_of course.now.source) (trail_bindings course.now.numbers) scope.now none (body_of (list_of stmts.now)))) }
{
    if left {
        Ok(no_lines(alloc))
    } else {
        turned_body(alloc, course, scope, stmts)
    }
}

/// A loop that is written out: how many words are left where it begins, its variable, and its bounds.
#[derive(Clone, Copy)]
struct Loop<'t> {
    left: usize,
    name: &'t str,
    bounds: &'t Bounds,
}

/// The turns of a loop, one after another.
#[cycle(turned)]
fn looped<'a>(
    alloc: Global,
    course: &Course<'_>,
    around: &Scope<'a>,
    whole: Loop<'_>,
    range: (u64, u64),
    stmts: &'a [Stmt],
) -> Result<Lines, CFault>
    requires { range.1 < 2 ^ 32 }
    ensures { GivesAs lines_of result (each_or_refused (meant.turn_step course.now.source.words whole.entry.left (bounds_of whole.entry.bounds.now)
        (λ k. meant.turned_from (source_of course.now.source) ((whole.entry.name.now, k) ∷ trail_bindings course.now.numbers) around.now none (body_of (list_of stmts.now))))
        none (range_with_len range.0 (range.1 - range.0))) }
{
    let mut lines = no_lines(alloc);
    for number in range.0..range.1 {
        lines = turn_step(alloc, course, around, whole, lines, number, stmts)?;
    }
    Ok(lines)
}

/// One turn of a loop behind others.
#[cycle(turned)]
fn turn_step<'a>(
    alloc: Global,
    course: &Course<'_>,
    around: &Scope<'a>,
    whole: Loop<'_>,
    lines: Lines,
    number: u64,
    stmts: &'a [Stmt],
) -> Result<Lines, CFault>
    requires { number + 1 < 2 ^ 32 }
    ensures { GivesAs lines_of result (meant.turn_step course.now.source.words whole.entry.left (bounds_of whole.entry.bounds.now)
        (λ k. meant.turned_from (source_of course.now.source) ((whole.entry.name.now, k) ∷ trail_bindings course.now.numbers) around.now none (body_of (list_of stmts.now)))
        (lines_of lines) number) }
{
    let name = whole.name;
    let inner = Course {
        source: course.source,
        numbers: Trail::Turn(Turn { name, number }, &course.numbers),
    };
    let inner = turned_body(alloc, &inner, around, stmts)?;
    let turn = one_turn(whole.bounds, number)?;
    let turn = repeated(alloc, whole.left, turn, inner)?;
    within_words(course.source.words, lines, turn)
}

/// A statement behind others.
#[cycle(turned)]
fn turned_step<'a>(
    alloc: Global,
    course: &Course<'_>,
    scope: &Scope<'a>,
    lines: Lines,
    stmt: &'a Stmt,
) -> Result<Lines, CFault>
    ensures { GivesAs lines_of result (lines_behind (lines_of lines) (meant.turned_lines (source_of course.now.source) (trail_bindings course.now.numbers) scope.now (stmt_of stmt.now))) }
{
    let more = turned(alloc, course, scope, stmt)?;
    both_lines(lines, more)
}

/// Statements.
#[cycle(turned)]
fn turned_body<'a>(
    alloc: Global,
    course: &Course<'_>,
    scope: &Scope<'a>,
    stmts: &'a [Stmt],
) -> Result<Lines, CFault>
    ensures { GivesAs lines_of result (meant.turned_from (source_of course.now.source) (trail_bindings course.now.numbers) scope.now none (body_of (list_of stmts.now))) }
{
    let mut lines = no_lines(alloc);
    for stmt in stmts {
        lines = turned_step(alloc, course, scope, lines, stmt)?;
    }
    Ok(lines)
}

/// A statement outside of loops.
pub(crate) fn written<'a>(
    alloc: Global,
    source: &Source<'_>,
    scope: &Scope<'a>,
    stmt: &'a Stmt,
) -> Result<Lines, CFault>
    ensures { GivesAs lines_of result (meant.statement_lines (source_of source.now) scope.now (stmt_of stmt.now)) }
{
    match source.loops {
        Loops::AsTheyStand => statement(alloc, source, scope, stmt),
        Loops::ByTurns => turned(alloc, &course_of(source), scope, stmt),
    }
}

/// Statements outside of loops.
pub(crate) fn written_body<'a>(
    alloc: Global,
    source: &Source<'_>,
    scope: &Scope<'a>,
    stmts: &'a [Stmt],
) -> Result<Lines, CFault>
    ensures { GivesAs lines_of result (meant.written_body (source_of source.now) scope.now (body_of (list_of stmts.now))) }
{
    match source.loops {
        Loops::AsTheyStand => body(alloc, source, scope, stmts),
        Loops::ByTurns => turned_body(alloc, &course_of(source), scope, stmts),
    }
}

/// No variable has a number outside of loops.
fn course_of<'t>(source: &Source<'t>) -> Course<'t>
    ensures source { result.source ≡ source.now }
    ensures numbers { trail_bindings result.numbers ≡ [] }
{
    Course {
        source: *source,
        numbers: Trail::Root,
    }
}
