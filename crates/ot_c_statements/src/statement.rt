//! Statements.
ghost use Rattle.std.specs.Prelude.{◌≡◌, ◌≤◌};
ghost use Rattle.ot_c_words.specs.Reading.{Gives};
ghost use Rattle.ot_c_expressions.specs.Signs.{view_of_found as seen};
ghost use Rattle.ot_c_statements.specs.Tree.{stmt_of, list_of, body_of};
ghost use Rattle.ot_c_statements.specs.Statements.{statement_at, stmts_at, stmts_step};
ghost use Rattle.ot_c_statements.specs.Statements as read;

use crate::directive::{Directive, directive_of, own_clauses};
use crate::fault::{Fault, ReadError};
use crate::marks::{behind_mark, directive_end};
use crate::part::value;
use crate::simple::{local, named, print, show};
use crate::tree::Stmt;
use crate::turns::turns;
use ot_c_words::{Known, Mark, Name, Word};
use std::alloc::Global;

/// How deep statements nest.
const MAX_NESTING: u32 = 48;

/// What begins with a name.
#[derive(Clone, Copy)]
pub(crate) enum Opening {
    If,
    For,
    Print,
    Show,
    /// The type of what pointers point to.
    Points,
    /// Another type.
    Declares,
    /// A word of C that begins no statement here.
    Nothing,
    /// What is assigned to, or a function.
    Names,
}

#[tactic(auto, unfolding(crate::specs::Statements::opening_of))]
fn opening_of(name: Name) -> Opening
    ensures { result ≡ read.opening_of name }
{
    match name {
        Name::Known(Known::If) => Opening::If,
        Name::Known(Known::For) => Opening::For,
        Name::Known(Known::Printf) => Opening::Print,
        Name::Known(Known::Show) => Opening::Show,
        Name::Known(Known::Int) => Opening::Declares,
        Name::Known(Known::Unsigned) => Opening::Declares,
        Name::Known(Known::Long) => Opening::Declares,
        Name::Known(Known::Word64) => Opening::Points,
        Name::Known(Known::Size) => Opening::Points,
        Name::Known(Known::Static) => Opening::Nothing,
        Name::Known(Known::Const) => Opening::Nothing,
        Name::Known(Known::Void) => Opening::Nothing,
        Name::Known(Known::Else) => Opening::Nothing,
        Name::Known(Known::Return) => Opening::Nothing,
        _ => Opening::Names,
    }
}

#[tactic(auto, unfolding(crate::specs::Statements::is_else))]
fn is_else(name: Name) -> bool
    ensures { result ≡ read.is_else name }
{
    matches!(name, Name::Known(Known::Else))
}

/// Behind `else`.
#[tactic(auto, unfolding(crate::specs::Statements::else_end))]
fn else_end(words: &[Word]) -> Option<&[Word]>
    ensures { seen (λ x. x.now) result ≡ read.else_end words.now }
{
    match words {
        [Word::Name(name), rest @ ..] => { if is_else(*name) { Some(rest) } else { None } }
        _ => None,
    }
}

/// Behind the end of a block.
#[tactic(auto, unfolding(crate::specs::Statements::block_end))]
fn block_end(words: &[Word]) -> Option<&[Word]>
    ensures { seen (λ x. x.now) result ≡ read.block_end words.now }
{
    match words {
        [Word::Mark(Mark::CloseBlock), rest @ ..] => Some(rest),
        _ => None,
    }
}

/// What `else` says, or nothing.
#[cycle(statement)]
#[tactic(auto, unfolding(crate::specs::Statements::otherwise_at))]
fn otherwise(alloc: Global, depth: u32, words: &[Word]) -> Result<(Vec<Stmt>, &[Word]), ReadError>
    requires { depth ≤ 48 }
    ensures { Gives (λ x. (body_of (list_of x.0.items), x.1.now)) result (read.otherwise_at (statement_at depth) words.now) }
{
    match else_end(words) {
        Some(rest) => body(alloc, depth, rest),
        None => Ok((Vec::new(alloc), words)),
    }
}

/// Behind `if`.
#[cycle(statement)]
#[tactic(auto, unfolding(crate::specs::Statements::branch_at))]
fn branch(
    alloc: Global,
    depth: u32,
    left: usize,
    words: &[Word],
) -> Result<(Stmt, &[Word]), ReadError>
    requires { depth ≤ 48 }
    ensures { Gives (λ x. (stmt_of x.0, x.1.now)) result (read.branch_at (statement_at depth) left words.now) }
{
    let rest = behind_mark(Mark::Open, words)?;
    let (test, rest) = value(alloc, rest)?;
    let rest = behind_mark(Mark::Close, rest)?;
    let (one, rest) = body(alloc, depth, rest)?;
    let (two, rest) = otherwise(alloc, depth, rest)?;
    Ok((Stmt::If(left, test, one, two), rest))
}

/// Behind `for`.
#[cycle(statement)]
#[tactic(auto, unfolding(crate::specs::Statements::loop_at))]
fn repeated(
    alloc: Global,
    depth: u32,
    left: usize,
    words: &[Word],
) -> Result<(Stmt, &[Word]), ReadError>
    requires { depth ≤ 48 }
    ensures { Gives (λ x. (stmt_of x.0, x.1.now)) result (read.loop_at (statement_at depth) left words.now) }
{
    let (turns, rest) = turns(alloc, words)?;
    let (body, rest) = body(alloc, depth, rest)?;
    Ok((Stmt::For(left, turns, body), rest))
}

/// Behind `#pragma omp task`.
#[cycle(statement)]
#[tactic(auto, unfolding(crate::specs::Statements::task_at))]
fn task(
    alloc: Global,
    depth: u32,
    left: usize,
    words: &[Word],
) -> Result<(Stmt, &[Word]), ReadError>
    requires { depth ≤ 48 }
    ensures { Gives (λ x. (stmt_of x.0, x.1.now)) result (read.task_at (statement_at depth) left words.now) }
{
    let (clauses, rest) = own_clauses(alloc, Directive::Task, words)?;
    let (body, rest) = body(alloc, depth, rest)?;
    Ok((Stmt::Task(left, clauses, body), rest))
}

/// Behind `#pragma omp taskgroup`.
#[cycle(statement)]
#[tactic(auto, unfolding(crate::specs::Statements::group_at))]
fn group(
    alloc: Global,
    depth: u32,
    left: usize,
    words: &[Word],
) -> Result<(Stmt, &[Word]), ReadError>
    requires { depth ≤ 48 }
    ensures { Gives (λ x. (stmt_of x.0, x.1.now)) result (read.group_at (statement_at depth) left words.now) }
{
    let (clauses, rest) = own_clauses(alloc, Directive::Group, words)?;
    let (body, rest) = body(alloc, depth, rest)?;
    Ok((Stmt::Group(left, clauses, body), rest))
}

/// Behind `#pragma omp taskwait`.
#[tactic(auto, unfolding(crate::specs::Statements::wait_at))]
fn wait(alloc: Global, left: usize, words: &[Word]) -> Result<(Stmt, &[Word]), ReadError>
    ensures { Gives (λ x. (stmt_of x.0, x.1.now)) result (read.wait_at left words.now) }
{
    let (clauses, rest) = own_clauses(alloc, Directive::Wait, words)?;
    Ok((Stmt::Wait(left, clauses), rest))
}

/// Behind `#pragma omp taskyield`.
#[tactic(auto, unfolding(crate::specs::Statements::yield_at))]
fn give_way(left: usize, words: &[Word]) -> Result<(Stmt, &[Word]), ReadError>
    ensures { Gives (λ x. (stmt_of x.0, x.1.now)) result (read.yield_at left words.now) }
{
    let rest = directive_end(words)?;
    Ok((Stmt::Yield(left), rest))
}

/// A directive, behind its name.
#[cycle(statement)]
fn directed(
    alloc: Global,
    depth: u32,
    left: usize,
    directive: Directive,
    words: &[Word],
) -> Result<(Stmt, &[Word]), ReadError>
    requires { depth ≤ 48 }
    ensures { Gives (λ x. (stmt_of x.0, x.1.now)) result (read.directive_by (statement_at depth) left directive words.now) }
{
    match directive {
        Directive::Task => task(alloc, depth, left, words),
        Directive::Wait => wait(alloc, left, words),
        Directive::Group => group(alloc, depth, left, words),
        Directive::Yield => give_way(left, words),
        Directive::Parallel => Err(ReadError::Fault(Fault::NoDirective(words.len() + 1))),
    }
}

/// Behind `#pragma omp`.
#[cycle(statement)]
#[tactic(auto, unfolding(crate::specs::Statements::directive_at))]
fn directive(
    alloc: Global,
    depth: u32,
    left: usize,
    words: &[Word],
) -> Result<(Stmt, &[Word]), ReadError>
    requires { depth ≤ 48 }
    ensures { Gives (λ x. (stmt_of x.0, x.1.now)) result (read.directive_at (statement_at depth) left words.now) }
{
    match words {
        [Word::Name(name), rest @ ..] => match directive_of(*name) {
            Some(directive) => directed(alloc, depth, left, directive, rest),
            None => Err(ReadError::Fault(Fault::NoDirective(words.len()))),
        },
        _ => Err(ReadError::Fault(Fault::NoDirective(words.len()))),
    }
}

/// What begins with this name, behind it.
#[cycle(statement)]
fn opened(
    alloc: Global,
    depth: u32,
    left: usize,
    name: Name,
    words: &[Word],
) -> Result<(Stmt, &[Word]), ReadError>
    requires { depth ≤ 48 }
    ensures { Gives (λ x. (stmt_of x.0, x.1.now)) result (read.opened_by (statement_at depth) left name (read.opening_of name) words.now) }
{
    match opening_of(name) {
        Opening::If => branch(alloc, depth, left, words),
        Opening::For => repeated(alloc, depth, left, words),
        Opening::Print => print(alloc, left, words),
        Opening::Show => show(alloc, left, words),
        Opening::Points => local(alloc, left, words),
        Opening::Declares => Err(ReadError::Fault(Fault::Declared(left))),
        Opening::Nothing => Err(ReadError::Fault(Fault::NoStatement(left))),
        Opening::Names => named(alloc, left, name, words),
    }
}

/// The statement at the front, by its first word.
#[cycle(statement)]
#[tactic(auto, unfolding(crate::specs::Statements::form_at))]
fn form(
    alloc: Global,
    depth: u32,
    left: usize,
    words: &[Word],
) -> Result<(Stmt, &[Word]), ReadError>
    requires { depth ≤ 48 }
    ensures { Gives (λ x. (stmt_of x.0, x.1.now)) result (read.form_at (statement_at depth) left words.now) }
{
    match words {
        [Word::Name(name), rest @ ..] => opened(alloc, depth, left, *name, rest),
        [Word::Pragma, rest @ ..] => directive(alloc, depth, left, rest),
        [Word::Mark(Mark::OpenBlock), rest @ ..] => {
            let (stmts, rest) = statements(alloc, depth, rest)?;
            Ok((Stmt::Block(left, stmts), rest))
        }
        _ => Err(ReadError::Fault(Fault::NoStatement(left))),
    }
}

/// The statement at the front, in which others nest so deep.
#[cycle(statement)]
#[tactic(auto, unfolding(crate::specs::Statements::statement_at))]
fn statement(alloc: Global, depth: u32, words: &[Word]) -> Result<(Stmt, &[Word]), ReadError>
    requires { depth ≤ 48 }
    ensures { Gives (λ x. (stmt_of x.0, x.1.now)) result (statement_at depth words.now) }
{
    if depth == 0 {
        return Err(ReadError::Fault(Fault::TooDeep(words.len())));
    }
    form(alloc, depth - 1, words.len(), words)
}

/// A statement behind those that were found, or the end of their block.
#[cycle(statement)]
#[tactic(auto, unfolding(crate::specs::Statements::stmts_step))]
fn statements_step(
    alloc: Global,
    depth: u32,
    mut found: Vec<Stmt>,
    words: &[Word],
) -> Result<(Vec<Stmt>, bool, &[Word]), ReadError>
    requires { depth ≤ 48 }
    ensures { Gives (λ x. (list_of x.0.items, x.1, x.2.now)) result (stmts_step (statement_at depth) (list_of found.items) words.now) }
{
    if let Some(rest) = block_end(words) {
        return Ok((found, false, rest));
    }
    let (stmt, rest) = statement(alloc, depth, words)?;
    found.push(stmt)?;
    Ok((found, true, rest))
}

/// The statements of a block up to its end.
#[cycle(statement)]
fn statements(alloc: Global, depth: u32, words: &[Word]) -> Result<(Vec<Stmt>, &[Word]), ReadError>
    requires { depth ≤ 48 }
    ensures { Gives (λ x. (list_of x.0.items, x.1.now)) result (stmts_at (statement_at depth) words.now) }
{
    let mut found = Vec::new(alloc);
    let mut rest = words;
    for _turn in 0..words.len() {
        let (put, more, behind) = statements_step(alloc, depth, found, rest)?;
        if !more {
            return Ok((put, behind));
        }
        found = put;
        rest = behind;
    }
    Err(ReadError::Fault(Fault::TooLong(rest.len())))
}

#[tactic(auto, unfolding(crate::specs::Statements::is_alone))]
fn is_alone(name: Name) -> bool
    ensures { result ≡ read.is_alone name }
{
    matches!(name, Name::Known(Known::Taskwait | Known::Taskyield))
}

/// Whether a directive without a statement of its own is at the front: it is no body.
#[tactic(auto, unfolding(crate::specs::Statements::stands_alone))]
fn stands_alone(words: &[Word]) -> bool
    ensures { result ≡ read.stands_alone words.now }
{
    match words {
        [Word::Pragma, Word::Name(name), ..] => is_alone(*name),
        _ => false,
    }
}

/// The statements of a block, or the one statement.
#[cycle(statement)]
#[tactic(auto, unfolding(crate::specs::Statements::body_at))]
fn body(alloc: Global, depth: u32, words: &[Word]) -> Result<(Vec<Stmt>, &[Word]), ReadError>
    requires { depth ≤ 48 }
    ensures { Gives (λ x. (body_of (list_of x.0.items), x.1.now)) result (read.body_at (statement_at depth) words.now) }
{
    match words {
        [Word::Mark(Mark::OpenBlock), rest @ ..] => statements(alloc, depth, rest),
        _ => {
            if stands_alone(words) {
                let left = words.len().saturating_sub(1);
                return Err(ReadError::Fault(Fault::NoDirective(left)));
            }
            let (stmt, rest) = statement(alloc, depth, words)?;
            let mut found = Vec::new(alloc);
            found.push(stmt)?;
            Ok((found, rest))
        }
    }
}

/// The statements of the block at the front, or the one statement there.
pub fn read_body(alloc: Global, words: &[Word]) -> Result<(Vec<Stmt>, &[Word]), ReadError>
    ensures { Gives (λ x. (body_of (list_of x.0.items), x.1.now)) result (read.body_at (statement_at 48) words.now) }
{
    body(alloc, MAX_NESTING, words)
}

/// The statements up to the end of their block.
pub fn read_block(alloc: Global, words: &[Word]) -> Result<(Vec<Stmt>, &[Word]), ReadError>
    ensures { Gives (λ x. (list_of x.0.items, x.1.now)) result (stmts_at (statement_at 48) words.now) }
{
    statements(alloc, MAX_NESTING, words)
}

/// The statement at the front, and the words behind it.
pub fn read_statement(alloc: Global, words: &[Word]) -> Result<(Stmt, &[Word]), ReadError>
    ensures { Gives (λ x. (stmt_of x.0, x.1.now)) result (statement_at 48 words.now) }
{
    statement(alloc, MAX_NESTING, words)
}
