//! Statements of the language, and where they stand in the text.
ghost use Rattle.std.specs.Prelude.{◌≡◌, IfOk, map};
ghost use Rattle.serde_json.specs.View.{view};
ghost use Rattle.ot_c_scope.specs.Results.{GivesAs};
ghost use Rattle.ot_c_lines.specs.Lines.{lines_of};
ghost use Rattle.ot_c_lines.specs.Lines as meant;

use ot_c_clauses::Taking;
use ot_c_scope::{CFault, Reason};
use serde_json::Value;
use std::alloc::{AllocError, Global};

/// Statements, each whole, and how many words are left where each of them and of those in their bodies begins, a statement
/// before those in its bodies; and how the tasks among them take part in reductions, one by one, each with how many words
/// are left where the task begins.
#[derive(Debug, Drop)]
pub struct Lines {
    pub statements: Vec<Value>,
    pub places: Vec<usize>,
    pub taking: Vec<(usize, Taking)>,
}

/// No statement.
pub fn no_lines(alloc: Global) -> Lines
    ensures { lines_of result ≡ meant.none }
{
    Lines {
        statements: Vec::new(alloc),
        places: Vec::new(alloc),
        taking: Vec::new(alloc),
    }
}

/// A statement that begins where so many words are left, and has those that begin at these places in its bodies.
pub fn one_line(
    alloc: Global,
    left: usize,
    statement: Value,
    within: Vec<usize>,
) -> Result<Lines, AllocError>
    ensures { IfOk result (λ l. lines_of l ≡ meant.one_statement left (view statement) within.items) }
{
    one_line_with(alloc, left, statement, within, Vec::new(alloc))
}

/// The same, of which tasks take part in reductions so.
pub fn one_line_with(
    alloc: Global,
    left: usize,
    statement: Value,
    within: Vec<usize>,
    taking: Vec<(usize, Taking)>,
) -> Result<Lines, AllocError>
    ensures { IfOk result (λ l. lines_of l ≡ meant.one_with left (view statement) within.items taking.items) }
{
    let mut statements = Vec::new(alloc);
    statements.push(statement)?;
    let mut places = Vec::new(alloc);
    places.push(left)?;
    let mut within = within;
    places.append(&mut within)?;
    Ok(Lines {
        statements,
        places,
        taking,
    })
}

/// How many statements a program has at most.
const MAX_STATEMENTS: usize = 20_000;

/// Where the first of some statements begins.
pub fn first_place(lines: &Lines) -> usize
    ensures { result ≡ meant.first_place (lines_of lines.now) }
{
    match lines.places.get(0) {
        Some(place) => *place,
        None => 0,
    }
}

/// The second behind the first, unless there are too many.
pub fn both_lines(one: Lines, two: Lines) -> Result<Lines, CFault>
    ensures { GivesAs lines_of result (meant.both_lines (lines_of one) (lines_of two)) }
{
    if one.places.len() + two.places.len() > MAX_STATEMENTS {
        return Err(CFault::Outside(first_place(&two), Reason::TooMany));
    }
    let mut statements = one.statements;
    let mut more = two.statements;
    statements.append(&mut more)?;
    let mut places = one.places;
    let mut further = two.places;
    places.append(&mut further)?;
    let mut taking = one.taking;
    let mut others = two.taking;
    taking.append(&mut others)?;
    Ok(Lines {
        statements,
        places,
        taking,
    })
}

fn copies(alloc: Global, values: &[Value]) -> Result<Vec<Value>, AllocError>
    ensures { IfOk result (λ v. map view v.items ≡ map view values.now) }
{
    let mut copies = Vec::new(alloc);
    for value in values {
        copies.push(value.clone()?)?;
    }
    Ok(copies)
}

/// The same statements once more.
pub fn lines_copy(alloc: Global, lines: &Lines) -> Result<Lines, AllocError>
    ensures { IfOk result (λ l. lines_of l ≡ lines_of lines.now) }
{
    let statements = copies(alloc, &lines.statements)?;
    let mut places = Vec::new(alloc);
    places.extend_from_slice(&lines.places)?;
    let mut taking = Vec::new(alloc);
    taking.extend_from_slice(&lines.taking)?;
    Ok(Lines {
        statements,
        places,
        taking,
    })
}
