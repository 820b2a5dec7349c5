//! Clauses of tasks, waits and groups.
ghost use Rattle.std.specs.Prelude.{◌≡◌};
ghost use Rattle.ot_c_expressions.specs.Signs.{view_of_found as seen};
ghost use Rattle.ot_c_expressions.specs.Tree.{expr_of, part_of, item_of, items_of, range_of, over_of, clause_of, clauses_of};
ghost use Rattle.ot_c_words.specs.Reading.{Gives};
ghost use Rattle.ot_c_expressions.specs.Clauses as read;

use crate::fault::{Fault, ReadError};
use crate::marks::{behind_mark, name};
use crate::tree::{Clause, Expr, Item, Operation, Place, Range, Role};
use crate::value::read_value;
use ot_c_words::{IntegerType, Known, Mark, Name, Word};
use std::alloc::Global;

/// What stands behind the name of a clause.
#[derive(Clone, Copy)]
pub(crate) enum Kind {
    /// What the items are to a task, and they.
    Depends,
    /// An operation, and items.
    Reduces,
    Combines,
    /// Names in brackets.
    Lists(Role),
    /// A number in brackets.
    Counts(Role),
    /// `shared` or `none` in brackets.
    Defaults,
    /// Nothing.
    Stands(Role),
}

/// `:3]`, or `]` alone, which is one cell.
#[tactic(auto, unfolding(crate::specs::Clauses::length_at))]
fn length(alloc: Global, words: &[Word]) -> Result<(Expr, &[Word]), ReadError>
    ensures { Gives (λ x. (expr_of x.0, x.1.now)) result (read.length_at words.now) }
{
    match words {
        [Word::Mark(Mark::Colon), rest @ ..] => {
            let (len, rest) = read_value(alloc, rest)?;
            let rest = behind_mark(Mark::CloseIndex, rest)?;
            Ok((len, rest))
        }
        _ => {
            let rest = behind_mark(Mark::CloseIndex, words)?;
            Ok((Expr::Number(words.len(), 1, IntegerType::Int), rest))
        }
    }
}

/// `[2:3]`, or nothing, which is all of it.
#[tactic(auto, unfolding(crate::specs::Clauses::part_at))]
fn place(alloc: Global, words: &[Word]) -> Result<(Place, &[Word]), ReadError>
    ensures { Gives (λ x. (part_of x.0, x.1.now)) result (read.part_at words.now) }
{
    match words {
        [Word::Mark(Mark::OpenIndex), rest @ ..] => {
            let (start, rest) = read_value(alloc, rest)?;
            let (len, rest) = length(alloc, rest)?;
            Ok((Place::Cells(start, len), rest))
        }
        _ => Ok((Place::Whole, words)),
    }
}

/// A place where a clause has parts of arrays, or else nothing, which is all.
fn place_if(alloc: Global, parts: bool, words: &[Word]) -> Result<(Place, &[Word]), ReadError>
    ensures { Gives (λ x. (part_of x.0, x.1.now)) result (read.part_if parts words.now) }
{
    if parts {
        place(alloc, words)
    } else {
        Ok((Place::Whole, words))
    }
}

#[tactic(auto, unfolding(crate::specs::Clauses::item_at))]
fn item(alloc: Global, parts: bool, words: &[Word]) -> Result<(Item, &[Word]), ReadError>
    ensures { Gives (λ x. (item_of x.0, x.1.now)) result (read.item_at parts words.now) }
{
    let (array, rest) = name(words)?;
    let (place, rest) = place_if(alloc, parts, rest)?;
    let left = words.len();
    Ok((Item { left, array, place }, rest))
}

/// Behind an item: whether another follows, or the clause ends.
#[tactic(auto, unfolding(crate::specs::Clauses::item_end))]
fn item_end(words: &[Word]) -> Result<(bool, &[Word]), ReadError>
    ensures { Gives (λ x. (x.0, x.1.now)) result (read.item_end words.now) }
{
    match words {
        [Word::Mark(Mark::Comma), rest @ ..] => Ok((true, rest)),
        [Word::Mark(Mark::Close), rest @ ..] => Ok((false, rest)),
        _ => Err(ReadError::Fault(Fault::NoMark(words.len()))),
    }
}

/// An item behind those that were found, and whether another follows.
#[tactic(auto, unfolding(crate::specs::Clauses::item_step))]
fn item_step(
    alloc: Global,
    parts: bool,
    mut found: Vec<Item>,
    words: &[Word],
) -> Result<(Vec<Item>, bool, &[Word]), ReadError>
    ensures { Gives (λ x. (items_of x.0.items, x.1, x.2.now)) result (read.item_step parts (items_of found.items) words.now) }
{
    let (item, rest) = item(alloc, parts, words)?;
    let (more, rest) = item_end(rest)?;
    found.push(item)?;
    Ok((found, more, rest))
}

/// The items of a clause up to its bracket.
fn items(alloc: Global, parts: bool, words: &[Word]) -> Result<(Vec<Item>, &[Word]), ReadError>
    ensures { Gives (λ x. (items_of x.0.items, x.1.now)) result (read.items_at parts words.now) }
{
    let mut found = Vec::new(alloc);
    let mut rest = words;
    for _turn in 0..words.len() {
        let (put, more, behind) = item_step(alloc, parts, found, rest)?;
        if !more {
            return Ok((put, behind));
        }
        found = put;
        rest = behind;
    }
    Err(ReadError::Fault(Fault::TooLong(rest.len())))
}

#[tactic(auto, unfolding(crate::specs::Clauses::role_of))]
fn role_of(name: Name) -> Option<Role>
    ensures { result ≡ read.role_of name }
{
    match name {
        Name::Known(Known::In) => Some(Role::In),
        Name::Known(Known::Out) => Some(Role::Out),
        Name::Known(Known::Inout) => Some(Role::Inout),
        _ => None,
    }
}

/// `in:`
#[tactic(auto, unfolding(crate::specs::Clauses::role_at))]
fn role(words: &[Word]) -> Result<(Role, &[Word]), ReadError>
    ensures { Gives (λ x. (x.0, x.1.now)) result (read.role_at words.now) }
{
    match words {
        [Word::Name(name), Word::Mark(Mark::Colon), rest @ ..] => match role_of(*name) {
            Some(role) => Ok((role, rest)),
            None => Err(ReadError::Fault(Fault::NoClause(words.len()))),
        },
        _ => Err(ReadError::Fault(Fault::NoClause(words.len()))),
    }
}

#[tactic(auto, unfolding(crate::specs::Clauses::mark_operation))]
fn mark_operation(mark: Mark) -> Option<Operation>
    ensures { result ≡ read.mark_operation mark }
{
    match mark {
        Mark::Plus => Some(Operation::Plus),
        Mark::Times => Some(Operation::Times),
        Mark::And => Some(Operation::And),
        Mark::Or => Some(Operation::Or),
        Mark::Xor => Some(Operation::Xor),
        _ => None,
    }
}

#[tactic(auto, unfolding(crate::specs::Clauses::name_operation))]
fn name_operation(name: Name) -> Option<Operation>
    ensures { result ≡ read.name_operation name }
{
    match name {
        Name::Known(Known::Min) => Some(Operation::Min),
        Name::Known(Known::Max) => Some(Operation::Max),
        _ => None,
    }
}

/// An operation that was found before these words, which begin with a colon, or a fault at the others.
fn as_operation<'a>(
    words: &'a [Word],
    rest: &'a [Word],
    found: Option<Operation>,
) -> Result<(Operation, &'a [Word]), ReadError>
    ensures { Gives (λ x. (x.0, x.1.now)) result (read.as_operation words.now rest.now found) }
{
    match found {
        Some(op) => {
            let rest = behind_mark(Mark::Colon, rest)?;
            Ok((op, rest))
        }
        None => Err(ReadError::Fault(Fault::NoClause(words.len()))),
    }
}

/// `+:`
#[tactic(auto, unfolding(crate::specs::Clauses::operation_at))]
fn operation(words: &[Word]) -> Result<(Operation, &[Word]), ReadError>
    ensures { Gives (λ x. (x.0, x.1.now)) result (read.operation_at words.now) }
{
    match words {
        [Word::Mark(mark), rest @ ..] => as_operation(words, rest, mark_operation(*mark)),
        [Word::Name(name), rest @ ..] => as_operation(words, rest, name_operation(*name)),
        _ => Err(ReadError::Fault(Fault::NoClause(words.len()))),
    }
}

#[tactic(auto, unfolding(crate::specs::Clauses::is_iterator))]
fn is_iterator(name: Name) -> bool
    ensures { result ≡ read.is_iterator name }
{
    matches!(name, Name::Known(Known::Iterator))
}

/// Behind `iterator`.
#[tactic(auto, unfolding(crate::specs::Clauses::iterator_end))]
fn iterator_end(words: &[Word]) -> Option<&[Word]>
    ensures { seen (λ x. x.now) result ≡ read.iterator_end words.now }
{
    match words {
        [Word::Name(name), rest @ ..] => { if is_iterator(*name) { Some(rest) } else { None } }
        _ => None,
    }
}

/// `(i = 2:5),`
#[tactic(auto, unfolding(crate::specs::Clauses::range_at))]
fn range(alloc: Global, words: &[Word]) -> Result<(Range, &[Word]), ReadError>
    ensures { Gives (λ x. (range_of x.0, x.1.now)) result (read.range_at words.now) }
{
    let rest = behind_mark(Mark::Open, words)?;
    let (variable, rest) = name(rest)?;
    let rest = behind_mark(Mark::Assign, rest)?;
    let (start, rest) = read_value(alloc, rest)?;
    let rest = behind_mark(Mark::Colon, rest)?;
    let (end, rest) = read_value(alloc, rest)?;
    let rest = behind_mark(Mark::Close, rest)?;
    let rest = behind_mark(Mark::Comma, rest)?;
    Ok((
        Range {
            variable,
            start,
            end,
        },
        rest,
    ))
}

/// An iterator, or nothing.
fn over(alloc: Global, words: &[Word]) -> Result<(Option<Range>, &[Word]), ReadError>
    ensures { Gives (λ x. (over_of x.0, x.1.now)) result (read.over words.now (read.iterator_end words.now)) }
{
    match iterator_end(words) {
        Some(rest) => {
            let (range, rest) = range(alloc, rest)?;
            Ok((Some(range), rest))
        }
        None => Ok((None, words)),
    }
}

/// Behind `depend(`.
#[tactic(auto, unfolding(crate::specs::Clauses::dependence_at))]
fn dependence(alloc: Global, left: usize, words: &[Word]) -> Result<(Clause, &[Word]), ReadError>
    ensures { Gives (λ x. (clause_of x.0, x.1.now)) result (read.dependence_at left words.now) }
{
    let (over, rest) = over(alloc, words)?;
    let (role, rest) = role(rest)?;
    let (items, rest) = items(alloc, true, rest)?;
    let clause = Clause {
        left,
        role,
        over,
        items,
    };
    Ok((clause, rest))
}

/// Behind `in_reduction(`.
#[tactic(auto, unfolding(crate::specs::Clauses::reduction_at))]
fn reduces(alloc: Global, left: usize, words: &[Word]) -> Result<(Clause, &[Word]), ReadError>
    ensures { Gives (λ x. (clause_of x.0, x.1.now)) result (read.reduction_at left (λ op. Role.Reduces op) words.now) }
{
    let (op, rest) = operation(words)?;
    let (items, rest) = items(alloc, true, rest)?;
    let clause = Clause {
        left,
        role: Role::Reduces(op),
        over: None,
        items,
    };
    Ok((clause, rest))
}

/// Behind `task_reduction(`.
#[tactic(auto, unfolding(crate::specs::Clauses::reduction_at))]
fn combines(alloc: Global, left: usize, words: &[Word]) -> Result<(Clause, &[Word]), ReadError>
    ensures { Gives (λ x. (clause_of x.0, x.1.now)) result (read.reduction_at left (λ op. Role.Combines op) words.now) }
{
    let (op, rest) = operation(words)?;
    let (items, rest) = items(alloc, true, rest)?;
    let clause = Clause {
        left,
        role: Role::Combines(op),
        over: None,
        items,
    };
    Ok((clause, rest))
}

/// Behind `shared(`.
#[tactic(auto, unfolding(crate::specs::Clauses::listing_at))]
fn listing(
    alloc: Global,
    left: usize,
    role: Role,
    words: &[Word],
) -> Result<(Clause, &[Word]), ReadError>
    ensures { Gives (λ x. (clause_of x.0, x.1.now)) result (read.listing_at left role words.now) }
{
    let (items, rest) = items(alloc, false, words)?;
    let clause = Clause {
        left,
        role,
        over: None,
        items,
    };
    Ok((clause, rest))
}

/// A clause without items.
fn bare(alloc: Global, left: usize, role: Role) -> Clause
    ensures { clause_of result ≡ read.bare left role }
{
    Clause {
        left,
        role,
        over: None,
        items: Vec::new(alloc),
    }
}

/// Behind `priority(`: a number, which says nothing of cells.
#[tactic(auto, unfolding(crate::specs::Clauses::count_at))]
fn count(
    alloc: Global,
    left: usize,
    role: Role,
    words: &[Word],
) -> Result<(Clause, &[Word]), ReadError>
    ensures { Gives (λ x. (clause_of x.0, x.1.now)) result (read.count_at left role words.now) }
{
    match words {
        [Word::Number(_, _), Word::Mark(Mark::Close), rest @ ..] => Ok((
            bare(alloc, left, role),
            rest,
        )),
        _ => Err(ReadError::Fault(Fault::NoClause(words.len()))),
    }
}

#[tactic(auto, unfolding(crate::specs::Clauses::default_of))]
fn default_of(name: Name) -> Option<Role>
    ensures { result ≡ read.default_of name }
{
    match name {
        Name::Known(Known::Shared) => Some(Role::Default),
        Name::Known(Known::None) => Some(Role::DefaultNone),
        _ => None,
    }
}

/// Behind `default(`.
#[tactic(auto, unfolding(crate::specs::Clauses::default_at))]
fn default(alloc: Global, left: usize, words: &[Word]) -> Result<(Clause, &[Word]), ReadError>
    ensures { Gives (λ x. (clause_of x.0, x.1.now)) result (read.default_at left words.now) }
{
    match words {
        [Word::Name(name), Word::Mark(Mark::Close), rest @ ..] => match default_of(*name) {
            Some(role) => Ok((bare(alloc, left, role), rest)),
            None => Err(ReadError::Fault(Fault::NoClause(words.len()))),
        },
        _ => Err(ReadError::Fault(Fault::NoClause(words.len()))),
    }
}

#[tactic(auto, unfolding(crate::specs::Clauses::kind_of))]
fn kind_of(name: Name) -> Option<Kind>
    ensures { result ≡ read.kind_of name }
{
    match name {
        Name::Known(Known::Depend) => Some(Kind::Depends),
        Name::Known(Known::InReduction) => Some(Kind::Reduces),
        Name::Known(Known::TaskReduction) => Some(Kind::Combines),
        Name::Known(Known::Shared) => Some(Kind::Lists(Role::Shared)),
        Name::Known(Known::Firstprivate) => Some(Kind::Lists(Role::Firstprivate)),
        Name::Known(Known::Priority) => Some(Kind::Counts(Role::Priority)),
        Name::Known(Known::NumThreads) => Some(Kind::Counts(Role::NumThreads)),
        Name::Known(Known::Default) => Some(Kind::Defaults),
        Name::Known(Known::Untied) => Some(Kind::Stands(Role::Untied)),
        Name::Known(Known::Mergeable) => Some(Kind::Stands(Role::Mergeable)),
        _ => None,
    }
}

/// A clause of this kind whose name stands where so many words are left, behind its bracket, or behind its name where it has none.
fn clause_in(
    alloc: Global,
    left: usize,
    kind: Kind,
    words: &[Word],
) -> Result<(Clause, &[Word]), ReadError>
    ensures { Gives (λ x. (clause_of x.0, x.1.now)) result (read.clause_in left kind words.now) }
{
    match kind {
        Kind::Depends => dependence(alloc, left, words),
        Kind::Reduces => reduces(alloc, left, words),
        Kind::Combines => combines(alloc, left, words),
        Kind::Lists(role) => listing(alloc, left, role, words),
        Kind::Counts(role) => count(alloc, left, role, words),
        Kind::Defaults => default(alloc, left, words),
        Kind::Stands(role) => Ok((bare(alloc, left, role), words)),
    }
}

/// The bracket behind a clause's name, where it has one.
#[tactic(auto, unfolding(crate::specs::Clauses::bracket_by))]
fn bracket_by(kind: Kind, words: &[Word]) -> Result<&[Word], ReadError>
    ensures { Gives (λ x. x.now) result (read.bracket_by kind words.now) }
{
    match kind {
        Kind::Stands(_) => Ok(words),
        _ => behind_mark(Mark::Open, words),
    }
}

/// A clause of this kind, behind its name.
fn clause_by(
    alloc: Global,
    left: usize,
    kind: Kind,
    words: &[Word],
) -> Result<(Clause, &[Word]), ReadError>
    ensures { Gives (λ x. (clause_of x.0, x.1.now)) result (read.clause_of_kind left kind words.now) }
{
    let rest = bracket_by(kind, words)?;
    clause_in(alloc, left, kind, rest)
}

#[tactic(auto, unfolding(crate::specs::Clauses::clause_at))]
fn clause(alloc: Global, words: &[Word]) -> Result<(Clause, &[Word]), ReadError>
    ensures { Gives (λ x. (clause_of x.0, x.1.now)) result (read.clause_at words.now) }
{
    match words {
        [Word::Name(name), rest @ ..] => match kind_of(*name) {
            Some(kind) => clause_by(alloc, words.len(), kind, rest),
            None => Err(ReadError::Fault(Fault::NoClause(words.len()))),
        },
        _ => Err(ReadError::Fault(Fault::NoClause(words.len()))),
    }
}

/// What stands behind the end of a directive, where that is at the front.
#[tactic(auto, unfolding(crate::specs::Clauses::directive_end))]
fn directive_end(words: &[Word]) -> Option<&[Word]>
    ensures { seen (λ x. x.now) result ≡ read.directive_end words.now }
{
    match words {
        [Word::End, rest @ ..] => Some(rest),
        _ => None,
    }
}

/// Behind a comma, if one is at the front.
#[tactic(auto, unfolding(crate::specs::Clauses::past_comma))]
fn past_comma(words: &[Word]) -> &[Word]
    ensures { result.now ≡ read.past_comma words.now }
{
    match words {
        [Word::Mark(Mark::Comma), rest @ ..] => rest,
        _ => words,
    }
}

/// Behind what may stand between these clauses and another.
fn between<'a>(found: &[Clause], words: &'a [Word]) -> &'a [Word]
    ensures { result.now ≡ read.between (clauses_of found.now) words.now }
{
    match found {
        [] => words,
        _ => past_comma(words),
    }
}

/// A clause behind those that were found, or the end of the directive.
#[tactic(auto, unfolding(crate::specs::Clauses::clause_step))]
fn clause_step(
    alloc: Global,
    mut found: Vec<Clause>,
    words: &[Word],
) -> Result<(Vec<Clause>, bool, &[Word]), ReadError>
    ensures { Gives (λ x. (clauses_of x.0.items, x.1, x.2.now)) result (read.clause_step (clauses_of found.items) words.now) }
{
    if let Some(rest) = directive_end(words) {
        return Ok((found, false, rest));
    }
    let (clause, rest) = clause(alloc, between(&found, words))?;
    found.push(clause)?;
    Ok((found, true, rest))
}

/// The clauses up to the end of a directive, and the words behind it.
pub fn read_clauses(alloc: Global, words: &[Word]) -> Result<(Vec<Clause>, &[Word]), ReadError>
    ensures { Gives (λ x. (clauses_of x.0.items, x.1.now)) result (read.clauses_at words.now) }
{
    let mut found = Vec::new(alloc);
    let mut rest = words;
    for _turn in 0..words.len() {
        let (put, more, behind) = clause_step(alloc, found, rest)?;
        if !more {
            return Ok((put, behind));
        }
        found = put;
        rest = behind;
    }
    Err(ReadError::Fault(Fault::TooLong(rest.len())))
}
