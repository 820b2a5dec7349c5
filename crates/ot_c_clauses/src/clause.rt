//! Clauses of tasks, waits and groups.
ghost use Rattle.std.specs.Prelude.{◌≡◌, ◌++◌, IfOk, map};
ghost use Rattle.serde_json.specs.View.{view};
ghost use Rattle.ot_c_expressions.specs.Tree.{item_of, items_of, over_of, part_of, clause_of, clauses_of};
ghost use Rattle.ot_c_scope.specs.Results.{GivesAs};
ghost use Rattle.ot_c_clauses.specs.Clauses.{Head, head_of, joined_of};
ghost use Rattle.ot_c_arrays.specs.Each.{each_or_refused};
ghost use Rattle.ot_c_clauses.specs.Clauses as meant;

use crate::own::{Own, Owns, Taking, is_run, taking_of};
use crate::portion::is_item;
use crate::section::{cells_named, no_cells, part, pointed, section};
use crate::words::{is_extreme, is_same, operation_word};
use ot_c_expressions::{Clause, Item, Operation, Range, Role};
use ot_c_scope::kind::is_signed;
use ot_c_scope::{CFault, Opening, Pointee, Reason, Scope, Sense, json};
use ot_c_words::Name;
use serde_json::Value;
use std::alloc::{AllocError, Global};

/// What clauses say: clauses of the language, or a group's sections; what names mean behind them; the cells that the task
/// folds into by pointers; and how it takes part in each reduction that it takes part in.
#[derive(Drop)]
pub struct Heading<'a> {
    pub clauses: Vec<Value>,
    pub scope: Scope<'a>,
    own: Owns,
    pub taking: Vec<Taking>,
}

/// What clauses say of reductions, before the others.
#[derive(Drop)]
struct Joined<'a> {
    clauses: Vec<Value>,
    scope: Scope<'a>,
    own: Vec<Own>,
    taking: Vec<Taking>,
}

fn is_in(role: Role) -> bool
    ensures { result ≡ meant.is_in role }
{
    matches!(role, Role::In)
}

/// Whether so many cells are as many items: an iterator's, or a single one.
fn are_single(over: &Option<Range>, count: usize) -> bool
    ensures { result ≡ meant.are_single (over_of over.now) count }
{
    over.is_some() || count == 1
}

/// An item under `in`, `out` or `inout`. Where the task folds into its cells by pointers, `red` says all that `in` does.
fn depends<'a>(
    alloc: Global,
    mut heading: Heading<'a>,
    role: Role,
    word: &str,
    over: &Option<Range>,
    item: &Item,
) -> Result<Heading<'a>, CFault>
    ensures { GivesAs head_of result (meant.under_depend (head_of heading.entry) role word.now (over_of over.now) (item_of item.now)) }
{
    let cells = cells_named(&heading.scope, over, item);
    let count = heading.own.count(item.array, cells);
    if count == 0 {
        let section = section(alloc, &heading.scope, over, item)?;
        heading.clauses.push(json::form1(alloc, word, section)?)?;
        return Ok(heading);
    }
    if !is_in(role) || !is_run(cells, count) || !are_single(over, count) {
        return Err(CFault::Outside(item.left, Reason::Combined));
    }
    Ok(Heading {
        clauses: heading.clauses,
        scope: heading.scope,
        own: heading.own.name(alloc, item.array, cells)?,
        taking: heading.taking,
    })
}

/// The name of an item, where it is one among those of the text.
fn number_of(name: Name) -> usize
    ensures { result ≡ meant.item_number name }
{
    match name {
        Name::Other(number) => number,
        Name::Known(_) => 0,
    }
}

/// What an open group combines over, an array or a pointer's cell, where a task may take part in it by this operation.
fn may_join(sense: Sense, operation: Operation) -> Option<(Option<Pointee>, Option<usize>)>
    ensures { result ≡ meant.may_join sense operation }
{
    match sense {
        Sense::Combined(opening, _, length) => {
            if !opening.own && is_same(opening.operation, operation) {
                Some((opening.pointee, length))
            } else {
                None
            }
        }
        Sense::Nothing | Sense::Constant(_, _) | Sense::Turn(_) | Sense::Begins => None,
        Sense::Cells(_, _) | Sense::Pointer(_, _) | Sense::Function(_) => None,
    }
}

/// What an item opens.
fn opening(array: Name, operation: Operation, own: bool, pointee: Option<Pointee>) -> Opening
    ensures { result ≡ meant.opening array operation own pointee }
{
    Opening {
        array: number_of(array),
        operation,
        own,
        pointee,
    }
}

/// A part of an array, or a pointer's cell.
fn part_or_cell(
    alloc: Global,
    scope: &Scope<'_>,
    found: (Option<Pointee>, Option<usize>),
    item: &Item,
) -> Result<Value, CFault>
    ensures { GivesAs (λ v. view v) result (meant.part_or_cell scope.now item.now.left item.now.array found.0 found.1 (part_of item.now.place)) }
{
    match found.0 {
        None => part(alloc, scope, item.left, item.array, found.1, &item.place),
        Some(cell) => pointed(alloc, scope, item.left, cell, &item.place),
    }
}

/// A cell behind those that the task folds into by pointers.
fn with_own(mut own: Vec<Own>, pointee: Option<Pointee>) -> Result<Vec<Own>, AllocError>
    ensures { IfOk result (λ v. v.items ≡ own.items ++ meant.own_of pointee) }
{
    if let Some(cell) = pointee {
        own.push(Own { cell, named: false })?;
    }
    Ok(own)
}

/// An item under `in_reduction`: the task has a copy of its own.
fn takes_part<'a>(
    alloc: Global,
    operation: Operation,
    mut joined: Joined<'a>,
    item: &Item,
) -> Result<Joined<'a>, CFault>
    ensures { GivesAs joined_of result (meant.takes_part operation (joined_of joined.entry) (item_of item.now)) }
{
    let Some(found) = may_join(joined.scope.sense(item.array), operation) else {
        return Err(CFault::Outside(item.left, Reason::NoGroup));
    };
    if !is_item(&joined.scope, found, item) {
        return Err(CFault::Outside(item.left, Reason::NoGroup));
    }
    let section = part_or_cell(alloc, &joined.scope, found, item)?;
    let word = json::text(alloc, operation_word(operation))?;
    joined
        .clauses
        .push(json::form2(alloc, "red", word, section)?)?;
    joined.taking.push(taking_of(found.0))?;
    let opening = opening(item.array, operation, true, found.0);
    let scope = joined.scope.with_opening(alloc, opening)?;
    Ok(Joined {
        clauses: joined.clauses,
        scope,
        own: with_own(joined.own, found.0)?,
        taking: joined.taking,
    })
}

/// No open group combines over these cells of an array.
fn apart(
    scope: &Scope<'_>,
    left: usize,
    array: usize,
    cells: Option<(u64, u64)>,
) -> Result<(), CFault>
    ensures { GivesAs (λ x. x) result (meant.apart scope.now left array cells) }
{
    match scope.sense(Name::Other(array)) {
        Sense::Cells(_, _) => {
            if scope.is_pointed(Name::Other(array), cells) {
                Err(CFault::Outside(left, Reason::Combined))
            } else {
                Ok(())
            }
        }
        other => Err(CFault::Outside(left, no_cells(other))),
    }
}

fn pointer_in(sense: Sense) -> Option<Pointee>
    ensures { result ≡ meant.pointer_in sense }
{
    match sense {
        Sense::Pointer(array, place) => Some(Pointee { array, place }),
        Sense::Nothing | Sense::Constant(_, _) | Sense::Turn(_) | Sense::Begins => None,
        Sense::Cells(_, _) | Sense::Combined(_, _, _) | Sense::Function(_) => None,
    }
}

/// The section that a group combines over.
fn combined_over(
    alloc: Global,
    scope: &Scope<'_>,
    item: &Item,
    pointer: Option<Pointee>,
) -> Result<Value, CFault>
    ensures { GivesAs (λ v. view v) result (meant.combined_over scope.now (item_of item.now) pointer) }
{
    match pointer {
        None => {
            let section = section(alloc, scope, &None, item)?;
            let cells = cells_named(scope, &None, item);
            apart(scope, item.left, number_of(item.array), cells)?;
            Ok(section)
        }
        Some(cell) => {
            apart(scope, item.left, cell.array, Some((cell.place, 1)))?;
            pointed(alloc, scope, item.left, cell, &item.place)
        }
    }
}

/// Of numbers that may be negative the language has no `min` and `max`.
fn ordered(left: usize, operation: Operation, sense: Sense) -> Result<(), CFault>
    ensures { GivesAs (λ x. x) result (meant.is_extreme_apt left operation sense) }
{
    match sense {
        Sense::Cells(kind, _) if is_extreme(operation) && is_signed(kind) => {
            Err(CFault::Outside(left, Reason::Signed))
        }
        _ => Ok(()),
    }
}

/// The place in a group that combines over an item, which is a part of an array or the cell of a pointer.
fn with_part<'a>(
    alloc: Global,
    scope: Scope<'a>,
    pointer: Option<Pointee>,
    item: &'a Item,
) -> Result<Scope<'a>, AllocError>
    ensures { IfOk result (λ s. s ≡ meant.with_reduced_item scope.entry pointer (item_of item.now)) }
{
    match pointer {
        None => scope.with_portion(alloc, number_of(item.array), &item.place),
        Some(_) => Ok(scope),
    }
}

/// An item under `task_reduction`: a section of the group.
fn combines<'a>(
    alloc: Global,
    mut heading: Heading<'a>,
    operation: Operation,
    item: &'a Item,
) -> Result<Heading<'a>, CFault>
    ensures { GivesAs head_of result (meant.under_reduction (head_of heading.entry) operation (item_of item.now)) }
{
    let pointer = pointer_in(heading.scope.sense(item.array));
    let section = combined_over(alloc, &heading.scope, item, pointer)?;
    ordered(item.left, operation, heading.scope.sense(item.array))?;
    heading.clauses.push(section)?;
    let opening = opening(item.array, operation, false, pointer);
    let scope = heading.scope.with_opening(alloc, opening)?;
    let scope = with_part(alloc, scope, pointer, item)?;
    Ok(Heading {
        clauses: heading.clauses,
        scope,
        own: heading.own,
        taking: heading.taking,
    })
}

/// An item under `shared`, which says what is so anyway: arrays are shared.
fn shared(left: usize, sense: Sense) -> Result<(), CFault>
    ensures { GivesAs (λ x. x) result (meant.under_shared left sense) }
{
    match sense {
        Sense::Cells(_, _) => Ok(()),
        other => Err(CFault::Outside(left, no_cells(other))),
    }
}

/// An item under `firstprivate`, which says what is so anyway: each task has a copy of a loop's variable.
fn private(left: usize, sense: Sense) -> Result<(), CFault>
    ensures { GivesAs (λ x. x) result (meant.private left sense) }
{
    match sense {
        Sense::Turn(_) => Ok(()),
        _ => Err(CFault::Outside(left, Reason::Private)),
    }
}

/// An item of a clause, behind others.
fn item_step<'a>(
    alloc: Global,
    heading: Heading<'a>,
    role: Role,
    over: &Option<Range>,
    item: &'a Item,
) -> Result<Heading<'a>, CFault>
    ensures { GivesAs head_of result (meant.claim_item role (over_of over.now) (head_of heading.entry) (item_of item.now)) }
{
    match role {
        Role::In => depends(alloc, heading, role, "in", over, item),
        Role::Out => depends(alloc, heading, role, "out", over, item),
        Role::Inout => depends(alloc, heading, role, "inout", over, item),
        Role::Reduces(_) => Ok(heading),
        Role::Combines(operation) => combines(alloc, heading, operation, item),
        Role::Shared => {
            shared(item.left, heading.scope.sense(item.array))?;
            Ok(heading)
        }
        Role::Firstprivate => {
            private(item.left, heading.scope.sense(item.array))?;
            Ok(heading)
        }
        Role::Default | Role::DefaultNone | Role::NumThreads => Ok(heading),
        Role::Priority | Role::Untied | Role::Mergeable => Ok(heading),
    }
}

/// Items of a clause, behind others.
fn items<'a>(
    alloc: Global,
    heading: Heading<'a>,
    role: Role,
    over: &Option<Range>,
    items: &'a [Item],
) -> Result<Heading<'a>, CFault>
    ensures { GivesAs head_of result (each_or_refused (meant.claim_item role (over_of over.now)) (head_of heading.entry) (items_of items.now)) }
{
    let mut heading = heading;
    for item in items {
        heading = item_step(alloc, heading, role, over, item)?;
    }
    Ok(heading)
}

/// A clause, behind others.
fn clause_step<'a>(
    alloc: Global,
    heading: Heading<'a>,
    clause: &'a Clause,
) -> Result<Heading<'a>, CFault>
    ensures { GivesAs head_of result (meant.claim_items (head_of heading.entry) (clause_of clause.now)) }
{
    items(alloc, heading, clause.role, &clause.over, &clause.items)
}

/// By what a task takes part in reductions.
fn reduced_by(role: Role) -> Option<Operation>
    ensures { result ≡ meant.reduced_by role }
{
    match role {
        Role::Reduces(operation) => Some(operation),
        Role::In | Role::Out | Role::Inout | Role::Combines(_) => None,
        Role::Shared | Role::Firstprivate | Role::Default | Role::DefaultNone => None,
        Role::NumThreads | Role::Priority | Role::Untied | Role::Mergeable => None,
    }
}

/// Items under `in_reduction`, behind others.
fn joining<'a>(
    alloc: Global,
    operation: Operation,
    joined: Joined<'a>,
    items: &[Item],
) -> Result<Joined<'a>, CFault>
    ensures { GivesAs joined_of result (each_or_refused (meant.takes_part operation) (joined_of joined.entry) (items_of items.now)) }
{
    let mut joined = joined;
    for item in items {
        joined = takes_part(alloc, operation, joined, item)?;
    }
    Ok(joined)
}

/// What a clause says of reductions, behind others.
fn joining_step<'a>(
    alloc: Global,
    joined: Joined<'a>,
    clause: &Clause,
) -> Result<Joined<'a>, CFault>
    ensures { GivesAs joined_of result (meant.joining_step (joined_of joined.entry) (clause_of clause.now)) }
{
    match reduced_by(clause.role) {
        Some(operation) => joining(alloc, operation, joined, &clause.items),
        None => Ok(joined),
    }
}

/// What clauses say of reductions.
fn all_joining<'a>(
    alloc: Global,
    scope: Scope<'a>,
    clauses: &[Clause],
) -> Result<Joined<'a>, CFault>
    ensures { GivesAs joined_of result (meant.all_joining scope.entry (clauses_of clauses.now)) }
{
    let mut joined = Joined {
        clauses: Vec::new(alloc),
        scope,
        own: Vec::new(alloc),
        taking: Vec::new(alloc),
    };
    for clause in clauses {
        joined = joining_step(alloc, joined, clause)?;
    }
    Ok(joined)
}

/// What clauses say apart from that, behind it.
fn others<'a>(
    alloc: Global,
    heading: Heading<'a>,
    clauses: &'a [Clause],
) -> Result<Heading<'a>, CFault>
    ensures { GivesAs head_of result (each_or_refused meant.claim_items (head_of heading.entry) (clauses_of clauses.now)) }
{
    let mut heading = heading;
    for clause in clauses {
        heading = clause_step(alloc, heading, clause)?;
    }
    Ok(heading)
}

/// What clauses say of reductions, with which the others are read.
fn heading_of<'a>(alloc: Global, joined: Joined<'a>) -> Result<Heading<'a>, AllocError>
    ensures { IfOk result (λ heading. head_of heading ≡ joined_of joined.entry) }
{
    Ok(Heading {
        clauses: joined.clauses,
        scope: joined.scope,
        own: Owns::new(alloc, joined.own)?,
        taking: joined.taking,
    })
}

/// Clauses of a directive whose name stands where so many words are left, in this scope.
pub fn headed<'a>(
    alloc: Global,
    left: usize,
    scope: Scope<'a>,
    clauses: &'a [Clause],
) -> Result<Heading<'a>, CFault>
    ensures { GivesAs head_of result (meant.heading left scope.entry (clauses_of clauses.now)) }
{
    let joined = all_joining(alloc, scope, clauses)?;
    let heading = heading_of(alloc, joined)?;
    let heading = others(alloc, heading, clauses)?;
    if heading.own.are_named() {
        Ok(heading)
    } else {
        Err(CFault::Outside(left, Reason::NoDependence))
    }
}

/// By what a clause of a group combines.
fn combined_by(role: Role) -> Operation
    ensures { result ≡ meant.combined_by role }
{
    match role {
        Role::Combines(operation) => operation,
        Role::In | Role::Out | Role::Inout | Role::Reduces(_) => Operation::Plus,
        Role::Shared | Role::Firstprivate => Operation::Plus,
        Role::Default | Role::DefaultNone => Operation::Plus,
        Role::NumThreads | Role::Priority | Role::Untied | Role::Mergeable => Operation::Plus,
    }
}

/// The operation of a group.
pub fn group_operation(clauses: &[Clause]) -> Result<Operation, CFault>
    ensures { GivesAs (λ o. o) result (meant.group_operation (clauses_of clauses.now)) }
{
    match clauses {
        [] => Ok(Operation::Plus),
        [clause] => Ok(combined_by(clause.role)),
        [_, clause, ..] => Err(CFault::Outside(clause.left, Reason::Operations)),
    }
}
