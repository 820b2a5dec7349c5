//! The own parts of statements, and their counts: all that is told of a statement before its bodies
//! are read.
ghost use Rattle.std.specs.Prelude.{◌≡◌, ◌<◌, OnOk, MatchResult, Ok, Err};
ghost use Rattle.serde_json.specs.View.{view};
ghost use Rattle.ot_model.specs.View.{expr_of};
ghost use Rattle.ot_program.specs.Limits.{max_nesting};
ghost use Rattle.ot_program.specs.Returned.{Gives};
ghost use Rattle.ot_program.specs.walk.Returned.{range_view};
ghost use Rattle.ot_program.specs.walk.Sizes.{bindings_of};
ghost use Rattle.ot_program.specs.walk.Counting.{deeper};
ghost use Rattle.ot_program.specs.walk.Statements.{list_of, target_of, condition_of, declared_of, waited_of, grouped_of, range_of};

use crate::both::{both, join};
use crate::clause::{self, read_clauses};
use crate::counts::{Counts, cells};
use crate::declaration::{declare, sections_cells};
use crate::fault::{ProgramFault, Refusal};
use crate::limits::MAX_NESTING;
use crate::name::is_name;
use crate::part::read_cell;
use crate::scope::Scope;
use crate::section::read_sections;
use crate::size::{check_depth, read_size};
use crate::value::{count_expression, read_expression};
use crate::wait::read_wait_clauses;
use ot_model::{Cell, Decl, Expr};
use serde_json::Value;
use std::alloc::Global;

/// Whether a part of a statement is a list. What stands in it isn't looked at.
pub(crate) fn read_list(value: &Value) -> Result<(), Refusal>
    ensures { result ≡ list_of (view value.now) }
{
    match value {
        Value::Array(_) => Ok(()),
        _ => Err(Refusal::Form),
    }
}

// Whether a statement at this level may have a body.
fn check_level(level: u32) -> Result<(), Refusal>
    ensures exact { result ≡ deeper level }
    ensures shallow { OnOk result (level < max_nesting) }
{
    if level < MAX_NESTING {
        Ok(())
    } else {
        Err(Refusal::TooLarge)
    }
}

/// Of `set` and of a fold: the cell, and the value.
pub(crate) fn read_target(
    alloc: Global,
    scope: &Scope,
    cell: &Value,
    value: &Value,
    counts: &mut Counts,
) -> Result<(Cell, Expr), ProgramFault>
    ensures { Gives (λ p. ((p.0, expr_of p.1), counts.new)) result
        (target_of scope.now.shape.now (bindings_of scope.now.variables.now)
        (view cell.now) (view value.now) counts.old) }
{
    let cell = read_cell(scope, cell).map_err(ProgramFault::Refused);
    let (cell, value) = join(cell, read_expression(alloc, scope, value))?;
    *counts = count_expression(*counts, &value)?;
    Ok((cell, value))
}

/// Of `if`: the condition, and that both bodies are lists.
pub(crate) fn read_condition(
    alloc: Global,
    scope: &Scope,
    value: &Value,
    one: &Value,
    two: &Value,
    counts: &mut Counts,
) -> Result<Expr, ProgramFault>
    ensures reads { Gives (λ e. (expr_of e, counts.new)) result
        (condition_of scope.now.shape.now (bindings_of scope.now.variables.now) scope.now.level
        (view value.now) (view one.now) (view two.now) counts.old) }
    ensures shallow { OnOk result (scope.now.level < max_nesting) }
{
    let lists = both(read_list(one), read_list(two)).map_err(ProgramFault::Refused);
    let (condition, _) = join(read_expression(alloc, scope, value), lists)?;
    check_level(scope.level)?;
    *counts = count_expression(*counts, &condition)?;
    Ok(condition)
}

/// Of `task`: what it declares.
pub(crate) fn read_declared(
    alloc: Global,
    scope: &Scope,
    clauses: &Value,
    body: &Value,
    counts: &mut Counts,
) -> Result<Decl, ProgramFault>
    ensures reads { Gives (λ d. (d, counts.new)) result
        (declared_of scope.now.shape.now scope.now.profile
        (bindings_of scope.now.variables.now) scope.now.level
        (view clauses.now) (view body.now) counts.old) }
    ensures shallow { OnOk result (scope.now.level < max_nesting) }
{
    // The shape's lengths fit 32 bits.
    let _arrays = scope.shape.arrays();
    let list = read_list(body).map_err(ProgramFault::Refused);
    let (clauses, _) = join(read_clauses(alloc, scope, clauses), list)?;
    check_level(scope.level)?;
    *counts = counts.plus(1, 0, clause::cells(&clauses))?;
    *counts = counts.task(scope.shape.tasks())?;
    declare(alloc, clauses)
}

/// Of `wait` with clauses: what it declares.
pub(crate) fn read_waited(
    alloc: Global,
    scope: &Scope,
    clauses: &Value,
    counts: &mut Counts,
) -> Result<Decl, ProgramFault>
    ensures { Gives (λ d. (d, counts.new)) result
        (waited_of scope.now.shape.now (bindings_of scope.now.variables.now) (view clauses.now) counts.old) }
{
    // The shape's lengths fit 32 bits.
    let _arrays = scope.shape.arrays();
    let clauses = read_wait_clauses(alloc, scope, clauses)?;
    let cells = clause::cells(&clauses);
    *counts = counts.plus(1, 0, cells)?;
    declare(alloc, clauses)
}

/// Of `group`: the cells that it names.
pub(crate) fn read_grouped(
    alloc: Global,
    scope: &Scope,
    sections: &Value,
    body: &Value,
    counts: &mut Counts,
) -> Result<Vec<Cell>, ProgramFault>
    ensures reads { Gives (λ v. (v.items, counts.new)) result
        (grouped_of scope.now.shape.now (bindings_of scope.now.variables.now) scope.now.level
        (view sections.now) (view body.now) counts.old) }
    ensures shallow { OnOk result (scope.now.level < max_nesting) }
{
    // The shape's lengths fit 32 bits.
    let _arrays = scope.shape.arrays();
    let list = read_list(body).map_err(ProgramFault::Refused);
    let (sections, _) = join(read_sections(alloc, scope, sections), list)?;
    check_level(scope.level)?;
    *counts = counts.plus(1, 0, cells(&sections))?;
    Ok(sections_cells(alloc, &sections)?)
}

/// The turns of a `for`: its variable, the first number, and the number behind the last.
#[derive(Clone, Copy)]
pub(crate) struct Turns<'a> {
    pub(crate) variable: &'a str,
    pub(crate) first: u32,
    pub(crate) behind: u32,
}

/// Of `for`: its turns, and that its body is a list.
pub(crate) fn read_turns<'a>(
    scope: &Scope,
    variable: &'a Value,
    first: &Value,
    behind: &Value,
    body: &Value,
) -> Result<Turns<'a>, Refusal>
    ensures reads { MatchResult result
        (λ r. range_of (bindings_of scope.now.variables.now) scope.now.level (view variable.now)
        (view first.now) (view behind.now) (view body.now) ≡ Ok (range_view r))
        (λ e. range_of (bindings_of scope.now.variables.now) scope.now.level (view variable.now)
        (view first.now) (view behind.now) (view body.now) ≡ Err e) }
    ensures shallow { OnOk result (scope.now.level < max_nesting) }
{
    let Value::String(name) = variable else {
        return Err(Refusal::Form);
    };
    if !is_name(name.as_str()) {
        return Err(Refusal::Form);
    }
    let from = read_size(first, scope.variables);
    let numbers = both(from, read_size(behind, scope.variables));
    let ((from, to), _) = both(numbers, read_list(body))?;
    check_level(scope.level)?;
    both(check_depth(first), check_depth(behind))?;
    Ok(Turns {
        variable: name.as_str(),
        first: from,
        behind: to,
    })
}
