ghost use Rattle.std.specs.Prelude.{◌≡◌, ◌+◌, ◌-◌, ◌<◌, ◌∷◌, length, map};
ghost use Rattle.serde_json.specs.Data.{array};
ghost use Rattle.serde_json.specs.View.{view, items_view};
ghost use Rattle.ot_model.specs.Tree.{Task};
ghost use Rattle.ot_model.specs.View.{stmt_of};
ghost use Rattle.ot_program.specs.Limits.{max_nesting};
ghost use Rattle.ot_program.specs.Meanings.{fold_of};
ghost use Rattle.ot_program.specs.walk.Sizes.{bindings_of};
ghost use Rattle.ot_program.specs.walk.Statements.{body_in, all_in, one_in, by_operation, set_in, fold_in, wait_form, wait_for_form, with_body, group_in, declared_of, turn, turns};
ghost use Rattle.ot_program.specs.Returned.{Gives};
ghost use Rattle.ot_program.specs.walk.Returned.{Adds};

use crate::counts::Counts;
use crate::fault::{ProgramFault, Refusal};
use crate::head::{
    Turns, read_condition, read_declared, read_grouped, read_target, read_turns, read_waited,
};
use crate::name::is_word;
use crate::operation::read_operation;
use crate::scope::{Scope, Variable, Variables};
use ot_model::{Fold, Stmt};
use serde_json::Value;
use std::alloc::Global;

/// Reads `[statement, ..]`, and puts the statements behind those of `out`.
#[cycle(statements)]
#[tactic(auto, unfolding(crate::specs::walk::Statements::body_in))]
pub(crate) fn read_body(
    alloc: Global,
    scope: &Scope,
    body: &Value,
    counts: &mut Counts,
    out: &mut Vec<Stmt>,
) -> Result<(), ProgramFault>
    ensures { Adds (map stmt_of out.old.items) (map stmt_of out.new.items) counts.new result
        (body_in scope.now.shape.now scope.now.profile scope.now.level (view body.now)
        (bindings_of scope.now.variables.now) counts.old) }
{
    match body {
        Value::Array(items) => read_all(alloc, scope, items, counts, out),
        _ => Err(ProgramFault::Refused(Refusal::Form)),
    }
}

#[cycle(statements)]
#[tactic(auto, using(crate::proofs::Fronts::fronts))]
fn read_all(
    alloc: Global,
    scope: &Scope,
    items: &[Value],
    counts: &mut Counts,
    out: &mut Vec<Stmt>,
) -> Result<(), ProgramFault>
    ensures { Adds (map stmt_of out.old.items) (map stmt_of out.new.items) counts.new result
        (all_in scope.now.shape.now scope.now.profile scope.now.level (items_view items.now)
        (bindings_of scope.now.variables.now) counts.old) }
{
    for statement in items {
        if let Err(fault) = read_one(alloc, scope, statement, counts, out) {
            return Err(fault);
        }
    }
    Ok(())
}

#[cycle(statements)]
#[tactic(auto, unfolding(crate::specs::walk::Statements::body_in))]
fn read_one(
    alloc: Global,
    scope: &Scope,
    statement: &Value,
    counts: &mut Counts,
    out: &mut Vec<Stmt>,
) -> Result<(), ProgramFault>
    ensures { Adds (map stmt_of out.old.items) (map stmt_of out.new.items) counts.new result
        (one_in scope.now.shape.now scope.now.profile scope.now.level (view statement.now)
        (bindings_of scope.now.variables.now) counts.old) }
{
    match statement {
        Value::Array(items) => read_form(alloc, scope, items, counts, out),
        _ => Err(ProgramFault::Refused(Refusal::Form)),
    }
}

// The forms of statements, by how many items they have.
#[cycle(statements)]
#[tactic(auto, using(crate::proofs::StatementForms::no_statement))]
fn read_form(
    alloc: Global,
    scope: &Scope,
    items: &[Value],
    counts: &mut Counts,
    out: &mut Vec<Stmt>,
) -> Result<(), ProgramFault>
    ensures { Adds (map stmt_of out.old.items) (map stmt_of out.new.items) counts.new result
        (one_in scope.now.shape.now scope.now.profile scope.now.level (array (items_view items.now))
        (bindings_of scope.now.variables.now) counts.old) }
{
    if let [tag] = items {
        return read_wait(tag, counts, out);
    }
    if let [tag, clauses] = items {
        return read_wait_for(alloc, scope, tag, clauses, counts, out);
    }
    if items.len() == 3 {
        return read_three(alloc, scope, items, counts, out);
    }
    if items.len() == 4 {
        return read_four(alloc, scope, items, counts, out);
    }
    if items.len() == 5 {
        return read_five(alloc, scope, items, counts, out);
    }
    Err(ProgramFault::Refused(Refusal::Form))
}

// `["wait"]`
fn read_wait(tag: &Value, counts: &mut Counts, out: &mut Vec<Stmt>) -> Result<(), ProgramFault>
    ensures { Adds (map stmt_of out.old.items) (map stmt_of out.new.items) counts.new result
        (wait_form (view tag.now) counts.old) }
{
    if !is_word(tag, "wait") {
        return Err(ProgramFault::Refused(Refusal::Form));
    }
    *counts = counts.plus(1, 0, 0)?;
    out.push(Stmt::Wait(None))?;
    Ok(())
}

// `["wait", [clause, ..]]` in profile 2
fn read_wait_for(
    alloc: Global,
    scope: &Scope,
    tag: &Value,
    clauses: &Value,
    counts: &mut Counts,
    out: &mut Vec<Stmt>,
) -> Result<(), ProgramFault>
    ensures { Adds (map stmt_of out.old.items) (map stmt_of out.new.items) counts.new result
        (wait_for_form scope.now.shape.now scope.now.profile (bindings_of scope.now.variables.now)
        (view tag.now) (view clauses.now) counts.old) }
{
    if !scope.profile.two_has(tag, "wait") {
        return Err(ProgramFault::Refused(Refusal::Form));
    }
    let decl = read_waited(alloc, scope, clauses, counts)?;
    out.push(Stmt::Wait(Some(decl)))?;
    Ok(())
}

// `["set", cell, value]`, `["add", cell, value]`, `["task", [clause, ..], body]`, and in profile 1
// `["group", [section, ..], body]`
#[cycle(statements)]
#[tactic(auto, using(crate::proofs::StatementForms::forms_of_three))]
fn read_three(
    alloc: Global,
    scope: &Scope,
    items: &[Value],
    counts: &mut Counts,
    out: &mut Vec<Stmt>,
) -> Result<(), ProgramFault>
    requires { length items.now ≡ 3 }
    ensures { Adds (map stmt_of out.old.items) (map stmt_of out.new.items) counts.new result
        (one_in scope.now.shape.now scope.now.profile scope.now.level (array (items_view items.now))
        (bindings_of scope.now.variables.now) counts.old) }
{
    let [tag, one, two] = items else {
        unreachable!()
    };
    if is_word(tag, "set") {
        return read_set(alloc, scope, one, two, counts, out);
    }
    if is_word(tag, "add") {
        return read_fold(alloc, scope, one, two, Fold::Plus, counts, out);
    }
    if is_word(tag, "task") {
        return read_task(alloc, scope, two, one, counts, out);
    }
    if scope.profile.one_has(tag, "group") {
        return read_group(alloc, scope, two, one, Fold::Plus, counts, out);
    }
    Err(ProgramFault::Refused(Refusal::Form))
}

fn read_set(
    alloc: Global,
    scope: &Scope,
    cell: &Value,
    value: &Value,
    counts: &mut Counts,
    out: &mut Vec<Stmt>,
) -> Result<(), ProgramFault>
    ensures { Adds (map stmt_of out.old.items) (map stmt_of out.new.items) counts.new result
        (set_in scope.now.shape.now (bindings_of scope.now.variables.now) (view cell.now)
        (view value.now) counts.old) }
{
    let (cell, value) = read_target(alloc, scope, cell, value, counts)?;
    out.push(Stmt::Set(cell, value))?;
    Ok(())
}

fn read_fold(
    alloc: Global,
    scope: &Scope,
    cell: &Value,
    value: &Value,
    op: Fold,
    counts: &mut Counts,
    out: &mut Vec<Stmt>,
) -> Result<(), ProgramFault>
    ensures { Adds (map stmt_of out.old.items) (map stmt_of out.new.items) counts.new result
        (fold_in scope.now.shape.now (bindings_of scope.now.variables.now) (view cell.now)
        (view value.now) op counts.old) }
{
    let (cell, value) = read_target(alloc, scope, cell, value, counts)?;
    out.push(Stmt::Fold(op, cell, value))?;
    Ok(())
}

#[cycle(statements)]
fn read_task(
    alloc: Global,
    scope: &Scope,
    body: &Value,
    clauses: &Value,
    counts: &mut Counts,
    out: &mut Vec<Stmt>,
) -> Result<(), ProgramFault>
    ensures { Adds (map stmt_of out.old.items) (map stmt_of out.new.items) counts.new result
        (with_body Task (declared_of scope.now.shape.now scope.now.profile (bindings_of scope.now.variables.now)
        scope.now.level (view clauses.now) (view body.now))
        (body_in scope.now.shape.now scope.now.profile (scope.now.level + 1) (view body.now)
        (bindings_of scope.now.variables.now)) counts.old) }
{
    let decl = read_declared(alloc, scope, clauses, body, counts)?;
    let inside = read_inner(alloc, scope, body, counts)?;
    out.push(Stmt::Task(decl, inside))?;
    Ok(())
}

#[cycle(statements)]
fn read_group(
    alloc: Global,
    scope: &Scope,
    body: &Value,
    sections: &Value,
    op: Fold,
    counts: &mut Counts,
    out: &mut Vec<Stmt>,
) -> Result<(), ProgramFault>
    ensures { Adds (map stmt_of out.old.items) (map stmt_of out.new.items) counts.new result
        (group_in scope.now.shape.now (bindings_of scope.now.variables.now) scope.now.level
        (view sections.now) (view body.now)
        (body_in scope.now.shape.now scope.now.profile (scope.now.level + 1) (view body.now)
        (bindings_of scope.now.variables.now)) op counts.old) }
{
    let cells = read_grouped(alloc, scope, sections, body, counts)?;
    let inside = read_inner(alloc, scope, body, counts)?;
    out.push(Stmt::Group(op, cells, inside))?;
    Ok(())
}

// `["if", value, body, body]`, and in profile 2 `["fold", op, cell, value]` and
// `["group", op, [section, ..], body]`
#[cycle(statements)]
#[tactic(auto, using(crate::proofs::StatementForms::forms_of_four))]
fn read_four(
    alloc: Global,
    scope: &Scope,
    items: &[Value],
    counts: &mut Counts,
    out: &mut Vec<Stmt>,
) -> Result<(), ProgramFault>
    requires { length items.now ≡ 4 }
    ensures { Adds (map stmt_of out.old.items) (map stmt_of out.new.items) counts.new result
        (one_in scope.now.shape.now scope.now.profile scope.now.level (array (items_view items.now))
        (bindings_of scope.now.variables.now) counts.old) }
{
    let [tag, one, two, three] = items else {
        unreachable!()
    };
    if scope.profile.two_has(tag, "fold") {
        return fold_by(alloc, scope, two, three, one, counts, out);
    }
    if scope.profile.two_has(tag, "group") {
        return group_by(alloc, scope, three, two, one, counts, out);
    }
    if !is_word(tag, "if") {
        return Err(ProgramFault::Refused(Refusal::Form));
    }
    let condition = read_condition(alloc, scope, one, two, three, counts)?;
    let first = read_inner(alloc, scope, two, counts)?;
    let second = read_inner(alloc, scope, three, counts)?;
    out.push(Stmt::If(condition, first, second))?;
    Ok(())
}

fn fold_by(
    alloc: Global,
    scope: &Scope,
    cell: &Value,
    value: &Value,
    op: &Value,
    counts: &mut Counts,
    out: &mut Vec<Stmt>,
) -> Result<(), ProgramFault>
    ensures { Adds (map stmt_of out.old.items) (map stmt_of out.new.items) counts.new result
        (by_operation (fold_of (view op.now)) (fold_in scope.now.shape.now
        (bindings_of scope.now.variables.now) (view cell.now) (view value.now)) counts.old) }
{
    let Some(op) = read_operation(op) else {
        return Err(ProgramFault::Refused(Refusal::Form));
    };
    read_fold(alloc, scope, cell, value, op, counts, out)
}

#[cycle(statements)]
fn group_by(
    alloc: Global,
    scope: &Scope,
    body: &Value,
    sections: &Value,
    op: &Value,
    counts: &mut Counts,
    out: &mut Vec<Stmt>,
) -> Result<(), ProgramFault>
    ensures { Adds (map stmt_of out.old.items) (map stmt_of out.new.items) counts.new result
        (by_operation (fold_of (view op.now)) (group_in scope.now.shape.now
        (bindings_of scope.now.variables.now) scope.now.level (view sections.now) (view body.now)
        (body_in scope.now.shape.now scope.now.profile (scope.now.level + 1) (view body.now)
        (bindings_of scope.now.variables.now))) counts.old) }
{
    let Some(op) = read_operation(op) else {
        return Err(ProgramFault::Refused(Refusal::Form));
    };
    read_group(alloc, scope, body, sections, op, counts, out)
}

// `["for", variable, size, size, body]`
#[cycle(statements)]
#[tactic(auto, using(crate::proofs::StatementForms::forms_of_five))]
fn read_five(
    alloc: Global,
    scope: &Scope,
    items: &[Value],
    counts: &mut Counts,
    out: &mut Vec<Stmt>,
) -> Result<(), ProgramFault>
    requires { length items.now ≡ 5 }
    ensures { Adds (map stmt_of out.old.items) (map stmt_of out.new.items) counts.new result
        (one_in scope.now.shape.now scope.now.profile scope.now.level (array (items_view items.now))
        (bindings_of scope.now.variables.now) counts.old) }
{
    let [tag, variable, first, behind, body] = items else {
        unreachable!()
    };
    if !is_word(tag, "for") {
        return Err(ProgramFault::Refused(Refusal::Form));
    }
    let range = read_turns(scope, variable, first, behind, body)?;
    take_turns(alloc, scope, body, range, counts, out)
}

// The body of a `for`, once a turn.
#[cycle(statements)]
#[tactic(auto, using(crate::proofs::Turns::turns_taken))]
fn take_turns(
    alloc: Global,
    scope: &Scope,
    body: &Value,
    range: Turns,
    counts: &mut Counts,
    out: &mut Vec<Stmt>,
) -> Result<(), ProgramFault>
    requires { scope.now.level < max_nesting }
    ensures { Adds (map stmt_of out.old.items) (map stmt_of out.new.items) counts.new result
        (turns (λ number. body_in scope.now.shape.now scope.now.profile (scope.now.level + 1) (view body.now)
        ((range.entry.variable.now, number) ∷ bindings_of scope.now.variables.now))
        range.entry.first (range.entry.behind - range.entry.first) counts.old) }
{
    for number in range.first..range.behind {
        let variable = Variable {
            name: range.variable,
            number,
        };
        if let Err(fault) = take_turn(alloc, scope, body, variable, counts, out) {
            return Err(fault);
        }
    }
    Ok(())
}

// A turn counts when it begins.
#[cycle(statements)]
fn take_turn(
    alloc: Global,
    scope: &Scope,
    body: &Value,
    variable: Variable,
    counts: &mut Counts,
    out: &mut Vec<Stmt>,
) -> Result<(), ProgramFault>
    requires { scope.now.level < max_nesting }
    ensures { Adds (map stmt_of out.old.items) (map stmt_of out.new.items) counts.new result
        (turn (body_in scope.now.shape.now scope.now.profile (scope.now.level + 1) (view body.now)
        ((variable.entry.name.now, variable.entry.number) ∷ bindings_of scope.now.variables.now))
        counts.old) }
{
    *counts = counts.turn()?;
    let inner = Scope {
        shape: scope.shape,
        profile: scope.profile,
        variables: &Variables::Bound(variable, scope.variables),
        level: scope.level + 1,
    };
    read_body(alloc, &inner, body, counts, out)
}

// A body of a statement, one level deeper.
#[cycle(statements)]
fn read_inner(
    alloc: Global,
    scope: &Scope,
    body: &Value,
    counts: &mut Counts,
) -> Result<Vec<Stmt>, ProgramFault>
    requires { scope.now.level < max_nesting }
    ensures { Gives (λ v. (map stmt_of v.items, counts.new)) result
        (body_in scope.now.shape.now scope.now.profile (scope.now.level + 1) (view body.now)
        (bindings_of scope.now.variables.now) counts.old) }
{
    let inner = Scope {
        level: scope.level + 1,
        ..*scope
    };
    let mut statements = Vec::new(alloc);
    read_body(alloc, &inner, body, counts, &mut statements)?;
    Ok(statements)
}
