ghost use Rattle.std.specs.Prelude.{◌≡◌, codes, ◌-◌, ◌^◌, min, map};
ghost use Rattle.serde_json.specs.Data.{string, array};
ghost use Rattle.serde_json.specs.View.{view, items_view};
ghost use Rattle.ot_program.specs.walk.Reading.{each_of};
ghost use Rattle.ot_program.specs.Returned.{Gives};
ghost use Rattle.ot_program.specs.walk.Sizes.{bindings_of};
ghost use Rattle.ot_program.specs.Meanings.{red_of, mode_of};
ghost use Rattle.ot_program.specs.walk.Parts.{section_of, folded_of, clause_at, clause_of, clauses_of};

use crate::fault::{ProgramFault, Refusal};
use crate::operation::read_operation;
use crate::part::read_section;
use crate::parts::Parts;
use crate::profile::Profile;
use crate::scope::Scope;
use ot_model::{Fold, Mode, Section};
use serde_json::Value;
use std::alloc::Global;

/// A clause of a task: what the task does with the cells of a section.
#[derive(Clone, Copy, Debug, PartialEq, Eq)]
pub(crate) struct Clause {
    pub(crate) mode: Mode,
    pub(crate) section: Section,
}

/// `[clause, ..]`
pub(crate) fn read_clauses(
    alloc: Global,
    scope: &Scope,
    value: &Value,
) -> Result<Vec<Clause>, ProgramFault>
    ensures { Gives (λ v. v.items) result (clauses_of scope.now.shape.now scope.now.profile
        (bindings_of scope.now.variables.now) (view value.now)) }
{
    match value {
        Value::Array(items) => each_clause(alloc, scope, items),
        _ => Err(ProgramFault::Refused(Refusal::Form)),
    }
}

// Each of the clauses is looked at, also behind a fault.
fn each_clause(alloc: Global, scope: &Scope, items: &[Value]) -> Result<Vec<Clause>, ProgramFault>
    ensures { Gives (λ v. v.items) result (each_of
        (clause_of scope.now.shape.now scope.now.profile (bindings_of scope.now.variables.now))
        (items_view items.now)) }
{
    let mut clauses = Parts::new(alloc);
    for item in items {
        clauses.put(read_clause(scope, item))?;
    }
    clauses.all()
}

fn read_clause(scope: &Scope, value: &Value) -> Result<Clause, Refusal>
    ensures { result ≡ clause_of scope.now.shape.now scope.now.profile
        (bindings_of scope.now.variables.now) (view value.now) }
{
    match value {
        Value::Array(items) => clause_form(scope, items),
        _ => Err(Refusal::Form),
    }
}

// `[word, section]`, `["red", op, section]`
#[tactic(auto, using(crate::proofs::Forms::clause_forms))]
fn clause_form(scope: &Scope, items: &[Value]) -> Result<Clause, Refusal>
    ensures { result ≡ clause_of scope.now.shape.now scope.now.profile
        (bindings_of scope.now.variables.now) (array (items_view items.now)) }
{
    match items {
        [tag, section] => clause_at(scope, read_mode(scope.profile, tag), section),
        [tag, op, section] => clause_at(scope, read_folded(scope.profile, tag, op), section),
        _ => Err(Refusal::Form),
    }
}

/// The clause of a mode, where a word names one, and of a section.
pub(crate) fn clause_at(
    scope: &Scope,
    mode: Option<Mode>,
    section: &Value,
) -> Result<Clause, Refusal>
    ensures { result ≡ clause_at mode (section_of scope.now.shape.now
        (bindings_of scope.now.variables.now) (view section.now)) }
{
    let Some(mode) = mode else {
        return Err(Refusal::Form);
    };
    let section = read_section(scope, section)?;
    Ok(Clause { mode, section })
}

/// The mode of a clause without an operation.
pub(crate) fn read_mode(profile: Profile, tag: &Value) -> Option<Mode>
    ensures { result ≡ mode_of profile (view tag.now) }
{
    match tag {
        Value::String(text) => mode_named(profile, text.as_str()),
        _ => None,
    }
}

fn mode_named(profile: Profile, text: &str) -> Option<Mode>
    ensures { result ≡ mode_of profile (string text.now) }
{
    match text {
        "in" => Some(Mode::Reads),
        "out" | "inout" => Some(Mode::Writes),
        "red" => red(profile),
        _ => None,
    }
}

// `red` without an operation.
fn red(profile: Profile) -> Option<Mode>
    ensures { result ≡ red_of profile (string (codes "red")) }
{
    match profile {
        Profile::One => Some(Mode::Folds(Fold::Plus)),
        Profile::Two => None,
    }
}

// The mode of `red` with an operation.
fn read_folded(profile: Profile, tag: &Value, op: &Value) -> Option<Mode>
    ensures { result ≡ folded_of profile (view tag.now) (view op.now) }
{
    if !profile.two_has(tag, "red") {
        return None;
    }
    read_operation(op).map(Mode::Folds)
}

ghost use Rattle.ot_program.specs.Limits.{cells_in};

/// How many cells the sections of clauses have, or the greatest number of 32 bits where they have
/// more.
pub(crate) fn cells(clauses: &[Clause]) -> u32
    ensures { result ≡ min (cells_in (map (λ c. c.section) clauses.now)) (2 ^ 32 - 1) }
{
    let mut total: u32 = 0;
    for clause in clauses {
        total = total.saturating_add(clause.section.len);
    }
    total
}
