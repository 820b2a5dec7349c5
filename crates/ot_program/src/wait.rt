//! Clauses of a wait. None of them is `red`.
ghost use Rattle.std.specs.Prelude.{◌≡◌};
ghost use Rattle.serde_json.specs.Data.{array};
ghost use Rattle.serde_json.specs.View.{view, items_view};
ghost use Rattle.ot_program.specs.walk.Reading.{each_of};
ghost use Rattle.ot_program.specs.Returned.{Gives};
ghost use Rattle.ot_program.specs.walk.Sizes.{bindings_of};
ghost use Rattle.ot_program.specs.walk.Parts.{wait_clause_of, wait_clauses_of};

use crate::clause::{Clause, clause_at, read_mode};
use crate::fault::{ProgramFault, Refusal};
use crate::parts::Parts;
use crate::profile::Profile;
use crate::scope::Scope;
use serde_json::Value;
use std::alloc::Global;

/// `[clause, ..]`
pub(crate) fn read_wait_clauses(
    alloc: Global,
    scope: &Scope,
    value: &Value,
) -> Result<Vec<Clause>, ProgramFault>
    ensures { Gives (λ v. v.items) result (wait_clauses_of scope.now.shape.now
        (bindings_of scope.now.variables.now) (view value.now)) }
{
    match value {
        Value::Array(items) => each_clause(alloc, scope, items),
        _ => Err(ProgramFault::Refused(Refusal::Form)),
    }
}

// Each of the clauses is looked at, also behind a fault.
fn each_clause(alloc: Global, scope: &Scope, items: &[Value]) -> Result<Vec<Clause>, ProgramFault>
    ensures { Gives (λ v. v.items) result (each_of
        (wait_clause_of scope.now.shape.now (bindings_of scope.now.variables.now))
        (items_view items.now)) }
{
    let mut clauses = Parts::new(alloc);
    for item in items {
        clauses.put(read_clause(scope, item))?;
    }
    clauses.all()
}

fn read_clause(scope: &Scope, value: &Value) -> Result<Clause, Refusal>
    ensures { result ≡ wait_clause_of scope.now.shape.now
        (bindings_of scope.now.variables.now) (view value.now) }
{
    match value {
        Value::Array(items) => clause_form(scope, items),
        _ => Err(Refusal::Form),
    }
}

// `[word, section]`
#[tactic(auto, using(crate::proofs::Forms::wait_clause_forms))]
fn clause_form(scope: &Scope, items: &[Value]) -> Result<Clause, Refusal>
    ensures { result ≡ wait_clause_of scope.now.shape.now
        (bindings_of scope.now.variables.now) (array (items_view items.now)) }
{
    match items {
        [tag, section] => clause_at(scope, read_mode(Profile::Two, tag), section),
        _ => Err(Refusal::Form),
    }
}
