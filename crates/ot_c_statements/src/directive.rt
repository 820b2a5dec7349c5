//! Directives, and which clauses each has (OpenMP API 5.2, chapters 10 and 12).
ghost use Rattle.std.specs.Prelude.{◌≡◌};
ghost use Rattle.ot_c_words.specs.Reading.{Gives};
ghost use Rattle.ot_c_expressions.specs.Tree.{clauses_of};
ghost use Rattle.ot_c_statements.specs.Directives as read;

use crate::fault::{Fault, ReadError};
use crate::part::clauses;
use ot_c_expressions::{Clause, Role};
use ot_c_words::{Known, Name, Word};
use std::alloc::Global;

#[derive(Clone, Copy)]
pub enum Directive {
    Task,
    Wait,
    Group,
    Yield,
    /// Which stands in `main` alone.
    Parallel,
}

#[tactic(auto, unfolding(crate::specs::Directives::directive_of))]
pub(crate) fn directive_of(name: Name) -> Option<Directive>
    ensures { result ≡ read.directive_of name }
{
    match name {
        Name::Known(Known::Task) => Some(Directive::Task),
        Name::Known(Known::Taskwait) => Some(Directive::Wait),
        Name::Known(Known::Taskgroup) => Some(Directive::Group),
        Name::Known(Known::Taskyield) => Some(Directive::Yield),
        Name::Known(Known::Parallel) => Some(Directive::Parallel),
        _ => None,
    }
}

fn fits_task(role: Role) -> bool
    ensures { result ≡ read.fits_task role }
{
    match role {
        Role::In | Role::Out | Role::Inout | Role::Reduces(_) => true,
        Role::Shared | Role::Firstprivate => true,
        Role::Untied | Role::Mergeable | Role::Priority => true,
        Role::Combines(_) | Role::Default | Role::DefaultNone | Role::NumThreads => false,
    }
}

fn fits_wait(role: Role) -> bool
    ensures { result ≡ read.fits_wait role }
{
    match role {
        Role::In | Role::Out | Role::Inout => true,
        Role::Reduces(_) | Role::Combines(_) | Role::Shared | Role::Firstprivate => false,
        Role::Untied | Role::Mergeable | Role::Priority => false,
        Role::Default | Role::DefaultNone | Role::NumThreads => false,
    }
}

fn fits_group(role: Role) -> bool
    ensures { result ≡ read.fits_group role }
{
    match role {
        Role::Combines(_) => true,
        Role::In | Role::Out | Role::Inout | Role::Reduces(_) => false,
        Role::Shared | Role::Firstprivate => false,
        Role::Untied | Role::Mergeable | Role::Priority => false,
        Role::Default | Role::DefaultNone | Role::NumThreads => false,
    }
}

fn fits_parallel(role: Role) -> bool
    ensures { result ≡ read.fits_parallel role }
{
    match role {
        Role::Shared | Role::Default | Role::DefaultNone | Role::NumThreads => true,
        Role::In | Role::Out | Role::Inout | Role::Reduces(_) | Role::Combines(_) => false,
        Role::Firstprivate | Role::Untied | Role::Mergeable | Role::Priority => false,
    }
}

/// Whether a directive may have a clause that says this.
fn fits(directive: Directive, role: Role) -> bool
    ensures { result ≡ read.fits directive role }
{
    match directive {
        Directive::Task => fits_task(role),
        Directive::Wait => fits_wait(role),
        Directive::Group => fits_group(role),
        Directive::Yield => false,
        Directive::Parallel => fits_parallel(role),
    }
}

/// Which of the clauses it is that a directive has once, or 0.
fn once_of(role: Role) -> u32
    ensures { result ≡ read.once_of role }
{
    match role {
        Role::In | Role::Out | Role::Inout | Role::Reduces(_) | Role::Combines(_) => 0,
        Role::Shared | Role::Firstprivate => 0,
        Role::Default | Role::DefaultNone => 1,
        Role::NumThreads => 2,
        Role::Priority => 3,
        Role::Untied => 4,
        Role::Mergeable => 5,
    }
}

/// Whether one of these clauses is that one.
fn has(once: u32, clauses: &[Clause]) -> bool
    ensures { result ≡ read.has once (clauses_of clauses.now) }
{
    for clause in clauses {
        if once_of(clause.role) == once {
            return true;
        }
    }
    false
}

/// Whether a clause may stand before these.
fn is_once(role: Role, clauses: &[Clause]) -> bool
    ensures { result ≡ read.is_once role (clauses_of clauses.now) }
{
    let once = once_of(role);
    once == 0 || !has(once, clauses)
}

/// Where the first clause stands that a directive may not have, or that stands again.
fn misfit(directive: Directive, clauses: &[Clause]) -> Option<usize>
    ensures { result ≡ read.misfit directive (clauses_of clauses.now) }
{
    for i in 0..clauses.len() {
        let role = clauses[i].role;
        if !fits(directive, role) || !is_once(role, &clauses[i + 1..]) {
            return Some(clauses[i].left);
        }
    }
    None
}

/// The clauses of a directive.
#[tactic(auto, unfolding(crate::specs::Directives::own_clauses))]
pub fn own_clauses(
    alloc: Global,
    directive: Directive,
    words: &[Word],
) -> Result<(Vec<Clause>, &[Word]), ReadError>
    ensures { Gives (λ x. (clauses_of x.0.items, x.1.now)) result (read.own_clauses directive words.now) }
{
    let (clauses, rest) = clauses(alloc, words)?;
    match misfit(directive, &clauses) {
        None => Ok((clauses, rest)),
        Some(left) => Err(ReadError::Fault(Fault::OtherClause(left))),
    }
}
