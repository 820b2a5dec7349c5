//! Parallel regions.
ghost use Rattle.std.specs.Prelude.{◌≡◌, IfOk, Ok, map};
ghost use Rattle.std.specs.List.{list_any};
ghost use Rattle.ot_c_expressions.specs.Tree.{items_of, clause_of, clauses_of};
ghost use Rattle.ot_c_statements.specs.Tree.{stmt_of, list_of, body_of};
ghost use Rattle.ot_c_scope.specs.Results.{GivesAs};
ghost use Rattle.ot_c_lines.specs.Lines.{lines_of};
ghost use Rattle.ot_c_program.specs.Statements.{source_of};
ghost use Rattle.ot_c_program.specs.Regions as meant;

use crate::statements::{Source, group, name_at};
use crate::turns::written_body;
use ot_c_clauses::headed;
use ot_c_expressions::{Clause, Item, Operation, Role};
use ot_c_lines::Lines;
use ot_c_scope::{CFault, Meaning, Reason, Scope};
use ot_c_statements::Stmt;
use ot_c_words::{Name, Words};
use std::alloc::{AllocError, Global};

#[tactic(auto, unfolding(crate::specs::Regions::is_strict))]
fn is_strict(role: Role) -> bool
    ensures { result ≡ meant.is_strict role }
{
    matches!(role, Role::DefaultNone)
}

#[tactic(auto, unfolding(crate::specs::Regions::is_shared))]
fn is_shared(role: Role) -> bool
    ensures { result ≡ meant.is_shared role }
{
    matches!(role, Role::Shared)
}

/// Whether only what clauses list is named in the region.
fn are_strict(clauses: &[Clause]) -> bool
    ensures { result ≡ meant.are_strict (clauses_of clauses.now) }
{
    for clause in clauses {
        if is_strict(clause.role) {
            return true;
        }
    }
    false
}

/// Arrays and variables mean nothing.
#[tactic(auto, unfolding(crate::specs::Regions::meaning_hidden))]
fn hidden(meaning: Meaning) -> Meaning
    ensures { result ≡ meant.meaning_hidden meaning }
{
    match meaning {
        Meaning::Cells(_, _) => Meaning::Nothing,
        _ => meaning,
    }
}

fn all_hidden(alloc: Global, meanings: &[Meaning]) -> Result<Vec<Meaning>, AllocError>
    ensures { IfOk result (λ v. v.items ≡ map meant.meaning_hidden meanings.now) }
{
    let mut all = Vec::new(alloc);
    for meaning in meanings {
        all.push(hidden(*meaning))?;
    }
    Ok(all)
}

/// What is listed means what it does.
fn shown(meanings: &[Meaning], mut seen: Vec<Meaning>, name: Name) -> Vec<Meaning>
    ensures { result.items ≡ meant.meanings_shown meanings.now seen.items name }
{
    let Name::Other(number) = name else {
        return seen;
    };
    if let Some(meaning) = meanings.get(number) {
        if number < seen.len() {
            seen[number] = *meaning;
        }
    }
    seen
}

fn shown_items(meanings: &[Meaning], seen: Vec<Meaning>, items: &[Item]) -> Vec<Meaning>
    ensures { result.items ≡ meant.shown_items meanings.now seen.items (items_of items.now) }
{
    let mut seen = seen;
    for item in items {
        seen = shown(meanings, seen, item.array);
    }
    seen
}

fn shown_clause(meanings: &[Meaning], seen: Vec<Meaning>, clause: &Clause) -> Vec<Meaning>
    ensures { result.items ≡ meant.shown_clause meanings.now seen.items (clause_of clause.now) }
{
    if is_shared(clause.role) {
        shown_items(meanings, seen, &clause.items)
    } else {
        seen
    }
}

/// What names mean of which these clauses list some.
fn listed(
    alloc: Global,
    meanings: &[Meaning],
    clauses: &[Clause],
) -> Result<Vec<Meaning>, AllocError>
    ensures { IfOk result (λ v. v.items ≡ meant.meanings_listed meanings.now (clauses_of clauses.now)) }
{
    let mut seen = all_hidden(alloc, meanings)?;
    for clause in clauses {
        seen = shown_clause(meanings, seen, clause);
    }
    Ok(seen)
}

/// What is unknown in such a region isn't listed.
#[tactic(auto, unfolding(crate::specs::Regions::reason_unlisted))]
fn unlisted(reason: Reason) -> Reason
    ensures { result ≡ meant.reason_unlisted reason }
{
    match reason {
        Reason::Unknown => Reason::Unlisted,
        _ => reason,
    }
}

/// What one thread does in a region, where names mean this.
fn within(
    alloc: Global,
    words: &Words,
    source: &Source<'_>,
    meanings: &[Meaning],
    stmts: &[Stmt],
) -> Result<Lines, CFault>
    ensures { GivesAs lines_of result (meant.within words.now.names.keys (source_of source.now) meanings.now (body_of (list_of stmts.now))) }
{
    let scope = Scope::new(alloc, &words.names, meanings, true);
    written_body(alloc, source, &scope, stmts)
}

/// The same, where clauses list what names mean something.
fn strictly(
    alloc: Global,
    words: &Words,
    source: &Source<'_>,
    meanings: &[Meaning],
    stmts: &[Stmt],
) -> Result<Lines, CFault>
    ensures { GivesAs lines_of result (meant.strictly (meant.within words.now.names.keys (source_of source.now) meanings.now (body_of (list_of stmts.now)))) }
{
    match within(alloc, words, source, meanings, stmts) {
        Ok(lines) => Ok(lines),
        Err(CFault::Memory) => Err(CFault::Memory),
        Err(CFault::Outside(left, reason)) => Err(CFault::Outside(left, unlisted(reason))),
    }
}

fn within_by(
    alloc: Global,
    words: &Words,
    source: &Source<'_>,
    meanings: &[Meaning],
    clauses: &[Clause],
    stmts: &[Stmt],
) -> Result<Lines, CFault>
    ensures { GivesAs lines_of result (meant.within_by words.now.names.keys (source_of source.now) meanings.now (clauses_of clauses.now) (body_of (list_of stmts.now))) }
{
    if are_strict(clauses) {
        let listed = listed(alloc, meanings, clauses)?;
        strictly(alloc, words, source, &listed, stmts)
    } else {
        within(alloc, words, source, meanings, stmts)
    }
}

/// What stands in a parallel region.
pub(crate) fn region(
    alloc: Global,
    words: &Words,
    source: &Source<'_>,
    meanings: &[Meaning],
    left: usize,
    clauses: &[Clause],
    stmts: &[Stmt],
) -> Result<Lines, CFault>
    ensures { GivesAs lines_of result (meant.region words.now.names.keys (source_of source.now) meanings.now left (clauses_of clauses.now) (body_of (list_of stmts.now))) }
{
    let scope = Scope::new(alloc, &words.names, meanings, true);
    let _heading = headed(alloc, name_at(left), scope, clauses)?;
    within_by(alloc, words, source, meanings, clauses, stmts)
}

/// Whether a taskgroup may stand in a body outside of its tasks.
#[cycle(groups)]
fn has_group(stmts: &[Stmt]) -> bool
    ensures { result ≡ meant.has_group (body_of (list_of stmts.now)) }
{
    for stmt in stmts {
        if has_group_one(stmt) {
            return true;
        }
    }
    false
}

/// Whether one may stand in a statement.
#[cycle(groups)]
fn has_group_one(stmt: &Stmt) -> bool
    ensures { result ≡ meant.has_group_one (stmt_of stmt.now) }
{
    match stmt {
        Stmt::Group(_, _, _) | Stmt::Call(_, _, _) => true,
        Stmt::Block(_, inner) | Stmt::For(_, _, inner) => has_group(inner),
        Stmt::If(_, _, one, two) => has_group(one) || has_group(two),
        Stmt::Task(_, _, _) | Stmt::Assign(_, _, _, _) => false,
        Stmt::Wait(_, _) | Stmt::Yield(_) | Stmt::Print(_, _) => false,
        Stmt::Show(_, _, _) | Stmt::Point(_, _, _) => false,
    }
}

/// What becomes of a region in which this stands: a group over nothing, since all tasks have ended at its end. The last region of the
/// program is none, unless a taskgroup may stand in it.
pub(crate) fn ended(
    alloc: Global,
    left: usize,
    last: bool,
    stmts: &[Stmt],
    inner: Lines,
) -> Result<Lines, CFault>
    ensures { GivesAs lines_of result (Ok (meant.region_ended left last (body_of (list_of stmts.now)) (lines_of inner))) }
{
    if last && !has_group(stmts) {
        Ok(inner)
    } else {
        group(alloc, left, Operation::Plus, Vec::new(alloc), inner)
    }
}
