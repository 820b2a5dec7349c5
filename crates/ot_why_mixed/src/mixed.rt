//! The first cell that clauses declare under `red` and otherwise.
ghost use Rattle.std.specs.Prelude.{◌≡◌, [], ◌++◌, map, flat_map, Some, None, option_map, IfOk, OnOk};
ghost use Rattle.std.specs.Option.{option_to_list};
ghost use Rattle.std.specs.List.{AllByRecursion};
ghost use Rattle.serde_json.specs.Data.{array};
ghost use Rattle.serde_json.specs.View.{view, items_view};
ghost use Rattle.ot_model.specs.Programs.{Arrays, arrays_of};
ghost use Rattle.ot_program.specs.Faults.{clause_faults};
ghost use Rattle.ot_program.specs.Meanings.{each, clause};
ghost use Rattle.ot_program.specs.declared.profile.Profile.{Profile};
ghost use Rattle.ot_why_place.specs.Spots.{trail_bindings};
ghost use Rattle.ot_why_mixed.specs.Mixed.{mixed_of, faults_of, named_by};
ghost use Rattle.ot_why_mixed.specs.Rows.{row_of, row_by, Fits, same_operation, sweep};

use crate::clause::{Named, clause_of};
use ot_model::{ArrayShape, Fold};
use ot_why_place::Trail;
use serde_json::Value;
use std::alloc::{AllocError, Global};

/// The first cell, by array and then by index, that clauses without a fault of their own declare under `red` and
/// otherwise, or under `red` by two operations: the name of its array, and its index.
pub fn mixed_in<'a>(
    alloc: Global,
    arrays: &[ArrayShape],
    clauses: &'a Value,
    trail: &Trail<'_, 'a>,
) -> Result<Option<(&'a str, u32)>, AllocError>
    ensures { (shape : Arrays) (profile : Profile) → shape.arrays ≡ arrays_of arrays.now → faults_of shape profile (trail_bindings trail.now) (view clauses.now) ≡ []
        → IfOk result (λ found. option_map named_by found ≡ mixed_of shape profile (trail_bindings trail.now) (view clauses.now)) }
{
    match clauses {
        Value::Array(items) => mixed_among(alloc, arrays, items, trail),
        _ => Ok(None),
    }
}

fn mixed_among<'a>(
    alloc: Global,
    arrays: &[ArrayShape],
    items: &'a [Value],
    trail: &Trail<'_, 'a>,
) -> Result<Option<(&'a str, u32)>, AllocError>
    ensures { (shape : Arrays) (profile : Profile) → shape.arrays ≡ arrays_of arrays.now → faults_of shape profile (trail_bindings trail.now) (array (items_view items.now)) ≡ []
        → IfOk result (λ found. option_map named_by found ≡ mixed_of shape profile (trail_bindings trail.now) (array (items_view items.now))) }
{
    let mut named = each_clause(alloc, arrays, items, trail)?;
    named.sort_unstable_by_key(|clause| clause.from);
    match first_mixed(named.as_slice()) {
        Some(clause) => Ok(Some((clause.array, clause.start))),
        None => Ok(None),
    }
}

fn each_clause<'a>(
    alloc: Global,
    arrays: &[ArrayShape],
    items: &'a [Value],
    trail: &Trail<'_, 'a>,
) -> Result<Vec<Named<'a>>, AllocError>
    ensures rows { (shape : Arrays) (profile : Profile) → shape.arrays ≡ arrays_of arrays.now → flat_map (clause_faults shape profile (trail_bindings trail.now)) (each (items_view items.now)) ≡ []
        → IfOk result (λ v. map row_by v.items ≡ map (λ d. row_of shape (clause shape profile (trail_bindings trail.now) d)) (each (items_view items.now))) }
    ensures fits { (shape : Arrays) (profile : Profile) → shape.arrays ≡ arrays_of arrays.now → flat_map (clause_faults shape profile (trail_bindings trail.now)) (each (items_view items.now)) ≡ []
        → IfOk result (λ v. AllByRecursion (λ d. Fits (clause shape profile (trail_bindings trail.now) d).section) (each (items_view items.now))) }
{
    let mut named = Vec::new(alloc);
    for item in items {
        put(&mut named, clause_of(arrays, item, trail))?;
    }
    Ok(named)
}

fn put<'a>(named: &mut Vec<Named<'a>>, clause: Option<Named<'a>>) -> Result<(), AllocError>
    ensures { OnOk result (named.new.items ≡ named.old.items ++ option_to_list clause.entry) }
{
    match clause {
        Some(clause) => {
            named.push(clause)?;
            Ok(())
        }
        None => Ok(()),
    }
}

/// The first that shares a cell with one before it and folds otherwise. They stand in the order in which they begin: so of
/// those before, the one that reaches furthest shares a cell with it where any of them does, and folds as these do.
fn first_mixed<'a>(named: &[Named<'a>]) -> Option<Named<'a>>
    ensures { option_map row_by result ≡ sweep 0 None (map row_by named.now) }
{
    let mut reach: u128 = 0;
    let mut fold = None;
    for clause in named {
        if clause.from < reach && !same_operation(clause.fold, fold) {
            return Some(*clause);
        }
        if reach < clause.to {
            reach = clause.to;
            fold = clause.fold;
        }
    }
    None
}

/// Whether both fold by one operation, or none folds.
fn same_operation(one: Option<Fold>, two: Option<Fold>) -> bool
    ensures { result ≡ same_operation one two }
{
    match (one, two) {
        (Some(one), Some(two)) => one == two,
        (None, None) => true,
        (_, _) => false,
    }
}
