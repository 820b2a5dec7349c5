//! The sections of `depend` clauses.
ghost use Rattle.std.specs.Prelude.{◌≡◌, option_map, IfOk, length, true};
ghost use Rattle.serde_json.specs.Data.{array};
ghost use Rattle.serde_json.specs.View.{view, items_view};
ghost use Rattle.ot_c_overlap.specs.Items.{depends, writes, is_iterated, is_difference, over};

use crate::names::Names;
use ot_model::Section;
use ot_program::is_word;
use ot_why_place::{Trail, letters, size_of};
use serde_json::Value;
use std::alloc::AllocError;

/// The section of a `depend` clause. That of `red` is one where this is so.
pub(crate) fn depends(clause: &Value, reds: bool) -> Option<&Value>
    ensures { option_map (λ section. view section.now) result ≡ depends reds (view clause.now) }
{
    match clause {
        Value::Array(items) => depends_in(items, reds),
        _ => None,
    }
}

#[tactic(auto, using(crate::proofs::ClauseLemmas::clauses))]
fn depends_in(items: &[Value], reds: bool) -> Option<&Value>
    ensures { option_map (λ section. view section.now) result ≡ depends reds (array (items_view items.now)) }
{
    if items.len() == 3 {
        return if reds { last_of(items) } else { None };
    }
    if items.len() != 2 {
        return None;
    }
    match items {
        [tag, section] => {
            if is_word(tag, "red") && !reds {
                None
            } else {
                Some(section)
            }
        }
        _ => unreachable!(),
    }
}

/// The last of three.
#[tactic(auto, using(crate::proofs::ClauseLemmas::reds))]
fn last_of(items: &[Value]) -> Option<&Value>
    requires { length items.now ≡ 3 }
    ensures { option_map (λ section. view section.now) result ≡ depends true (array (items_view items.now)) }
{
    match items {
        [_, _, section] => Some(section),
        _ => unreachable!(),
    }
}

/// Whether a clause writes.
pub(crate) fn writes(clause: &Value) -> bool
    ensures { result ≡ writes (view clause.now) }
{
    match clause {
        Value::Array(items) => writes_in(items),
        _ => false,
    }
}

#[tactic(auto, using(crate::proofs::ClauseLemmas::words))]
fn writes_in(items: &[Value]) -> bool
    ensures { result ≡ writes (array (items_view items.now)) }
{
    if items.len() != 2 {
        return false;
    }
    match items {
        [tag, _] => !(is_word(tag, "in") || is_word(tag, "red")),
        _ => unreachable!(),
    }
}

/// Whether a section is that of an iterator, whose length is a difference.
pub(crate) fn is_iterated(section: &Value) -> bool
    ensures { result ≡ is_iterated (view section.now) }
{
    match section {
        Value::Array(items) => is_iterated_in(items),
        _ => false,
    }
}

#[tactic(auto, using(crate::proofs::ClauseLemmas::iterated))]
fn is_iterated_in(items: &[Value]) -> bool
    ensures { result ≡ is_iterated (array (items_view items.now)) }
{
    if items.len() != 3 {
        return false;
    }
    match items {
        [_, _, length] => is_difference(length),
        _ => unreachable!(),
    }
}

/// Whether a size is a difference: that of a section where an iterator names its cells.
pub fn is_difference(size: &Value) -> bool
    ensures { result ≡ is_difference (view size.now) }
{
    match size {
        Value::Array(items) => is_difference_in(items),
        _ => false,
    }
}

#[tactic(auto, using(crate::proofs::ClauseLemmas::differences))]
fn is_difference_in(items: &[Value]) -> bool
    ensures { result ≡ is_difference (array (items_view items.now)) }
{
    if items.len() != 3 {
        return false;
    }
    match items {
        [tag, _, _] => is_word(tag, "-"),
        _ => unreachable!(),
    }
}

ghost use Rattle.ot_why_place.specs.Spots.{trail_bindings};
ghost use Rattle.ot_program.specs.Meanings.{section};

/// What a section denotes over these arrays, in these turns.
pub(crate) fn section_of(
    names: &Names<'_>,
    part: &Value,
    trail: &Trail<'_, '_>,
) -> Result<Section, AllocError>
    ensures { IfOk result (λ denoted. denoted ≡ section (over names.now) (trail_bindings trail.now) (view part.now)) }
{
    match part {
        Value::Array(items) => section_in(names, items, trail),
        _ => Ok(NOWHERE),
    }
}

const NOWHERE: Section = Section {
    array: 0,
    start: 0,
    len: 0,
};

#[tactic(auto, using(crate::proofs::ClauseLemmas::sections))]
fn section_in(
    names: &Names<'_>,
    items: &[Value],
    trail: &Trail<'_, '_>,
) -> Result<Section, AllocError>
    ensures { IfOk result (λ denoted. denoted ≡ section (over names.now) (trail_bindings trail.now) (array (items_view items.now))) }
{
    if items.len() != 3 {
        return Ok(NOWHERE);
    }
    match items {
        [name, start, len] => Ok(Section {
            array: names.position(letters(name))?,
            start: short(size_of(start, trail))?,
            len: short(size_of(len, trail))?,
        }),
        _ => unreachable!(),
    }
}

/// A number of 32 bits. Programs that were read have no others.
pub(crate) fn short(number: u64) -> Result<u32, AllocError>
    ensures { IfOk result (λ same. same ≡ number) }
{
    match u32::try_from(number) {
        Ok(same) => Ok(same),
        Err(_) => Err(AllocError),
    }
}
