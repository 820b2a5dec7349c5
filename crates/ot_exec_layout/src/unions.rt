//! Unions (ISO C11, section 6.7.2.1). Where all members are scalars of one size, they are one cell. Else each member has cells of its own, and
//! behind them there is one for each byte.
use crate::layouts::members;
use crate::sort::{Class, Sort, bytes};
use ot_exec_tree::Unit;

/// The bytes of a scalar; none of another type.
fn bytes_of(unit: &Unit, kind: u32) -> Option<u32> {
    match Sort::of(unit, kind).class(unit) {
        Class::Integer(integer) => Some(bytes(integer)),
        Class::Real(bytes) => Some(bytes),
        Class::Pointer => Some(8),
        _ => None,
    }
}

/// Whether all members of a record are scalars of one size.
pub(crate) fn is_even(unit: &Unit, record: u32) -> bool {
    let mut found = None;
    for member in members(unit, record) {
        let own = bytes_of(unit, member.kind);
        if own.is_none() || (found.is_some() && own != found) {
            return false;
        }
        found = own;
    }
    true
}

/// Whether it is a union whose members aren't scalars of one size.
pub fn is_uneven(unit: &Unit, record: u32) -> bool {
    match unit.records.get(record as usize) {
        Some(found) => found.is_union && !is_even(unit, record),
        None => false,
    }
}
