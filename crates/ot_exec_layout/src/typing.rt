//! Types of expressions.
use crate::constant::{compares, meeting};
use crate::layouts::Layouts;
use crate::sort::{Base, Class, Sort, promoted, usual};
use ot_exec_tree::{Binary, Expr, Integer, Sign, Storage, Unit, Variable};

/// The type of what an operation gives on two values.
pub fn joined(unit: &Unit, sign: Binary, one: Sort, other: Sort) -> Option<Sort> {
    if compares(sign) || matches!(sign, Binary::Both | Binary::Either) {
        return Some(Sort::INT);
    }
    match (one.class(unit), other.class(unit)) {
        (Class::Integer(one), Class::Integer(other)) => {
            Some(Sort::integer(meeting(sign, one, other)))
        }
        (Class::Real(one), Class::Real(other)) => Some(real(one.max(other))),
        (Class::Real(bytes), Class::Integer(_)) | (Class::Integer(_), Class::Real(bytes)) => {
            Some(real(bytes))
        }
        (Class::Pointer, Class::Pointer) => Some(Sort::integer(Integer::Long)),
        (Class::Pointer, _) => Some(one),
        (_, Class::Pointer) => Some(other),
        _ => None,
    }
}

fn real(bytes: u32) -> Sort {
    Sort {
        stars: 0,
        base: Base::Real(bytes),
    }
}

/// Whether it is a pointer to nothing that is known.
fn is_any(unit: &Unit, sort: Sort) -> bool {
    match sort.target(unit) {
        Some(target) => target == Sort::VOID,
        None => false,
    }
}

/// The type of `test ? one : other`.
pub fn chosen(unit: &Unit, one: Sort, other: Sort) -> Sort {
    match (one.class(unit), other.class(unit)) {
        (Class::Integer(a), Class::Integer(b)) => Sort::integer(usual(a, b)),
        (Class::Real(a), Class::Real(b)) => real(a.max(b)),
        (Class::Real(_), Class::Integer(_)) => one,
        (Class::Integer(_), Class::Real(_)) => other,
        (Class::Pointer, Class::Pointer) => { if is_any(unit, one) { other } else { one } }
        (_, Class::Pointer) => other,
        _ => one,
    }
}

/// The type of an operand with a sign before it.
fn signed(unit: &Unit, sign: Sign, one: Sort) -> Option<Sort> {
    match sign {
        Sign::Not => Some(Sort::INT),
        Sign::Address => Some(one.pointer()),
        // (of a function it is the function: ISO C11, section 6.5.3.2)
        Sign::Follow => match one.class(unit) {
            Class::Function(_) => Some(one),
            _ => one.target(unit),
        },
        Sign::Plus | Sign::Minus | Sign::Complement => match one.class(unit) {
            Class::Integer(integer) => Some(Sort::integer(promoted(integer))),
            _ => Some(one),
        },
    }
}

fn member_of(layouts: &Layouts, unit: &Unit, sort: Sort, name: u32) -> Option<Sort> {
    match sort.class(unit) {
        Class::Record(record) => layouts.member(unit, record, name).map(|found| found.sort),
        _ => None,
    }
}

/// The type of a variable: a parameter has no array (ISO C11, section 6.7.6.3).
pub fn sort_of(unit: &Unit, variable: &Variable) -> Sort {
    let sort = Sort::of(unit, variable.kind);
    match variable.storage {
        Storage::Parameter => sort.decayed(unit),
        _ => sort,
    }
}

/// The type of an expression, of an array as it stands.
pub fn type_of(layouts: &Layouts, unit: &Unit, depth: u32, expr: &Expr) -> Option<Sort> {
    if depth == 0 {
        return None;
    }
    let depth = depth - 1;
    match expr {
        Expr::Number(_, _, integer) => Some(Sort::integer(*integer)),
        Expr::Real(_, bytes) => Some(real(*bytes)),
        Expr::Text(_, _) => Some(Sort::integer(Integer::Char).pointer()),
        Expr::Variable(_, variable) | Expr::Literal(_, variable, _) => unit
            .variables
            .get(*variable as usize)
            .map(|variable| sort_of(unit, variable)),
        Expr::Function(_, function) => unit
            .functions
            .get(*function as usize)
            .map(|function| Sort::of(unit, function.kind)),
        Expr::Enumerator(_, _) | Expr::Undeclared(_, _) => Some(Sort::INT),
        Expr::SizeOfType(_, _) | Expr::SizeOf(_, _) => Some(Sort::integer(Integer::UnsignedLong)),
        Expr::Cast(_, kind, _) | Expr::Kind(_, kind) => Some(Sort::of(unit, *kind)),
        Expr::StepBefore(_, _, one) | Expr::StepBehind(_, _, one) | Expr::Assign(_, _, one, _) => {
            type_of(layouts, unit, depth, one)
        }
        Expr::Comma(_, _, one) => type_of(layouts, unit, depth, one),
        Expr::Unary(_, sign, one) => {
            let Some(one) = type_of(layouts, unit, depth, one) else {
                return None;
            };
            signed(unit, *sign, one)
        }
        Expr::Binary(_, sign, one, other) => {
            let Some(one) = type_of(layouts, unit, depth, one) else {
                return None;
            };
            let Some(other) = type_of(layouts, unit, depth, other) else {
                return None;
            };
            joined(unit, *sign, one.decayed(unit), other.decayed(unit))
        }
        Expr::Choice(_, _, one, other) => {
            let Some(one) = type_of(layouts, unit, depth, one) else {
                return None;
            };
            let Some(other) = type_of(layouts, unit, depth, other) else {
                return None;
            };
            Some(chosen(unit, one.decayed(unit), other.decayed(unit)))
        }
        Expr::Index(_, one, other) => {
            let Some(array) = type_of(layouts, unit, depth, one) else {
                return None;
            };
            if let Some(element) = array.target(unit) {
                return Some(element);
            }
            let Some(array) = type_of(layouts, unit, depth, other) else {
                return None;
            };
            array.target(unit)
        }
        Expr::Section(_, one, _, _) => {
            let Some(array) = type_of(layouts, unit, depth, one) else {
                return None;
            };
            array.target(unit)
        }
        Expr::Member(_, one, name) => {
            let Some(whole) = type_of(layouts, unit, depth, one) else {
                return None;
            };
            member_of(layouts, unit, whole, *name)
        }
        Expr::Arrow(_, one, name) => {
            let Some(pointer) = type_of(layouts, unit, depth, one) else {
                return None;
            };
            let Some(whole) = pointer.target(unit) else {
                return None;
            };
            member_of(layouts, unit, whole, *name)
        }
        Expr::Call(_, function, _) => {
            let Some(function) = type_of(layouts, unit, depth, function) else {
                return None;
            };
            Some(function.given(unit).unwrap_or(Sort::INT))
        }
    }
}
