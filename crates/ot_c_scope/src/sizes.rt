//! Sizes: places in arrays, and bounds of loops.
ghost use Rattle.std.specs.Prelude.{◌≡◌, option_map};
ghost use Rattle.serde_json.specs.View.{view};
ghost use Rattle.ot_c_expressions.specs.Tree.{expr_of};
ghost use Rattle.ot_c_scope.specs.Results.{GivesAs};
ghost use Rattle.ot_c_scope.specs.Sizes as sizes;

use crate::constants::{both, constant};
use crate::fault::CFault;
use crate::json::form2;
use crate::kind::joined;
use crate::reason::Reason;
use crate::scope::{Scope, Sense};
use ot_c_expressions::{Expr, Sign};
use ot_c_words::{IntegerType, Name};
use serde_json::Value;
use std::alloc::Global;

/// Why a name is no number here.
pub fn no_number(sense: Sense) -> Reason
    ensures { result ≡ sizes.no_number sense }
{
    match sense {
        Sense::Nothing | Sense::Constant(_, _) | Sense::Turn(_) => Reason::Unknown,
        Sense::Begins => Reason::OwnBound,
        Sense::Cells(_, Some(_)) => Reason::WholeArray,
        Sense::Cells(_, None) => Reason::NoSize,
        Sense::Combined(_, _, _) => Reason::Combined,
        Sense::Pointer(_, _) => Reason::Pointer,
        Sense::Function(_) => Reason::Function,
    }
}

fn named(
    alloc: Global,
    scope: &Scope<'_>,
    left: usize,
    name: Name,
) -> Result<(Value, IntegerType), CFault>
    ensures { GivesAs (λ x. (view x.0, x.1)) result (sizes.name_size scope.now left name) }
{
    match scope.sense(name) {
        Sense::Constant(number, kind) => Ok((Value::from(number), kind)),
        Sense::Turn(kind) => Ok((scope.named(alloc, name)?, kind)),
        other => Err(CFault::Outside(left, no_number(other))),
    }
}

/// The word of an operation of sizes.
fn size_word(sign: Sign) -> Option<&'static str>
    ensures { option_map (λ w. w.now) result ≡ sizes.size_word sign }
{
    match sign {
        Sign::Plus => Some("+"),
        Sign::Minus => Some("-"),
        Sign::Times => Some("*"),
        Sign::Or | Sign::Xor | Sign::And | Sign::Equal | Sign::Less | Sign::Rest => None,
        Sign::Either | Sign::Both | Sign::Unequal | Sign::More | Sign::AtMost => None,
        Sign::AtLeast | Sign::ShiftLeft | Sign::ShiftRight | Sign::Over => None,
    }
}

/// The number of a constant.
fn known(left: usize, number: Option<(u64, IntegerType)>) -> Result<(Value, IntegerType), CFault>
    ensures { GivesAs (λ x. (view x.0, x.1)) result (sizes.size_known left number) }
{
    match number {
        Some((number, kind)) => Ok((Value::from(number), kind)),
        None => Err(CFault::Outside(left, Reason::NoSize)),
    }
}

/// A size, with the type that it has in C. In the language each part of it is exact, so where it is none in C that its
/// type holds it is refused there.
#[tactic(auto, unfolding(crate::specs::Sizes::size))]
pub fn size(alloc: Global, scope: &Scope<'_>, expr: &Expr) -> Result<(Value, IntegerType), CFault>
    ensures { GivesAs (λ x. (view x.0, x.1)) result (sizes.size scope.now (expr_of expr.now)) }
{
    match expr {
        Expr::Number(_, number, kind) => Ok((Value::from(*number), *kind)),
        Expr::Variable(left, name) => named(alloc, scope, *left, *name),
        Expr::Cell(left, _, _) | Expr::Unary(left, _, _) => {
            Err(CFault::Outside(*left, Reason::NoSize))
        }
        Expr::Cast(value) => {
            let (value, _) = size(alloc, scope, value)?;
            Ok((value, IntegerType::UnsignedLong))
        }
        Expr::Call(left, _, _, _) | Expr::Choice(left, _, _, _) => {
            Err(CFault::Outside(*left, Reason::NoSize))
        }
        Expr::Op(left, sign, one, two) => {
            let Some(word) = size_word(*sign) else {
                return known(
                    *left,
                    both(*sign, constant(scope, one), constant(scope, two)),
                );
            };
            let (one, one_kind) = size(alloc, scope, one)?;
            let (two, two_kind) = size(alloc, scope, two)?;
            Ok((form2(alloc, word, one, two)?, joined(one_kind, two_kind)))
        }
    }
}
