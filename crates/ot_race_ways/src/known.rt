//! Values that name no cell.
ghost use Rattle.std.specs.Prelude.{◌≡◌, ◌==◌, not, true, false, ◌<◌, None};
ghost use Rattle.ot_model.specs.View.{expr_of};
ghost use Rattle.ot_model.specs.Tree.{val};
ghost use Rattle.ot_race_ways.specs.Known.{number_in_value, names_none};

use ot_model::{Cell, Expr, Look, value};

/// The number of a value that names no cell. Whatever cells hold, it is the same. Of any other value it is None.
pub fn known_number(expr: &Expr) -> Option<u64>
    ensures { result ≡ number_in_value (expr_of expr.now) }
{
    if names_none(expr) {
        Some(number_of(expr))
    } else {
        None
    }
}

/// Whether a value names no cell.
pub(crate) fn names_none(expr: &Expr) -> bool
    ensures { result ≡ names_none (expr_of expr.now) }
{
    match expr {
        Expr::Number(_) => true,
        Expr::Cell(_) | Expr::Pick(_, _) => false,
        Expr::Op(_, one, two) => names_none(one) && names_none(two),
    }
}

/// The number of a value that names no cell.
fn number_of(expr: &Expr) -> u64
    requires { names_none (expr_of expr.now) ≡ true }
    ensures { result ≡ val (λ cell. None) (expr_of expr.now) }
{
    value(expr, &Zeros)
}

/// Cells of which each holds 0.
struct Zeros;

impl Look for Zeros {
    ghost use Rattle.std.specs.Prelude.{Some};

    ghost found = { λ cells cell. Some 0 };

    fn at(&self, _cell: Cell) -> u64 {
        0
    }
}

ghost use Rattle.ot_race_ways.specs.Numbered.{takes_first, left_for_second};

/// Whether a way takes the first body of an `if`, through which there are so many: as the number of its condition says, where that is
/// known.
pub(crate) fn takes_first(decided: Option<u64>, way: u32, first: u32) -> bool
    ensures { result ≡ takes_first decided way first }
{
    match decided {
        Some(number) => number != 0,
        None => way < first,
    }
}

/// What is left of a way's number for the second body.
pub(crate) fn left_for_second(decided: Option<u64>, way: u32, first: u32) -> u32
    requires { takes_first decided way first ≡ false }
    ensures { result ≡ left_for_second decided way first }
{
    match decided {
        Some(_) => way,
        None => way - first,
    }
}

ghost use Rattle.std.specs.Prelude.{◌+◌, ◌^◌};
ghost use Rattle.ot_race_ways.specs.Ways.{ways_of_if};

/// How many ways go through an `if` with so many through its bodies.
pub(crate) fn ways_of_if(decided: Option<u64>, one: u32, two: u32) -> u32
    requires { one + two < 2 ^ 32 }
    ensures { result ≡ ways_of_if decided one two }
{
    match decided {
        Some(0) => two,
        Some(_) => one,
        None => one + two,
    }
}

ghost use Rattle.ot_race_ways.specs.Straight.{is_straight_if};

/// Whether an `if` is straight whose bodies are so, or aren't.
pub(crate) fn is_straight_if(decided: Option<u64>, first: bool, second: bool) -> bool
    ensures { result ≡ is_straight_if decided first second }
{
    match decided {
        Some(0) => second,
        Some(_) => first,
        None => false,
    }
}
