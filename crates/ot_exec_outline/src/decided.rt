//! What an `if` takes.
ghost use Rattle.std.specs.Prelude.{◌≡◌};
ghost use Rattle.ot_model.specs.View.{expr_of};
ghost use Rattle.ot_exec_outline.specs.Followed.{branch_decided, list_answer};

use ot_model::Expr;
use ot_race_ways::known_number;

/// Whether an `if` takes its first body: a condition that names no cell has its value, any other the answer of its choice.
pub(crate) fn decided(answers: &[bool], choice: u32, expr: &Expr) -> bool
    ensures { result ≡ branch_decided (list_answer answers.now) choice (expr_of expr.now) }
{
    match known_number(expr) {
        Some(number) => number != 0,
        None => answered(answers, choice),
    }
}

/// The answer of a choice.
pub(crate) fn answered(answers: &[bool], choice: u32) -> bool
    ensures { result ≡ list_answer answers.now choice }
{
    match answers.get(choice as usize) {
        Some(answer) => *answer,
        None => false,
    }
}
