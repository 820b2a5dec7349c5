//! Where values begin.
ghost use Rattle.std.specs.Prelude.{◌≡◌};
ghost use Rattle.ot_c_expressions.specs.Tree as meant;
ghost use Rattle.ot_c_expressions.specs.Tree.{expr_of};

use crate::tree::Expr;

/// How many words are left where a value begins, its brackets and casts apart.
#[tactic(auto, unfolding(crate::specs::Tree::left_of))]
pub fn left_of(expr: &Expr) -> usize
    ensures { result ≡ meant.left_of (expr_of expr.now) }
{
    match expr {
        Expr::Number(left, _, _) | Expr::Variable(left, _) | Expr::Cell(left, _, _) => *left,
        Expr::Unary(left, _, _) | Expr::Call(left, _, _, _) => *left,
        Expr::Cast(value) => left_of(value),
        Expr::Op(_, _, one, _) => left_of(one),
        Expr::Choice(_, test, _, _) => left_of(test),
    }
}
