ghost use Rattle.std.specs.Prelude.{◌≡◌, ◌↔◌, IsTrue, option_map};
ghost use Rattle.ot_model.specs.View.{expr_of};

use ot_model::Expr;

/// Whether two conditions are the same, or there is none.
pub fn same_test(one: Option<&Expr>, two: Option<&Expr>) -> bool
    ensures { IsTrue result ↔ option_map (λ e. expr_of e.now) one.entry ≡ option_map (λ e. expr_of e.now) two.entry }
{
    match (one, two) {
        (None, None) => true,
        (Some(one), Some(two)) => one.same_as(two),
        (_, _) => false,
    }
}
