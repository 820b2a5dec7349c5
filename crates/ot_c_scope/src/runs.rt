//! Which cells an index may name.
ghost use Rattle.std.specs.Prelude.{◌≡◌};
ghost use Rattle.ot_c_expressions.specs.Tree.{expr_of};
ghost use Rattle.ot_c_scope.specs.Results.{GivesAs};
ghost use Rattle.ot_c_scope.specs.Runs as runs;

use crate::constants::constant;
use crate::fault::CFault;
use crate::reason::Reason;
use crate::scope::Scope;
use ot_c_expressions::{Expr, Sign};
use ot_c_words::{IntegerType, Name};

/// So many cells from a place on, where both are known.
pub fn run_by(
    first: Option<(u64, IntegerType)>,
    count: Option<(u64, IntegerType)>,
) -> Option<(u64, u64)>
    ensures { result ≡ runs.run_by first count }
{
    let (first, _) = first?;
    let (count, _) = count?;
    Some((first, count))
}

/// Which cells of an array an index may name: one, or those of which one is picked.
#[tactic(auto, unfolding(crate::specs::Runs::index_run))]
pub fn run(scope: &Scope<'_>, index: &Expr) -> Option<(u64, u64)>
    ensures { result ≡ runs.index_run scope.now (expr_of index.now) }
{
    match index {
        Expr::Op(_, Sign::Rest, _, count) => {
            run_by(Some((0, IntegerType::Int)), constant(scope, count))
        }
        Expr::Op(_, Sign::Plus, first, more) => match &**more {
            Expr::Op(_, Sign::Rest, _, count) => {
                run_by(constant(scope, first), constant(scope, count))
            }
            _ => run_by(constant(scope, index), Some((1, IntegerType::Int))),
        },
        _ => run_by(constant(scope, index), Some((1, IntegerType::Int))),
    }
}

/// No open group combines, by a pointer, over a cell that an index may name of an array whose name stands where so many words are left.
pub fn untouched(scope: &Scope<'_>, left: usize, array: Name, index: &Expr) -> Result<(), CFault>
    ensures { GivesAs (λ x. x) result (runs.is_run_untouched scope.now left array (expr_of index.now)) }
{
    if scope.is_pointed(array, run(scope, index)) {
        Err(CFault::Outside(left, Reason::Combined))
    } else {
        Ok(())
    }
}
