ghost use Rattle.std.specs.Prelude.{◌^◌, ◌<◌, ℕ, All, IfSome, get_or};
ghost use Rattle.ot_model.specs.Cells.{cell_of};
ghost use Rattle.ot_model.specs.declared.expr.Cell.{Cell};

use ot_model::Cells;

/// Each stored number is below 2^64, as its type says. A caller that needs the law calls it: it does
/// nothing but go over the arrays.
pub(crate) fn numbers(cells: &Cells)
    ensures { (cell : Cell) → IfSome (cell_of cells.now cell) (λ stored. stored < 2 ^ 64) }
{
    numbers_in(cells.arrays());
}

fn numbers_in(arrays: &[Vec<u64>])
    ensures { All (λ array. (i : ℕ) → get_or array.items i 0 < 2 ^ 64) arrays.now }
{
    for array in arrays {
        numbers_of(array);
    }
}

fn numbers_of(array: &[u64])
    ensures { (i : ℕ) → get_or array.now i 0 < 2 ^ 64 }
{}
