ghost use Rattle.std.specs.Prelude.{◌≡◌};
ghost use Rattle.ot_model.specs.Cells.{AreInOrder, mode_in};

use crate::expr::Cell;
use crate::stmt::{Mode, Use};

/// The mode in which a declaration has a cell. It halves the list until it knows.
pub(crate) fn mode_in(uses: &[Use], cell: Cell) -> Option<Mode>
    requires { AreInOrder uses.now }
    ensures { result ≡ mode_in uses.now cell }
{
    let mut low = 0;
    let mut high = uses.len();
    while low < high {
        let middle = low + (high - low) / 2;
        let used = uses[middle];
        if used.cell.is_before(cell) {
            low = middle + 1;
        } else if cell.is_before(used.cell) {
            high = middle;
        } else {
            return Some(used.mode);
        }
    }
    None
}
