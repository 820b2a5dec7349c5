ghost use Rattle.std.specs.Prelude.{◌≡◌};
ghost use Rattle.std.specs.List.{list_any};
ghost use Rattle.ot_model.specs.View.{expr_of};
ghost use Rattle.ot_model.specs.Tree.{cells_of, cells_named};
ghost use Rattle.ot_model.specs.Names.{FitsShape, IsInShape, ValueNamedIn};
ghost use Rattle.ot_model.specs.declared.stmt.Mode.TheVariants.{Reads};
ghost use Rattle.ot_check.specs.Offences.{Touch, use_as};
ghost use Rattle.ot_check.specs.Discipline.{may_break};
ghost use Rattle.ot_check.specs.walk.States.{Whatever, lens_of};

use crate::fault::Offence;
use crate::standing::Standing;
use ot_model::{Cell, Expr, Mode, Section, Use};

/// Whether the reading of a value is this offence.
pub(crate) fn value_breaks(expr: &Expr, standing: &Standing, offence: Offence) -> bool
    requires { ValueNamedIn (lens_of standing.now) (expr_of expr.now) }
    ensures { Whatever standing.now (λ own opened children. result ≡ list_any (λ c. may_break own opened children (Touch (use_as Reads c)) offence) (cells_named (expr_of expr.now))) }
{
    match expr {
        Expr::Number(_) => false,
        Expr::Cell(cell) => read_breaks(*cell, standing, offence),
        Expr::Op(_, one, two) => {
            value_breaks(one, standing, offence) || value_breaks(two, standing, offence)
        }
        Expr::Pick(section, chosen) => {
            section_breaks(*section, standing, offence) || value_breaks(chosen, standing, offence)
        }
    }
}

/// Whether the reading of any cell of a section is this offence.
fn section_breaks(section: Section, standing: &Standing, offence: Offence) -> bool
    requires { FitsShape (lens_of standing.now) section }
    ensures { Whatever standing.now (λ own opened children. result ≡ list_any (λ c. may_break own opened children (Touch (use_as Reads c)) offence) (cells_of section)) }
{
    for place in 0..section.len {
        let cell = Cell {
            array: section.array,
            index: section.start + place,
        };
        if read_breaks(cell, standing, offence) {
            return true;
        }
    }
    false
}

/// Whether the reading of a cell is this offence.
fn read_breaks(cell: Cell, standing: &Standing, offence: Offence) -> bool
    requires { IsInShape (lens_of standing.now) cell }
    ensures { Whatever standing.now (λ own opened children. result ≡ may_break own opened children (Touch (use_as Reads cell)) offence) }
{
    let used = Use {
        cell,
        mode: Mode::Reads,
    };
    standing.touch_breaks(used, offence)
}
