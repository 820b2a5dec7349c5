//! What values read on any way.
ghost use Rattle.std.specs.Prelude.{◌≡◌, ◌++◌, map, OnOk, ◌≤◌, ◌<◌, ◌+◌, ◌^◌, ℕ, List};
ghost use Rattle.ot_model.specs.View.{expr_of};
ghost use Rattle.ot_model.specs.Tree.{cells_of};
ghost use Rattle.ot_model.specs.Names.{ValueNamedIn};
ghost use Rattle.ot_model.specs.declared.stmt.Mode.TheVariants.{Reads};
ghost use Rattle.ot_check.specs.Offences.{use_as};
ghost use Rattle.ot_race_ways.specs.Known.{choices, may_read};

use crate::known::known_number;
use ot_model::{Cell, Expr, Mode, Section, Use};
use ot_race::note;
use std::alloc::AllocError;

/// Notes each cell that a value may read, in the order in which they are named. It fails only where memory is wanting.
pub fn note_reads(expr: &Expr, uses: &mut Vec<Use>) -> Result<(), AllocError>
    requires { (lens : List ℕ) × ValueNamedIn lens (expr_of expr.now) }
    ensures { OnOk result (uses.new.items ≡ uses.old.items ++ map (use_as Reads) (may_read (expr_of expr.now))) }
{
    match expr {
        Expr::Number(_) => Ok(()),
        Expr::Cell(cell) => note(*cell, Mode::Reads, uses),
        Expr::Op(_, one, two) => {
            note_reads(one, uses)?;
            note_reads(two, uses)
        }
        Expr::Pick(section, chosen) => {
            note_choices(*section, known_number(chosen), uses)?;
            note_reads(chosen, uses)
        }
    }
}

/// Notes each cell that a pick may choose, whose value is known or isn't.
fn note_choices(
    section: Section,
    chosen: Option<u64>,
    uses: &mut Vec<Use>,
) -> Result<(), AllocError>
    requires short { section.start + section.len ≤ 2 ^ 32 }
    requires some { 0 < section.len }
    ensures { OnOk result (uses.new.items ≡ uses.old.items ++ map (use_as Reads) (choices section chosen)) }
{
    match chosen {
        Some(number) => {
            let step = (number % u64::from(section.len)) as u32;
            note(cell_of(section, step), Mode::Reads, uses)
        }
        None => note_section(section, uses),
    }
}

fn note_section(section: Section, uses: &mut Vec<Use>) -> Result<(), AllocError>
    requires { section.start + section.len ≤ 2 ^ 32 }
    ensures { OnOk result (uses.new.items ≡ uses.old.items ++ map (use_as Reads) (cells_of section)) }
{
    for step in 0..section.len {
        note(cell_of(section, step), Mode::Reads, uses)?;
    }
    Ok(())
}

ghost use Rattle.ot_model.specs.Tree.{cell_at};

/// The cell of a section that has so many before it.
fn cell_of(section: Section, step: u32) -> Cell
    requires { section.start + step < 2 ^ 32 }
    ensures { result ≡ cell_at section step }
{
    Cell {
        array: section.array,
        index: section.start + step,
    }
}
