ghost use Rattle.std.specs.Prelude.{◌≡◌, ◌++◌, ◌∷◌, [], map, IfOk, OnOk};
ghost use Rattle.ot_model.specs.View.{expr_of};
ghost use Rattle.ot_parts.specs.Assigns.{assign_of, assigns_of};
ghost use Rattle.ot_parts.specs.Steps.{assign_deeds, both_deeds, deed_of, deeds_of, value_deeds};

use crate::assign::Assign;
use crate::step::Step;
use ot_model::{Cell, Expr, Op, Section, Use};
use std::alloc::{AllocError, Global};

/// The steps by which these sets and folds are made over cells that are lent as these uses say.
pub(crate) fn steps_of(
    alloc: Global,
    list: &[Assign],
    uses: &[Use],
) -> Result<Vec<Step>, AllocError>
    ensures { IfOk result (λ steps. map deed_of steps.items ≡ deeds_of (assigns_of list.now)) }
{
    let mut steps = Vec::new(alloc);
    for assign in list {
        write_steps(alloc, &mut steps, assign, uses)?;
    }
    Ok(steps)
}

/// Puts the steps of a set or a fold behind others.
fn write_steps(
    alloc: Global,
    steps: &mut Vec<Step>,
    assign: &Assign,
    uses: &[Use],
) -> Result<(), AllocError>
    ensures { OnOk result (map deed_of steps.new.items ≡ map deed_of steps.old.items ++ assign_deeds (assign_of assign.now)) }
{
    let (value, last) = match assign {
        Assign::Set(cell, value) => (value, Step::Set(place_of(uses, *cell), *cell)),
        Assign::Fold(op, cell, value) => (value, Step::Fold(*op, place_of(uses, *cell), *cell)),
    };
    let value = value_steps(alloc, value, uses)?;
    steps.extend_from_slice(&value)?;
    steps.push(last)?;
    Ok(())
}

/// The steps of a value. Of two operands the one with more steps comes first: so no value needs more than 64
/// numbers on the stack, and each step is moved as often as its operand's length doubles.
fn value_steps(alloc: Global, value: &Expr, uses: &[Use]) -> Result<Vec<Step>, AllocError>
    ensures { IfOk result (λ steps. map deed_of steps.items ≡ value_deeds (expr_of value.now)) }
{
    match value {
        Expr::Number(n) => alone(alloc, Step::Number(*n)),
        Expr::Cell(cell) => alone(alloc, Step::Cell(place_of(uses, *cell), *cell)),
        Expr::Pick(section, chosen) => {
            let chosen = value_steps(alloc, chosen, uses)?;
            chain(
                chosen,
                &[],
                Step::Pick(place_of(uses, first_cell(*section)), *section),
            )
        }
        Expr::Op(op, one, two) => {
            let one = value_steps(alloc, one, uses)?;
            let two = value_steps(alloc, two, uses)?;
            both(*op, one, two)
        }
    }
}

/// The steps of two operands, and the operation behind them.
fn both(op: Op, one: Vec<Step>, two: Vec<Step>) -> Result<Vec<Step>, AllocError>
    ensures { IfOk result (λ steps. map deed_of steps.items ≡ both_deeds op (map deed_of one.items) (map deed_of two.items)) }
{
    if one.len() < two.len() {
        chain(two, &one, Step::Swapped(op))
    } else {
        chain(one, &two, Step::Op(op))
    }
}

/// Steps, then others, and then a last one.
fn chain(first: Vec<Step>, more: &[Step], last: Step) -> Result<Vec<Step>, AllocError>
    ensures { IfOk result (λ steps. steps.items ≡ (first.items ++ more.now) ++ last ∷ []) }
{
    let mut steps = first;
    steps.extend_from_slice(more)?;
    steps.push(last)?;
    Ok(steps)
}

/// A step alone.
fn alone(alloc: Global, step: Step) -> Result<Vec<Step>, AllocError>
    ensures { IfOk result (λ steps. steps.items ≡ step ∷ []) }
{
    let mut steps = Vec::new(alloc);
    steps.push(step)?;
    Ok(steps)
}

/// The first cell of a section.
fn first_cell(section: Section) -> Cell
    ensures { result ≡ record { array = section.array; index = section.start } }
{
    Cell {
        array: section.array,
        index: section.start,
    }
}

/// How many of the cells that are used come before this one: its place among them, if it is one of them. It halves the list.
fn place_of(uses: &[Use], cell: Cell) -> u32 {
    let place = uses.partition_point(|used| used.cell.is_before(cell));
    u32::try_from(place).unwrap_or(u32::MAX)
}
