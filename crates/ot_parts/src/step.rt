use ot_model::{Cell, Fold, Op, Section};

/// A step by which sets and folds are made, over a stack of numbers. Beside a cell stands the place at which it
/// is looked for first among the cells that are lent.
#[derive(Clone, Copy, Debug)]
pub enum Step {
    /// Puts the number on the stack.
    Number(u64),
    /// Puts the cell's number on the stack.
    Cell(u32, Cell),
    /// Takes the number on top, and puts that of the section's cell there which it picks. The place is that of
    /// the section's first cell.
    Pick(u32, Section),
    /// Takes two numbers, the second operand from the top, and puts there what the operation makes of them.
    Op(Op),
    /// The same, where the first operand is on top.
    Swapped(Op),
    /// Takes the number on top, and writes it to the cell.
    Set(u32, Cell),
    /// Takes the number on top, and joins the cell with it by the operation.
    Fold(Fold, u32, Cell),
}
