ghost use Rattle.std.specs.Prelude.{◌≡◌, IsSome, ◌<◌, ◌≤◌, ◌+◌, ◌^◌, length, unwrap_or};
ghost use Rattle.ot_model.specs.declared.expr.Cell.{Cell};
ghost use Rattle.ot_owner.specs.Lending.{value_at, lease_of, MayChange};
ghost use Rattle.ot_parts.specs.Steps.{deed_of, Join, JoinBack, Choose, Write, WriteJoined};
ghost use Rattle.ot_job_task.specs.Assigns.{CanAssign};
ghost use Rattle.ot_job_task.specs.Copies.{copies_assigned, Look};
ghost use Rattle.ot_job_task.specs.Deeds.{stack_behind, copies_changed, CanDo};
ghost use Rattle.ot_model.specs.Tree.{applied};

use crate::stack::Stack;
use ot_model::{Cell, Fold, Monoid, Op, Section};
use ot_owner::Lent;
use ot_parts::{Assigns, Step};

/// Makes the assignments on lent copies, step by step. It takes no memory.
pub fn assign_all(assigns: &Assigns, lent: &mut Lent)
    requires can { CanAssign assigns.now lent.old }
    ensures lease { lease_of lent.new ≡ lease_of lent.old }
    ensures made { (c : Cell) → value_at lent.new c ≡ copies_assigned assigns.now (value_at lent.old) c }
    ensures there { (c : Cell) → IsSome (value_at lent.old c) → IsSome (value_at lent.new c) }
{
    let mut stack = Stack::new();
    let steps = assigns.steps();
    for step in steps {
        make(*step, &mut stack, lent);
    }
}

/// Makes one step.
fn make(step: Step, stack: &mut Stack, lent: &mut Lent)
    requires { CanDo lent.old (length stack.old) (deed_of step) }
    ensures lease { lease_of lent.new ≡ lease_of lent.old }
    ensures stacked { stack.new ≡ stack_behind (deed_of step) (value_at lent.old) stack.old }
    ensures changed { (c : Cell) → value_at lent.new c ≡ copies_changed (deed_of step) stack.old (value_at lent.old) c }
{
    match step {
        Step::Number(number) => stack.push(number),
        Step::Cell(near, cell) => stack.push(number_at(lent, near as usize, cell)),
        Step::Pick(near, section) => pick(stack, lent, near, section),
        Step::Op(op) => join(stack, op),
        Step::Swapped(op) => join_back(stack, op),
        Step::Set(near, cell) => write(stack, lent, near, cell),
        Step::Fold(op, near, cell) => write_joined(stack, lent, op, near, cell),
    }
}

/// The cell's number, 0 where it isn't lent.
fn number_at(lent: &Lent, near: usize, cell: Cell) -> u64
    ensures { result ≡ unwrap_or (value_at lent.now cell) 0 }
{
    match lent.value_near(near, cell) {
        Some(number) => number,
        None => 0,
    }
}

/// Puts in place of the number on top that of the section's cell which it picks.
fn pick(stack: &mut Stack, lent: &Lent, near: u32, section: Section)
    requires some { 0 < length stack.old }
    requires chosen { 0 < section.len }
    requires fits { section.start + section.len ≤ 2 ^ 32 }
    ensures { stack.new ≡ stack_behind (Choose section) (value_at lent.now) stack.old }
{
    let place = (stack.pop() % u64::from(section.len)) as u32;
    let cell = Cell {
        array: section.array,
        index: section.start + place,
    };
    stack.push(number_at(lent, near as usize + place as usize, cell));
}

/// Joins the two numbers on top, of which the upper one is the second operand.
fn join(stack: &mut Stack, op: Op)
    requires { 1 < length stack.old }
    ensures { (look : Look) → stack.new ≡ stack_behind (Join op) look stack.old }
{
    let two = stack.pop();
    let one = stack.pop();
    stack.push(apply(op, one, two));
}

/// The same, where the upper one is the first operand.
fn join_back(stack: &mut Stack, op: Op)
    requires { 1 < length stack.old }
    ensures { (look : Look) → stack.new ≡ stack_behind (JoinBack op) look stack.old }
{
    let one = stack.pop();
    let two = stack.pop();
    stack.push(apply(op, one, two));
}

/// Writes the number on top to a cell.
fn write(stack: &mut Stack, lent: &mut Lent, near: u32, cell: Cell)
    requires some { 0 < length stack.old }
    requires may { MayChange lent.old cell }
    ensures lease { lease_of lent.new ≡ lease_of lent.old }
    ensures stacked { stack.new ≡ stack_behind (Write cell) (value_at lent.old) stack.old }
    ensures changed { (c : Cell) → value_at lent.new c ≡ copies_changed (Write cell) stack.old (value_at lent.old) c }
{
    let number = stack.pop();
    let Some(_) = lent.value_near(near as usize, cell) else {
        unreachable!()
    };
    lent.set(near as usize, cell, number);
}

/// Joins a cell with the number on top.
fn write_joined(stack: &mut Stack, lent: &mut Lent, op: Fold, near: u32, cell: Cell)
    requires some { 0 < length stack.old }
    requires may { MayChange lent.old cell }
    ensures lease { lease_of lent.new ≡ lease_of lent.old }
    ensures stacked { stack.new ≡ stack_behind (WriteJoined op cell) (value_at lent.old) stack.old }
    ensures changed { (c : Cell) → value_at lent.new c ≡ copies_changed (WriteJoined op cell) stack.old (value_at lent.old) c }
{
    let number = stack.pop();
    let Some(before) = lent.value_near(near as usize, cell) else {
        unreachable!()
    };
    lent.set(near as usize, cell, op.join(before, number));
}

/// What the operation makes of two numbers.
fn apply(op: Op, one: u64, two: u64) -> u64
    ensures { result ≡ applied op one two }
{
    match op {
        Op::Plus => one.wrapping_add(two),
        Op::Minus => one.wrapping_sub(two),
        Op::Times => one.wrapping_mul(two),
        Op::And => one & two,
        Op::Or => one | two,
        Op::Xor => one ^ two,
        Op::Less => u64::from(one < two),
        Op::Equal => u64::from(one == two),
        Op::Min => one.min(two),
        Op::Max => one.max(two),
    }
}
