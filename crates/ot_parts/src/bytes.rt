ghost use Rattle.std.specs.Prelude.{◌≡◌, ◌↔◌, ◌++◌, ◌∷◌, [], ◌+◌, ◌<◌, ◌^◌, IsTrue, IfOk, OnOk};
ghost use Rattle.ot_model.specs.View.{expr_of};
ghost use Rattle.ot_model.specs.Code.{op_number};
ghost use Rattle.ot_model.specs.Cells.{number_of};
ghost use Rattle.ot_parts.specs.Assigns.{assign_of, assigns_of};
ghost use Rattle.ot_parts.specs.Bytes.{four_bytes, number_bytes, cell_bytes, value_bytes, assign_bytes, bytes_of};

use crate::assign::Assign;
use ot_model::{Cell, Expr, Fold, Op, Section};
use std::alloc::{AllocError, Global};

/// Numbers below this have two bytes, of which the first isn't 255.
const SHORT: u64 = 0xff00;

/// So many numbers have four bytes.
const HALF: u64 = 0x1_0000_0000;

/// The bytes of these sets and folds.
pub(crate) fn bytes_of(alloc: Global, list: &[Assign]) -> Result<Vec<u8>, AllocError>
    ensures { IfOk result (λ bytes. bytes.items ≡ bytes_of (assigns_of list.now)) }
{
    let mut bytes = Vec::new(alloc);
    for assign in list {
        write_assign(&mut bytes, assign)?;
    }
    Ok(bytes)
}

fn write_assign(bytes: &mut Vec<u8>, assign: &Assign) -> Result<(), AllocError>
    ensures { OnOk result (bytes.new.items ≡ bytes.old.items ++ assign_bytes (assign_of assign.now)) }
{
    match assign {
        Assign::Set(cell, value) => {
            bytes.push(0)?;
            write_cell(bytes, *cell)?;
            write_value(bytes, value)
        }
        Assign::Fold(op, cell, value) => {
            bytes.push(1 + fold_byte(*op))?;
            write_cell(bytes, *cell)?;
            write_value(bytes, value)
        }
    }
}

fn write_value(bytes: &mut Vec<u8>, value: &Expr) -> Result<(), AllocError>
    ensures { OnOk result (bytes.new.items ≡ bytes.old.items ++ value_bytes (expr_of value.now)) }
{
    match value {
        Expr::Number(n) => {
            bytes.push(0)?;
            write_number(bytes, *n)
        }
        Expr::Cell(cell) => {
            bytes.push(1)?;
            write_cell(bytes, *cell)
        }
        Expr::Pick(section, chosen) => {
            bytes.push(2)?;
            write_section(bytes, *section)?;
            write_value(bytes, chosen)
        }
        Expr::Op(op, one, two) => {
            bytes.push(3 + op_byte(*op))?;
            write_value(bytes, one)?;
            write_value(bytes, two)
        }
    }
}

fn write_cell(bytes: &mut Vec<u8>, cell: Cell) -> Result<(), AllocError>
    ensures { OnOk result (bytes.new.items ≡ bytes.old.items ++ cell_bytes cell) }
{
    write_number(bytes, u64::from(cell.array))?;
    write_number(bytes, u64::from(cell.index))
}

fn write_section(bytes: &mut Vec<u8>, section: Section) -> Result<(), AllocError>
    ensures { OnOk result (bytes.new.items ≡ bytes.old.items ++ (number_bytes section.array ++ (number_bytes section.start ++ number_bytes section.len))) }
{
    write_number(bytes, u64::from(section.array))?;
    write_number(bytes, u64::from(section.start))?;
    write_number(bytes, u64::from(section.len))
}

fn write_number(bytes: &mut Vec<u8>, number: u64) -> Result<(), AllocError>
    ensures { OnOk result (bytes.new.items ≡ bytes.old.items ++ number_bytes number) }
{
    if number < SHORT {
        bytes.push((number / 256) as u8)?;
        bytes.push((number % 256) as u8)?;
        return Ok(());
    }
    bytes.push(255)?;
    write_four(bytes, number % HALF)?;
    write_four(bytes, number / HALF)
}

fn write_four(bytes: &mut Vec<u8>, number: u64) -> Result<(), AllocError>
    requires { number < 2 ^ 32 }
    ensures { OnOk result (bytes.new.items ≡ bytes.old.items ++ four_bytes number) }
{
    bytes.push((number % 256) as u8)?;
    bytes.push((number / 256 % 256) as u8)?;
    bytes.push((number / 65536 % 256) as u8)?;
    bytes.push((number / 16777216) as u8)?;
    Ok(())
}

fn op_byte(op: Op) -> u8
    ensures is { result ≡ op_number op }
    ensures few { result < 10 }
{
    match op {
        Op::Plus => 0,
        Op::Minus => 1,
        Op::Times => 2,
        Op::And => 3,
        Op::Or => 4,
        Op::Xor => 5,
        Op::Less => 6,
        Op::Equal => 7,
        Op::Min => 8,
        Op::Max => 9,
    }
}

fn fold_byte(op: Fold) -> u8
    ensures is { result ≡ number_of op }
    ensures few { result < 7 }
{
    match op {
        Fold::Plus => 0,
        Fold::Times => 1,
        Fold::And => 2,
        Fold::Or => 3,
        Fold::Xor => 4,
        Fold::Min => 5,
        Fold::Max => 6,
    }
}

/// Whether two have the same bytes.
pub(crate) fn same_bytes(one: &[u8], two: &[u8]) -> bool
    ensures { IsTrue result ↔ one.now ≡ two.now }
{
    one == two
}
