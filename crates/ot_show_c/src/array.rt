//! The arrays of a program, as its C has them.
ghost use Rattle.std.specs.Prelude.{◌≡◌, ◌++◌, OnOk, IfOk, string_bytes};
ghost use Rattle.ot_model.specs.Programs.{arrays_of};
ghost use Rattle.ot_show_c.specs.Programs as written;
ghost use Rattle.ot_show_c.specs.Programs.{array_of};

use crate::value::constant;
use ot_c_names::name_in_c;
use ot_model::ArrayShape;
use ot_show_print::Printer;
use std::alloc::{AllocError, Global};

/// The arrays of a shape by their names in C: their own, behind `A_` where these are taken.
pub(crate) fn arrays_in_c(
    alloc: Global,
    arrays: &[ArrayShape],
) -> Result<Vec<ArrayShape>, AllocError>
    ensures { IfOk result (λ called. arrays_of called.items ≡ written.arrays_in_c (arrays_of arrays.now)) }
{
    let mut called = Vec::with_capacity(alloc, arrays.len())?;
    for array in arrays {
        let name = name_in_c(alloc, array.name.as_str())?;
        called.push(ArrayShape {
            name,
            len: array.len,
        })?;
    }
    Ok(called)
}

/// The numbers without the zeros at the end.
fn up_to_last(numbers: &[u64]) -> &[u64]
    ensures { result.now ≡ written.up_to_last numbers.now }
{
    let mut len = numbers.len();
    while len > 0 && numbers[len - 1] == 0 {
        len -= 1;
    }
    &numbers[..len]
}

/// `static uint64_t a[3] = {1, 2, 3};`, without the zeros at the end. It is static, as a stack may be small.
pub(crate) fn declaration(
    out: &mut Printer<'_>,
    margin: &str,
    array: &ArrayShape,
    numbers: &[u64],
) -> Result<(), AllocError>
    ensures text { OnOk result (out.new.text ≡ out.old.text ++ written.declaration margin.now (written.c_declared (array_of array.now) numbers.now)) }
    ensures names { out.new.names ≡ out.old.names }
{
    out.words(margin)?;
    out.words("static uint64_t ")?;
    sized(out, array.name.as_str(), array.len)?;
    initial(out, up_to_last(numbers))?;
    out.words(";\n")
}

/// `a[3]`.
fn sized(out: &mut Printer<'_>, name: &str, len: u32) -> Result<(), AllocError>
    ensures text { OnOk result (out.new.text ≡ out.old.text ++ written.word_sized name.now len) }
    ensures names { out.new.names ≡ out.old.names }
{
    out.words(name)?;
    out.words("[")?;
    out.number(u64::from(len))?;
    out.words("]")
}

/// What an array begins with, if there is anything but zeros.
fn initial(out: &mut Printer<'_>, numbers: &[u64]) -> Result<(), AllocError>
    ensures text { OnOk result (out.new.text ≡ out.old.text ++ written.initial numbers.now) }
    ensures names { out.new.names ≡ out.old.names }
{
    if numbers.is_empty() {
        return Ok(());
    }
    out.words(" = {")?;
    constant(out, numbers[0])?;
    for number in &numbers[1..] {
        out.words(", ")?;
        constant(out, *number)?;
    }
    out.words("}")
}
