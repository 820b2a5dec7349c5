//! A shape of two arrays.
use ot_model::{ArrayShape, Shape};
use std::alloc::{AllocError, Global};

/// An array `a` and an array `b` of so many cells, and a limit of task statements.
pub(crate) fn two_arrays(alloc: Global, a: u32, b: u32, tasks: u32) -> Result<Shape, AllocError> {
    let first = String::from_str(alloc, "a")?;
    let second = String::from_str(alloc, "b")?;
    let a = ArrayShape {
        name: first,
        len: a,
    };
    let b = ArrayShape {
        name: second,
        len: b,
    };
    let arrays = vec![in alloc; a, b]?;
    Ok(Shape::new(arrays, tasks))
}
