//! Types of C as x86-64 lays them out: their cells and bytes, their conversions, and constants.
#![tactic(auto)]

mod constant;
mod extent;
mod layouts;
mod sort;
mod typing;
mod unions;

pub use constant::{Constant, compares, meeting, operation_of};
pub use extent::Extent;
pub use layouts::{Layouts, Place};
pub use sort::{Base, Class, Sort, bytes, fits, kind_of, promoted, usual};
pub use typing::{chosen, joined, sort_of, type_of};
pub use unions::is_uneven;
