//! What a machine that executes code has, and what is done to it: values, slots, objects, what happened, and what is open.
#![tactic(auto)]

mod clauses;
mod fault;
pub mod laws;
mod limits;
mod locks;
mod memory;
mod nest;
mod operating;
mod siblings;
mod slots;
mod trail;
mod value;

pub use clauses::{add_use, items_of, parts_of};
pub use fault::{Fault, Halt, Reason};
pub use limits::Limits;
pub use locks::{Lock, Locks};
pub use memory::{Memory, Object, Span};
pub use nest::{Frame, Group, Kept, Nest, Part};
pub use operating::{advanced, combined, converted, distance};
pub use siblings::{Siblings, mode_at, put_behind, turns};
pub use slots::Slots;
pub use trail::{Context, Entered, Row, Trail};
pub use value::{Value, is_unknown, number};
