//! Rights over cells: which cells are out at this moment, in which mode and to which worker; the copies
//! that are lent with them; and the rows of private copies that workers keep while a group is open.
#![tactic(auto)]

mod groups;
pub mod laws;
pub mod lent;
mod numbers;
pub mod owners;
pub mod right;
mod rights;
pub mod room;
mod rows;
pub mod slip;
mod spare;

pub use lent::{Lent, LentCell};
pub use owners::Owners;
pub use right::{Right, RightRoom};
pub use room::Room;
pub use slip::Slip;
