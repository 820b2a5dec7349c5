//! A file of requests for people: JSON over many lines with comments, cut into its requests, and where a byte or an item
//! of it stands.
#![tactic(auto)]

mod comment;
mod item;
pub mod laws;
mod line;
mod nesting;
mod place;
mod position;
mod request;

pub use comment::blanked;
pub use item::offset_of;
pub use line::one_line;
pub use position::{Position, Positions, position_of};
pub use request::{Kind, Piece, next_piece};
