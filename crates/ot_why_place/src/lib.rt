//! Where the statements of programs stand in a line.
#![tactic(auto)]

mod place;
mod size;
mod text;
mod trail;
mod walk;

pub use place::{entry_of, place_of, value_at};
pub use size::{exact, sign_of, size_of};
pub use text::{Text, text_of};
pub use trail::{Place, Trail, Turn};
pub use walk::letters;
