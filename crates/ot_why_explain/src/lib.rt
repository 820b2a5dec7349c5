//! Explains refusals: what a session writes, with remarks for people behind each refusal.
#![tactic(auto)]

mod explaining;
mod quiet;
mod remarks;
mod saying;
mod telling;

pub use explaining::{Explained, explain};
pub use quiet::explain_quietly;
pub use saying::{heading, remarks_on};
