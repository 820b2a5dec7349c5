//! Tenants as files. A file is a session that makes a tenant's arrays again, up to its goodbye, and behind that, where
//! no server reads, a line with the number of the next request, the used units and a sum.
#![tactic(auto)]

mod answer;
mod array;
mod body;
mod clearing;
mod fault;
mod file;
mod note;
mod piece;
mod question;
mod restoring;
mod saving;
mod tenant;

pub use fault::KeepFault;
pub use restoring::{Restored, restore};
pub use saving::{Saved, save};
