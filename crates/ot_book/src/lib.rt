//! A tenant's book: its arrays, its requests in order and what it was told of each.
#![tactic(auto)]

pub mod book;
pub mod code;
pub mod executor;
mod kept;
pub mod laws;
mod named;
mod reading;
pub mod reply;
mod request;
mod shelf;
mod step;
pub mod told;

pub use book::{Book, Entry, Opened};
pub use code::Code;
pub use executor::{Executor, NotDone, Solo};
pub use reading::{read_arrays, read_line, read_name, read_numbers, read_size};
pub use reply::{Reply, reply_text, write_numbers};
pub use step::is_checkpoint;
pub use told::Told;
