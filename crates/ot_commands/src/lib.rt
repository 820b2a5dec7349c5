//! What the programs have in common where they start: closed descriptors are held, and a command line is read by `clap`.
#![tactic(auto)]

mod arguments;
mod matched;
mod standard;
mod subcommand;

pub use arguments::{flag_arg, names_arg, number_arg, socket_arg};
pub use matched::{flag, number, text, texts};
pub use standard::hold_standard;
pub use subcommand::with_subcommand;
