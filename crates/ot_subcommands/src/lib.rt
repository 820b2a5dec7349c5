//! The companion's command line: its subcommands, and what each asks for.
#![tactic(auto)]

pub mod asked;
mod command_line;
mod commands;

pub use asked::{Ask, Check, Manner, Words};
pub use command_line::words;
