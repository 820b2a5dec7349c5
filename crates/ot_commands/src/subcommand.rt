//! Subcommands of a command of `clap`.
ghost use Rattle.std.specs.Prelude.{IfOk, IsOkAnd};
ghost use Rattle.clap.specs.Words.{AddsSubcommand};

use clap::Command;
use std::alloc::AllocError;

/// The command with one subcommand more, where that could be made. It takes what making it came to, so that the caller has no
/// `?` with a command beside it that would be dropped there: each such costs a proof of its own, and this function has the one.
pub fn with_subcommand<'a>(
    command: Command<'a>,
    made: Result<Command<'a>, AllocError>,
) -> Result<Command<'a>, AllocError>
    ensures { IfOk result (λ added. IsOkAnd made.entry (λ subcommand. AddsSubcommand command.entry subcommand added)) }
{
    let subcommand = made?;
    command.subcommand(subcommand)
}
