//! The words that the program takes, as a command of `clap`.
ghost use Rattle.std.specs.Prelude.{◌≡◌, IfOk, false};
ghost use Rattle.clap.specs.Words.{app_of, shape_of};
ghost use Rattle.clap.specs.declared.builder.command.Command.TheViews.{out-Command as fields_of};
ghost use Rattle.omptaskd.specs.Grammar.{program_words, serve_words, sim_words, solo_words};

use clap::Command;
use ot_commands::{names_arg, number_arg, socket_arg, with_subcommand};
use std::alloc::{AllocError, Global};

/// What `--version` prints behind the program's name.
const VERSION: &str = "0.1.0";

/// How many workers, and how many sessions, there may be.
pub(crate) const MAX_THREADS: u32 = 16;

/// After how many connections a server may end.
pub(crate) const MAX_CONNECTIONS: u32 = 1_000_000;

/// What the lines of `sim` are.
const SIM_HELP: &str = "\
Lines, and what each is answered:
  tenant T            `tenant T`; tenants come before all other lines, at most 64
  admit T REQUEST     `asked T`, or `full T`; the request is all behind the second space
  open T              `T REPLY` where it is answered at once, else `T job`
  start W T PICK      `start W T task K`; of the claimable tasks the one at PICK modulo their count
  finish W            `finish W units U`, or `finish W failed`
  reply T             `T REPLY`
  abort T             `abort T`
  drain               `T REPLY` for each reply that it gave, then `drained`
  usage T             `usage T UNITS of TOTAL`
An event that isn't enabled is answered `notnow`, any other line `badline`.
T is 1 to 16 of a-z, 0-9 and _, a letter first; W is 1 to 16; PICK is below 4294967296.";

/// How a client begins, and what is printed in the end.
const SERVE_HELP: &str = "\
A NAME is 1 to 16 of a-z, 0-9 and _, a letter first; there are at most 64.
A client's first line is `[\"hello\",\"NAME\"]`. With --count the server prints in the end, for each
tenant in the order given, `usage NAME UNITS`, and then `total UNITS`.";

/// The program's command.
pub(crate) fn program_command<'a>(alloc: Global) -> Result<Command<'a>, AllocError>
    ensures { IfOk result (λ command. app_of command ≡ program_words) }
{
    let command = Command::new(alloc, "omptaskd")
        .about("A task server for many tenants")
        .version(VERSION)
        .subcommand_required(true)
        .subcommand(solo_command(alloc))?
        .subcommand(sim_command(alloc))?;
    with_subcommand(command, serve_command(alloc))
}

fn solo_command<'a>(alloc: Global) -> Command<'a>
    ensures words { shape_of result ≡ solo_words }
    ensures own { (fields_of result).has_globals ≡ false }
{
    Command::new(alloc, "solo").about("Serve one tenant over standard input and output")
}

fn sim_command<'a>(alloc: Global) -> Command<'a>
    ensures words { shape_of result ≡ sim_words }
    ensures own { (fields_of result).has_globals ≡ false }
{
    Command::new(alloc, "sim")
        .about("Move a world of tenants by the lines of standard input")
        .after_help(SIM_HELP)
}

fn serve_command<'a>(alloc: Global) -> Result<Command<'a>, AllocError>
    ensures words { IfOk result (λ command. shape_of command ≡ serve_words) }
    ensures own { IfOk result (λ command. (fields_of command).has_globals ≡ false) }
{
    Command::new(alloc, "serve")
        .about("Serve tenants at a Unix socket")
        .after_help(SERVE_HELP)
        .arg(socket_arg(alloc, "Where the socket's file is to stand"))?
        .arg(number_arg(
            alloc,
            "workers",
            "N",
            MAX_THREADS,
            "How many workers run pieces of jobs, 1 to 16; 4 unless given",
        ))?
        .arg(number_arg(
            alloc,
            "sessions",
            "S",
            MAX_THREADS,
            "How many connections are served at a time, 1 to 16; 4 unless given",
        ))?
        .arg(number_arg(
            alloc,
            "count",
            "C",
            MAX_CONNECTIONS,
            "End after C connections, 1 to 1000000; without it the server goes on",
        ))?
        .arg(names_arg(alloc, "name", "NAME", "The tenants"))
}
