//! Arguments of a command of `clap`.
ghost use Rattle.std.specs.Prelude.{◌≡◌, ◌≤◌, false};
ghost use Rattle.clap.specs.Words.{rule_of};
ghost use Rattle.ot_commands.specs.Rules.{flag_rule, number_rule, socket_rule, names_rule};

use clap::builder::ValueParser;
use clap::{Arg, ArgAction};
use std::alloc::Global;

/// A flag, which is said by its name behind `--`.
pub fn flag_arg<'a>(alloc: Global, id: &'a str, help: &'a str) -> Arg<'a>
    ensures rule { rule_of result ≡ flag_rule id.now }
    ensures own { result.global ≡ false }
{
    Arg::new(alloc, id)
        .long(id)
        .action(ArgAction::SetTrue)
        .help(help)
}

/// A number from 1 to `most`, which may be given behind its name behind `--`.
pub fn number_arg<'a>(
    alloc: Global,
    id: &'a str,
    value_name: &'a str,
    most: u32,
    help: &'a str,
) -> Arg<'a>
    ensures rule { rule_of result ≡ number_rule id.now most }
    ensures own { result.global ≡ false }
{
    Arg::new(alloc, id)
        .long(id)
        .value_name(value_name)
        .value_parser(ValueParser::signed(1, i64::from(most)))
        .help(help)
}

/// The path of a socket, which has to be given behind `--socket`.
pub fn socket_arg<'a>(alloc: Global, help: &'a str) -> Arg<'a>
    ensures rule { rule_of result ≡ socket_rule }
    ensures own { result.global ≡ false }
{
    Arg::new(alloc, "socket")
        .long("socket")
        .value_name("PATH")
        .required(true)
        .help(help)
}

/// One word or more, which stand by themselves.
pub fn names_arg<'a>(alloc: Global, id: &'a str, value_name: &'a str, help: &'a str) -> Arg<'a>
    ensures rule { rule_of result ≡ names_rule id.now }
    ensures own { result.global ≡ false }
{
    Arg::new(alloc, id)
        .value_name(value_name)
        .num_args(1..)
        .required(true)
        .help(help)
}
