//! The command line.
ghost use Rattle.std.specs.Prelude.{◌≡◌, map, IfOk};
ghost use Rattle.clap.specs.Words.{FailsBy, app_of, fault_of, found_of, rows_of, subcommand_of, subcommand_rows_of};
ghost use Rattle.ot_subcommands.specs.Asked.{AsksFor, AsksFiles, AsksLines, AsksManner, AsksServer};
ghost use Rattle.ot_subcommands.specs.Grammar.{program_words};

use crate::asked::{Ask, Check, Manner, Words};
use crate::commands::{MAX_CODE, program_command};
use clap::{ArgMatches, Error};
use ot_commands::{flag, number, text, texts};
use std::alloc::{AllocError, Global};

/// Reads the words of a command line, of which the first is the program's name.
pub fn words(alloc: Global, given: &[&str]) -> Result<Words, Error>
    // It fails exactly where `clap` gives no matches of these words, by the kind that `clap` gives them,
    // or for want of memory.
    ensures kinds { FailsBy (fault_of program_words (map (λ word. word.now) given.now)) result }

    // What is asked for is told by the subcommand that `clap` enters, and what it finds behind it.
    ensures asked { IfOk result (AsksFor (subcommand_of program_words (map (λ word. word.now) given.now))) }
{
    let matches = program_command(alloc)?.try_get_matches_from(given)?;
    Ok(asked_for(alloc, &matches)?)
}

/// What the matches ask for.
fn asked_for(alloc: Global, matches: &ArgMatches<'_>) -> Result<Words, AllocError>
    ensures { IfOk result (AsksFor (subcommand_rows_of matches.now)) }
{
    if let Some(found) = matches.subcommand_matches("ask") {
        let ask = ask_of(alloc, found)?;
        return Ok(Words::Ask(ask, manner_of(found)));
    }
    if let Some(found) = matches.subcommand_matches("save") {
        let ask = ask_of(alloc, found)?;
        return Ok(Words::Save(ask));
    }
    if let Some(found) = matches.subcommand_matches("restore") {
        let ask = ask_of(alloc, found)?;
        return Ok(Words::Restore(ask, flag(found, "replace")));
    }
    if let Some(found) = matches.subcommand_matches("explain") {
        return Ok(Words::Explain(number(found, "code", MAX_CODE), flag(found, "quiet")));
    }
    if let Some(found) = matches.subcommand_matches("graph") {
        return Ok(Words::Graph(text(alloc, found, "file")?));
    }
    if matches.subcommand_matches("c").is_some() {
        return Ok(Words::C);
    }
    if let Some(found) = matches.subcommand_matches("check") {
        let check = check_of(alloc, found)?;
        return Ok(Words::Check(check));
    }
    if let Some(found) = matches.subcommand_matches("lines") {
        let check = lines_of(alloc, found)?;
        return Ok(Words::Lines(check));
    }
    Ok(Words::Explain(None, false))
}

/// The tenant that is asked for.
fn ask_of(alloc: Global, found: &ArgMatches<'_>) -> Result<Ask, AllocError>
    ensures { IfOk result (AsksServer (rows_of (found_of found.now))) }
{
    Ok(Ask {
        socket: text(alloc, found, "socket")?,
        name: text(alloc, found, "name")?,
    })
}

/// How the session is to be held.
fn manner_of(found: &ArgMatches<'_>) -> Manner
    ensures { AsksManner (rows_of (found_of found.now)) result }
{
    Manner {
        stop: flag(found, "stop"),
        explain: flag(found, "explain"),
    }
}

/// The files that are to be judged.
fn check_of(alloc: Global, found: &ArgMatches<'_>) -> Result<Check, AllocError>
    ensures { IfOk result (AsksFiles (rows_of (found_of found.now))) }
{
    Ok(Check {
        defined: texts(alloc, found, "define")?,
        lines: flag(found, "lines"),
        quiet: flag(found, "quiet"),
        races_only: flag(found, "races-only"),
        format: text(alloc, found, "format")?,
        name: text(alloc, found, "name")?,
        files: texts(alloc, found, "file")?,
    })
}

/// The files that are to be written as lines.
fn lines_of(alloc: Global, found: &ArgMatches<'_>) -> Result<Check, AllocError>
    ensures { IfOk result (AsksLines (rows_of (found_of found.now))) }
{
    Ok(Check {
        defined: Vec::new(alloc),
        lines: true,
        quiet: true,
        races_only: false,
        format: String::new(alloc),
        name: text(alloc, found, "name")?,
        files: texts(alloc, found, "file")?,
    })
}
