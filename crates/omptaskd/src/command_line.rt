//! The command line.
ghost use Rattle.std.specs.Prelude.{◌≡◌, ℕ, List, [], ◌∷◌, map, codes, IfOk};
ghost use Rattle.clap.specs.Words.{FailsBy, app_of, fault_of, found_of, rows_of, subcommand_of, subcommand_rows_of};
ghost use Rattle.ot_serve.specs.Serving as serving;
ghost use Rattle.omptaskd.specs.Asked.{AsksFor, HasNumbersInRange, Means, AsksToServe};
ghost use Rattle.omptaskd.specs.Grammar.{program_words};

use crate::asked::Words;
use crate::commands::{MAX_CONNECTIONS, MAX_THREADS, program_command};
use clap::{ArgMatches, Error};
use ot_commands::{number, text, texts};
use ot_serve::Serve;
use std::alloc::{AllocError, Global};

/// How many workers and sessions there are where none are asked for.
const USUAL_THREADS: u32 = 4;

/// Reads the words of a command line, of which the first is the program's name.
pub fn words(alloc: Global, given: &[&str]) -> Result<Words, Error>
    // It fails exactly where `clap` gives no matches of these words, by the kind that `clap` gives them,
    // or for want of memory.
    ensures kinds { FailsBy (fault_of program_words (map (λ word. word.now) given.now)) result }

    // What is asked for is told by the subcommand that `clap` enters, and what it finds behind it.
    ensures asked { IfOk result (AsksFor (subcommand_of program_words (map (λ word. word.now) given.now))) }

    // The numbers of a server are in their ranges.
    ensures range { IfOk result HasNumbersInRange }

    ensures solo { (name : List ℕ)
        → map (λ word. word.now) given.now ≡ name ∷ codes "solo" ∷ []
        → Means Words.Solo result }

    ensures sim { (name : List ℕ)
        → map (λ word. word.now) given.now ≡ name ∷ codes "sim" ∷ []
        → Means Words.Sim result }
{
    let matches = program_command(alloc)?.try_get_matches_from(given)?;
    Ok(asked_for(alloc, &matches)?)
}

/// What the matches ask for.
fn asked_for(alloc: Global, matches: &ArgMatches<'_>) -> Result<Words, AllocError>
    ensures asked { IfOk result (AsksFor (subcommand_rows_of matches.now)) }
    ensures range { IfOk result HasNumbersInRange }
{
    if let Some(found) = matches.subcommand_matches("serve") {
        let server = serve_of(alloc, found)?;
        return Ok(Words::Serve(server));
    }
    if matches.subcommand_matches("sim").is_some() {
        return Ok(Words::Sim);
    }
    Ok(Words::Solo)
}

/// The server that is asked for.
fn serve_of(alloc: Global, found: &ArgMatches<'_>) -> Result<Serve, AllocError>
    ensures serves { IfOk result (AsksToServe (rows_of (found_of found.now))) }
    ensures range { IfOk result serving.IsInRange }
{
    Ok(Serve {
        socket: text(alloc, found, "socket")?,
        workers: number(found, "workers", MAX_THREADS).unwrap_or(USUAL_THREADS),
        sessions: number(found, "sessions", MAX_THREADS).unwrap_or(USUAL_THREADS),
        count: number(found, "count", MAX_CONNECTIONS),
        names: texts(alloc, found, "name")?,
    })
}
