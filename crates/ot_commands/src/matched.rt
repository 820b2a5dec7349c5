//! What `clap` finds under the name of an argument.
ghost use Rattle.std.specs.Prelude.{◌≡◌, ◌≤◌, [], map, string_bytes, unwrap_or, IfOk, IfSome};
ghost use Rattle.clap.specs.Words.{all_of, first_of, found_of, one_of, rows_of};
ghost use Rattle.ot_commands.specs.Rules.{IsRead, IsSaid, within};

use clap::ArgMatches;
use std::alloc::{AllocError, Global};

/// The text of an argument, empty where there is none.
pub fn text(alloc: Global, matches: &ArgMatches<'_>, id: &str) -> Result<String, AllocError>
    ensures { IfOk result (λ text. string_bytes text ≡ unwrap_or (first_of id.now (rows_of (found_of matches.now))) []) }
{
    match matches.get_str(id) {
        Some(text) => String::from_str(alloc, text),
        None => Ok(String::new(alloc)),
    }
}

/// All texts of an argument, in order.
pub fn texts(alloc: Global, matches: &ArgMatches<'_>, id: &str) -> Result<Vec<String>, AllocError>
    ensures { IfOk result (λ texts. map string_bytes texts.items ≡ unwrap_or (all_of id.now (rows_of (found_of matches.now))) []) }
{
    match matches.get_strs(id) {
        Some(found) => copies(alloc, found),
        None => Ok(Vec::new(alloc)),
    }
}

fn copies(alloc: Global, texts: &[&str]) -> Result<Vec<String>, AllocError>
    ensures { IfOk result (λ copies. map string_bytes copies.items ≡ map (λ text. text.now) texts.now) }
{
    let mut copies = Vec::new(alloc);
    for text in texts {
        copies.push(String::from_str(alloc, text)?)?;
    }
    Ok(copies)
}

/// The number of an argument, from 1 to `most`.
pub fn number(matches: &ArgMatches<'_>, id: &str, most: u32) -> Option<u32>
    ensures read { IsRead most (one_of id.now (rows_of (found_of matches.now))) result }
    ensures range { IfSome result (λ n. (1 ≤ n) × (n ≤ most)) }
{
    within(most, matches.get_one::<u32>(id))
}

/// Whether a flag is said.
pub fn flag(matches: &ArgMatches<'_>, id: &str) -> bool
    ensures { IsSaid (one_of id.now (rows_of (found_of matches.now))) result }
{
    matches.get_flag(id)
}

fn within(most: u32, number: Option<u32>) -> Option<u32>
    ensures is { result ≡ within most number }
    ensures range { IfSome result (λ n. (1 ≤ n) × (n ≤ most)) }
{
    match number {
        Some(number) if 1 <= number && number <= most => Some(number),
        _ => None,
    }
}
