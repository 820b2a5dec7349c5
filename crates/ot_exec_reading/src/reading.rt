//! From a text to the machine's code.
use crate::beyond::beyond;
use crate::reason::{of_tokens, of_tree};
use ot_exec_code::Code;
use ot_exec_compile as code;
use ot_exec_compile::{Known, Why, meaning_of, translate};
use ot_exec_layout::Layouts;
use ot_exec_parse::{ParseError, unit_of};
use ot_exec_tokens::{Kind, Names, ReadError, Token, Whole, tokens_of};
use ot_exec_tree::{Storage, Unit};
use std::alloc::{AllocError, Global};

/// Code, and by form the token at which stands what it is made of.
#[derive(Drop)]
pub struct Placed {
    pub code: Code,
    pub sites: Vec<u32>,
}

/// A text that is read: its names, its tokens and its tree.
#[derive(Drop)]
pub struct Reading {
    pub names: Names,
    pub tokens: Vec<Token>,
    pub unit: Unit,
    pub layouts: Layouts,
    /// The names of functions without a body that are called.
    pub untouched: Vec<u32>,
    /// Whether teams are executed that may have more than two threads.
    pub has_team: bool,
    /// Whether letters are written, and of a string that a pointer leads to only the first one is touched.
    pub follows_letters: bool,
    /// The forms at which the threads of a team come to different barriers.
    pub apart: Vec<u32>,
    /// The forms that can't be executed because a function was called there whose constructs belong to a team.
    pub orphans: Vec<u32>,
    /// Whether it may be given numbers: by the words of a command, or by what it reads.
    pub is_given: bool,
}

impl Reading {
    /// The number of parameters of each function.
    pub fn parameters(&self, alloc: Global) -> Result<Vec<u32>, AllocError> {
        let mut counts = Vec::new(alloc);
        for function in &self.unit.functions {
            counts.push(u32::try_from(function.parameters.len()).unwrap_or(u32::MAX))?;
        }
        Ok(counts)
    }

    /// Of each variable, whether it lives as long as the program and nothing but the text writes it: a function without a body that
    /// is called may write any.
    pub fn closed(&self, alloc: Global) -> Result<Vec<bool>, AllocError> {
        let mut closed = Vec::new(alloc);
        for variable in &self.unit.variables {
            closed.push(self.untouched.is_empty() && variable.storage == Storage::Static)?;
        }
        Ok(closed)
    }
}

/// What a text is read as; or at which byte it isn't, and why.
#[derive(Drop)]
pub enum Read {
    Whole(Reading, Placed),
    Outside(usize, String),
}

/// The word that stands at a byte: a name, or one byte.
fn word_at(text: &[u8], byte: usize) -> &str {
    let rest = &text[byte.min(text.len())..];
    let len = rest
        .iter()
        .take_while(|b| b.is_ascii_alphanumeric() || **b == b'_')
        .count();
    let len = len.max(1).min(rest.len());
    match str::from_utf8(&rest[..len]) {
        Ok(word) => word,
        Err(_) => "?",
    }
}

/// The byte at which a token stands.
pub fn byte_of(tokens: &[Token], at: u32) -> usize {
    match tokens.get(at as usize) {
        Some(token) => token.at,
        None => 0,
    }
}

/// What is taken for what a run is given: how many words the command has, the program's name among them, and each number that a word or
/// an input is.
#[derive(Clone, Copy)]
pub struct Given {
    pub words: u32,
    pub number: u32,
}

/// A command without words behind its name. Of numbers that are read nothing is known.
const NO_WORDS: u32 = 1;

/// Functions that give a number which a string is.
const NUMBERS: [&str; 7] = [
    "atoi", "atol", "atoll", "strtol", "strtoul", "strtoll", "strtoull",
];

/// Functions that read numbers, and which of their arguments is the first that they write.
const SCANS: [(&str, u32); 3] = [("scanf", 1), ("fscanf", 2), ("sscanf", 2)];

/// What a function means that gives or reads numbers, where each is this one.
fn given_by(name: &str, number: u32) -> Option<Known> {
    if NUMBERS.iter().any(|one| *one == name) {
        return Some(Known::Number(number));
    }
    let scan = SCANS.iter().find(|scan| scan.0 == name)?;
    Some(Known::Scans(scan.1, number))
}

/// What each name means in the library, by its number, where this is given.
fn known_of(
    alloc: Global,
    names: &Names,
    given: Option<Given>,
) -> Result<Vec<Option<Known>>, AllocError> {
    let mut known = Vec::new(alloc);
    for number in 0..names.len() {
        let name = names.text(u32::try_from(number).unwrap_or(u32::MAX));
        let meaning = match given {
            Some(given) => given_by(name, given.number).or(meaning_of(name.as_bytes())),
            None => meaning_of(name.as_bytes()),
        };
        known.push(meaning)?;
    }
    Ok(known)
}

/// Whether a text may be given numbers: it reads some, or `main` has parameters.
fn is_given(names: &Names, unit: &Unit) -> bool {
    let has_words = unit.functions.iter().any(|function| names.text(function.name) == "main"
        && !function.parameters.is_empty());
    let mut reads = false;
    for number in 0..names.len() {
        let name = names.text(u32::try_from(number).unwrap_or(u32::MAX));
        reads = reads || given_by(name, 0).is_some();
    }
    has_words || reads
}

const TOO_MANY_FILES: &str = "more than 64 files are included";

/// Reads a text behind definitions of a command line. Where something is given, its run has that.
pub fn reading_of(
    alloc: Global,
    definitions: &[String],
    whole: &Whole,
    given: Option<Given>,
) -> Result<Read, AllocError> {
    match tokens_of(alloc, definitions, whole) {
        Ok(found) => tree_of(alloc, whole.text(), found.tokens, found.names, given),
        Err(ReadError::Wants(byte, _)) => {
            let words = String::from_str(alloc, TOO_MANY_FILES)?;
            Ok(Read::Outside(byte, words))
        }
        Err(ReadError::Memory) => Err(AllocError),
        Err(ReadError::Fault(fault)) => {
            let words = String::from_str(alloc, of_tokens(fault.why))?;
            Ok(Read::Outside(fault.at, words))
        }
    }
}

fn tree_of(
    alloc: Global,
    text: &[u8],
    tokens: Vec<Token>,
    names: Names,
    given: Option<Given>,
) -> Result<Read, AllocError> {
    let read = tokens.as_slice().to_vec(alloc)?;
    match unit_of(alloc, read) {
        Ok(unit) => code_of(alloc, tokens, names, unit, given),
        Err(ParseError::Memory) => Err(AllocError),
        Err(ParseError::Fault(fault)) => {
            let byte = byte_of(&tokens, fault.at);
            let word = match tokens.get(fault.at as usize) {
                Some(token) => spelled(*token, text),
                None => "?",
            };
            Ok(Read::Outside(byte, of_tree(alloc, fault.why, word)?))
        }
    }
}

/// The word of a token.
fn spelled(token: Token, text: &[u8]) -> &str {
    match token.kind {
        Kind::End => "the end of the text",
        Kind::PragmaEnd => "the end of the line",
        _ => word_at(text, token.at),
    }
}

fn code_of(
    alloc: Global,
    tokens: Vec<Token>,
    names: Names,
    unit: Unit,
    given: Option<Given>,
) -> Result<Read, AllocError> {
    if let Some((byte, words)) = beyond(alloc, &tokens, &unit)? {
        return Ok(Read::Outside(byte, String::from_str(alloc, words)?));
    }
    let known = known_of(alloc, &names, given)?;
    let words = match given {
        Some(given) => given.words,
        None => NO_WORDS,
    };
    match translate(alloc, &unit, &known, words) {
        Ok(translated) => {
            let layouts = Layouts::of(alloc, &unit)?;
            let placed = Placed {
                code: translated.code,
                sites: translated.sites,
            };
            let is_given = is_given(&names, &unit);
            let reading = Reading {
                is_given,
                names,
                tokens,
                unit,
                layouts,
                untouched: translated.untouched,
                has_team: translated.has_team,
                follows_letters: translated.follows_letters,
                apart: translated.apart,
                orphans: translated.orphans,
            };
            Ok(Read::Whole(reading, placed))
        }
        Err(code::Fault::Memory) => Err(AllocError),
        Err(code::Fault::Refused(at, why)) => outside(alloc, byte_of(&tokens, at), why),
    }
}

fn outside(alloc: Global, byte: usize, why: Why) -> Result<Read, AllocError> {
    Ok(Read::Outside(byte, format!(in alloc; "{why}")?))
}
