//! What a text means: a program of the language, or why it has none.
ghost use Rattle.std.specs.Prelude.{◌≡◌, length, IfOk, MatchResult};
ghost use Rattle.ot_c_files.specs.Program.{file_of};
ghost use Rattle.ot_c_text.specs.Reading.{Means, meaning_seen};
ghost use Rattle.ot_c_text.specs.Settling.{has_guards};
ghost use Rattle.ot_c_text.specs.Reading as meant;

use crate::reasons::{file_reason, program_reason, word_reason};
use crate::settling::settled;
use ot_c_files::{File, read_file};
use ot_c_program::{CFault, Lowered, lower};
use ot_c_statements::words_left;
use ot_c_words::{Words, words_of};
use std::alloc::{AllocError, Global};

/// What a text means.
#[derive(Drop)]
pub enum Meaning {
    Program(Lowered),
    /// At this byte stands what isn't read, and why.
    Outside(usize, &'static str),
}

/// What a text means.
pub fn meaning_of(alloc: Global, text: &[u8]) -> Result<Meaning, AllocError>
    ensures { IfOk result (λ meaning. Means text.now (meaning_seen meaning)) }
{
    match words_of(alloc, text) {
        Ok(words) => meaning_of_words(alloc, text.len(), &words),
        Err(ot_c_words::ReadError::Fault(fault)) => {
            Ok(Meaning::Outside(fault.start, word_reason(fault.wrong)))
        }
        Err(ot_c_words::ReadError::Memory) => Err(AllocError),
    }
}

/// What the words of a text of so many bytes mean.
fn meaning_of_words(alloc: Global, size: usize, words: &Words) -> Result<Meaning, AllocError>
    ensures { IfOk result (λ meaning. meaning_seen meaning ≡ meant.meaning_of_words words.now.names.keys words.now.starts.items size words.now.words.items) }
{
    match read_file(alloc, words.words.as_slice()) {
        Ok(file) => meaning_of_file(alloc, size, words, &file),
        Err(ot_c_statements::ReadError::Fault(fault)) => {
            let byte = byte_at(words.starts.as_slice(), size, words_left(fault));
            Ok(Meaning::Outside(byte, file_reason(fault)))
        }
        Err(ot_c_statements::ReadError::Memory) => Err(AllocError),
    }
}

/// What a file of so many bytes means that these words say.
fn meaning_of_file(
    alloc: Global,
    size: usize,
    words: &Words,
    file: &File,
) -> Result<Meaning, AllocError>
    ensures { IfOk result (λ meaning. meaning_seen meaning ≡ meant.meaning_of_file words.now.names.keys words.now.starts.items size (has_guards words.now.words.items) (file_of file.now)) }
{
    match lower(alloc, words, file) {
        Ok(lowered) => Ok(Meaning::Program(settled(alloc, words, file, lowered)?)),
        Err(CFault::Outside(left, reason)) => {
            let byte = byte_at(words.starts.as_slice(), size, left);
            Ok(Meaning::Outside(byte, program_reason(reason)))
        }
        Err(CFault::Memory) => Err(AllocError),
    }
}

/// The byte at which the word begins that so many words are left from, or the text's end.
fn byte_at(starts: &[usize], size: usize, left: usize) -> usize
    ensures { result ≡ meant.byte_at starts.now size left }
{
    match starts.get(starts.len().saturating_sub(left)) {
        Some(byte) => *byte,
        None => size,
    }
}
