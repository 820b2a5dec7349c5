//! The words of a text.
ghost use Rattle.std.specs.Prelude.{◌≡◌, ◌≤◌, ◌<◌, [], ◌∷◌, ◌++◌, length, get_or, map, None, Ok, IfOk, OnOk, MatchResult};
ghost use Rattle.std.specs.Str.{IsAscii};
ghost use Rattle.ot_c_words.specs.Names.{known_of};
ghost use Rattle.ot_c_words.specs.Pieces.{AsciiIfName};
ghost use Rattle.ot_c_words.specs.Reading.{Fails};
ghost use Rattle.ot_c_words.specs.Words.{word_of_name, words_spoken, end_of, words_in, name_spoken, texts, all_spoken, IsBelow, AreBelow, AreNames, Continues};
ghost use Rattle.ot_c_words.specs.Words as meant;

use crate::fault::{Fault, ReadError};
use crate::known::known_word;
use crate::piece::{Line, Piece, front};
use crate::word::{Name, Word};
use indexmap::IndexSet;
use std::alloc::{AllocError, Global};

/// The words of a text.
#[derive(Drop)]
pub struct Words {
    pub words: Vec<Word>,
    /// At which byte each begins.
    pub starts: Vec<usize>,
    /// The names that mean nothing by themselves, each once, in the order in which they come.
    pub names: IndexSet<String>,
}

fn in_directive(on: Line) -> bool
    ensures { result ≡ meant.in_directive on }
{
    matches!(on, Line::Directive)
}

/// What stands on the line behind a piece.
#[tactic(auto, unfolding(crate::specs::Words::on_line_behind))]
fn behind(on: Line, piece: Piece) -> Line
    ensures { result ≡ meant.on_line_behind on piece }
{
    match piece {
        Piece::Nothing => on,
        Piece::Feed => Line::Fresh,
        Piece::Include | Piece::Define | Piece::Pragma => Line::Directive,
        _ => {
            if in_directive(on) {
                Line::Directive
            } else {
                Line::Inside
            }
        }
    }
}

/// The number of a name among others, behind which it is put where it is new.
fn number_of(names: &mut IndexSet<String>, alloc: Global, name: &str) -> Result<usize, AllocError>
    requires names { AreNames names.old.keys }
    requires free { known_of name.now ≡ None }
    ensures found { IfOk result (λ i. get_or (texts names.new.keys) i [] ≡ name.now) }
    ensures within { IfOk result (λ i. i < length names.new.keys) }
    ensures kept { OnOk result (Continues names.old.keys names.new.keys) }
    ensures names { OnOk result (AreNames names.new.keys) }
{
    if let Some(number) = names.get_index_of(name) {
        return Ok(number);
    }
    let (number, _) = names.insert_full(String::from_str(alloc, name)?)?;
    Ok(number)
}

/// A name: what it means, or its number among the others.
#[tactic(auto, unfolding(crate::specs::Words::word_of_name))]
fn name_of(names: &mut IndexSet<String>, alloc: Global, name: &[u8]) -> Result<Name, AllocError>
    requires names { AreNames names.old.keys }
    requires ascii { IsAscii name.now }
    ensures value { IfOk result (λ n. name_spoken (texts names.new.keys) n ≡ word_of_name name.now) }
    ensures below { IfOk result (λ n. IsBelow (length names.new.keys) (Word.Name n)) }
    ensures kept { OnOk result (Continues names.old.keys names.new.keys) }
    ensures names { OnOk result (AreNames names.new.keys) }
{
    if let Some(known) = known_word(name) {
        return Ok(Name::Known(known));
    }
    let Ok(text) = str::from_utf8(name) else {
        unreachable!()
    };
    let number = number_of(names, alloc, text)?;
    Ok(Name::Other(number))
}

impl Words {
    fn new(alloc: Global) -> Words
        ensures words { result.words.items ≡ [] }
        ensures starts { result.starts.items ≡ [] }
        ensures none { result.names.keys ≡ [] }
        ensures names { AreNames result.names.keys }
    {
        Words {
            words: Vec::new(alloc),
            starts: Vec::new(alloc),
            names: IndexSet::new(alloc),
        }
    }

    /// Puts a word behind the others.
    fn put(&mut self, word: Word, start: usize) -> Result<(), AllocError>
        ensures words { OnOk result (self.new.words.items ≡ self.old.words.items ++ word ∷ []) }
        ensures starts { OnOk result (self.new.starts.items ≡ self.old.starts.items ++ start ∷ []) }
        ensures names { self.new.names.keys ≡ self.old.names.keys }
    {
        self.words.push(word)?;
        self.starts.push(start)?;
        Ok(())
    }

    /// Puts a name behind the words.
    fn put_name(&mut self, alloc: Global, name: &[u8], start: usize) -> Result<(), AllocError>
        requires ascii { IsAscii name.now }
        requires names { AreNames self.old.names.keys }
        requires below { AreBelow (length self.old.names.keys) self.old.words.items }
        ensures words { OnOk result (all_spoken self.new.names.keys self.new.words.items ≡ all_spoken self.old.names.keys self.old.words.items ++ word_of_name name.now ∷ []) }
        ensures starts { OnOk result (self.new.starts.items ≡ self.old.starts.items ++ start ∷ []) }
        ensures below { OnOk result (AreBelow (length self.new.names.keys) self.new.words.items) }
        ensures names { OnOk result (AreNames self.new.names.keys) }
    {
        let name = name_of(&mut self.names, alloc, name)?;
        self.put(Word::Name(name), start)
    }

    /// Puts the word behind the others that a piece of these bytes is, if it is any.
    #[tactic(auto, using(crate::proofs::WordLemmas::spoken_push, crate::proofs::WordLemmas::below_push, crate::proofs::WordLemmas::names_same), unfolding(crate::specs::Words::words_spoken))]
    fn put_piece(
        &mut self,
        alloc: Global,
        on: Line,
        piece: Piece,
        start: usize,
        bytes: &[u8],
    ) -> Result<(), AllocError>
        requires ascii { AsciiIfName piece bytes.now }
        requires names { AreNames self.old.names.keys }
        requires below { AreBelow (length self.old.names.keys) self.old.words.items }
        ensures words { OnOk result (all_spoken self.new.names.keys self.new.words.items ≡ all_spoken self.old.names.keys self.old.words.items ++ words_spoken on bytes.now piece) }
        ensures starts { OnOk result (self.new.starts.items ≡ self.old.starts.items ++ map (λ w. start) (words_spoken on bytes.now piece)) }
        ensures below { OnOk result (AreBelow (length self.new.names.keys) self.new.words.items) }
        ensures names { OnOk result (AreNames self.new.names.keys) }
    {
        match piece {
            Piece::Nothing => Ok(()),
            Piece::Feed => self.put_end(on, start),
            Piece::Number(value, kind) => self.put(Word::Number(value, kind), start),
            Piece::Name => self.put_name(alloc, bytes, start),
            Piece::Text => self.put(Word::Text, start),
            Piece::Letter(letter) => self.put(Word::Letter(letter), start),
            Piece::Mark(mark) => self.put(Word::Mark(mark), start),
            Piece::Include => self.put(Word::Include, start),
            Piece::Define => self.put(Word::Define, start),
            Piece::Pragma => self.put(Word::Pragma, start),
        }
    }

    /// Puts the end of a directive behind the others, where a line has one.
    #[tactic(auto, using(crate::proofs::WordLemmas::spoken_push, crate::proofs::WordLemmas::below_push, crate::proofs::WordLemmas::names_same))]
    fn put_end(&mut self, on: Line, start: usize) -> Result<(), AllocError>
        requires names { AreNames self.old.names.keys }
        requires below { AreBelow (length self.old.names.keys) self.old.words.items }
        ensures words { OnOk result (all_spoken self.new.names.keys self.new.words.items ≡ all_spoken self.old.names.keys self.old.words.items ++ end_of on) }
        ensures starts { OnOk result (self.new.starts.items ≡ self.old.starts.items ++ map (λ w. start) (end_of on)) }
        ensures below { OnOk result (AreBelow (length self.new.names.keys) self.new.words.items) }
        ensures names { OnOk result (AreNames self.new.names.keys) }
    {
        if in_directive(on) {
            self.put(Word::End, start)
        } else {
            Ok(())
        }
    }
}

/// The words of a text, or its first fault.
pub fn words_of(alloc: Global, text: &[u8]) -> Result<Words, ReadError<Fault>>
    ensures words { MatchResult result (λ r. words_in text.now ≡ Ok (r.starts.items, all_spoken r.names.keys r.words.items)) (λ e. Fails e (words_in text.now)) }
    ensures below { IfOk result (λ r. AreBelow (length r.names.keys) r.words.items) }
    ensures names { IfOk result (λ r. AreNames r.names.keys) }
{
    let mut words = Words::new(alloc);
    let mut on = Line::Fresh;
    let mut at = 0;
    while at < text.len() {
        let rest = &text[at..];
        let (piece, len) = match front(on, rest) {
            Ok(found) => found,
            Err(wrong) => return Err(ReadError::Fault(Fault { wrong, start: at })),
        };
        words.put_piece(alloc, on, piece, at, &rest[..len])?;
        on = behind(on, piece);
        at += len;
    }
    words.put_end(on, at)?;
    Ok(words)
}
