//! Lines and directives (ISO C11, section 6.10).
use crate::condition::Test;
use crate::expand::MAX_DEPTH;
use crate::macros::Macro;
use crate::reader::Reader;
use ot_exec_lexemes::{Kind, Mark, Raw, RawKind, ReadError, Why, part, spelling, unquoted, word};
use std::alloc::{AllocError, Global};

/// An `#if` that is open.
#[derive(Clone, Copy)]
struct Open {
    /// Whether what stands here is read.
    is_on: bool,
    /// Whether one of its groups was, or the whole isn't.
    was_on: bool,
    at: usize,
}

/// Headers whose functions and types are known.
const HEADERS: [&str; 30] = [
    "stdio.h",
    "stdlib.h",
    "string.h",
    "assert.h",
    "unistd.h",
    "omp.h",
    "stdint.h",
    "inttypes.h",
    "math.h",
    "time.h",
    "sys/time.h",
    "stdbool.h",
    "stddef.h",
    "limits.h",
    "float.h",
    "errno.h",
    "ctype.h",
    "stdarg.h",
    "malloc.h",
    "alloca.h",
    "sys/types.h",
    "complex.h",
    "memory.h",
    "sched.h",
    "strings.h",
    "stdatomic.h",
    "getopt.h",
    "sys/stat.h",
    "sys/resource.h",
    "pthread.h",
];

fn is_among(names: &[&str], name: &[u8]) -> bool {
    names.iter().any(|known| known.as_bytes() == name)
}

/// Of how many tokens the line is made that begins with these.
fn line_len(raws: &[Raw]) -> usize {
    raws.iter()
        .skip(1)
        .take_while(|raw| !raw.is_first)
        .count()
        .saturating_add(1)
}

/// The name that a token is.
fn name_of(raw: Option<&Raw>) -> Option<u32> {
    match raw {
        Some(raw) => match raw.kind {
            RawKind::Name(name) => Some(name),
            _ => None,
        },
        None => None,
    }
}

/// Where a token stands.
fn at_of(raw: Option<&Raw>) -> usize {
    match raw {
        Some(raw) => raw.at,
        None => 0,
    }
}

/// The name that a directive wants here.
fn wanted(raw: Option<&Raw>, at: usize) -> Result<u32, ReadError> {
    match name_of(raw) {
        Some(name) => Ok(name),
        None => Err(ReadError::new(at, Why::NoName)),
    }
}

fn is_mark(raw: Option<&Raw>, mark: Mark) -> bool {
    match raw {
        Some(raw) => raw.kind == RawKind::Mark(mark),
        None => false,
    }
}

/// Whether all that is open is read.
fn is_on(open: &[Open]) -> bool {
    open.iter().all(|one| one.is_on)
}

impl Reader<'_> {
    /// Reads a text that has so many bytes before it: its tokens go behind the others. What it includes nests so deep at most.
    #[cycle(read)]
    pub(crate) fn read(&mut self, text: &[u8], from: usize, depth: u32) -> Result<(), ReadError> {
        let raws = self.raws(text, from)?;
        let mut open = Vec::new(self.alloc);
        let mut pending = Vec::new(self.alloc);
        for number in 0..raws.len() {
            if !raws[number].is_first {
                continue;
            }
            let rest = &raws[number..];
            let line = &rest[..line_len(rest).min(rest.len())];
            if is_mark(line.first(), Mark::Hash) {
                if let Some(part) = self.directive(line, &mut open, &mut pending)? {
                    let at = at_of(line.get(1));
                    self.read_part(part, at, depth)?;
                }
            } else if is_on(&open) {
                pending.extend_from_slice(line)?;
            }
        }
        self.flush(&mut pending)?;
        match open.last() {
            Some(one) => Err(ReadError::new(one.at, Why::Condition)),
            None => Ok(()),
        }
    }

    /// Reads a file that is included here, unless it is read once and was.
    #[cycle(read)]
    fn read_part(&mut self, part: usize, at: usize, depth: u32) -> Result<(), ReadError> {
        if self.once.contains(&part) {
            return Ok(());
        }
        let whole = self.whole;
        let text = whole.text_of(part);
        let cost = text.len().saturating_add(1);
        if depth == 0 || cost > self.bytes_left {
            return Err(ReadError::new(at, Why::Includes));
        }
        self.bytes_left -= cost;
        let outer = self.part;
        self.part = Some(part);
        self.read(text, whole.from_of(part), depth - 1)?;
        self.part = outer;
        Ok(())
    }

    /// Puts the tokens that wait behind the others, without macros.
    fn flush(&mut self, pending: &mut Vec<Raw>) -> Result<(), ReadError> {
        let raws = std::mem::replace(pending, Vec::new(self.alloc));
        let made = self.expand(&raws, MAX_DEPTH)?;
        let mut next = 0;
        for number in 0..made.len() {
            if number < next {
                continue;
            }
            let raw = made[number];
            if name_of(Some(&raw)) == Some(word::C_PRAGMA) {
                next = number.saturating_add(4);
                self.pragma_operator(&raw, made.get(number.saturating_add(2)))?;
            } else {
                self.put(&raw)?;
            }
        }
        Ok(())
    }

    /// `_Pragma("..")` (section 6.10.9).
    fn pragma_operator(&mut self, raw: &Raw, text: Option<&Raw>) -> Result<(), ReadError> {
        let Some(text) = text else {
            return Err(ReadError::new(raw.at, Why::Directive));
        };
        let bytes = unquoted(self.alloc, spelling(text, &self.names, &self.spelled))?;
        let mut line = self.raws(&bytes, 0)?;
        for one in line.iter_mut() {
            one.at = raw.at;
            one.origin = raw.origin;
        }
        self.pragma(raw, &line)
    }

    /// What stands behind `#pragma`.
    fn pragma(&mut self, raw: &Raw, line: &[Raw]) -> Result<(), ReadError> {
        match line {
            [first, rest @ ..] if name_of(Some(first)) == Some(word::OMP) => {
                let made = self.expand(rest, MAX_DEPTH)?;
                self.put_kind(Kind::Pragma, raw)?;
                for one in &made {
                    self.put(one)?;
                }
                self.put_kind(Kind::PragmaEnd, raw)
            }
            [first, ..] if name_of(Some(first)) == Some(word::ONCE) => self.reads_once(),
            _ => Ok(()),
        }
    }

    /// `#pragma once`: the file that is read isn't read again.
    fn reads_once(&mut self) -> Result<(), ReadError> {
        if let Some(part) = self.part {
            if !self.once.contains(&part) {
                self.once.push(part)?;
            }
        }
        Ok(())
    }

    /// A line that begins with `#`, and the file that is to be read behind it.
    fn directive(
        &mut self,
        line: &[Raw],
        open: &mut Vec<Open>,
        pending: &mut Vec<Raw>,
    ) -> Result<Option<usize>, ReadError> {
        let [hash, first, rest @ ..] = line else {
            return Ok(None);
        };
        let at = hash.at;
        match name_of(Some(first)) {
            Some(word::IF | word::IFDEF | word::IFNDEF | word::ELIF | word::ELSE | word::ENDIF) => {
                self.flush(pending)?;
                self.conditional(first, at, rest, open)?;
                Ok(None)
            }
            _ if !is_on(open) => Ok(None),
            Some(word::INCLUDE) => {
                self.flush(pending)?;
                self.include(first.at, rest)
            }
            Some(name) => {
                self.flush(pending)?;
                self.plain(name, first.at, hash, rest)?;
                Ok(None)
            }
            None => Err(ReadError::new(first.at, Why::Directive)),
        }
    }

    fn plain(&mut self, name: u32, at: usize, hash: &Raw, rest: &[Raw]) -> Result<(), ReadError> {
        match name {
            word::DEFINE => self.define(at, rest),
            word::UNDEF => {
                let _ = self.macros.remove(&wanted(rest.first(), at)?);
                Ok(())
            }
            word::PRAGMA => self.pragma(hash, rest),
            word::ERROR => Err(ReadError::new(at, Why::Error)),
            word::LINE | word::WARNING | word::IDENT => Ok(()),
            _ => Err(ReadError::new(at, Why::Directive)),
        }
    }

    /// `#include`: the file that is to be read, where it is no header that is known.
    fn include(&mut self, at: usize, rest: &[Raw]) -> Result<Option<usize>, ReadError> {
        let made = match name_of(rest.first()) {
            Some(_) => self.expand(rest, MAX_DEPTH)?,
            None => rest.to_vec(self.alloc)?,
        };
        let is_quoted = matches!(made.first(), Some(raw) if raw.kind == RawKind::Text);
        let count = if is_quoted { 1 } else { made.len() };
        let mut header = Vec::new(self.alloc);
        for raw in made.iter().take(count) {
            header.extend_from_slice(spelling(raw, &self.names, &self.spelled))?;
        }
        let name = part(&header, 1, header.len().saturating_sub(2));
        if is_quoted {
            if let Some(found) = self.beside(at, name)? {
                return Ok(Some(found));
            }
        }
        if is_among(&HEADERS, name) {
            return Ok(None);
        }
        let why = if is_quoted { Why::NoFile } else { Why::Header };
        Err(ReadError::new(at, why))
    }

    /// The file of this name beside the one that is read, if there is one.
    fn beside(&self, at: usize, name: &[u8]) -> Result<Option<usize>, ReadError> {
        let Some(reading) = self.part else {
            return Ok(None);
        };
        let Ok(name) = str::from_utf8(name) else {
            return Ok(None);
        };
        let path = self.whole.path_beside(self.alloc, reading, name)?;
        match self.whole.number_of(path.as_str()) {
            Some(found) if self.whole.has(found) => Ok(Some(found)),
            Some(_) => Ok(None),
            None => Err(ReadError::Wants(at, path)),
        }
    }

    /// `#define`
    fn define(&mut self, at: usize, rest: &[Raw]) -> Result<(), ReadError> {
        let name = wanted(rest.first(), at)?;
        let it = match rest {
            [_, second, behind @ ..] if is_mark(Some(second), Mark::Open) && !second.is_apart => {
                with_parameters(self.alloc, at, behind, self.part.is_some())?
            }
            [_, body @ ..] => Macro {
                parameters: None,
                takes_rest: false,
                body: body.to_vec(self.alloc)?,
                is_of_text: self.part.is_some(),
            },
            [] => return Ok(()),
        };
        let _ = self.macros.insert(name, it)?;
        Ok(())
    }

    /// `#if`, `#else` and their kin.
    fn conditional(
        &mut self,
        first: &Raw,
        at: usize,
        rest: &[Raw],
        open: &mut Vec<Open>,
    ) -> Result<(), ReadError> {
        match name_of(Some(first)) {
            Some(word::ENDIF) => match open.pop() {
                Some(_) => Ok(()),
                None => Err(ReadError::new(at, Why::Condition)),
            },
            Some(word::ELSE | word::ELIF) => {
                let Some(mut last) = open.pop() else {
                    return Err(ReadError::new(at, Why::Condition));
                };
                let is_else = name_of(Some(first)) == Some(word::ELSE);
                last.is_on = !last.was_on && (is_else || self.test(at, rest)?);
                last.was_on = last.was_on || last.is_on;
                open.push(last)?;
                Ok(())
            }
            name => {
                let is_outer = is_on(open);
                let holds = is_outer && self.condition(name, at, rest)?;
                open.push(Open {
                    is_on: holds,
                    was_on: holds || !is_outer,
                    at,
                })?;
                Ok(())
            }
        }
    }

    /// Whether what stands behind an `#if`, `#ifdef` or `#ifndef` is read.
    fn condition(&mut self, name: Option<u32>, at: usize, rest: &[Raw]) -> Result<bool, ReadError> {
        match name {
            Some(word::IFDEF) => Ok(self.macros.contains_key(&wanted(rest.first(), at)?)),
            Some(word::IFNDEF) => Ok(!self.macros.contains_key(&wanted(rest.first(), at)?)),
            _ => self.test(at, rest),
        }
    }

    fn test(&mut self, at: usize, rest: &[Raw]) -> Result<bool, ReadError> {
        let told = self.without_defined(rest)?;
        let made = self.expand(&told, MAX_DEPTH)?;
        let test = Test {
            raws: &made,
            names: &self.names,
            spelled: &self.spelled,
        };
        match test.holds() {
            Some(holds) => Ok(holds),
            None => Err(ReadError::new(at, Why::Test)),
        }
    }

    /// The tokens with a number in the place of each `defined NAME` or `defined(NAME)`.
    fn without_defined(&mut self, rest: &[Raw]) -> Result<Vec<Raw>, ReadError> {
        let mut made = Vec::new(self.alloc);
        let mut next = 0;
        for number in 0..rest.len() {
            if number < next {
                continue;
            }
            let raw = rest[number];
            if name_of(Some(&raw)) != Some(word::DEFINED) {
                made.push(raw)?;
                continue;
            }
            let is_closed = is_mark(rest.get(number.saturating_add(1)), Mark::Open);
            let place = number.saturating_add(if is_closed { 2 } else { 1 });
            let name = wanted(rest.get(place), raw.at)?;
            next = place.saturating_add(if is_closed { 2 } else { 1 });
            let digit = if self.macros.contains_key(&name) {
                b'1'
            } else {
                b'0'
            };
            made.push(Raw {
                kind: RawKind::Number,
                from: self.spelled.len(),
                len: 1,
                ..raw
            })?;
            self.spelled.push(digit)?;
        }
        Ok(made)
    }
}

/// A macro with parameters, from behind its bracket.
fn with_parameters(
    alloc: Global,
    at: usize,
    rest: &[Raw],
    is_of_text: bool,
) -> Result<Macro, ReadError> {
    let mut parameters = Vec::new(alloc);
    let mut takes_rest = false;
    for (number, raw) in rest.iter().enumerate() {
        match raw.kind {
            RawKind::Name(name) => parameters.push(name)?,
            RawKind::Mark(Mark::Comma) => {}
            RawKind::Mark(Mark::Dots) => {
                takes_rest = true;
                parameters.push(word::VA_ARGS)?;
            }
            RawKind::Mark(Mark::Close) => {
                let body = body_behind(alloc, rest, number)?;
                return Ok(Macro {
                    parameters: Some(parameters),
                    takes_rest,
                    body,
                    is_of_text,
                });
            }
            _ => return Err(ReadError::new(raw.at, Why::NoName)),
        }
    }
    Err(ReadError::new(at, Why::Arguments))
}

fn body_behind(alloc: Global, rest: &[Raw], number: usize) -> Result<Vec<Raw>, AllocError> {
    match rest.get(number.saturating_add(1)..) {
        Some(body) => body.to_vec(alloc),
        None => Ok(Vec::new(alloc)),
    }
}
