//! A text with those of the files that it includes.
use ot_exec_lexemes::part;
use std::alloc::{AllocError, Global};

/// A file of a whole.
#[derive(Debug, Drop)]
pub struct Part {
    pub path: String,
    /// Its first byte in the text of the whole, from 0.
    pub from: usize,
    /// How many bytes it has; none where there is no such file.
    pub len: Option<usize>,
}

/// The text of a file, and behind it those of the files that it includes, as far as they were given.
#[derive(Debug, Drop)]
pub struct Whole {
    text: Vec<u8>,
    /// The first one is the file that includes the others.
    parts: Vec<Part>,
}

impl Whole {
    /// The text of the file of this path; none that it includes is there yet.
    pub fn new(alloc: Global, path: &str, text: &[u8]) -> Result<Whole, AllocError> {
        let mut whole = Whole {
            text: Vec::new(alloc),
            parts: Vec::new(alloc),
        };
        whole.add(alloc, path, Some(text))?;
        Ok(whole)
    }

    /// Puts a file behind the others, on lines of its own; without a text, that there is no file of this path.
    pub fn add(
        &mut self,
        alloc: Global,
        path: &str,
        text: Option<&[u8]>,
    ) -> Result<(), AllocError> {
        let path = String::from_str(alloc, path)?;
        if !self.parts.is_empty() {
            self.text.push(b'\n')?;
        }
        let from = self.text.len();
        let len = match text {
            Some(text) => {
                self.text.extend_from_slice(text)?;
                Some(text.len())
            }
            None => None,
        };
        self.parts.push(Part { path, from, len })?;
        Ok(())
    }

    /// All texts, one behind the other: places are bytes of this one.
    pub fn text(&self) -> &[u8] {
        self.text.as_slice()
    }

    /// The text of the file that includes the others.
    pub fn first_text(&self) -> &[u8] {
        self.text_of(0)
    }

    /// The path of that file.
    pub fn path(&self) -> &str {
        match self.parts.first() {
            Some(first) => first.path.as_str(),
            None => "",
        }
    }

    /// The text of the file of this number.
    pub(crate) fn text_of(&self, number: usize) -> &[u8] {
        match self.parts.get(number) {
            Some(one) => part(&self.text, one.from, one.len.unwrap_or(0)),
            None => &[],
        }
    }

    /// Where the file of this number begins.
    pub(crate) fn from_of(&self, number: usize) -> usize {
        match self.parts.get(number) {
            Some(one) => one.from,
            None => 0,
        }
    }

    /// Whether the file of this number is there.
    pub(crate) fn has(&self, number: usize) -> bool {
        match self.parts.get(number) {
            Some(one) => one.len.is_some(),
            None => false,
        }
    }

    /// Whether a file that is included is there.
    pub fn includes_any(&self) -> bool {
        self.parts.iter().skip(1).any(|file| file.len.is_some())
    }

    /// The number of a file that is included, in which a byte stands; none where it stands in the file that includes the others.
    fn included_at(&self, byte: usize) -> Option<usize> {
        for number in (1..self.parts.len()).rev() {
            if self.has(number) && self.from_of(number) <= byte {
                return Some(number);
            }
        }
        None
    }

    /// The file that is included in which a byte stands; none where it stands in the file that includes the others.
    pub fn included(&self, byte: usize) -> Option<&Part> {
        match self.included_at(byte) {
            Some(number) => self.parts.get(number),
            None => None,
        }
    }

    /// The text of the file in which a byte stands.
    pub fn text_around(&self, byte: usize) -> &[u8] {
        self.text_of(self.included_at(byte).unwrap_or(0))
    }

    /// The number of the file of this path, if it was asked for.
    pub(crate) fn number_of(&self, path: &str) -> Option<usize> {
        self.parts.iter().position(|one| one.path.as_str() == path)
    }

    /// The path of a file of this name beside the one of this number.
    pub(crate) fn path_beside(
        &self,
        alloc: Global,
        number: usize,
        name: &str,
    ) -> Result<String, AllocError> {
        let beside = match self.parts.get(number) {
            Some(one) => folder_of(one.path.as_str()),
            None => "",
        };
        let mut path = String::from_str(alloc, if name.starts_with('/') { "" } else { beside })?;
        path.push_str(without_dots(name))?;
        Ok(path)
    }
}

/// A path up to its last `/`.
fn folder_of(path: &str) -> &str {
    match path.rsplit_once('/') {
        Some((folder, _)) => path.get(..folder.len().saturating_add(1)).unwrap_or(""),
        None => "",
    }
}

/// A path without the `./` at its begin.
fn without_dots(path: &str) -> &str {
    path.strip_prefix("./").unwrap_or(path)
}
