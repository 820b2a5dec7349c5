//! Where the bytes of a text stand, with those of the files that it includes.
use ot_exec_tokens::{Names, Token, Whole};
use ot_file_diagnosis::{Included, Place, Remark, Turn, place_of};
use std::alloc::{AllocError, Global};

/// How many bytes stand before the file in which a byte stands.
fn before(whole: &Whole, byte: usize) -> usize {
    match whole.included(byte) {
        Some(file) => file.from,
        None => 0,
    }
}

/// A byte, and its line and column in its file.
pub(crate) fn place_at(whole: &Whole, byte: usize) -> Place {
    let inner = byte.saturating_sub(before(whole, byte));
    Place {
        byte,
        position: Place::at(whole.text_around(byte), inner).position,
    }
}

/// The file in which a byte stands, where it is included.
fn file_at(alloc: Global, whole: &Whole, byte: usize) -> Result<Option<Included>, AllocError> {
    let Some(file) = whole.included(byte) else {
        return Ok(None);
    };
    Ok(Some(Included {
        path: String::from_str(alloc, file.path.as_str())?,
        from: file.from,
    }))
}

/// The path of the file in which a byte stands.
fn path_at(whole: &Whole, byte: usize) -> &str {
    match whole.included(byte) {
        Some(file) => file.path.as_str(),
        None => whole.path(),
    }
}

/// What is said of a byte.
pub(crate) fn remark_at(
    alloc: Global,
    whole: &Whole,
    byte: usize,
    turns: Vec<Turn>,
    message: String,
) -> Result<Remark, AllocError> {
    Ok(Remark {
        place: Some(place_at(whole, byte)),
        file: file_at(alloc, whole, byte)?,
        turns,
        message,
    })
}

/// `NAME:LINE:COLUMN`
pub(crate) fn place_text(alloc: Global, whole: &Whole, byte: usize) -> Result<String, AllocError> {
    place_of(alloc, path_at(whole, byte), Some(place_at(whole, byte)))
}

/// `LINE:COLUMN`, behind the name of a file that is included.
pub(crate) fn short_place(alloc: Global, whole: &Whole, byte: usize) -> Result<String, AllocError> {
    let position = place_at(whole, byte).position;
    match whole.included(byte) {
        Some(_) => place_text(alloc, whole, byte),
        None => format!(in alloc; "{}:{}", position.line, position.column),
    }
}

/// `line LINE`, or `NAME:LINE` in a file that is included.
pub(crate) fn line_text(alloc: Global, whole: &Whole, byte: usize) -> Result<String, AllocError> {
    let line = place_at(whole, byte).position.line;
    match whole.included(byte) {
        Some(file) => {
            let path = file.path.as_str();
            format!(in alloc; "{path}:{line}")
        }
        None => format!(in alloc; "line {line}"),
    }
}

/// Where a token is written that a macro became, and which macro: `expanded from macro`, behind these words.
pub(crate) fn origin_of(
    alloc: Global,
    whole: &Whole,
    names: &Names,
    token: Option<&Token>,
    words: &str,
) -> Result<Option<Remark>, AllocError> {
    let Some(token) = token else {
        return Ok(None);
    };
    let Some(origin) = token.origin else {
        return Ok(None);
    };
    let name = names.text(origin.name);
    let message = format!(in alloc; "{words}expanded from macro `{name}`")?;
    let told = remark_at(alloc, whole, origin.at, Vec::new(alloc), message)?;
    Ok(Some(told))
}
