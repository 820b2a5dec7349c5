//! The files that a text in C includes.
use crate::fault::Fault;
use ot_exec_tokens::{Whole, wanted_by};
use ot_file_diagnosis::Source;
use std::alloc::Global;
use std::fs::File;
use std::io;
use std::io::Read;
use std::path::Path;
use std::rt::Files;

/// How many files are looked for at most.
const MOST: usize = 64;

/// A text with those of the files that it includes behind these definitions. They are looked for beside the file that names them.
pub(crate) fn with_included(
    files: &impl Files,
    alloc: Global,
    defined: &[String],
    source: Source<'_>,
) -> Result<Whole, Fault> {
    let Ok(mut whole) = Whole::new(alloc, source.name, source.text) else {
        return Err(Fault::Memory);
    };
    for _ in 0..MOST {
        match wanted_by(alloc, defined, &whole) {
            Ok(Some(path)) => add_file(files, alloc, path.as_str(), &mut whole)?,
            Ok(None) => break,
            Err(_) => return Err(Fault::Memory),
        }
    }
    Ok(whole)
}

/// Puts the file of this path behind the others, or that there is none which can be read.
fn add_file(files: &impl Files, alloc: Global, path: &str, whole: &mut Whole) -> Result<(), Fault> {
    let text = text_at(files, alloc, path)?;
    match whole.add(alloc, path, text.as_deref()) {
        Ok(()) => Ok(()),
        Err(_) => Err(Fault::Memory),
    }
}

/// The text of a file, if it can be read. What isn't a file (a folder, a device) has none.
fn text_at(files: &impl Files, alloc: Global, path: &str) -> Result<Option<Vec<u8>>, Fault> {
    if !Path::new(path).is_file(files) {
        return Ok(None);
    }
    let mut text = Vec::new(alloc);
    let read = match File::open(files, path) {
        Ok(mut file) => file.read_to_end(&mut text),
        Err(error) => Err(error),
    };
    match read {
        Ok(_) => Ok(Some(text)),
        Err(error) if error.kind() == io::ErrorKind::OutOfMemory => Err(Fault::Memory),
        Err(_) => Ok(None),
    }
}
