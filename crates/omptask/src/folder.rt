//! The files in C below a folder.
use crate::checking::is_c;
use std::alloc::Global;
use std::fs::DirEntry;
use std::path::Path;
use std::rt::Files;
use std::{fs, io};

/// Whether a path leads to a folder.
pub(crate) fn is_folder(files: &impl Files, path: &str) -> bool {
    path != "-" && Path::new(path).is_dir(files)
}

/// The paths of all files in C below a folder, in their order. Links aren't followed.
pub(crate) fn files_below<R: Files + AllocGlobal + Clone + Drop>(
    rt: &R,
    alloc: Global,
    folder: &str,
) -> io::Result<Vec<String>> {
    let mut files = Vec::new(alloc);
    walk(rt, alloc, folder, &mut files)?;
    files.sort()?;
    Ok(files)
}

/// Puts the paths of all files in C below a folder behind others.
fn walk<R: Files + AllocGlobal + Clone + Drop>(
    rt: &R,
    alloc: Global,
    folder: &str,
    files: &mut Vec<String>,
) -> io::Result<()> {
    let mut folders = Vec::new(alloc);
    folders.push(String::from_str(alloc, folder)?)?;
    // (a bound for the proof: it ends where no folder is left)
    for _ in 0..u64::MAX {
        let Some(next) = folders.pop() else {
            break;
        };
        list(rt, alloc, next.as_str(), &mut folders, files)?;
    }
    Ok(())
}

/// Puts what stands in a folder behind other folders and files.
fn list<R: Files + AllocGlobal + Clone + Drop>(
    rt: &R,
    alloc: Global,
    folder: &str,
    folders: &mut Vec<String>,
    files: &mut Vec<String>,
) -> io::Result<()> {
    for entry in fs::read_dir(rt, folder)? {
        put_found(alloc, entry, folders, files)?;
    }
    Ok(())
}

fn put_found<R: Files + Drop>(
    alloc: Global,
    found: io::Result<DirEntry<R>>,
    folders: &mut Vec<String>,
    files: &mut Vec<String>,
) -> io::Result<()> {
    match found {
        Ok(entry) => put_entry(alloc, &entry, folders, files),
        Err(error) => Err(error),
    }
}

/// Puts what stands in a folder where it belongs.
fn put_entry<R: Files + Drop>(
    alloc: Global,
    entry: &DirEntry<R>,
    folders: &mut Vec<String>,
    files: &mut Vec<String>,
) -> io::Result<()> {
    let path = entry.path();
    let text = path.as_str();
    if entry.file_type()?.is_dir() {
        folders.push(String::from_str(alloc, text)?)?;
    } else if is_c(text) {
        files.push(String::from_str(alloc, text)?)?;
    }
    Ok(())
}
