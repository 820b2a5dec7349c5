//! Files that are judged, or written as lines.
ghost use Rattle.std.specs.Prelude.{◌≡◌};
ghost use Rattle.omptask.specs.Faults.{ended_by, weight_of, worse_of};
ghost use Rattle.omptask.specs.Files.{format_of, is_c, is_cpp, kind_by_name};

use crate::ended::Ended;
use crate::fault::{Fault, want_for, want_text};
use crate::folder::{files_below, is_folder};
use crate::included::with_included;
use crate::judging::{
    Judged, judge_c, judge_cpp, judge_requests, tell, tell_end, without_lines, write_lines,
    write_session,
};
use ot_c_text::{Session, session_of};
use ot_file_diagnosis::{Format, Outcome, Paint, Source, put_diagnosis, put_results};
use ot_model::ArrayShape;
use ot_session::Writing;
use ot_subcommands::Check;
use serde_json::Value;
use std::alloc::{AllocError, Global};
use std::fs::File;
use std::io;
use std::io::Read;
use std::rt::Files;

/// What is told of standard input in the place of a file's name.
const STDIN_NAME: &str = "<stdin>";

/// What a file has, by its name.
#[derive(Clone, Copy, Debug, PartialEq, Eq)]
pub enum Kind {
    /// A text in C.
    InC,
    /// A text in C++.
    InCpp,
    /// Requests.
    Requests,
}

/// What is asked for of each file.
#[derive(Drop)]
struct Order<'a> {
    check: &'a Check,
    format: Format,
}

/// What the files so far came to.
#[derive(Drop)]
struct Tally {
    ended: Ended,
    outcomes: Vec<Outcome>,
    results: Vec<Value>,
    /// Whether each file could be read.
    is_whole: bool,
}

/// Judges the files that are asked for, one after another, or writes their requests as lines.
pub(crate) fn check_files<R: Input + Print + Eprint + Files + AllocGlobal + Clone + Drop>(
    rt: &R,
    alloc: Global,
    check: &Check,
    paint: Paint,
) -> Result<Ended, Fault> {
    let Some(format) = format_of(check.format.as_str(), paint) else {
        return Err(Fault::BadFormat);
    };
    let order = Order { check, format };
    let mut tally = Tally {
        ended: Ended::Well,
        outcomes: Vec::new(alloc),
        results: Vec::new(alloc),
        is_whole: true,
    };
    for (place, path) in check.files.iter().enumerate() {
        check_path(rt, alloc, &order, path.as_str(), place, &mut tally)?;
    }
    end(rt, alloc, &order, tally)
}

/// Tells at the end of all files what is to be told there.
fn end<R: Print>(rt: &R, alloc: Global, order: &Order<'_>, tally: Tally) -> Result<Ended, Fault> {
    let Tally {
        ended,
        outcomes,
        results,
        is_whole,
    } = tally;
    // (a document of some of the files would be taken for one of all)
    let is_told = is_whole || !matches!(order.format, Format::Sarif);
    if !order.check.lines && is_told {
        let mut to = Writing::new(io::writer(rt));
        let quiet = order.check.quiet;
        tell_end(
            alloc,
            order.format,
            quiet,
            outcomes.as_slice(),
            results,
            &mut to,
        )?;
    }
    Ok(ended)
}

/// Judges a file, or all files in C below a folder.
fn check_path<R: Input + Print + Eprint + Files + AllocGlobal + Clone + Drop>(
    rt: &R,
    alloc: Global,
    order: &Order<'_>,
    path: &str,
    place: usize,
    tally: &mut Tally,
) -> Result<(), Fault> {
    if !is_folder(rt, path) {
        return check_file(rt, alloc, order, path, place, tally);
    }
    let files = match files_below(rt, alloc, path) {
        Ok(files) => files,
        Err(error) => return Err(unread(place, &error)),
    };
    for file in &files {
        check_below(rt, alloc, order, file.as_str(), place, tally)?;
    }
    Ok(())
}

/// Judges a file below a folder. One that can't be read is told by its own path, and is one that isn't judged.
fn check_below<R: Input + Print + Eprint + Files>(
    rt: &R,
    alloc: Global,
    order: &Order<'_>,
    path: &str,
    place: usize,
    tally: &mut Tally,
) -> Result<(), Fault> {
    match check_file(rt, alloc, order, path, place, tally) {
        Err(Fault::Unread(_, want)) => {
            let _ = eprintln!(rt; "omptask: {path}: {}", want_text(want));
            pass_over(tally)
        }
        checked => checked,
    }
}

/// Counts a file that can't be read.
fn pass_over(tally: &mut Tally) -> Result<(), Fault> {
    tally.is_whole = false;
    tally.ended = worse_of(tally.ended, Ended::Outside);
    match tally.outcomes.push(Outcome::Outside) {
        Ok(()) => Ok(()),
        Err(_) => Err(Fault::Memory),
    }
}

/// Judges a file, or writes its requests as lines.
fn check_file<R: Input + Print + Eprint + Files>(
    rt: &R,
    alloc: Global,
    order: &Order<'_>,
    path: &str,
    place: usize,
    tally: &mut Tally,
) -> Result<(), Fault> {
    let text = text_of(rt, alloc, path, place)?;
    let source = Source {
        name: name_of(path, order.check.name.as_str()),
        text: without_mark(text.as_slice()),
    };
    let ended = if order.check.lines {
        write_text(rt, alloc, source)?
    } else {
        check_text(rt, alloc, order, source, tally)?
    };
    tally.ended = worse_of(tally.ended, ended);
    Ok(())
}

/// What a file is called.
pub(crate) fn name_of<'a>(path: &'a str, given: &'a str) -> &'a str {
    if path != "-" {
        path
    } else if given.is_empty() {
        STDIN_NAME
    } else {
        given
    }
}

/// Whether a file of this name is in C.
pub(crate) fn is_c(name: &str) -> bool
    ensures { result ≡ is_c name.now }
{
    name.as_bytes().ends_with(b".c".as_slice())
}

/// Whether a file of this name is in C++.
fn is_cpp(name: &str) -> bool
    ensures { result ≡ is_cpp name.now }
{
    let name = name.as_bytes();
    name.ends_with(b".cpp".as_slice())
        || name.ends_with(b".cc".as_slice())
        || name.ends_with(b".cxx".as_slice())
        || name.ends_with(b".C".as_slice())
}

/// What a file of this name has.
fn kind_of(name: &str) -> Kind
    ensures { result ≡ kind_by_name name.now }
{
    if is_c(name) {
        Kind::InC
    } else if is_cpp(name) {
        Kind::InCpp
    } else {
        Kind::Requests
    }
}

/// The format that a word asks for, none where there is no such format.
fn format_of(word: &str, paint: Paint) -> Option<Format>
    ensures { result ≡ format_of word.now paint }
{
    if word.is_empty() || word == "text" {
        Some(Format::Text(paint))
    } else if word == "json" {
        Some(Format::Json)
    } else if word == "sarif" {
        Some(Format::Sarif)
    } else if word == "github" {
        Some(Format::Github)
    } else {
        None
    }
}

/// How the program ends where a file ended so.
pub(crate) fn ended_by(outcome: Outcome) -> Ended
    ensures { result ≡ ended_by outcome }
{
    match outcome {
        Outcome::Races | Outcome::Refused => Ended::Refused,
        Outcome::Outside => Ended::Outside,
        Outcome::OnlyRun => Ended::OnlyRun,
        Outcome::Clean | Outcome::Taken => Ended::Well,
    }
}

/// How the program ends where one file ends so, and another so.
fn worse_of(one: Ended, other: Ended) -> Ended
    ensures { result ≡ worse_of one other }
{
    if weight_of(one) < weight_of(other) {
        other
    } else {
        one
    }
}

/// How much an end outweighs others: most of all that something was refused, or races, then that something isn't judged, and
/// then that only the run of something was.
fn weight_of(ended: Ended) -> u8
    ensures { result ≡ weight_of ended }
{
    match ended {
        Ended::Refused => 3,
        Ended::Outside => 2,
        Ended::OnlyRun => 1,
        Ended::Well => 0,
    }
}

/// Writes the text of a file as lines, on standard output. Why a text in C has no lines goes to standard error.
fn write_text<R: Print + Eprint + Files>(
    rt: &R,
    alloc: Global,
    source: Source<'_>,
) -> Result<Ended, Fault> {
    let mut to = Writing::new(io::writer(rt));
    if !is_c(source.name) {
        return write_lines(alloc, source.text, &mut to);
    }
    let session = session_in(rt, alloc, source)?;
    if tell_outside(rt, alloc, source, &session).is_err() {
        return Err(Fault::Memory);
    }
    write_session(&session, &mut to)
}

/// The session that runs a text in C. A text that includes files which are there has none: what they say isn't read.
fn session_in(files: &impl Files, alloc: Global, source: Source<'_>) -> Result<Session, Fault> {
    let whole = with_included(files, alloc, &[], source)?;
    let made = if whole.includes_any() {
        without_lines(alloc)
    } else {
        session_of(alloc, source.text)
    };
    match made {
        Ok(session) => Ok(session),
        Err(_) => Err(Fault::Memory),
    }
}

/// Tells why there is no session, where standard error takes it.
fn tell_outside(
    rt: &impl Eprint,
    alloc: Global,
    source: Source<'_>,
    session: &Session,
) -> Result<(), AllocError> {
    let Session::Outside(found) = session else {
        return Ok(());
    };
    let mut out = Vec::new(alloc);
    put_diagnosis(alloc, Paint::Plain, source, found, &mut out)?;
    say(rt, out.as_slice());
    Ok(())
}

/// Writes a text to standard error, where that takes it.
pub(crate) fn say(rt: &impl Eprint, text: &[u8]) {
    if let Ok(text) = str::from_utf8(text) {
        let _ = eprint!(rt; "{text}");
    }
}

/// Judges the text of a file, on standard output.
fn check_text<R: Print + Eprint + Files>(
    rt: &R,
    alloc: Global,
    order: &Order<'_>,
    source: Source<'_>,
    tally: &mut Tally,
) -> Result<Ended, Fault> {
    let defined = order.check.defined.as_slice();
    let judged = match kind_of(source.name) {
        Kind::InC => return check_c(rt, alloc, order, source, tally),
        Kind::InCpp => judged_cpp(alloc)?,
        Kind::Requests => {
            let arrays = arrays_of(alloc, defined)?;
            judge_requests(alloc, source.text, arrays.as_slice())?
        }
    };
    tell_judged(rt, alloc, order, source, judged, tally)
}

/// Judges the text of a file in C, with those of the files that it includes, on standard output.
fn check_c<R: Print + Eprint + Files>(
    rt: &R,
    alloc: Global,
    order: &Order<'_>,
    source: Source<'_>,
    tally: &mut Tally,
) -> Result<Ended, Fault> {
    let defined = order.check.defined.as_slice();
    let whole = with_included(rt, alloc, defined, source)?;
    let races_only = order.check.races_only;
    let executes = !defined.is_empty() || whole.includes_any();
    let Ok(judged) = judge_c(alloc, races_only, executes, defined, source, &whole) else {
        return Err(Fault::Memory);
    };
    let shown = Source {
        name: source.name,
        text: whole.text(),
    };
    tell_judged(rt, alloc, order, shown, judged, tally)
}

fn judged_cpp(alloc: Global) -> Result<Judged, Fault> {
    match judge_cpp(alloc) {
        Ok(judged) => Ok(judged),
        Err(_) => Err(Fault::Memory),
    }
}

/// Tells what was judged of a file.
fn tell_judged<R: Print + Eprint>(
    rt: &R,
    alloc: Global,
    order: &Order<'_>,
    source: Source<'_>,
    judged: Judged,
    tally: &mut Tally,
) -> Result<Ended, Fault> {
    let mut to = Writing::new(io::writer(rt));
    tell(alloc, order.format, source, &judged, &mut to)?;
    tell_hint(rt, source);
    match keep(alloc, order.format, source.name, &judged, tally) {
        Ok(()) => Ok(ended_by(judged.outcome)),
        Err(_) => Err(Fault::Memory),
    }
}

/// Tells how C is read as C that was taken for requests, where standard error takes it.
fn tell_hint(rt: &impl Eprint, source: Source<'_>) {
    if kind_of(source.name) != Kind::Requests || !has_directives(source.text) {
        return;
    }
    let _ = if source.name == STDIN_NAME {
        eprintln!(rt; "omptask: C on standard input is read with --name FILE.c")
    } else {
        eprintln!(rt;
            "omptask: {}: C is read where a name ends in .c",
            source.name
        )
    };
}

/// Keeps for the end how a file ended, and what was found where that is written there.
fn keep(
    alloc: Global,
    format: Format,
    name: &str,
    judged: &Judged,
    tally: &mut Tally,
) -> Result<(), AllocError> {
    tally.outcomes.push(judged.outcome)?;
    match format {
        Format::Sarif => put_results(alloc, name, judged.found.as_slice(), &mut tally.results),
        _ => Ok(()),
    }
}

/// Whether a line of a text begins with `#`, as directives of C do.
fn has_directives(text: &[u8]) -> bool {
    let mut begins = true;
    for byte in text {
        if begins && *byte == b'#' {
            return true;
        }
        begins = *byte == b'\n';
    }
    false
}

/// A text without the mark of UTF-8 at its begin, which some editors write there.
pub(crate) fn without_mark(text: &[u8]) -> &[u8] {
    match text.strip_prefix(b"\xEF\xBB\xBF".as_slice()) {
        Some(rest) => rest,
        None => text,
    }
}

/// The text of a file; `-` is standard input.
pub(crate) fn text_of<R: Input + Files>(
    rt: &R,
    alloc: Global,
    path: &str,
    place: usize,
) -> Result<Vec<u8>, Fault> {
    let mut text = Vec::new(alloc);
    let read = if path == "-" {
        rt.reader().read_to_end(&mut text)
    } else {
        match File::open(rt, path) {
            Ok(mut file) => file.read_to_end(&mut text),
            Err(error) => Err(error),
        }
    };
    match read {
        Ok(_) => Ok(text),
        Err(error) if error.kind() == io::ErrorKind::OutOfMemory => Err(Fault::Memory),
        Err(_) if path == "-" => Err(Fault::ReadFailed),
        Err(error) => Err(unread(place, &error)),
    }
}

/// That the file at this place among those that are named isn't read.
fn unread(place: usize, error: &io::Error) -> Fault {
    if error.kind() == io::ErrorKind::OutOfMemory {
        return Fault::Memory;
    }
    Fault::Unread(place, want_for(error.kind()))
}

/// The arrays of words `NAME=LEN`.
fn arrays_of(alloc: Global, words: &[String]) -> Result<Vec<ArrayShape>, Fault> {
    let mut arrays = Vec::new(alloc);
    for (place, word) in words.iter().enumerate() {
        let Some((name, len)) = word.as_str().split_once('=') else {
            return Err(Fault::BadDefinition(place));
        };
        let Ok(len) = len.parse::<u32>() else {
            return Err(Fault::BadDefinition(place));
        };
        let Ok(name) = String::from_str(alloc, name) else {
            return Err(Fault::Memory);
        };
        if arrays.push(ArrayShape { name, len }).is_err() {
            return Err(Fault::Memory);
        }
    }
    Ok(arrays)
}
