//! omptask, a companion of omptaskd for people.
#![tactic(auto)]

ghost use Rattle.std.specs.Prelude.{◌≡◌, ◌≢◌, [], option_map, slice_get, string_bytes, unwrap_or};
ghost use Rattle.std.specs.Process.{exit_status};
ghost use Rattle.clap.specs.Words.{kind_of};
ghost use Rattle.omptask.specs.Files.{socket_of, word_of};
ghost use Rattle.omptask.specs.Faults.{ended_of, status_of, status_of_fault};

mod checking;
pub mod ended;
mod explaining;
pub mod fault;
mod folder;
mod graphing;
mod included;
mod judging;
mod prompt;
pub mod reaching;

pub use checking::Kind;
use checking::check_files;
use clap::error::ErrorKind;
pub use ended::Ended;
use explaining::ask_explained;
pub use fault::{Fault, Want, fault_line, want_text};
use graphing::{draw_file, draw_session};
use ot_c_printed::{NoC, c_checked};
use ot_client_ask::{Asked, LineSource, LinesOf, Tally, ask};
use ot_client_keep::{restore, save};
use ot_commands::hold_standard;
use ot_file_diagnosis::Paint;
use ot_session::{Reading, Sink, Writing, write_whole};
use ot_show_last::{Untaken, last_run};
use ot_subcommands::{Ask, Manner, Words, words};
use ot_why_explain::{Explained, explain, explain_quietly};
use ot_why_reason::code_page;
use prompt::Prompted;
use reaching::reach;
pub use reaching::{Cause, cause_text};
use std::alloc::Global;
use std::env::Env;
use std::io::{IsTerminal, Read};
use std::net::Net;
use std::os::unix::net::UnixStream;
use std::process::ExitCode;
use std::rt::Files;
use std::{env, io};

fn main(rt: HostRuntime) -> ExitCode {
    hold_standard(&rt);
    let alloc = rt.alloc();
    let owned = match given_words(&rt, alloc) {
        Ok(owned) => owned,
        Err(error) => return refuse(&rt, &error),
    };
    let given: Result<Vec<&str>, _> = owned.iter().map(|word| word.as_str()).collect(alloc);
    match given {
        Ok(given) => run(&rt, alloc, given.as_slice(), terminal_of(&rt)),
        Err(_) => tell(&rt, "", &Fault::Memory),
    }
}

/// The words of the command line, the program's name first.
fn given_words(rt: &(impl Env + AllocGlobal), alloc: Global) -> io::Result<Vec<String>> {
    Ok(env::args(rt)?.collect(alloc)?)
}

/// Tells why the words of the command line could not be had, and answers the status for it.
fn refuse(rt: &impl Eprint, error: &io::Error) -> ExitCode {
    if error.kind() == io::ErrorKind::OutOfMemory {
        return tell(rt, "", &Fault::Memory);
    }
    let _ = eprintln!(rt; "error: invalid UTF-8 was detected in one or more arguments");
    ExitCode::from(2)
}

/// What is a terminal.
#[derive(Clone, Copy, Debug)]
struct Terminal {
    /// Whether standard input is typed.
    is_typed: bool,
    /// Whether standard output has colours.
    paint: Paint,
}

/// Standard output has colours where it is a terminal, unless NO_COLOR is set, and isn't empty.
fn terminal_of(rt: &HostRuntime) -> Terminal {
    let is_plain = match env::var(rt, "NO_COLOR") {
        Ok(text) => !text.is_empty(),
        Err(_) => false,
    };
    let paint = if rt.stdout().is_terminal() && !is_plain {
        Paint::Coloured
    } else {
        Paint::Plain
    };
    Terminal {
        is_typed: rt.stdin().is_terminal(),
        paint,
    }
}

/// Does what the words ask for, and answers the status.
fn run<R: Input + Print + Eprint + Files + Net + AllocGlobal + Clone + Drop>(
    rt: &R,
    alloc: Global,
    given: &[&str],
    terminal: Terminal,
) -> ExitCode {
    let asked = match words(alloc, given) {
        Ok(asked) => asked,
        Err(error) => return show(rt, &error),
    };
    let ended = match &asked {
        Words::Ask(asked, manner) => ask_server(rt, alloc, asked, *manner, terminal.is_typed),
        Words::Save(asked) => save_tenant(rt, alloc, asked),
        Words::Restore(asked, replace) => restore_tenant(rt, alloc, asked, *replace),
        Words::Explain(None, quiet) => explain_session(rt, alloc, *quiet),
        Words::Explain(Some(code), _) => explain_code(rt, alloc, *code),
        Words::Graph(path) if path.is_empty() => draw_session(rt, alloc),
        Words::Graph(path) => draw_file(rt, alloc, path.as_str()),
        Words::C => write_run(rt, alloc),
        Words::Check(asked) | Words::Lines(asked) => check_files(rt, alloc, asked, terminal.paint),
    };
    match ended {
        Ok(ended) => status_of(ended),
        Err(fault) => tell(rt, word_of(&asked, &fault), &fault),
    }
}

/// The word of which a fault tells: a definition, a file's path, or the path of the socket.
fn word_of<'a>(asked: &'a Words, fault: &Fault) -> &'a str
    ensures { result.now ≡ word_of asked.now fault.now }
{
    match (asked, fault) {
        (Words::Check(check), Fault::BadDefinition(place)) => word_at(&check.defined, *place),
        (Words::Check(check), Fault::BadFormat) => check.format.as_str(),
        (Words::Check(check) | Words::Lines(check), Fault::Unread(place, _)) => {
            word_at(&check.files, *place)
        }
        (Words::Graph(path), Fault::Unread(_, _)) => path.as_str(),
        _ => socket_of(asked),
    }
}

/// The word at a place, empty where there is none.
fn word_at(words: &Vec<String>, place: usize) -> &str
    ensures { result.now ≡ unwrap_or (option_map string_bytes (slice_get words.now.items place)) [] }
{
    match words.get(place) {
        Some(word) => word.as_str(),
        None => "",
    }
}

/// The path of the socket that the words name, empty where they name none.
fn socket_of(asked: &Words) -> &str
    ensures { result.now ≡ socket_of asked.now }
{
    match asked {
        Words::Ask(asked, _) | Words::Save(asked) | Words::Restore(asked, _) => {
            asked.socket.as_str()
        }
        _ => "",
    }
}

/// Prints what `clap` says of the words: a mistake in them, or the help or the version that they ask
/// for. It answers the status, which is that of a mistake also where its text can't be written.
fn show(rt: &(impl Print + Eprint), error: &clap::Error) -> ExitCode
    ensures mistake { kind_of error.now ≢ ErrorKind.OutOfMemory → kind_of error.now ≢ ErrorKind.DisplayHelp →
        kind_of error.now ≢ ErrorKind.DisplayVersion → exit_status result ≡ 2 }
{
    if error.kind() == ErrorKind::OutOfMemory {
        return tell(rt, "", &Fault::Memory);
    }
    let printed = error.print(rt);
    if error.use_stderr() {
        return ExitCode::from(2);
    }
    match printed {
        Ok(()) => ExitCode::SUCCESS,
        Err(_) => tell(rt, "", &Fault::WriteFailed),
    }
}

/// Explains the session that comes on standard input, or quietly writes the remarks alone.
fn explain_session<R: Input + Print>(rt: &R, alloc: Global, quiet: bool) -> Result<Ended, Fault> {
    let mut source = Reading::new(rt.reader());
    let mut sink = Writing::new(io::writer(rt));
    let explained = if quiet {
        explain_quietly(alloc, &mut source, &mut sink)
    } else {
        explain(alloc, &mut source, &mut sink)
    };
    match explained {
        Ok(Explained::AllTaken) => Ok(Ended::Well),
        Ok(Explained::SomeRefused) => Ok(Ended::Refused),
        Err(fault) => Err(Fault::from(fault)),
    }
}

/// Prints what a code means.
fn explain_code<R: Print>(rt: &R, alloc: Global, code: u32) -> Result<Ended, Fault> {
    let text = match code_page(alloc, code) {
        Ok(Some(text)) => text,
        Ok(None) => return Err(Fault::UnknownCode),
        Err(_) => return Err(Fault::Memory),
    };
    print_text(rt, text.as_str())
}

/// Prints the last run of the session on standard input as C with OpenMP, which is read back before, or tells why it has none.
fn write_run<R: Input + Print + Eprint>(rt: &R, alloc: Global) -> Result<Ended, Fault> {
    let last = match last_run(alloc, &mut Reading::new(rt.reader())) {
        Ok(last) => last,
        Err(fault) => return Err(Fault::from(fault)),
    };
    let program = &last.spec.checked().program;
    match c_checked(
        alloc,
        program,
        last.arrays.as_slice(),
        last.spec.before().arrays(),
    ) {
        Ok(text) => print_text(rt, text.as_str()),
        Err(NoC::Memory) => Err(Fault::Memory),
        Err(no) => {
            let _ = tell_no_c(rt, no);
            Ok(Ended::Outside)
        }
    }
}

/// Prints why a run has no C, where that isn't want of memory.
fn tell_no_c(rt: &impl Eprint, no: NoC) -> io::Result<()> {
    let line = "omptask: the C isn't read back";
    match no {
        NoC::NotReadBack(byte, reason) => eprintln!(rt; "{line} at byte {byte}: {reason}"),
        NoC::Refused(refusal) => {
            let code = refusal.code();
            eprintln!(rt; "{line}: it is refused by {code}, see omptask explain {code}")
        }
        NoC::OtherArrays => eprintln!(rt; "{line}: it has other arrays"),
        NoC::OtherProgram(number) => eprintln!(rt; "{line}: statement {number} is another one"),
        NoC::Memory => eprintln!(rt; "{line}"),
    }
}

/// Prints a text.
pub(crate) fn print_text<R: Print>(rt: &R, text: &str) -> Result<Ended, Fault> {
    match write_whole(&mut Writing::new(io::writer(rt)), text.as_bytes()) {
        Ok(()) => Ok(Ended::Well),
        Err(_) => Err(Fault::WriteFailed),
    }
}

/// Holds a session with a server: lines come from standard input, and replies go to standard output. Where nobody
/// types them, it tells at the end how many were answered.
fn ask_server<R: Input + Print + Eprint + Files + Net>(
    rt: &R,
    alloc: Global,
    asked: &Ask,
    manner: Manner,
    is_typed: bool,
) -> Result<Ended, Fault> {
    let stream = server_of(rt, asked)?;
    let Ok(typed) = LinesOf::new(alloc, Reading::new(rt.reader())) else {
        return Err(Fault::Memory);
    };
    let Ok(mut heard) = LinesOf::new(alloc, Reading::new(&stream)) else {
        return Err(Fault::Memory);
    };
    let mut lines = Prompted {
        rt,
        lines: typed,
        is_typed,
    };
    let (ended, tally) = hold(
        alloc,
        asked.name.as_str(),
        manner,
        &mut lines,
        &mut heard,
        &mut Writing::new(&stream),
        &mut Writing::new(io::writer(rt)),
    );
    if !is_typed && (ended.is_ok() || tally.lines > 0) {
        tell_tally(rt, tally);
    }
    match ended {
        Ok(asked) => Ok(ended_of(asked)),
        Err(fault) => Err(fault),
    }
}

/// Holds a session with a server in this manner.
fn hold<T: LineSource, H: LineSource, W: Sink, P: Sink>(
    alloc: Global,
    name: &str,
    manner: Manner,
    typed: &mut T,
    heard: &mut H,
    wire: &mut W,
    printed: &mut P,
) -> (Result<Asked, Fault>, Tally) {
    if manner.explain {
        return ask_explained(alloc, name, manner.stop, typed, heard, wire, printed);
    }
    let (ended, tally) = ask(alloc, name, manner.stop, typed, heard, wire, printed);
    match ended {
        Ok(asked) => (Ok(asked), tally),
        Err(fault) => (Err(Fault::from(fault)), tally),
    }
}

/// Connects to the server of a tenant.
fn server_of<R: Files + Net>(rt: &R, asked: &Ask) -> Result<UnixStream, Fault> {
    match reach(rt, asked.socket.as_str()) {
        Ok(stream) => Ok(stream),
        Err(cause) => Err(Fault::Unreached(cause)),
    }
}

/// Tells how many lines were answered and refused, where standard error takes it.
fn tell_tally(rt: &impl Eprint, tally: Tally) {
    let lines = if tally.lines == 1 { "line" } else { "lines" };
    let _ = match tally.first_refused {
        Some(first) => eprintln!(rt;
            "omptask: {} {lines}, {} refused, the first refused: {first}",
            tally.lines, tally.refused
        ),
        None => eprintln!(rt; "omptask: {} {lines}, none refused", tally.lines),
    };
}

/// Writes a tenant of a server as a file on standard output.
fn save_tenant<R: Print + Files + Net>(rt: &R, alloc: Global, asked: &Ask) -> Result<Ended, Fault> {
    let stream = server_of(rt, asked)?;
    let Ok(mut heard) = LinesOf::new(alloc, Reading::new(&stream)) else {
        return Err(Fault::Memory);
    };
    let saved = save(
        alloc,
        asked.name.as_str(),
        &mut heard,
        &mut Writing::new(&stream),
        &mut Writing::new(io::writer(rt)),
    );
    match saved {
        Ok(_) => Ok(Ended::Well),
        Err(fault) => Err(Fault::from(fault)),
    }
}

/// Makes a tenant of a server of the file on standard input, in the place of the arrays that he has where that is asked for.
fn restore_tenant<R: Input + Files + Net>(
    rt: &R,
    alloc: Global,
    asked: &Ask,
    replace: bool,
) -> Result<Ended, Fault> {
    let mut file = Vec::new(alloc);
    if let Err(error) = rt.reader().read_to_end(&mut file) {
        if error.kind() == io::ErrorKind::OutOfMemory {
            return Err(Fault::Memory);
        }
        return Err(Fault::ReadFailed);
    }
    let stream = server_of(rt, asked)?;
    let Ok(mut heard) = LinesOf::new(alloc, Reading::new(&stream)) else {
        return Err(Fault::Memory);
    };
    let restored = restore(
        alloc,
        asked.name.as_str(),
        file.as_slice(),
        replace,
        &mut heard,
        &mut Writing::new(&stream),
    );
    match restored {
        Ok(_) => Ok(Ended::Well),
        Err(fault) => Err(Fault::from(fault)),
    }
}

/// How the program ends where a session with a server came to this.
fn ended_of(asked: Asked) -> Ended
    ensures { result ≡ ended_of asked }
{
    match asked {
        Asked::AllTaken => Ended::Well,
        Asked::SomeRefused | Asked::CutShort => Ended::Refused,
    }
}

fn status_of(ended: Ended) -> ExitCode
    ensures { exit_status result ≡ status_of ended }
{
    match ended {
        Ended::Well => ExitCode::SUCCESS,
        Ended::Refused => ExitCode::from(3),
        Ended::Outside => ExitCode::from(1),
        Ended::OnlyRun => ExitCode::from(4),
    }
}

/// Prints what went wrong, with the word of which it tells, where standard error takes it, and answers the status for it.
fn tell(rt: &impl Eprint, path: &str, fault: &Fault) -> ExitCode
    ensures { exit_status result ≡ status_of_fault fault.now }
{
    let line = fault_line(fault);
    let _ = match fault {
        Fault::BadLine(number, answer) => tell_bad_line(rt, *number, *answer),
        Fault::RefusedLine(number) => eprintln!(rt; "{line} {number}"),
        Fault::Unreached(cause) => eprintln!(rt; "{line} {path}: {}", cause_text(*cause)),
        Fault::BadDefinition(_) | Fault::BadFormat => {
            eprintln!(rt; "{line} {path}, see omptask check --help")
        }
        Fault::Unread(_, want) => eprintln!(rt; "{line} {path}: {}", want_text(*want)),
        _ => eprintln!(rt; "{line}"),
    };
    match fault {
        Fault::Busy => ExitCode::from(4),
        Fault::RefusedLine(_) => ExitCode::from(3),
        Fault::BadDefinition(_) | Fault::BadFormat => ExitCode::from(2),
        _ => ExitCode::from(1),
    }
}

/// Prints which line of a session isn't taken, and what a server answers it.
pub(crate) fn tell_bad_line(rt: &impl Eprint, number: u64, answer: Untaken) -> io::Result<()> {
    let line = fault_line(&Fault::BadLine(number, answer));
    match answer {
        Untaken::Refused(code) => {
            eprintln!(rt; "{line} {number}: [\"err\",{number},{code}], see omptask explain")
        }
        Untaken::Offends(code, place) => {
            eprintln!(rt; "{line} {number}: [\"err\",{number},{code},{place}], see omptask explain")
        }
        Untaken::Full => eprintln!(rt; "{line} {number}: [\"full\"], see omptask explain"),
        Untaken::Long => eprintln!(rt; "{line} {number}: [\"long\"], see omptask explain"),
    }
}
