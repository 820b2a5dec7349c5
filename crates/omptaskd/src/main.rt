//! omptaskd, a task server for many tenants.
#![tactic(auto)]

ghost use Rattle.std.specs.Prelude.{◌≡◌, ◌≢◌, Err, IsOk, MatchResult, option_map};
ghost use Rattle.std.specs.Process.{exit_status};
ghost use Rattle.clap.specs.Words.{kind_of};
ghost use Rattle.ot_serve.specs.Serving.{status_of, IsInRange};
ghost use Rattle.ot_serve.specs.Starting.{front_fault};
ghost use Rattle.omptaskd.specs.Faults.{name_at_fault, sim_fault};

pub mod asked;
pub mod command_line;
mod commands;

pub use asked::Words;
use clap::error::ErrorKind;
pub use command_line::words;
use ot_book::{Book, Solo};
use ot_commands::hold_standard;
pub use ot_serve::{Fault, Serve, bad_name, fault_line, serve_socket};
use ot_session::{End, FrontFault, Reading, Writing, serve};
pub use ot_sim::{SimFault, sim_lines};
use ot_store::{Limits, Store};
use std::alloc::Global;
use std::env::Env;
use std::fs::Files;
use std::net::Net;
use std::process::ExitCode;
use std::sync::Wait;
use std::thread::Threads;
use std::{env, io};

fn main(rt: HostRuntime) -> ExitCode {
    hold_standard(&rt);
    let alloc = rt.alloc();
    let owned = match given_words(&rt, alloc) {
        Ok(owned) => owned,
        Err(error) => return refuse(&rt, &error),
    };
    let given: Result<Vec<&str>, _> = owned.iter().map(|word| word.as_str()).collect(alloc);
    match given {
        Ok(given) => run(&rt, alloc, given.as_slice()),
        Err(_) => tell(&rt, &Fault::Memory, None),
    }
}

/// The words of the command line, the program's name first.
fn given_words(rt: &(impl Env + AllocGlobal), alloc: Global) -> io::Result<Vec<String>> {
    Ok(env::args(rt)?.collect(alloc)?)
}

/// Tells why the words of the command line could not be had, and answers the status for it.
fn refuse(rt: &impl Eprint, error: &io::Error) -> ExitCode {
    if error.kind() == io::ErrorKind::OutOfMemory {
        return tell(rt, &Fault::Memory, None);
    }
    let _ = eprintln!(rt; "error: invalid UTF-8 was detected in one or more arguments");
    ExitCode::from(2)
}

/// Does what the words ask for, and answers the status.
fn run<R: Input + Print + Eprint + Threads + Wait + Sync + Files + Net>(
    rt: &R,
    alloc: Global,
    given: &[&str],
) -> ExitCode {
    let asked = match words(alloc, given) {
        Ok(asked) => asked,
        Err(error) => return explain(rt, &error),
    };
    let ended = match &asked {
        Words::Solo => solo(rt, alloc),
        Words::Sim => sim(rt, alloc),
        Words::Serve(server) => serve_tenants(rt, alloc, server),
    };
    match ended {
        Ok(()) => ExitCode::SUCCESS,
        Err(fault) => tell(rt, &fault, name_of(&asked, &fault)),
    }
}

/// The name of which a fault tells, where it tells of one.
fn name_of<'a>(asked: &'a Words, fault: &Fault) -> Option<&'a str>
    ensures { option_map (λ name. name.now) result ≡ name_at_fault asked.now fault.now }
{
    match (asked, fault) {
        (Words::Serve(server), Fault::BadTenantName) => bad_name(server.names.as_slice()),
        _ => None,
    }
}

/// Prints what `clap` says of the words: a mistake in them, or the help or the version that they ask
/// for. It answers the status, which is that of a mistake also where its text can't be written.
fn explain(rt: &(impl Print + Eprint), error: &clap::Error) -> ExitCode
    ensures mistake { kind_of error.now ≢ ErrorKind.OutOfMemory → kind_of error.now ≢ ErrorKind.DisplayHelp →
        kind_of error.now ≢ ErrorKind.DisplayVersion → exit_status result ≡ 2 }
{
    if error.kind() == ErrorKind::OutOfMemory {
        return tell(rt, &Fault::Memory, None);
    }
    let printed = error.print(rt);
    if error.use_stderr() {
        return ExitCode::from(2);
    }
    match printed {
        Ok(()) => ExitCode::SUCCESS,
        Err(_) => tell(rt, &Fault::WriteFailed, None),
    }
}

/// Serves the one tenant of a `solo` run, called `t1`, over standard input and output, in one thread.
fn solo<R: Input + Print>(rt: &R, alloc: Global) -> Result<(), Fault> {
    let Ok(mut book) = Book::new(alloc, "t1", Limits::usual(), Store::empty(alloc)) else {
        return Err(Fault::Memory);
    };
    let mut source = Reading::new(rt.reader());
    let mut sink = Writing::new(io::writer(rt));
    solo_ended(serve(alloc, &mut book, &mut Solo, &mut source, &mut sink))
}

/// What the end of the one session is to the program.
fn solo_ended(ended: Result<End, FrontFault>) -> Result<(), Fault>
    ensures { MatchResult ended (λ _. IsOk result) (λ fault. result ≡ Err (front_fault fault)) }
{
    match ended {
        Ok(_) => Ok(()),
        Err(fault) => Err(Fault::from(fault)),
    }
}

/// Moves a world of tenants by the lines of standard input.
fn sim<R: Input + Print>(rt: &R, alloc: Global) -> Result<(), Fault> {
    let mut source = Reading::new(rt.reader());
    let mut sink = Writing::new(io::writer(rt));
    match sim_lines(alloc, &mut source, &mut sink) {
        Ok(()) => Ok(()),
        Err(fault) => Err(fault_of(fault)),
    }
}

/// The program's fault where sim ended with one.
fn fault_of(fault: SimFault) -> Fault
    ensures { result ≡ sim_fault fault }
{
    match fault {
        SimFault::ReadFailed => Fault::ReadFailed,
        SimFault::WriteFailed => Fault::WriteFailed,
        SimFault::Memory => Fault::Memory,
        SimFault::LongLine => Fault::LineTooLong,
        SimFault::TooManyTurns => Fault::TooManyReads,
    }
}

/// Serves tenants at a socket, and prints the usage where the server ends.
fn serve_tenants<R: Print + Threads + Wait + Sync + Files + Net>(
    rt: &R,
    alloc: Global,
    server: &Serve,
) -> Result<(), Fault>
    requires { IsInRange server.now }
{
    let mut sink = Writing::new(io::writer(rt));
    serve_socket(rt, alloc, server, &mut sink)
}

/// Prints what went wrong, with the name of which it tells, where standard error takes it, and answers the status for it. The
/// name stands in quotes, and what a terminal wouldn't show in it as escapes, so that it is one line whatever the name is.
fn tell(rt: &impl Eprint, fault: &Fault, name: Option<&str>) -> ExitCode
    ensures { exit_status result ≡ status_of fault.now }
{
    let (line, status) = fault_line(fault);
    let _ = match name {
        Some(name) => eprintln!(rt; "{line}: {name:?}"),
        None => eprintln!(rt; "{line}"),
    };
    ExitCode::from(status)
}
