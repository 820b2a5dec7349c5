//! The words that the program takes, as a command of `clap`.
ghost use Rattle.std.specs.Prelude.{◌≡◌, IfOk, false};
ghost use Rattle.clap.specs.Words.{app_of, rule_of, shape_of};
ghost use Rattle.clap.specs.declared.builder.command.Command.TheViews.{out-Command as fields_of};
ghost use Rattle.ot_subcommands.specs.Grammar.{program_words, session_words, explain_words, ask_words, save_words, restore_words, graph_words, c_words, judging_words, check_words, lines_words, call_rule, format_rule, code_rule, file_rule, name_rule, define_rule};

use clap::{Arg, ArgAction, Command, value_parser};
use ot_commands::{flag_arg, names_arg, socket_arg, with_subcommand};
use std::alloc::{AllocError, Global};

/// What `--version` prints behind the program's name.
const VERSION: &str = "0.1.0";

/// The greatest number that is looked up as a code.
pub(crate) const MAX_CODE: u32 = 999;

/// What `explain` writes.
const EXPLAIN_HELP: &str = "\
It reads a session of one tenant on standard input and writes what `omptaskd solo` writes. Behind each
refusal stand lines that begin with `# `: what its code means, and for a program what is wrong in it.
With --quiet these lines are written alone. The status is 3 where anything was refused.";

/// What `ask` does.
const ASK_HELP: &str = "\
It reads lines on standard input. Each is sent, and its reply is printed before the next one is read. At
the end of the lines, or behind a line [\"bye\"], it waits until the server has ended the session. A terminal
gets a prompt; of other input standard error tells at the end how many lines were answered and refused.
With --explain a request [\"list\"] goes first, and lines that begin with `# ` say what a refusal means.
The status is 3 where a line was refused, and 1 where the session couldn't be held.";

/// What `save` does.
const SAVE_HELP: &str = "\
It asks the server for the tenant's arrays, and writes a file of them on standard output: a session that makes
them again, and a line with the number of the next request, the used units, and a sum. The log begins anew.
The status is 4 where the tenant has another session, and 1 where the tenant couldn't be saved; take no file then.";

/// What `restore` does.
const RESTORE_HELP: &str = "\
It reads such a file on standard input, and makes the arrays at the server, where the tenant has none; it asks
for them then, and compares. Numbers and used units begin anew. A file that isn't whole is refused at once.
With --replace the tenant's arrays are freed first: so a restore that failed, or was killed, is made again.
The status is 4 where the tenant has another session, 3 where a line was refused, and 1 for other faults.";

/// What `graph` writes.
const GRAPH_HELP: &str = "\
It reads a session of one tenant on standard input, as `omptaskd solo` reads it, and writes a text for dot
of Graphviz: `omptask graph FILE.c | dot -Tsvg > FILE.svg` makes a picture. Each task is a node, and each wait a box.
A dashed edge leads from the task that creates or executes one to it, a solid one to a task from each that it waits
for by itself, with the cells, and a dotted one to a wait from each task that it awaits. Above 200 tasks standard error
tells how many there are. Where a statement of a program is refused (425 to 429), its tasks are drawn, with that
statement and the other one in red and a dashed red line between them; the status is 3.
Of a FILE in C the run is drawn as it is executed, up to the first race that is found: its two touches are red, with a
dashed red line between them. Standard error tells what is found, as `check --define` tells it, and the status is that
of `check --define`. Else the status is 1 where a line isn't taken, behind the last run too, or none runs a program.";

/// What `c` writes.
const C_HELP: &str = "\
It reads a session of one tenant on standard input, as `omptaskd solo` reads it, and writes a program that
compiles with -fopenmp, has the arrays as the run found them, and prints what the run shows.
The status is 1 where a line isn't taken, behind the last run too, or none runs a program.";

/// What `check` reads and writes.
const CHECK_HELP: &str = "\
A FILE whose name ends in .c is C with OpenMP: it is told which touches race as its tasks run with its numbers. Where it
means no program of the server, or --define is given, it is executed step by step, with each NAME=VALUE as a macro.
Any other FILE has requests over any number of lines, and comments from `//` to a line's end; what begins with \"program\"
or \"program2\" stands for the `run` of it. `-` is standard input, and a folder stands for each .c file below it.
Nothing of a FILE runs on the machine. What is found is told with its line of the source, in colours at a terminal
unless NO_COLOR is set. A FILE of requests begins with the arrays of --define; it makes others by its own requests.
The status is 3 where anything was refused or races, else 1 where a FILE couldn't be judged, else 4 where only the
run of a FILE was judged.";

/// What `lines` writes.
const LINES_HELP: &str = "\
It writes what `omptaskd solo` reads: of a FILE whose name ends in .c the requests that make its arrays and run it, of
any other FILE its requests. `-` is standard input. What of C isn't read is told on standard error, with status 1.";

/// What `--socket` is.
const SOCKET_HELP: &str = "Where the server's socket stands";

/// The program's command.
pub(crate) fn program_command<'a>(alloc: Global) -> Result<Command<'a>, AllocError>
    ensures { IfOk result (λ command. app_of command ≡ program_words) }
{
    let command = with_subcommand(session_command(alloc)?, graph_command(alloc))?;
    let command = command.subcommand(c_command(alloc))?;
    let command = with_subcommand(command, check_command(alloc))?;
    with_subcommand(command, lines_command(alloc))
}

/// The program's command, with the subcommands that hold a session, or explain one.
fn session_command<'a>(alloc: Global) -> Result<Command<'a>, AllocError>
    ensures { IfOk result (λ command. app_of command ≡ session_words) }
{
    let command = Command::new(alloc, "omptask")
        .about(
            "What omptaskd refuses, said in words, its runs as graphs and in C, and a client for people",
        )
        .version(VERSION)
        .subcommand_required(true);
    let command = with_subcommand(command, explain_command(alloc))?;
    let command = with_subcommand(command, ask_command(alloc))?;
    let command = with_subcommand(command, save_command(alloc))?;
    with_subcommand(command, restore_command(alloc))
}

fn explain_command<'a>(alloc: Global) -> Result<Command<'a>, AllocError>
    ensures words { IfOk result (λ command. shape_of command ≡ explain_words) }
    ensures own { IfOk result (λ command. (fields_of command).has_globals ≡ false) }
{
    Command::new(alloc, "explain")
        .about("Say what each refusal of a session means, or what one code means")
        .after_help(EXPLAIN_HELP)
        .arg(flag_arg(alloc, "quiet", "Write what is wrong alone, and no replies"))?
        .arg(code_arg(alloc))
}

fn ask_command<'a>(alloc: Global) -> Result<Command<'a>, AllocError>
    ensures words { IfOk result (λ command. shape_of command ≡ ask_words) }
    ensures own { IfOk result (λ command. (fields_of command).has_globals ≡ false) }
{
    Command::new(alloc, "ask")
        .about("Send lines to a server, and print its replies")
        .after_help(ASK_HELP)
        .arg(socket_arg(alloc, SOCKET_HELP))?
        .arg(flag_arg(
            alloc,
            "stop",
            "End the session behind the first line that is refused",
        ))?
        .arg(flag_arg(
            alloc,
            "explain",
            "Say behind each refusal what is wrong, as omptask explain does",
        ))?
        .arg(name_arg(alloc))
}

fn save_command<'a>(alloc: Global) -> Result<Command<'a>, AllocError>
    ensures words { IfOk result (λ command. shape_of command ≡ save_words) }
    ensures own { IfOk result (λ command. (fields_of command).has_globals ≡ false) }
{
    Command::new(alloc, "save")
        .about("Write a tenant of a server as a file")
        .after_help(SAVE_HELP)
        .arg(socket_arg(alloc, SOCKET_HELP))?
        .arg(name_arg(alloc))
}

fn restore_command<'a>(alloc: Global) -> Result<Command<'a>, AllocError>
    ensures words { IfOk result (λ command. shape_of command ≡ restore_words) }
    ensures own { IfOk result (λ command. (fields_of command).has_globals ≡ false) }
{
    Command::new(alloc, "restore")
        .about("Make a tenant of a server of its file")
        .after_help(RESTORE_HELP)
        .arg(socket_arg(alloc, SOCKET_HELP))?
        .arg(flag_arg(
            alloc,
            "replace",
            "Free the tenant's arrays first, where it has some",
        ))?
        .arg(name_arg(alloc))
}

fn graph_command<'a>(alloc: Global) -> Result<Command<'a>, AllocError>
    ensures words { IfOk result (λ command. shape_of command ≡ graph_words) }
    ensures own { IfOk result (λ command. (fields_of command).has_globals ≡ false) }
{
    Command::new(alloc, "graph")
        .about("Draw the last run of a session, or the run of a text in C, as a task graph")
        .after_help(GRAPH_HELP)
        .arg(file_arg(alloc))
}

fn file_arg<'a>(alloc: Global) -> Arg<'a>
    ensures rule { rule_of result ≡ file_rule }
    ensures own { result.global ≡ false }
{
    Arg::new(alloc, "file").value_name("FILE").help(
        "A text in C: its run is drawn, with the first race that is found in it",
    )
}

fn c_command<'a>(alloc: Global) -> Command<'a>
    ensures words { shape_of result ≡ c_words }
    ensures own { (fields_of result).has_globals ≡ false }
{
    Command::new(alloc, "c")
        .about("Write the last run of a session as C with OpenMP")
        .after_help(C_HELP)
}

fn check_command<'a>(alloc: Global) -> Result<Command<'a>, AllocError>
    ensures words { IfOk result (λ command. shape_of command ≡ check_words) }
    ensures own { IfOk result (λ command. (fields_of command).has_globals ≡ false) }
{
    judging_command(alloc)?
        .arg(format_arg(alloc))?
        .arg(flag_arg(alloc, "quiet", "Don't tell at the end how many files race"))?
        .arg(flag_arg(
            alloc,
            "races-only",
            "Don't tell what omptaskd refuses of a file in C that has no race",
        ))?
        .arg(names_arg(
            alloc,
            "file",
            "FILE",
            "The files or folders; - is standard input",
        ))
}

/// The words of `check` that say what is judged, but the files.
fn judging_command<'a>(alloc: Global) -> Result<Command<'a>, AllocError>
    ensures words { IfOk result (λ command. app_of command ≡ judging_words) }
    ensures own { IfOk result (λ command. (fields_of command).has_globals ≡ false) }
{
    Command::new(alloc, "check")
        .about("Say where files in C race, and requests are refused, with no program run")
        .after_help(CHECK_HELP)
        .arg(define_arg(alloc))?
        .arg(flag_arg(
            alloc,
            "lines",
            "Write the requests of the files, one a line, and judge nothing",
        ))?
        .arg(call_arg(alloc))
}

fn lines_command<'a>(alloc: Global) -> Result<Command<'a>, AllocError>
    ensures words { IfOk result (λ command. shape_of command ≡ lines_words) }
    ensures own { IfOk result (λ command. (fields_of command).has_globals ≡ false) }
{
    Command::new(alloc, "lines")
        .about("Write the requests of files, one a line, also of files in C")
        .after_help(LINES_HELP)
        .arg(call_arg(alloc))?
        .arg(names_arg(
            alloc,
            "file",
            "FILE",
            "The files or folders; - is standard input",
        ))
}

fn code_arg<'a>(alloc: Global) -> Arg<'a>
    ensures rule { rule_of result ≡ code_rule }
    ensures own { result.global ≡ false }
{
    Arg::new(alloc, "code")
        .value_name("CODE")
        .value_parser(value_parser!(u32).range(1..=999))
        .help("A code of a refusal, as 427: what it means, and no session")
}

fn name_arg<'a>(alloc: Global) -> Arg<'a>
    ensures rule { rule_of result ≡ name_rule }
    ensures own { result.global ≡ false }
{
    Arg::new(alloc, "name")
        .value_name("NAME")
        .required(true)
        .help("The tenant")
}

fn call_arg<'a>(alloc: Global) -> Arg<'a>
    ensures rule { rule_of result ≡ call_rule }
    ensures own { result.global ≡ false }
{
    Arg::new(alloc, "name")
        .long("name")
        .value_name("NAME")
        .help("What standard input is called, as race.c")
}

fn format_arg<'a>(alloc: Global) -> Arg<'a>
    ensures rule { rule_of result ≡ format_rule }
    ensures own { result.global ≡ false }
{
    Arg::new(alloc, "format")
        .long("format")
        .value_name("FORMAT")
        .help("How it is told: text, json, sarif or github")
}

fn define_arg<'a>(alloc: Global) -> Arg<'a>
    ensures rule { rule_of result ≡ define_rule }
    ensures own { result.global ≡ false }
{
    Arg::new(alloc, "define")
        .short('D')
        .long("define")
        .action(ArgAction::Append)
        .value_name("NAME=VALUE")
        .help("A macro of each file in C; of requests an array and its length; may be given again")
}
