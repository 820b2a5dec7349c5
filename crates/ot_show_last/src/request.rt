//! One line of a session: the book takes it, and its program is run.
ghost use Rattle.std.specs.Prelude.{◌≡◌, ◌++◌, ◌∷◌, ◌<◌, [], ℕ, List, Some, Err, length, OnOk, OnErr};
ghost use Rattle.ot_model.specs.Programs.{expanded_of};
ghost use Rattle.ot_store.specs.Arrays.{arrays_listed};
ghost use Rattle.ot_book.specs.Answers as replies;
ghost use Rattle.ot_book.specs.ReplyView.{told_of};
ghost use Rattle.ot_book.specs.Books.{IsOpenFor, request_closed, last_told};
ghost use Rattle.ot_show_last.specs.LastRuns.{run_with};
ghost use Rattle.ot_show_last.specs.declared.stop.Stop.TheVariants.{Memory};
ghost use Rattle.ot_show_last.specs.Going.{GoesOnHearing, GoesOrStops, run_in, told_result, TakesHeardLine};

use crate::fault::Untaken;
use crate::found::LastRun;
use crate::stop::Stop;
use ot_book::{Book, Executor, Opened, Solo, Told};
use ot_check::JobSpec;
use ot_lines::{Listener, is_bye};
use std::alloc::Global;

/// Takes the lines of a session into its book, and keeps its last run.
#[derive(Drop)]
pub(crate) struct Runner {
    pub alloc: Global,
}

impl Listener<Book, Option<LastRun>, Stop> for Runner {
    ghost took = { λ old last line new next result. TakesHeardLine old (run_in last) line new (run_in next) result };

    fn take(
        &mut self,
        book: &mut Book,
        last: &mut Option<LastRun>,
        line: &[u8],
    ) -> Result<(), Stop> {
        take_line(self.alloc, book, last, line)
    }
}

/// A whole line of the input.
fn take_line(
    alloc: Global,
    book: &mut Book,
    last: &mut Option<LastRun>,
    line: &[u8],
) -> Result<(), Stop>
    ensures { (bytes : List ℕ) → GoesOnHearing bytes line.now book.old (run_in last.old) →
        GoesOrStops (bytes ++ 10 ∷ []) [] book.new (run_in last.new) result }
{
    if is_bye(line) {
        return Err(Stop::Bye);
    }
    let number = book.next_number();
    let Ok(opened) = book.open(alloc, line) else {
        return Err(Stop::Memory);
    };
    match opened {
        Opened::Full => Err(Stop::Bad(number, Untaken::Full)),
        Opened::Answered => answered(book, number),
        Opened::ToRun(spec) => run(alloc, book, last, spec),
    }
}

/// What a line comes to that was answered at once, as the request of this number.
fn answered(book: &Book, number: u64) -> Result<(), Stop>
    requires { 0 < length book.now.log }
    ensures { (told : replies.Told) → last_told book.now ≡ Some told → result ≡ told_result told number }
{
    let Some(reply) = book.reply_at(book.log().len() - 1) else {
        unreachable!()
    };
    judge(reply.told, number)
}

/// What a line comes to that was told this.
fn judge(told: &Told, number: u64) -> Result<(), Stop>
    ensures { result ≡ told_result (told_of told.now) number }
{
    match told {
        Told::Lost => Err(Stop::Memory),
        Told::Refused(code) => Err(Stop::Bad(number, Untaken::Refused(code.number()))),
        Told::Offends(offence, place) => Err(Stop::Bad(
            number,
            Untaken::Offends(offence.code(), *place),
        )),
        _ => Ok(()),
    }
}

/// Runs a program, and keeps it as the last one.
fn run(
    alloc: Global,
    book: &mut Book,
    last: &mut Option<LastRun>,
    spec: JobSpec,
) -> Result<(), Stop>
    requires { IsOpenFor book.old spec }
    ensures closed { OnOk result (book.new ≡ request_closed book.old) }
    ensures last { OnOk result (run_in last.new ≡ Some (run_with (expanded_of spec.checked.program) (arrays_listed book.old.store) spec.before)) }
    ensures memory { OnErr result (result ≡ Err Memory) }
{
    let Ok(kept) = spec.copy(alloc) else {
        return Err(Stop::Memory);
    };
    let Ok(arrays) = book.store().list(alloc) else {
        return Err(Stop::Memory);
    };
    let Ok(outcome) = Solo.perform(alloc, &spec) else {
        return Err(Stop::Memory);
    };
    book.close(spec, outcome);
    *last = Some(LastRun { spec: kept, arrays });
    Ok(())
}
