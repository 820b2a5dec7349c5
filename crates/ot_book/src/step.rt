ghost use Rattle.std.specs.Prelude.{◌≡◌, Some, None, IfOk, IfErr, OnErr, map, length, option_map, option_and_then};
ghost use Rattle.serde_json.specs.View.{view};
ghost use Rattle.std.specs.Arc.{arc_value};
ghost use Rattle.ot_model.specs.Cells.{lengths};
ghost use Rattle.ot_model.specs.Programs.{expanded_of, IsNamedIn};
ghost use Rattle.ot_program.specs.Programs.{program_of};
ghost use Rattle.ot_store.specs.Arrays.{cells_in, shape_in};
ghost use Rattle.ot_book.specs.Answers.{parse_step, perform_step, program_step, is_checkpoint};
ghost use Rattle.ot_book.specs.Considering.{ComesToAnswer, ComesTo};
ghost use Rattle.ot_book.specs.Requests.{Run, IsProper, request_of, asks_checkpoint};
ghost use Rattle.ot_book.specs.RequestView.{asked_by};
ghost use Rattle.ot_book.specs.declared.code.Code.TheVariants.{NotJson};
ghost use Rattle.ot_book.specs.declared.told.Told.TheVariants.{Refused, Lost};

use crate::code::Code;
use crate::reading::read_line;
use crate::request::{Request, asks_checkpoint, read_request};
use crate::told::Told;
use ot_check::laws::first_offence_is_first;
use ot_check::{Checked, JobSpec, check};
use ot_model::Section;
use ot_program::read_program;
use ot_store::{Limits, Store};
use serde_json::Value;
use std::alloc::{AllocError, Global};
use std::sync::Arc;

/// What a line comes to before it is logged.
#[derive(Debug, Drop)]
pub(crate) enum Considered {
    /// It is answered at once.
    Now(Told),
    /// It runs a program, whose reply has these lists.
    Runs(JobSpec, Vec<Vec<u64>>),
}

/// Takes the value of a line as the next request, after done replies of `used` units. Where memory
/// runs out nothing has changed.
pub(crate) fn consider(
    alloc: Global,
    limits: &Limits,
    store: &mut Store,
    used: u64,
    value: &Option<Value>,
) -> Considered
    ensures { ComesTo (parse_step limits.now store.old used (option_map view value.now)) store.old store.new result }
{
    match attempt(alloc, limits, store, used, value) {
        Ok(considered) => considered,
        Err(told) => Considered::Now(told),
    }
}

/// An error is what is told of a request that is refused, and changes nothing.
fn attempt(
    alloc: Global,
    limits: &Limits,
    store: &mut Store,
    used: u64,
    value: &Option<Value>,
) -> Result<Considered, Told>
    ensures ok { IfOk result (λ considered. ComesTo (parse_step limits.now store.old used (option_map view value.now)) store.old store.new considered) }
    ensures refused { IfErr result (λ told. ComesToAnswer (parse_step limits.now store.old used (option_map view value.now)) store.old store.new told) }
{
    let Some(value) = value else {
        return Err(Told::Refused(Code::NotJson));
    };
    let Some(request) = read_request(alloc, value)? else {
        return Err(Told::Refused(Code::NotRequest));
    };
    perform(alloc, limits, store, used, request)
}

/// Whether a line asks for a checkpoint.
pub fn is_checkpoint(alloc: Global, line: &[u8]) -> Result<bool, AllocError>
    ensures { IfOk result (λ yes. yes ≡ is_checkpoint line.now) }
{
    let value = read_line(alloc, line)?;
    Ok(wants_checkpoint(&value))
}

/// Whether the value of a line asks for a checkpoint.
pub(crate) fn wants_checkpoint(value: &Option<Value>) -> bool
    ensures { result ≡ asks_checkpoint (option_and_then request_of (option_map view value.now)) }
{
    match value {
        Some(value) => asks_checkpoint(value),
        None => false,
    }
}

fn perform(
    alloc: Global,
    limits: &Limits,
    store: &mut Store,
    used: u64,
    request: Request<'_>,
) -> Result<Considered, Told>
    requires { IsProper (asked_by request) }
    ensures ok { IfOk result (λ considered. ComesTo (perform_step limits.now store.old used (asked_by request.entry)) store.old store.new considered) }
    ensures refused { IfErr result (λ told. ComesToAnswer (perform_step limits.now store.old used (asked_by request.entry)) store.old store.new told) }
{
    match request {
        Request::New(name, len) => {
            store.create(alloc, name, len, limits)?;
            Ok(Considered::Now(Told::Accepted))
        }
        Request::Free(name) => {
            store.free(name)?;
            Ok(Considered::Now(Told::Accepted))
        }
        Request::Put(name, start, values) => {
            store.put(name, start, values.as_slice())?;
            Ok(Considered::Now(Told::Accepted))
        }
        Request::Get(name, start, len) => {
            let values = store.get(alloc, name, start, len)?;
            Ok(Considered::Now(Told::Cells(values)))
        }
        Request::Arrays => Ok(Considered::Now(Told::Arrays(store.list(alloc)?))),
        Request::Used => Ok(Considered::Now(Told::Used(used))),
        Request::Checkpoint => Ok(Considered::Now(Told::Accepted)),
        Request::Run(text) => start(alloc, limits, store, text),
    }
}

/// Reads a program over the arrays of the store, checks that it can't race, and makes room for its
/// reply.
fn start(alloc: Global, limits: &Limits, store: &Store, text: &Value) -> Result<Considered, Told>
    ensures ok { IfOk result (λ considered.
        ComesTo (program_step store.now (program_of (shape_in limits.now store.now) (view text.now))) store.now store.now considered) }
    ensures refused { IfErr result (λ told.
        ComesToAnswer (program_step store.now (program_of (shape_in limits.now store.now) (view text.now))) store.now store.now told) }
{
    let shape = store.shape(alloc, limits)?;
    let program = read_program(alloc, text, &shape)?;
    first_offence_is_first();
    let checked = check(alloc, program, &shape)?;
    let shared = Arc::new(alloc, checked)?;
    let (spec, shows) = job_over(alloc, store, shared)?;
    Ok(Considered::Runs(spec, shows))
}

/// The job of a checked program over the arrays of the store, and the lists of its reply.
pub(crate) fn job_over(
    alloc: Global,
    store: &Store,
    checked: Arc<Checked>,
) -> Result<(JobSpec, Vec<Vec<u64>>), AllocError>
    requires { IsNamedIn (lengths (cells_in store.now)) (expanded_of (arc_value checked).program) }
    ensures checked { IfOk result (λ made. made.0.checked ≡ arc_value checked) }
    ensures before { IfOk result (λ made. made.0.before ≡ cells_in store.now) }
    ensures shows { IfOk result (λ made. map (λ l. length l.items) made.1.items ≡ map (λ s. s.len) (arc_value checked).program.shows.items) }
{
    let cells = store.cells(alloc)?;
    let before = Arc::new(alloc, cells)?;
    let shows = empty_lists(alloc, &checked.program.shows)?;
    Ok((JobSpec::new(checked, before), shows))
}

/// A list for each section, as long as it is.
fn empty_lists(alloc: Global, sections: &Vec<Section>) -> Result<Vec<Vec<u64>>, AllocError>
    ensures { IfOk result (λ lists. map (λ l. length l.items) lists.items ≡ map (λ s. s.len) sections.now.items) }
{
    let mut lists = Vec::with_capacity(alloc, sections.len())?;
    for section in sections {
        lists.push(vec![in alloc; 0u64; section.len as usize]?)?;
    }
    Ok(lists)
}
