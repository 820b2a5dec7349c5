//! A C text, judged over the program that stands for it.
ghost use Rattle.std.specs.Prelude.{◌≡◌, ◌++◌, [], ◌∷◌, map, IfOk, Some, Result};
ghost use Rattle.serde_json.specs.View.{view};
ghost use Rattle.ot_model.specs.View.{stmts_of};
ghost use Rattle.ot_model.specs.Cells.{lengths};
ghost use Rattle.ot_model.specs.Programs.{Expanded, IsNamedIn, expanded_of, array_lengths};
ghost use Rattle.ot_check.specs.Offences.{Offends, IsFirstOf};
ghost use Rattle.ot_file_diagnosis.specs.DiagnosisView.{remark_by, diagnosis_by};
ghost use Rattle.ot_program.specs.Returned.{Gives};
ghost use Rattle.ot_program.specs.declared.fault.Refusal.{Refusal};
ghost use Rattle.ot_c_judge.specs.SiteView.{site_by, source_by};
ghost use Rattle.ot_c_judge.specs.Fits.{Fits};
ghost use Rattle.ot_c_judge.specs.Start.{starting_cells as begun};
ghost use Rattle.ot_c_judge.specs.Lacks.{lacks};
ghost use Rattle.ot_c_judge.specs.Reports.{Reports, ReportsRead, ReportsProgram, ReportsRun, ReportsFinding, has_red_items, run_of, told_by};
ghost use Rattle.ot_c_judge.specs.Reports as meant;

use crate::c_program::CProgram;
use crate::doing::done_at;
use crate::finding::{Finding, find};
use crate::found::find_in;
use crate::lacks::lacks_by;
use crate::line::cell_text;
use crate::report::{Report, Verdict};
use crate::source::{Site, Source};
use crate::start::{cells_of, shape_of};
use crate::telling::{advice, here_told, more_races, only_run, other_told, refused};
use ot_c_names::CArray;
use ot_c_overlap::first_overlap;
use ot_check::{Offence, first_offence};
use ot_file_diagnosis::{Code, Diagnosis, Remark, Severity};
use ot_model::{Cells, Program, Shape, Use};
use ot_program::{ProgramFault, read_program};
use ot_race::Race;
use ot_race_all::Races;
use ot_race_order::Order;
use serde_json::Value;
use std::alloc::{AllocError, Global};

/// Judges a C text of this name over the program that stands for it, as it runs with the C's numbers and on all ways through its
/// branches, and tells what is found. Nothing is told where the program can't be judged.
pub fn report_c(
    alloc: Global,
    name: &str,
    text: &[u8],
    lowered: CProgram,
) -> Result<Option<Report>, AllocError>
    ensures { IfOk result (λ told. Reports name.now text.now lowered (told_by told)) }
{
    let CProgram {
        arrays,
        program,
        places,
        order,
    } = lowered;
    let given = arrays.as_slice();
    let shape = shape_of(alloc, given)?;
    let read = read_program(alloc, &program, &shape);
    let request = run_of(alloc, program)?;
    let names = shape.arrays();
    let bytes = places.as_slice();
    let source = Source {
        name,
        text,
        request: &request,
        arrays: names,
        places: bytes,
        order,
    };
    report_read(alloc, &source, &shape, arrays, read)
}

/// What is told of a program over these arrays, where it is read. Of one that isn't, nothing is, and the cells aren't asked for.
fn report_read(
    alloc: Global,
    source: &Source<'_>,
    shape: &Shape,
    arrays: Vec<CArray>,
    read: Result<Program, ProgramFault>,
) -> Result<Option<Report>, AllocError>
    requires named { IfOk read (λ program. IsNamedIn (array_lengths shape.now) (expanded_of program)) }
    requires cells { lengths (begun arrays.items) ≡ array_lengths shape.now }
    ensures { (program : Result Expanded Refusal) → Gives expanded_of read program → IfOk result (λ told. ReportsRead (source_by source.now) (begun arrays.items) program (told_by told)) }
{
    match read {
        Ok(program) => report_with_cells(alloc, source, shape, program, arrays),
        Err(ProgramFault::Refused(_)) => Ok(None),
        Err(ProgramFault::Memory) => Err(AllocError),
    }
}

/// What is told of a program over these arrays, which begins with their cells.
fn report_with_cells(
    alloc: Global,
    source: &Source<'_>,
    shape: &Shape,
    program: Program,
    arrays: Vec<CArray>,
) -> Result<Option<Report>, AllocError>
    requires named { IsNamedIn (array_lengths shape.now) (expanded_of program) }
    requires cells { lengths (begun arrays.items) ≡ array_lengths shape.now }
    ensures { IfOk result (λ told. ReportsProgram (source_by source.now) (begun arrays.items) (stmts_of program.body.items) (told_by told)) }
{
    let cells = cells_of(alloc, arrays)?;
    report_program(alloc, source, shape, program, cells)
}

/// The request that runs a program.
fn run_of(alloc: Global, program: Value) -> Result<Value, AllocError>
    ensures { IfOk result (λ request. view request ≡ run_of (view program)) }
{
    let word = Value::String(String::from_str(alloc, "run")?);
    Ok(Value::Array(vec![in alloc; word, program]?))
}

/// What is told of a program over these arrays that begins with these cells. Where items of which one writes overlap in part C doesn't
/// say how they order, and nothing is told.
fn report_program(
    alloc: Global,
    source: &Source<'_>,
    shape: &Shape,
    program: Program,
    cells: Cells,
) -> Result<Option<Report>, AllocError>
    requires named { IsNamedIn (array_lengths shape.now) (expanded_of program) }
    requires cells { lengths cells ≡ array_lengths shape.now }
    ensures { IfOk result (λ told. ReportsProgram (source_by source.now) cells (stmts_of program.body.items) (told_by told)) }
{
    match first_overlap(
        alloc,
        source.request,
        source.arrays,
        has_red_items(source.order),
    )? {
        Some(_) => Ok(None),
        None => {
            let report = report_run(alloc, source, shape, &program, cells)?;
            Ok(Some(report))
        }
    }
}

/// Whether `red` is an item of a `depend` clause.
fn has_red_items(order: Order) -> bool
    ensures { result ≡ has_red_items order }
{
    match order {
        Order::OfCByPointers => true,
        Order::OfLanguage | Order::OfC => false,
    }
}

/// What is told of a program in which no items of which one writes overlap in part. What a server refuses is asked first: a
/// program that isn't refused may race nowhere.
fn report_run(
    alloc: Global,
    source: &Source<'_>,
    shape: &Shape,
    program: &Program,
    cells: Cells,
) -> Result<Report, AllocError>
    requires named { IsNamedIn (array_lengths shape.now) (expanded_of program.now) }
    requires cells { lengths cells ≡ array_lengths shape.now }
    ensures { IfOk result (λ report. ReportsRun (source_by source.now) cells (stmts_of program.now.body.items) report.verdict (map diagnosis_by report.found.items)) }
{
    let first = first_offence(alloc, program, shape)?;
    let finding = find(alloc, source.order, program, cells, first)?;
    report_finding(alloc, source, program, first, finding)
}

/// What is told of what is found, and of the first offence, with its place.
fn report_finding(
    alloc: Global,
    source: &Source<'_>,
    program: &Program,
    first: Option<(u32, Offence)>,
    finding: Finding,
) -> Result<Report, AllocError>
    requires { Fits (stmts_of program.now.body.items) }
    ensures { IsFirstOf (Offends (stmts_of program.now.body.items)) first
        → IfOk result (λ report. ReportsFinding (source_by source.now) (stmts_of program.now.body.items) finding report.verdict (map diagnosis_by report.found.items)) }
{
    match finding {
        Finding::InRun(races) => report_races(alloc, source, program, &races),
        Finding::OnWay(race) => report_race(alloc, source, program, race),
        Finding::Nowhere => {
            let found = refusals(alloc, source, program, "no race", first)?;
            Ok(Report {
                verdict: Verdict::Clean,
                found,
            })
        }
        Finding::OnlyRun => report_only_run(alloc, source, program, first),
    }
}

/// What is told of the races of a run.
fn report_races(
    alloc: Global,
    source: &Source<'_>,
    program: &Program,
    races: &Races,
) -> Result<Report, AllocError>
    requires { Fits (stmts_of program.now.body.items) }
    ensures verdict { IfOk result (λ report. report.verdict ≡ Verdict.Races) }
    ensures found { IfOk result (λ report. map diagnosis_by report.found.items ≡ meant.races_found (source_by source.now) (stmts_of program.now.body.items) races.now) }
{
    let mut found = races_told(alloc, source, program, races.told.as_slice())?;
    let mut more = more_races(alloc, races.more)?;
    found.append(&mut more)?;
    Ok(Report {
        verdict: Verdict::Races,
        found,
    })
}

fn races_told(
    alloc: Global,
    source: &Source<'_>,
    program: &Program,
    races: &[Race],
) -> Result<Vec<Diagnosis>, AllocError>
    requires { Fits (stmts_of program.now.body.items) }
    ensures { IfOk result (λ found. map diagnosis_by found.items ≡ map (meant.race_found (source_by source.now) (stmts_of program.now.body.items) meant.in_run) races.now) }
{
    let known = "with these numbers nothing orders the two";
    let mut found = Vec::new(alloc);
    for race in races {
        found.push(race_found(alloc, source, program, known, *race)?)?;
    }
    Ok(found)
}

/// What is told of a race of a way.
fn report_race(
    alloc: Global,
    source: &Source<'_>,
    program: &Program,
    race: Race,
) -> Result<Report, AllocError>
    requires { Fits (stmts_of program.now.body.items) }
    ensures verdict { IfOk result (λ report. report.verdict ≡ Verdict.Races) }
    ensures found { IfOk result (λ report. map diagnosis_by report.found.items ≡ meant.race_found (source_by source.now) (stmts_of program.now.body.items) meant.on_path race ∷ []) }
{
    let race = race_found(alloc, source, program, "some path has both", race)?;
    let mut found = Vec::new(alloc);
    found.push(race)?;
    Ok(Report {
        verdict: Verdict::Races,
        found,
    })
}

/// A race: the touch that comes later in the serial run, and the other one as its note, with what is known of the two.
fn race_found(
    alloc: Global,
    source: &Source<'_>,
    program: &Program,
    known: &str,
    race: Race,
) -> Result<Diagnosis, AllocError>
    requires { Fits (stmts_of program.now.body.items) }
    ensures { IfOk result (λ found. diagnosis_by found ≡ meant.race_found (source_by source.now) (stmts_of program.now.body.items) known.now race) }
{
    let here = source.site_of(alloc, race.later)?;
    let other = source.site_of(alloc, race.place)?;
    let told = race_told(alloc, source, program, &here, &other, race)?;
    let mut notes = Vec::new(alloc);
    notes.push(other_told(alloc, &other, known)?)?;
    Ok(Diagnosis {
        severity: Severity::Error,
        code: Code::Race,
        told,
        notes,
    })
}

/// What is said of a race whose touches stand at these sites.
fn race_told(
    alloc: Global,
    source: &Source<'_>,
    program: &Program,
    here: &Site<'_>,
    other: &Site<'_>,
    race: Race,
) -> Result<Remark, AllocError>
    requires { Fits (stmts_of program.now.body.items) }
    ensures { IfOk result (λ told. remark_by told
        ≡ meant.race_told (source_by source.now) (stmts_of program.now.body.items) (site_by here.now) (site_by other.now) race) }
{
    let cell = cell_text(alloc, source.arrays, race.cell)?;
    let one = done_at(program, race.later, race.cell);
    let two = done_at(program, race.place, race.cell);
    here_told(alloc, source.name, cell.as_str(), here, one, other, two)
}

/// What is told of a program whose run alone was judged, and doesn't race.
fn report_only_run(
    alloc: Global,
    source: &Source<'_>,
    program: &Program,
    first: Option<(u32, Offence)>,
) -> Result<Report, AllocError>
    requires { Fits (stmts_of program.now.body.items) }
    ensures verdict { IfOk result (λ report. report.verdict ≡ Verdict.OnlyRun) }
    ensures found { IfOk result (λ report. map diagnosis_by report.found.items
        ≡ meant.refusals (source_by source.now) (stmts_of program.now.body.items) meant.none_in_run first ++ meant.only_run ∷ []) }
{
    let known = "with these numbers nothing races";
    let mut found = refusals(alloc, source, program, known, first)?;
    found.push(only_run(alloc)?)?;
    Ok(Report {
        verdict: Verdict::OnlyRun,
        found,
    })
}

/// What is told of the first offence of a program, with its place, where there is one; this is known of its races.
fn refusals(
    alloc: Global,
    source: &Source<'_>,
    program: &Program,
    known: &str,
    first: Option<(u32, Offence)>,
) -> Result<Vec<Diagnosis>, AllocError>
    requires { Fits (stmts_of program.now.body.items) }
    ensures { IfOk result (λ found. map diagnosis_by found.items ≡ meant.refusals (source_by source.now) (stmts_of program.now.body.items) known.now first) }
{
    let mut found = Vec::new(alloc);
    if let Some((place, offence)) = first {
        found.push(refusal(alloc, source, program, known, offence, place)?)?;
    }
    Ok(found)
}

/// What is told of an offence.
fn refusal(
    alloc: Global,
    source: &Source<'_>,
    program: &Program,
    known: &str,
    offence: Offence,
    place: u32,
) -> Result<Diagnosis, AllocError>
    requires { Fits (stmts_of program.now.body.items) }
    ensures { IfOk result (λ found. diagnosis_by found ∷ [] ≡ meant.refusals (source_by source.now) (stmts_of program.now.body.items) known.now (Some (place, offence))) }
{
    let site = source.site_of(alloc, place)?;
    let used = lacking(program, place, offence);
    let words = advice(alloc, source.arrays, offence, used)?;
    refused(alloc, &site, known, words.as_str(), offence.code())
}

/// What the task around a statement lacks, where that is its offence.
fn lacking(program: &Program, place: u32, offence: Offence) -> Option<Use>
    requires { Fits (stmts_of program.now.body.items) }
    ensures { result ≡ lacks (stmts_of program.now.body.items) place offence }
{
    match find_in(&program.body, place, 1, None) {
        Ok(_) => None,
        Err(stood) => lacks_by(offence, stood),
    }
}
