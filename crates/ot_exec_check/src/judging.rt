//! A text, executed and judged.
use crate::drawing::drawn;
use crate::placing::origin_of;
use crate::reason::of_run;
use crate::telling::{
    Source, more_races, of_file, outside, put_note, race_found, with_assumed, wrong,
};
use ot_exec_code::Form;
use ot_exec_machine::{Fault, Limits, Reason, Run, run_code};
use ot_exec_reading::{Given, Placed, Read, Reading, byte_of, reading_of};
use ot_exec_tokens::Whole;
use ot_exec_verdict::{Bounds, Finding, finding_of};
use ot_file_diagnosis::{Code, Diagnosis, Severity};
use ot_race::Race;
use ot_race_all::{More, Races};
use std::alloc::{AllocError, Global};
use std::collections::BTreeSet;
use std::mem;

/// What is told of a text.
#[derive(Clone, Copy, Debug, PartialEq, Eq)]
pub enum Verdict {
    /// Nothing races on any way.
    Clean,
    /// Nothing races in its run, and of its other ways nothing is known.
    OnlyRun,
    /// Two touches race, or what has ended may be touched.
    Races,
    /// It isn't judged.
    Outside,
}

/// What is told of a text, and what is found in it.
#[derive(Drop)]
pub struct Judged {
    pub verdict: Verdict,
    pub found: Vec<Diagnosis>,
    /// The picture of the first race, where one is asked for.
    pub(crate) picture: Option<Vec<u8>>,
}

/// How many races are told.
const MOST: usize = 20;

const TOO_MANY_WAYS: &str = "it has more ways than are judged: nothing is known of this condition";

const TOO_MUCH_CHANGES: &str = "too many variables are written under locks";

const APART: &str = "the threads of this team come to different barriers";

const ORPHAN: &str =
    "what a team does together is executed in a function only where the text of the region calls it by a statement of its own";

const CROWDED: &str = "a cell is touched under too many sets of locks";

/// The same of two touches under locks.
const IN_RUN_APART: &str =
    "with these numbers nothing orders the two, and they hold no lock in common";

/// What is known of a race of the run with the text's own numbers.
const IN_RUN: &str = "with these numbers nothing orders the two";

const ON_WAY: &str = "some path has both";

const ONLY_RUN: &str =
    "only the run with these numbers was judged: other numbers in memory may take other ways, and there are too many";

/// What is taken for each number that a text is given.
const GIVEN: u32 = 8;

/// How many words a command has that gives some, one number after the other.
const WORDS: [u32; 3] = [2, 3, 9];

/// What is known where nothing races so.
const ONLY_GIVEN: &str = "only the run with numbers that it may be given was judged";

const AS_GIVEN: &str =
    "judged as if each number that it reads, or that a word of its command is, were 8";

/// How many steps one of several ways takes at most.
const STEPS: u32 = 1_000_000;

/// How far code is executed.
fn bounds() -> Bounds {
    Bounds {
        run: Limits::usual(),
        way: Limits {
            steps: STEPS,
            ..Limits::usual()
        },
    }
}

/// Executes a text, with those of the files that it includes, behind definitions of a command line, each `NAME=VALUE` or `NAME`, and
/// judges what its tasks touch. Where that isn't judged, or creates no task, and the text may be given numbers, it is judged with some.
pub fn judge_run(
    alloc: Global,
    definitions: &[String],
    whole: &Whole,
) -> Result<Judged, AllocError> {
    let (judged, idles) = judge_given(alloc, definitions, whole, None)?;
    if !idles || matches!(judged.verdict, Verdict::Clean | Verdict::Races) {
        return Ok(judged);
    }
    let mut best = judged;
    for words in WORDS {
        let given = Given {
            words,
            number: GIVEN,
        };
        let (other, _) = judge_given(alloc, definitions, whole, Some(given))?;
        match other.verdict {
            Verdict::Races => return with_given(alloc, other, Verdict::Races),
            Verdict::Clean | Verdict::OnlyRun if best.verdict == Verdict::Outside => {
                best = with_given(alloc, other, Verdict::OnlyRun)?;
            }
            _ => {}
        }
    }
    Ok(best)
}

/// Judges a text as it runs where this is given, and tells whether it may be given something, and creates no task as it is.
fn judge_given(
    alloc: Global,
    definitions: &[String],
    whole: &Whole,
    given: Option<Given>,
) -> Result<(Judged, bool), AllocError> {
    match reading_of(alloc, definitions, whole, given)? {
        Read::Outside(byte, words) => {
            let found = outside(alloc, whole, byte, words)?;
            Ok((one_found(alloc, Verdict::Outside, found)?, false))
        }
        Read::Whole(reading, placed) => {
            let of = Of {
                whole,
                reading: &reading,
                draws: false,
            };
            let idles = reading.is_given && idles(alloc, &placed)?;
            let judged = judge(alloc, of, placed)?;
            Ok((with_assumed(alloc, &reading, judged)?, idles))
        }
    }
}

/// Whether no task is created in the run, or it can't go on.
fn idles(alloc: Global, placed: &Placed) -> Result<bool, AllocError> {
    let none = Vec::new(alloc);
    let run = run_code(alloc, &placed.code, Limits::usual(), &none)?;
    Ok(!run.log.iter().any(|event| event.task > 0))
}

/// What is judged with numbers that the text is given.
fn with_given(alloc: Global, judged: Judged, verdict: Verdict) -> Result<Judged, AllocError> {
    let mut judged = judged;
    if judged.verdict == Verdict::Clean {
        let words = String::from_str(alloc, ONLY_GIVEN)?;
        let mut found = Vec::new(alloc);
        found.push(of_file(alloc, Code::OnlyRun, words))?;
        found.append(&mut judged.found)?;
        judged.found = found;
    }
    judged.verdict = verdict;
    put_note(alloc, &mut judged.found, String::from_str(alloc, AS_GIVEN)?)?;
    Ok(judged)
}

/// What is told of a text, what is found in it, and its picture: of its run up to the first race that is found, or of the whole run
/// where it doesn't race. There is none of a text that isn't judged.
#[derive(Drop)]
pub struct Drawn {
    pub verdict: Verdict,
    pub found: Vec<Diagnosis>,
    /// A digraph in the language of `dot`.
    pub picture: Option<Vec<u8>>,
}

/// Executes a text, with those of the files that it includes, judges what its tasks touch, and draws them.
pub fn draw_run(alloc: Global, whole: &Whole) -> Result<Drawn, AllocError> {
    let judged = match reading_of(alloc, &[], whole, None)? {
        Read::Outside(byte, words) => {
            let found = outside(alloc, whole, byte, words)?;
            one_found(alloc, Verdict::Outside, found)?
        }
        Read::Whole(reading, placed) => {
            let of = Of {
                whole,
                reading: &reading,
                draws: true,
            };
            let picture = whole_picture(alloc, of, &placed)?;
            let judged = judge(alloc, of, placed)?;
            with_picture(with_assumed(alloc, &reading, judged)?, picture)
        }
    };
    let Judged {
        verdict,
        found,
        picture,
    } = judged;
    Ok(Drawn {
        verdict,
        found,
        picture,
    })
}

/// The picture of a run that no race ends, if it comes to its end.
fn whole_picture(
    alloc: Global,
    of: Of<'_>,
    placed: &Placed,
) -> Result<Option<Vec<u8>>, AllocError> {
    let none = Vec::new(alloc);
    let run = run_code(alloc, &placed.code, Limits::usual(), &none)?;
    if run.fault.is_some() {
        return Ok(None);
    }
    let picture = drawn(alloc, &of.source(&run), None)?;
    Ok(Some(picture))
}

/// The same of what was judged, with this picture where it has no race.
fn with_picture(judged: Judged, whole: Option<Vec<u8>>) -> Judged {
    let Judged {
        verdict,
        found,
        picture,
    } = judged;
    let picture = match verdict {
        Verdict::Races => picture,
        Verdict::Clean | Verdict::OnlyRun => whole,
        Verdict::Outside => None,
    };
    Judged {
        verdict,
        found,
        picture,
    }
}

/// What is judged: a text with those of the files that it includes, and what they are read as.
#[derive(Clone, Copy)]
struct Of<'a> {
    whole: &'a Whole,
    reading: &'a Reading,
    /// Whether a race is drawn.
    draws: bool,
}

impl<'a> Of<'a> {
    fn source<'b>(&self, run: &'b Run) -> Source<'b>
    where
        'a: 'b,
    {
        Source {
            whole: self.whole,
            reading: self.reading,
            run,
        }
    }
}

fn one_found(alloc: Global, verdict: Verdict, one: Diagnosis) -> Result<Judged, AllocError> {
    let mut found = Vec::new(alloc);
    found.push(one)?;
    Ok(Judged {
        verdict,
        found,
        picture: None,
    })
}

/// Judges code. Where its run can't go on, what happens before is judged alone: a race there is one whatever stands behind.
fn judge(alloc: Global, of: Of<'_>, placed: Placed) -> Result<Judged, AllocError> {
    let mut placed = placed;
    let parameters = of.reading.parameters(alloc)?;
    let closed = of.reading.closed(alloc)?;
    let found = finding_of(alloc, &mut placed.code, bounds(), &parameters, &closed)?;
    let Some(at) = stop_of(of, &found) else {
        return told(alloc, of, &placed, found);
    };
    let Some(form) = placed.code.forms.get_mut(at) else {
        return told(alloc, of, &placed, found);
    };
    let form = mem::replace(form, Form::Stop);
    let before = finding_of(alloc, &mut placed.code, bounds(), &parameters, &closed)?;
    let before = races_in(alloc, of, &placed, before)?;
    if let Some(place) = placed.code.forms.get_mut(at) {
        *place = form;
    }
    let stop = told(alloc, of, &placed, found)?;
    match before {
        Some(judged) => with_stop(alloc, judged, stop),
        None => Ok(stop),
    }
}

/// The form at which a run can't go on, where what was made of the text up to there is what the text does.
fn stop_of(of: Of<'_>, found: &Finding) -> Option<usize> {
    match found {
        Finding::Ended(fault) => {
            let is_made = !is_among(of.reading.apart.as_slice(), fault.at)
                && !is_among(of.reading.orphans.as_slice(), fault.at);
            if is_made && fault.reason != Reason::Ended {
                Some(fault.at)
            } else {
                None
            }
        }
        Finding::TooManyWays(at) => Some(*at),
        _ => None,
    }
}

/// What is told of races, where some are found.
fn races_in(
    alloc: Global,
    of: Of<'_>,
    placed: &Placed,
    found: Finding,
) -> Result<Option<Judged>, AllocError> {
    let judged = told(alloc, of, placed, found)?;
    if judged.verdict == Verdict::Races {
        Ok(Some(judged))
    } else {
        Ok(None)
    }
}

/// What is told of races before a place behind which nothing is judged, and of that.
fn with_stop(alloc: Global, judged: Judged, stop: Judged) -> Result<Judged, AllocError> {
    let mut judged = judged;
    for one in stop.found {
        let mut one = one;
        one.severity = Severity::Note;
        let message = one.told.message.as_str();
        one.told.message = format!(in alloc; "{message}: what happens behind it isn't judged")?;
        judged.found.push(one)?;
    }
    Ok(judged)
}

/// What is told of a finding.
fn told(alloc: Global, of: Of<'_>, placed: &Placed, found: Finding) -> Result<Judged, AllocError> {
    match found {
        Finding::Nothing(_) => Ok(clean(alloc)),
        Finding::OnlyRun(_) => only_run(alloc),
        Finding::InRun(run, races) => all_races(alloc, of, &run, &races),
        Finding::Apart(run, race) => one_race(alloc, of, &run, race, IN_RUN_APART),
        Finding::OnWay(run, race) | Finding::OnOtherWay(run, race) => {
            one_race(alloc, of, &run, race, ON_WAY)
        }
        Finding::Ended(fault) => ended(alloc, of, placed, fault),
        Finding::TooManyWays(at) => at_form(alloc, of, placed, at, TOO_MANY_WAYS),
        Finding::Crowded => at_form(alloc, of, placed, 0, CROWDED),
        Finding::TooManyChanges => at_form(alloc, of, placed, 0, TOO_MUCH_CHANGES),
    }
}

fn only_run(alloc: Global) -> Result<Judged, AllocError> {
    let words = String::from_str(alloc, ONLY_RUN)?;
    one_found(
        alloc,
        Verdict::OnlyRun,
        of_file(alloc, Code::OnlyRun, words),
    )
}

/// A race alone.
fn one_race(
    alloc: Global,
    of: Of<'_>,
    run: &Run,
    race: Race,
    known: &str,
) -> Result<Judged, AllocError> {
    let found = race_found(alloc, &of.source(run), known, race)?;
    let mut judged = one_found(alloc, Verdict::Races, found)?;
    judged.picture = picture_of(alloc, of, run, race)?;
    Ok(judged)
}

/// The picture of a race, where one is asked for.
fn picture_of(
    alloc: Global,
    of: Of<'_>,
    run: &Run,
    race: Race,
) -> Result<Option<Vec<u8>>, AllocError> {
    if !of.draws {
        return Ok(None);
    }
    let picture = drawn(alloc, &of.source(run), Some(race))?;
    Ok(Some(picture))
}

/// The races of a run, each pair of places in the text once, in the order of the later touch.
fn all_races(alloc: Global, of: Of<'_>, run: &Run, races: &Races) -> Result<Judged, AllocError> {
    let source = &of.source(run);
    let mut pairs = BTreeSet::new(alloc);
    let mut found = Vec::new(alloc);
    let mut more: u64 = 0;
    for race in &races.told {
        if !pairs.insert(source.pair_of(*race))? {
            continue;
        }
        if found.len() < MOST {
            found.push(race_found(alloc, source, IN_RUN, *race)?)?;
        } else {
            more = more.saturating_add(1);
        }
    }
    let more = match races.more {
        More::Exactly(0) => More::Exactly(more),
        _ => More::AtLeast(more),
    };
    if let Some(more) = more_races(alloc, more)? {
        found.push(more)?;
    }
    let picture = match races.told.first() {
        Some(race) => picture_of(alloc, of, run, *race)?,
        None => None,
    };
    Ok(Judged {
        verdict: Verdict::Races,
        found,
        picture,
    })
}

fn clean(alloc: Global) -> Judged {
    Judged {
        verdict: Verdict::Clean,
        found: Vec::new(alloc),
        picture: None,
    }
}

/// Of a run that ends with a fault.
fn ended(alloc: Global, of: Of<'_>, placed: &Placed, fault: Fault) -> Result<Judged, AllocError> {
    if fault.reason == Reason::Ended {
        let byte = byte_of(&of.reading.tokens, token_at(placed, fault.at));
        let words = String::from_str(alloc, of_run(fault.reason))?;
        let one = wrong(alloc, Code::Lifetime, of.whole, byte, words)?;
        return one_found(alloc, Verdict::Races, one);
    }
    let words = if is_among(of.reading.apart.as_slice(), fault.at) {
        APART
    } else if is_among(of.reading.orphans.as_slice(), fault.at) {
        ORPHAN
    } else {
        of_run(fault.reason)
    };
    at_form(alloc, of, placed, fault.at, words)
}

fn is_among(forms: &[u32], at: usize) -> bool {
    forms.iter().any(|form| *form as usize == at)
}

/// The token of a form: of a write that of its place, and not that of the value.
fn token_at(placed: &Placed, at: usize) -> u32 {
    if let Some(Form::Store(site, _, _)) = placed.code.forms.get(at) {
        return *site;
    }
    match placed.sites.get(at) {
        Some(token) => *token,
        None => 0,
    }
}

/// It isn't judged, for this reason at a form.
fn at_form(
    alloc: Global,
    of: Of<'_>,
    placed: &Placed,
    at: usize,
    words: &str,
) -> Result<Judged, AllocError> {
    let token = token_at(placed, at);
    let byte = byte_of(&of.reading.tokens, token);
    let words = String::from_str(alloc, words)?;
    let mut one = outside(alloc, of.whole, byte, words)?;
    let names = &of.reading.names;
    let token = of.reading.tokens.get(token as usize);
    if let Some(written) = origin_of(alloc, of.whole, names, token, "")? {
        one.notes.push(written)?;
    }
    one_found(alloc, Verdict::Outside, one)
}
