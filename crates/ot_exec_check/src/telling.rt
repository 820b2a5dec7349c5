//! What is said of a text that is executed.
use crate::judging::{Judged, Verdict};
use crate::naming::cell_name;
use crate::placing::{origin_of, place_text, remark_at};
use ot_exec_machine::{Context, Entered, Run};
use ot_exec_outline::Noted;
use ot_exec_reading::{Reading, byte_of};
use ot_exec_tokens::{Kind, Mark, Whole};
use ot_file_diagnosis::{Code, Diagnosis, Remark, Severity, Turn};
use ot_model::{Cell, Mode};
use ot_race::Race;
use ot_race_all::More;
use std::alloc::{AllocError, Global};

/// A text with those of the files that it includes, what they are read as, and one of its runs.
#[derive(Clone, Copy)]
pub(crate) struct Source<'a> {
    pub whole: &'a Whole,
    pub reading: &'a Reading,
    pub run: &'a Run,
}

/// How many calls are told around a place.
const CALLS: usize = 4;

/// How many tokens are looked at for a loop's variable.
const AHEAD: usize = 64;

impl Source<'_> {
    fn byte(&self, token: u32) -> usize {
        byte_of(&self.reading.tokens, token)
    }

    /// The byte at which an event stands.
    pub(crate) fn byte_of_event(&self, place: u32) -> usize {
        self.byte(self.row(place).0)
    }

    /// Where a token is written that a macro became, behind these words.
    fn origin(&self, alloc: Global, token: u32, words: &str) -> Result<Option<Remark>, AllocError> {
        let reading = self.reading;
        let token = reading.tokens.get(token as usize);
        origin_of(alloc, self.whole, &reading.names, token, words)
    }

    /// The token and the context of an event's place.
    fn row(&self, place: u32) -> (u32, u32) {
        match self.run.rows.get(place as usize) {
            Some(row) => (row.site, row.context),
            None => (0, 0),
        }
    }

    /// The bytes of the two touches that race.
    pub(crate) fn pair_of(&self, race: Race) -> (usize, usize) {
        (
            self.byte_of_event(race.place),
            self.byte_of_event(race.later),
        )
    }

    /// Whether a touch is the end of what it touches: nothing touches that behind it.
    pub(crate) fn is_end(&self, place: u32, cell: Cell) -> bool {
        let has_ended = match self.run.objects.get(cell.array as usize) {
            Some(object) => object.ended,
            None => false,
        };
        has_ended && last_touch(&self.run.log, cell.array) == Some(place)
    }

    /// What happens to a cell by a touch: `is written`.
    pub(crate) fn happens(&self, place: u32, cell: Cell) -> &'static str {
        if self.is_end(place, cell) {
            return "ends";
        }
        match done(&self.run.log, place, cell) {
            Doing::Written => "is written",
            Doing::Read => "is read",
            Doing::Touched => "is touched",
        }
    }

    /// The contexts around this one, itself first.
    fn contexts(&self, alloc: Global, context: u32) -> Result<Vec<Context>, AllocError> {
        let mut found = Vec::new(alloc);
        let mut at = context;
        for _ in 0..self.run.contexts.len() {
            match self.run.contexts.get(at as usize) {
                Some(one) if at != 0 => {
                    found.push(*one)?;
                    at = one.outer;
                }
                _ => break,
            }
        }
        Ok(found)
    }

    /// The name of the variable by which the loop counts that begins at a token, or behind it in its directive: the one before the first `=`.
    fn counter_at(&self, token: u32) -> &str {
        let mut last = None;
        for token in self.reading.tokens.iter().skip(token as usize).take(AHEAD) {
            match token.kind {
                Kind::Name(name) => last = Some(name),
                Kind::Mark(Mark::Assign) => break,
                _ => {}
            }
        }
        match last {
            Some(name) => self.reading.names.text(name),
            None => "turn",
        }
    }

    /// The turns of the loops around, within the innermost call, the outermost first.
    fn turns(&self, alloc: Global, context: u32) -> Result<Vec<Turn>, AllocError> {
        let mut turns = Vec::new(alloc);
        for one in self.contexts(alloc, context)? {
            match one.entered {
                Entered::Turn(number) => {
                    let name = String::from_str(alloc, self.counter_at(one.site))?;
                    turns.insert(0, Turn { name, number })?;
                }
                Entered::SomeTurn => {}
                Entered::Call | Entered::Run => break,
            }
        }
        Ok(turns)
    }

    /// The calls through which the place came: the innermost first, and each place once.
    fn calls(&self, alloc: Global, context: u32) -> Result<Vec<Remark>, AllocError> {
        let mut calls = Vec::new(alloc);
        let mut sites: Vec<u32> = Vec::new(alloc);
        for one in self.contexts(alloc, context)? {
            let is_call = one.entered == Entered::Call && one.outer != 0;
            if is_call && calls.len() < CALLS && !sites.contains(&one.site) {
                sites.push(one.site)?;
                let message = String::from_str(alloc, "in a function that is called here")?;
                let turns = Vec::new(alloc);
                calls.push(remark_at(alloc, self.whole, self.byte(one.site), turns, message)?)?;
            }
        }
        Ok(calls)
    }
}

/// ` (i = 1, j = 2)`
fn turns_text(alloc: Global, turns: &[Turn]) -> Result<String, AllocError> {
    let mut text = String::new(alloc);
    for (number, turn) in turns.iter().enumerate() {
        text.push_str(if number == 0 { " (" } else { ", " })?;
        let name = turn.name.as_str();
        let one = format!(in alloc; "{name} = {}", turn.number)?;
        text.push_str(one.as_str())?;
    }
    if !turns.is_empty() {
        text.push_str(")")?;
    }
    Ok(text)
}

/// The last event that touches an object.
fn last_touch(log: &[Noted], object: u32) -> Option<u32> {
    for noted in log.iter().rev() {
        if noted.uses.iter().any(|used| used.cell.array == object) {
            return Some(noted.place);
        }
    }
    None
}

/// What an event does with a cell.
#[derive(Clone, Copy, Debug, PartialEq, Eq)]
enum Doing {
    Written,
    Read,
    Touched,
}

impl Doing {
    fn text(self) -> &'static str {
        match self {
            Doing::Written => "written",
            Doing::Read => "read",
            Doing::Touched => "touched",
        }
    }
}

fn done(log: &[Noted], place: u32, cell: Cell) -> Doing {
    for noted in log {
        if noted.place == place {
            let is_written = noted
                .uses
                .iter()
                .any(|used| used.cell == cell && used.mode == Mode::Writes);
            return if is_written {
                Doing::Written
            } else {
                Doing::Read
            };
        }
    }
    Doing::Touched
}

/// A race: the touch that comes later in the serial run, and the other one as its note, with what is known of the two.
pub(crate) fn race_found(
    alloc: Global,
    source: &Source<'_>,
    known: &str,
    race: Race,
) -> Result<Diagnosis, AllocError> {
    let (here, around) = source.row(race.later);
    let (there, other_around) = source.row(race.place);
    let turns = source.turns(alloc, around)?;
    let message = race_words(alloc, source, race, there, &turns)?;
    let mut notes = Vec::new(alloc);
    notes.push(other_touch(alloc, source, there, other_around, known)?)?;
    if let Some(written) = source.origin(alloc, here, "")? {
        notes.push(written)?;
    }
    if let Some(written) = source.origin(alloc, there, "the other touch is ")? {
        notes.push(written)?;
    }
    for call in source.calls(alloc, around)? {
        notes.push(call)?;
    }
    Ok(Diagnosis {
        severity: Severity::Error,
        code: if source.is_end(race.later, race.cell) {
            Code::Lifetime
        } else {
            Code::Race
        },
        told: remark_at(alloc, source.whole, source.byte(here), turns, message)?,
        notes,
    })
}

fn race_words(
    alloc: Global,
    source: &Source<'_>,
    race: Race,
    there: u32,
    turns: &[Turn],
) -> Result<String, AllocError> {
    let cell = cell_name(alloc, source.reading, source.whole, source.run, race.cell)?;
    let cell = cell.as_str();
    let at = place_text(alloc, source.whole, source.byte(there))?;
    let at = at.as_str();
    let one = source.happens(race.later, race.cell);
    let two = done(&source.run.log, race.place, race.cell).text();
    let turns = turns_text(alloc, turns)?;
    let turns = turns.as_str();
    format!(in alloc; "{cell} {one} here while it may be {two} at {at}{turns}")
}

fn other_touch(
    alloc: Global,
    source: &Source<'_>,
    there: u32,
    around: u32,
    known: &str,
) -> Result<Remark, AllocError> {
    let turns = source.turns(alloc, around)?;
    let text = turns_text(alloc, &turns)?;
    let text = text.as_str();
    let message = format!(in alloc; "the other touch{text}; {known}")?;
    remark_at(alloc, source.whole, source.byte(there), turns, message)
}

/// How many races there are that aren't told.
pub(crate) fn more_races(alloc: Global, more: More) -> Result<Option<Diagnosis>, AllocError> {
    let words = match more {
        More::Exactly(0) => return Ok(None),
        More::Exactly(1) => String::from_str(alloc, "1 more race")?,
        More::Exactly(count) => format!(in alloc; "{count} more races")?,
        More::AtLeast(count) => format!(in alloc; "at least {count} more races")?,
    };
    Ok(Some(of_file(alloc, Code::MoreRaces, words)))
}

/// A note on the whole file.
pub(crate) fn of_file(alloc: Global, code: Code, message: String) -> Diagnosis {
    Diagnosis {
        severity: Severity::Note,
        code,
        told: Remark {
            place: None,
            file: None,
            turns: Vec::new(alloc),
            message,
        },
        notes: Vec::new(alloc),
    }
}

/// That a text isn't judged, at a byte.
pub(crate) fn outside(
    alloc: Global,
    whole: &Whole,
    byte: usize,
    message: String,
) -> Result<Diagnosis, AllocError> {
    wrong(alloc, Code::Outside, whole, byte, message)
}

/// What is wrong at a byte.
pub(crate) fn wrong(
    alloc: Global,
    code: Code,
    whole: &Whole,
    byte: usize,
    message: String,
) -> Result<Diagnosis, AllocError> {
    Ok(Diagnosis {
        severity: Severity::Error,
        code,
        told: remark_at(alloc, whole, byte, Vec::new(alloc), message)?,
        notes: Vec::new(alloc),
    })
}

const FIRST_LETTERS: &str =
    "judged as if of a string that a pointer leads to only the first letter were touched";

/// What is told, with a note for each function without a body that was called, one where teams are executed, and one where strings are
/// touched that may be longer.
pub(crate) fn with_assumed(
    alloc: Global,
    reading: &Reading,
    judged: Judged,
) -> Result<Judged, AllocError> {
    let mut judged = judged;
    if judged.verdict == Verdict::Outside {
        return Ok(judged);
    }
    for name in &reading.untouched {
        let name = reading.names.text(*name);
        let words = format!(in alloc; "judged as if `{name}` touched nothing")?;
        put_note(alloc, &mut judged.found, words)?;
    }
    if reading.has_team {
        let words = String::from_str(alloc, "judged with two threads in each team")?;
        put_note(alloc, &mut judged.found, words)?;
    }
    if reading.follows_letters {
        let words = String::from_str(alloc, FIRST_LETTERS)?;
        put_note(alloc, &mut judged.found, words)?;
    }
    Ok(judged)
}

/// A note to what is told last, or of the file where nothing is told.
pub(crate) fn put_note(
    alloc: Global,
    found: &mut Vec<Diagnosis>,
    message: String,
) -> Result<(), AllocError> {
    match found.last_mut() {
        Some(last) => last.notes.push(Remark {
            place: None,
            file: None,
            turns: Vec::new(alloc),
            message,
        })?,
        None => found.push(of_file(alloc, Code::AsIf, message))?,
    }
    Ok(())
}
