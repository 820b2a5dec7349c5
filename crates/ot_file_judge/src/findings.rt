//! The requests of a file that are refused, one after another.
ghost use Rattle.std.specs.Prelude.{◌≡◌, ◌≤◌, ◌<◌, [], ◌∷◌, None, List, length, IfOk, IfSome, MatchOption, ℕ, Ok, option_and_then, option_map};
ghost use Rattle.serde_json.specs.View.{view};
ghost use Rattle.ot_file_judge.specs.Judging.{Refusal, refusals_in, finds, arrays_made, told_in, IsPlaced, statement_place, Goes, standing, IsBookBehind, IsSeen, bytes_left};
ghost use Rattle.ot_book.specs.Answers.{code_in};
ghost use Rattle.ot_file_judge.specs.Found.{found_as};

use crate::arrays::book_with;
use crate::fault::JudgeFault;
use crate::line::{is_goodbye, is_long, line_of};
use crate::place::{place_in, statement_in};
use crate::told::{code_of, told_last};
use crate::verdict::judge_line;
use ot_book::{Book, read_line};
use ot_file_diagnosis::Place;
use ot_file_text::{Positions, next_piece};
use ot_model::ArrayShape;
use serde_json::Value;
use std::alloc::{AllocError, Global};
use std::marker::Model;

/// A request of a file that is refused.
#[derive(Debug, Drop)]
pub struct Finding {
    /// How many bytes of the file stand before its piece.
    pub start: usize,
    /// How many bytes there are up to the end of its piece.
    pub end: usize,
    /// The code that it is told; none where the log of the book is full, or the line is too long.
    pub code: Option<u32>,
    /// Whether its line has more bytes than one of a session may have.
    pub is_long: bool,
    /// The value of its line; none where that is no JSON, the log of the book is full, or the line is too long.
    pub request: Option<Value>,
    /// Where in the file it is refused.
    pub place: Place,
}

/// The requests of a file without comments, judged one after another as a session of a tenant judges them, with no program
/// run.
#[derive(Drop)]
pub struct Findings<'a> {
    blank: &'a [u8],
    book: Book,
    positions: Positions<'a>,
    /// From which byte on requests are still to be judged.
    from: usize,
}

impl<'a> Model for Findings<'a> {
    ghost use Rattle.std.specs.Prelude.{◌≡◌, ◌≤◌, None, length};
    ghost use Rattle.ot_file_judge.specs.Judging.{Standing, standing};

    ghost Value = { Standing };

    ghost view = { λ f. standing f.blank.now f.from f.book };

    ghost invariant = { λ f. (f.from ≤ length f.blank.now) × (f.positions ≡ f.blank.now) × (f.book.pending ≡ None) };
}

impl<'a> Findings<'a> {
    ghost use Rattle.ot_store.specs.Arrays.{Named};
    ghost use Rattle.ot_model.specs.Programs.{arrays_of};

    /// Those of a file without comments, where these arrays are there before it, each cell 0.
    pub fn new(
        alloc: Global,
        blank: &'a [u8],
        arrays: &[ArrayShape],
    ) -> Result<Findings<'a>, JudgeFault>
        ensures { IfOk result (λ findings. (now : List Named) × (arrays_made [] (arrays_of arrays.now) ≡ Ok now)
            × (findings.blank ≡ blank.entry.now) × Goes (refusals_in (finds now) blank.entry.now) findings) }
    {
        let book = book_with(alloc, arrays)?;
        Ok(Findings {
            blank,
            book,
            positions: Positions::new(blank),
            from: 0,
        })
    }

    /// The book behind the last request that was judged.
    pub fn book(&self) -> &Book
        ensures { result.now ≡ self.now.book }
    {
        &self.book
    }

    /// The next request that is refused, and where. It is None where all the rest is taken, or stands behind a goodbye, a
    /// full log or a line that is too long.
    pub fn next(&mut self, alloc: Global) -> Result<Option<Finding>, JudgeFault>
        ensures next { (all : List Refusal) → Goes all self.old → IfOk result (λ next. MatchOption next (all ≡ [])
            (λ f. (one : Refusal) × (behind : List Refusal) × (all ≡ one ∷ behind) × Goes behind self.new × IsSeen one f × IsBookBehind one self.new.book × IsPlaced self.old.blank one f.place)) }
        ensures piece { IfOk result (λ next. IfSome next (λ f. (f.start ≤ f.end) × (f.end ≤ length self.new.blank))) }
        ensures fewer { IfOk result (λ next. IfSome next (λ f. bytes_left self.new < bytes_left self.old)) }
        ensures file { self.new.blank ≡ self.old.blank }
    {
        let Some(found) = next_in(alloc, self.blank, &mut self.book, self.from)? else {
            return Ok(None);
        };
        self.from = found.next;
        let place = placed(alloc, self.blank, &self.book, &found, &mut self.positions)?;
        Ok(Some(Finding {
            start: found.start,
            end: found.end,
            code: found.code(&self.book),
            is_long: found.is_long,
            request: found.request,
            place,
        }))
    }

    /// Where in the file the statement stands that has this number in the reply to a request.
    pub fn statement(
        &mut self,
        alloc: Global,
        finding: &Finding,
        number: u32,
    ) -> Result<Place, AllocError>
        requires { (finding.now.start ≤ finding.now.end) × (finding.now.end ≤ length self.old.blank) }
        ensures place { IfOk result (λ place. place ≡ statement_place (option_map view finding.now.request) self.old.blank finding.now.start finding.now.end number) }
        ensures same { self.new ≡ self.old }
    {
        let piece = &self.blank[finding.start..finding.end];
        let offset = statement_in(alloc, &finding.request, piece, number)?;
        Ok(Place::among(&mut self.positions, finding.start + offset))
    }
}

/// A request that isn't taken: its piece, whether nothing is judged behind it, since the log is full or its line is too long,
/// whether it is that, from which byte on requests are still to be judged, and the value of its line.
#[derive(Debug, Drop)]
struct Found {
    start: usize,
    end: usize,
    ends: bool,
    is_long: bool,
    next: usize,
    request: Option<Value>,
}

impl Found {
    /// The code that is told.
    fn code(&self, book: &Book) -> Option<u32>
        ensures { result ≡ option_and_then code_in (told_in (found_as self.now book.now)) }
    {
        if self.ends {
            return None;
        }
        match told_last(book) {
            Some(told) => code_of(told),
            None => None,
        }
    }
}

/// The next request that isn't taken, from a byte of a file on. The others are taken.
fn next_in(
    alloc: Global,
    blank: &[u8],
    book: &mut Book,
    from: usize,
) -> Result<Option<Found>, JudgeFault>
    requires from { from ≤ length blank.now }
    requires closed { book.old.pending ≡ None }
    ensures next { (all : List Refusal) → Goes all (standing blank.now from book.old) → IfOk result (λ next. MatchOption next (all ≡ [])
        (λ f. (behind : List Refusal) × (all ≡ found_as f book.new ∷ behind) × Goes behind (standing blank.now f.next book.new))) }
    ensures piece { IfOk result (λ next. IfSome next (λ f. (f.start ≤ f.end) × (f.end ≤ length blank.now) × (from < f.next) × (f.next ≤ length blank.now))) }
    ensures closed { book.new.pending ≡ None }
{
    let mut at = from;
    while let Some(piece) = next_piece(blank, at) {
        let bytes = line_of(alloc, &blank[piece.start..piece.end])?;
        let line = bytes.as_slice();
        if is_goodbye(line) {
            return Ok(None);
        }
        if is_long(line) {
            return Ok(Some(Found {
                start: piece.start,
                end: piece.end,
                ends: true,
                is_long: true,
                next: blank.len(),
                request: None,
            }));
        }
        let verdict = judge_line(alloc, book, line)?;
        if verdict.is_full() {
            return Ok(Some(Found {
                start: piece.start,
                end: piece.end,
                ends: true,
                is_long: false,
                next: blank.len(),
                request: None,
            }));
        }
        if !verdict.is_taken() {
            let request = read_line(alloc, line)?;
            return Ok(Some(Found {
                start: piece.start,
                end: piece.end,
                ends: false,
                is_long: false,
                next: piece.end,
                request,
            }));
        }
        at = piece.end;
    }
    Ok(None)
}

/// Where in the file a request is refused that isn't taken.
fn placed(
    alloc: Global,
    blank: &[u8],
    book: &Book,
    found: &Found,
    positions: &mut Positions<'_>,
) -> Result<Place, JudgeFault>
    requires piece { (found.now.start ≤ found.now.end) × (found.now.end ≤ length blank.now) }
    requires text { positions.old ≡ blank.now }
    ensures placed { IfOk result (λ place. IsPlaced blank.now (found_as found.now book.now) place) }
    ensures text { positions.new ≡ positions.old }
{
    positions.mark(found.start);
    if found.ends {
        return Ok(Place::among(positions, found.start));
    }
    let piece = &blank[found.start..found.end];
    let place = place_in(alloc, book, &found.request, piece)?;
    Ok(Place::among(positions, found.start + place))
}
