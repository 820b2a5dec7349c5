//! Races on the ways of whatever asks questions: as a text in C, of which not all values are known.
ghost use Rattle.std.specs.Prelude.{◌≡◌, ◌<◌, ◌≤◌, ◌^◌, ◌++◌, ◌∷◌, [], ℕ, Bool, List, IfOk, Ok, length};
ghost use Rattle.ot_race.specs.Events.{Event};
ghost use Rattle.ot_exec_outline.specs.View.{noted_in};
ghost use Rattle.ot_exec_outline.specs.Followed.{list_answer};
ghost use Rattle.ot_exec_outline.specs.Ways.{IsStable, endings, TellsOf, TellsAlone, RacesOnNone};
ghost use Rattle.ot_exec_outline.specs.declared.ways.Told.TheVariants.{RacesNowhere};

use crate::noted::{Noted, events_of};
use ot_race::Race;
use ot_race_order::{Order, judge_by};
use std::alloc::{AllocError, Global};

/// One way: its events, and how many questions were asked.
#[derive(Drop)]
pub struct OneWay {
    pub log: Vec<Noted>,
    pub asked: usize,
}

/// What asks questions on its way.
pub trait Asks {
    ghost use Rattle.std.specs.Prelude.{ℕ, Bool, List};
    ghost use Rattle.ot_race.specs.Events.{Event};

    /// The events on the way of these answers.
    ghost events_by: { Self → (ℕ → Bool) → List Event };

    /// How many questions are asked there.
    ghost asked_by: { Self → (ℕ → Bool) → ℕ };

    /// The way of these answers; to further questions the answer is no.
    fn way(&self, alloc: Global, answers: &[bool]) -> Result<OneWay, AllocError>
        ensures events { IfOk result (λ way. noted_in way.log.items ≡ events_by self.now (list_answer answers.now)) }
        ensures asked { IfOk result (λ way. way.asked ≡ asked_by self.now (list_answer answers.now)) }
        ensures few { IfOk result (λ way. length way.log.items < 2 ^ 32) };

    /// No more than these answers matter.
    ghost stable: { (w : Self) → IsStable (events_by w) (asked_by w) };
}

/// What is told of ways.
#[derive(Debug, Drop)]
pub enum Told {
    RacesNowhere,
    /// The first race on the way of these answers, which settle all its questions.
    RacesOn(Vec<bool>, Race),
    /// There are too many ways, or too many questions on one.
    TooMany,
}

/// The first race on a way that begins with these answers, where this orders tasks. Ways on which a question is answered by yes come
/// before those on which it is answered by no. At most so many more questions are answered, and each way that is judged takes one
/// from `budget`.
pub fn race_of<W: Asks>(
    alloc: Global,
    order: Order,
    asks: &W,
    questions: u32,
    budget: &mut u32,
    given: &[bool],
) -> Result<Told, AllocError>
    ensures told { IfOk result (TellsOf order (W.events_by asks.now) (endings (W.asked_by asks.now) questions given.now) budget.old budget.new) }
    ensures nowhere { result ≡ Ok RacesNowhere → RacesOnNone order (W.events_by asks.now) given.now }
{
    let way = asks.way(alloc, given)?;
    if way.asked <= given.len() {
        if *budget == 0 {
            return Ok(Told::TooMany);
        }
        *budget -= 1;
        return told_on(alloc, order, asks, way, given);
    }
    if questions == 0 {
        return Ok(Told::TooMany);
    }
    let one = with(alloc, given, true)?;
    match race_of(alloc, order, asks, questions - 1, budget, &one)? {
        Told::RacesNowhere => {
            let two = with(alloc, given, false)?;
            race_of(alloc, order, asks, questions - 1, budget, &two)
        }
        told => Ok(told),
    }
}

/// What is told of the way that these answers settle.
fn told_on<W: Asks>(
    alloc: Global,
    order: Order,
    asks: &W,
    way: OneWay,
    given: &[bool],
) -> Result<Told, AllocError>
    requires events { noted_in way.log.items ≡ W.events_by asks.now (list_answer given.now) }
    requires few { length way.log.items < 2 ^ 32 }
    ensures { IfOk result (TellsAlone order (W.events_by asks.now) given.now) }
{
    let events = events_of(alloc, &way.log)?;
    match judge_by(alloc, order, events)? {
        Some(race) => Ok(Told::RacesOn(given.to_vec(alloc)?, race)),
        None => Ok(Told::RacesNowhere),
    }
}

/// The answers with one more.
fn with(alloc: Global, given: &[bool], next: bool) -> Result<Vec<bool>, AllocError>
    ensures { IfOk result (λ more. more.items ≡ given.now ++ next ∷ []) }
{
    let mut more = given.to_vec(alloc)?;
    more.push(next)?;
    Ok(more)
}
