//! The touches of an event, beside all that came before it.
ghost use Rattle.std.specs.Prelude.{◌≡◌, ◌<◌, ◌+◌, ◌↔◌, ℕ, IfOk, OnOk, All, true, if◌then◌else◌, length, []};
ghost use Rattle.ot_race.specs.Races.{IsUsed};
ghost use Rattle.ot_race.specs.Standings.{IsUpTo};
ghost use Rattle.ot_race.specs.View.{events_in};
ghost use Rattle.ot_sets.specs.Sets.{has};
ghost use Rattle.ot_race_all.specs.AllRaces.{pairs_with};
ghost use Rattle.ot_race_all.specs.Found.{AreTouches, HasCounts, IsFound, IsKept, IsLeft, TouchTold};

use crate::found::Found;
use crate::touched::{Touch, Touched};
use ot_model::Use;
use ot_race::{Event, Race};
use ot_sets::Numbers;
use std::alloc::{AllocError, Global};

/// Finds the races of an event with those before it, whose touches these are. Where so many comparisons aren't left
/// that all of them can be found it gives up, and there is false.
pub(crate) fn compare(
    found: &mut Found,
    touched: &Touched,
    events: &[Event<'_>],
    number: u32,
    known: &Numbers,
    left: &mut u64,
) -> Result<bool, AllocError>
    requires there { number < length events.now }
    requires known { (i : ℕ) → (has known.now i ≡ true) ↔ IsUpTo (events_in events.now) i number }
    requires touches { AreTouches (events_in events.now) number [] touched.now.rows.items }
    requires counts { HasCounts (events_in events.now) number touched.now.rows.items }
    requires found { IsFound (events_in events.now) number found.old }
    ensures found { IfOk result (λ whole. IsFound (events_in events.now) (if whole then number + 1 else number) found.new) }
    ensures left { IfOk result (IsLeft left.old left.new (pairs_with (events_in events.now) number)) }
{
    let event = &events[number as usize];
    let uses = event.uses.as_slice();
    for used in uses {
        let touches = touched.of(used.cell);
        let count = touches.len() as u64;
        if *left < count {
            return Ok(false);
        }
        *left -= count;
        compare_use(found, touches, *used, events, number, known)?;
    }
    Ok(true)
}

/// The same for one use of the event, and the touches of that cell.
fn compare_use(
    found: &mut Found,
    touches: &[Touch],
    used: Use,
    events: &[Event<'_>],
    number: u32,
    known: &Numbers,
) -> Result<(), AllocError>
    requires there { number < length events.now }
    requires known { (i : ℕ) → (has known.now i ≡ true) ↔ IsUpTo (events_in events.now) i number }
    requires used { IsUsed (events_in events.now) used.cell used.mode number }
    requires touches { All (λ t. (t.number < number) × IsUsed (events_in events.now) used.cell t.mode t.number) touches.now }
    requires found { IsFound (events_in events.now) number found.old }
    ensures found { OnOk result (IsFound (events_in events.now) number found.new) }
    ensures kept { OnOk result (IsKept found.old found.new) }
    ensures told { OnOk result (All (λ t. TouchTold (events_in events.now) number used found.new t.mode t.number) touches.now) }
{
    for touch in touches {
        compare_touch(found, *touch, used, events, number, known)?;
    }
    Ok(())
}

/// The same for one touch.
fn compare_touch(
    found: &mut Found,
    touch: Touch,
    used: Use,
    events: &[Event<'_>],
    number: u32,
    known: &Numbers,
) -> Result<(), AllocError>
    requires there { number < length events.now }
    requires known { (i : ℕ) → (has known.now i ≡ true) ↔ IsUpTo (events_in events.now) i number }
    requires used { IsUsed (events_in events.now) used.cell used.mode number }
    requires touch { (touch.number < number) × IsUsed (events_in events.now) used.cell touch.mode touch.number }
    requires found { IsFound (events_in events.now) number found.old }
    ensures found { OnOk result (IsFound (events_in events.now) number found.new) }
    ensures kept { OnOk result (IsKept found.old found.new) }
    ensures told { OnOk result (TouchTold (events_in events.now) number used found.new touch.mode touch.number) }
{
    if !touch.mode.conflicts(used.mode) {
        return Ok(());
    }
    if known.has(touch.number as usize) {
        return Ok(());
    }
    found.add(Race {
        cell: used.cell,
        place: events[touch.number as usize].place,
        later: events[number as usize].place,
    })?;
    Ok(())
}

/// Keeps the touches of an event.
pub(crate) fn keep(
    alloc: Global,
    touched: &mut Touched,
    events: &[Event<'_>],
    number: u32,
) -> Result<(), AllocError>
    requires there { number < length events.now }
    requires touches { AreTouches (events_in events.now) number [] touched.old.rows.items }
    requires counts { HasCounts (events_in events.now) number touched.old.rows.items }
    ensures touches { OnOk result (AreTouches (events_in events.now) (number + 1) [] touched.new.rows.items) }
    ensures counts { OnOk result (HasCounts (events_in events.now) (number + 1) touched.new.rows.items) }
{
    let event = &events[number as usize];
    let uses = event.uses.as_slice();
    for used in uses {
        let mode = used.mode;
        touched.add(alloc, used.cell, Touch { mode, number })?;
    }
    Ok(())
}
