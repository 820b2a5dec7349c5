//! What clauses name.
ghost use Rattle.std.specs.Prelude.{◌≡◌, ◌≤◌, length, Ok, IfOk};
ghost use Rattle.ot_model.specs.Cells.{AreInOrder};
ghost use Rattle.ot_exec_state.specs.Results.{Gives, each};
ghost use Rattle.ot_exec_state.specs.View.{slots_of, memory_of};
ghost use Rattle.ot_exec_state.specs.Clauses.{both, before, with_use, with_item, items_of, with_reduced, reduced_parts};

use crate::fault::{Halt, Reason};
use crate::limits::Limits;
use crate::memory::Memory;
use crate::nest::Part;
use crate::siblings::{Siblings, told_mode};
use crate::slots::Slots;
use crate::value::number;
use ot_exec_code::{Folded, Item};
use ot_model::{Cell, Decl, Mode, Use};
use std::alloc::Global;

/// How a task depends by a cell that two items name.
fn both(one: Mode, other: Mode) -> Mode
    ensures { result ≡ both one other }
{
    match (one, other) {
        (Mode::Reads, Mode::Reads) => Mode::Reads,
        (_, _) => Mode::Writes,
    }
}

/// How many uses stand before this cell.
fn place_of(uses: &[Use], cell: Cell) -> usize
    ensures place { result ≡ before cell uses.now }
    ensures there { result ≤ length uses.now }
{
    let mut place = 0;
    for used in uses {
        if !used.cell.is_before(cell) {
            return place;
        }
        place += 1;
    }
    place
}

/// A declaration gets one use more.
pub fn add_use(uses: &mut Vec<Use>, added: Use) -> Result<(), Halt>
    requires { AreInOrder uses.old.items }
    ensures told { Gives (λ _. uses.new.items) result (Ok (with_use added uses.old.items)) }
    ensures ordered { IfOk result (λ _. AreInOrder uses.new.items) }
{
    let place = place_of(uses, added.cell);
    let found = use_at(uses, place);
    put_use(uses, place, found, added)
}

ghost use Rattle.std.specs.Prelude.{slice_get};
ghost use Rattle.ot_exec_state.specs.Clauses.{use_placed};

fn use_at(uses: &[Use], place: usize) -> Option<Use>
    ensures { result ≡ slice_get uses.now place }
{
    uses.get(place).copied()
}

/// Puts a use there, before which so many stand, where this one may be of its cell.
fn put_use(uses: &mut Vec<Use>, place: usize, found: Option<Use>, added: Use) -> Result<(), Halt>
    requires found { found ≡ slice_get uses.old.items place }
    requires there { place ≤ length uses.old.items }
    ensures { Gives (λ _. uses.new.items) result (Ok (use_placed added uses.old.items place found)) }
{
    match found {
        Some(old) => {
            if old.cell == added.cell {
                uses[place] = Use {
                    cell: old.cell,
                    mode: both(old.mode, added.mode),
                };
                return Ok(());
            }
            uses.insert(place, added)?;
            Ok(())
        }
        None => {
            uses.insert(place, added)?;
            Ok(())
        }
    }
}

/// A declaration gets one item more, the cell where it begins: of a wait by this task behind these siblings, or of a task. An item that begins outside of its
/// object names no cell.
#[tactic(auto, unfolding(crate::specs::Clauses::with_item))]
fn add_item(
    slots: &Slots,
    memory: &Memory,
    waits: Option<u32>,
    all: &[Siblings],
    item: Item,
    uses: &mut Vec<Use>,
) -> Result<(), Halt>
    requires { AreInOrder uses.old.items }
    ensures told { Gives (λ _. uses.new.items) result (with_item (slots_of slots.now) (memory_of memory.now) waits all.now item uses.old.items) }
    ensures ordered { IfOk result (λ _. AreInOrder uses.new.items) }
{
    let place = slots.read(item.slot)?;
    match memory.span_at(place, 1) {
        Ok(span) => {
            let cell = Cell {
                array: span.object,
                index: span.index,
            };
            add_use(
                uses,
                Use {
                    cell,
                    mode: told_mode(waits, cell, all, item.mode),
                },
            )
        }
        // no cell is there
        Err(Halt::For(Reason::Outside)) => Ok(()),
        Err(halt) => Err(halt),
    }
}

/// The declaration with these items: of a wait by this task behind these siblings, or of a task.
#[tactic(auto, unfolding(crate::specs::Clauses::items_of))]
pub fn items_of(
    alloc: Global,
    limits: Limits,
    slots: &Slots,
    memory: &Memory,
    waits: Option<u32>,
    all: &[Siblings],
    items: &[Item],
) -> Result<Vec<Use>, Halt>
    ensures told { Gives (λ us. us.items) result (items_of limits (slots_of slots.now) (memory_of memory.now) waits all.now items.now) }
    ensures ordered { IfOk result (λ us. AreInOrder us.items) }
{
    if items.len() > limits.items as usize {
        return Err(Halt::For(Reason::TooManyItems));
    }
    let mut uses = Vec::new(alloc);
    add_items(slots, memory, waits, all, items, &mut uses)?;
    Ok(uses)
}

fn add_items(
    slots: &Slots,
    memory: &Memory,
    waits: Option<u32>,
    all: &[Siblings],
    items: &[Item],
    uses: &mut Vec<Use>,
) -> Result<(), Halt>
    requires { AreInOrder uses.old.items }
    ensures told { Gives (λ _. uses.new.items) result (each (with_item (slots_of slots.now) (memory_of memory.now) waits all.now) items.now uses.old.items) }
    ensures ordered { IfOk result (λ _. AreInOrder uses.new.items) }
{
    for item in items {
        add_item(slots, memory, waits, all, *item, uses)?;
    }
    Ok(())
}

/// An item more of a region's reductions, with its cells.
#[tactic(auto, unfolding(crate::specs::Clauses::with_reduced))]
fn add_part(slots: &Slots, memory: &Memory, item: Folded, parts: &mut Vec<Part>) -> Result<(), Halt>
    ensures { Gives (λ _. parts.new.items) result (with_reduced (slots_of slots.now) (memory_of memory.now) item parts.old.items) }
{
    let place = slots.read(item.slot)?;
    let value = slots.read(item.count)?;
    let count = number(Reason::UnknownLength, value)?;
    let span = memory.span_at(place, count)?;
    parts.push(Part {
        fold: item.fold,
        span,
    })?;
    Ok(())
}

/// The items of a region's reductions.
#[tactic(auto, unfolding(crate::specs::Clauses::reduced_parts))]
pub fn parts_of(
    alloc: Global,
    limits: Limits,
    slots: &Slots,
    memory: &Memory,
    items: &[Folded],
) -> Result<Vec<Part>, Halt>
    ensures { Gives (λ ps. ps.items) result (reduced_parts limits (slots_of slots.now) (memory_of memory.now) items.now) }
{
    if items.len() > limits.items as usize {
        return Err(Halt::For(Reason::TooManyItems));
    }
    let mut parts = Vec::new(alloc);
    add_parts(slots, memory, items, &mut parts)?;
    Ok(parts)
}

fn add_parts(
    slots: &Slots,
    memory: &Memory,
    items: &[Folded],
    parts: &mut Vec<Part>,
) -> Result<(), Halt>
    ensures { Gives (λ _. parts.new.items) result (each (with_reduced (slots_of slots.now) (memory_of memory.now)) items.now parts.old.items) }
{
    for item in items {
        add_part(slots, memory, *item, parts)?;
    }
    Ok(())
}
