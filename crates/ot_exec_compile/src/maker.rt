//! Code as it is made: forms, slots, and where variables are kept.
ghost use Rattle.std.specs.Prelude.{◌<◌, IfOk};

use crate::clauses::Joined;
use crate::fault::{Fault, Why};
use crate::label::Labels;
use crate::names::Known;
use crate::own::Owned;
use crate::reduced::Copied;
use crate::task::Size;
use crate::team::{Kept, Team, Whose};
use crate::turns::Nested;
use crate::unions::Within;
use ot_exec_code::{Folded, Form, Function, Item, Kind, Operation, Width};
use ot_exec_layout::{Extent, Layouts, Sort, sort_of};
use ot_exec_sharing::{How, Sharing};
use ot_exec_tree::Unit;
use std::alloc::Global;

/// How many forms code has at most.
const MOST_FORMS: usize = 1 << 22;

/// How many slots a function has at most.
pub(crate) const MOST_SLOTS: u32 = 1 << 16;

/// A value: the slot that has it, or the place of it where it is a struct. `own` where what it points to is a private copy.
#[derive(Clone, Copy, Debug, PartialEq, Eq)]
pub(crate) struct Val {
    pub(crate) slot: u32,
    pub(crate) sort: Sort,
    pub(crate) own: bool,
    /// The union in which what it is, or leads to, has bytes in common with other cells.
    pub(crate) within: Option<Within>,
}

/// How a place is touched.
#[derive(Clone, Copy, Debug, PartialEq, Eq)]
pub(crate) enum Way {
    /// It is a slot, and no place.
    Slot,
    Cell,
    /// No task sees that it is touched.
    Own,
    /// A cell that the number of the thread names which runs.
    Thread,
}

/// What may be assigned to: the slot itself or the one that has its place, what lies there, and the site of touches.
#[derive(Clone, Copy, Debug, PartialEq, Eq)]
pub(crate) struct Aim {
    pub(crate) slot: u32,
    pub(crate) sort: Sort,
    pub(crate) way: Way,
    pub(crate) site: u32,
    /// Whether what a pointer there points to is a private copy.
    pub(crate) lends: bool,
    /// The union in which it has bytes in common with other cells.
    pub(crate) within: Option<Within>,
}

/// Where a variable is kept.
#[derive(Clone, Copy, Debug, PartialEq, Eq)]
pub(crate) enum Held {
    Nowhere,
    Slot(u32),
    /// A slot that has a pointer to private copies.
    Lender(u32),
    /// The slot has its object's place.
    Place(u32),
    /// The same, of a private copy.
    Own(u32),
    /// The object of this number.
    Object(u32),
}

/// What a variable was held in before.
#[derive(Clone, Copy)]
pub(crate) struct Was {
    pub(crate) variable: u32,
    pub(crate) held: Held,
}

/// What a task takes along: a variable, and the slot of its value or its place, if it has one.
#[derive(Clone, Copy)]
pub(crate) struct Taken {
    pub(crate) variable: u32,
    pub(crate) how: How,
    pub(crate) slot: Option<u32>,
    /// The variable's place is a private copy's, or what it points to.
    pub(crate) own: bool,
    /// In the slot is a value, and no place.
    pub(crate) is_value: bool,
}

/// The slots of what is being made.
#[derive(Clone, Copy)]
pub(crate) struct Frame {
    pub(crate) next: u32,
    pub(crate) most: u32,
    /// How many objects lived where it began.
    pub(crate) floor: usize,
    pub(crate) returns: Returns,
}

/// What `return` does.
#[derive(Clone, Copy, Debug, PartialEq, Eq)]
pub(crate) enum Returns {
    /// It may not stand here.
    Nowhere,
    ToCaller,
    /// It goes on behind the text of a function that is made where it is called.
    Behind,
}

/// How many objects live outside of the loop or the `switch` that a jump leaves.
#[derive(Clone, Copy)]
pub(crate) struct Around {
    pub(crate) breaks: Option<usize>,
    pub(crate) continues: Option<usize>,
}

impl Around {
    pub(crate) const NOTHING: Around = Around {
        breaks: None,
        continues: None,
    };
}

/// The cell that says whether a final task runs.
pub(crate) const FINAL: u32 = 0;

/// The cell that says whether a team of one thread runs.
pub(crate) const ALONE: u32 = 1;

/// The cell that says whether a region is executed of which the team may have several threads.
pub(crate) const ACTIVE: u32 = 2;

/// The cells that have the number of the thread that runs, and how many threads its team has.
pub(crate) const NUMBER: u32 = 3;

pub(crate) const COUNT: u32 = 4;

/// How many such cells there are.
pub(crate) const FLAGS: u32 = 5;

pub(crate) const LONG: Kind = Kind {
    width: Width::Bits64,
    signed: true,
};

pub(crate) const WORD: Kind = Kind {
    width: Width::Bits64,
    signed: false,
};

#[derive(Drop)]
pub(crate) struct Maker<'a> {
    pub(crate) alloc: Global,
    pub(crate) unit: &'a Unit,
    /// What each name means.
    pub(crate) known: &'a [Option<Known>],
    pub(crate) sharing: &'a Sharing,
    pub(crate) owned: &'a Owned,
    pub(crate) layouts: Layouts,
    pub(crate) forms: Vec<Form>,
    pub(crate) functions: Vec<Function>,
    /// By variable.
    pub(crate) held: Vec<Held>,
    /// By variable: the task for which it was last taken along.
    pub(crate) stamps: Vec<u32>,
    pub(crate) stamp: u32,
    /// By type: the slot that has how many cells it has, where that isn't constant.
    pub(crate) sizes: Vec<Option<u32>>,
    pub(crate) frame: Frame,
    /// Slots with the places of objects that end where their blocks do.
    pub(crate) live: Vec<u32>,
    pub(crate) around: Around,
    /// Jumps that are still to be told where to.
    pub(crate) breaks: Vec<u32>,
    pub(crate) continues: Vec<u32>,
    /// By label of the `switch` statements around: the jump to it, none to `default`.
    pub(crate) cases: Vec<Option<u32>>,
    /// Arguments of calls.
    pub(crate) arguments: Vec<Val>,
    pub(crate) items: Vec<Item>,
    pub(crate) taken: Vec<Taken>,
    pub(crate) was: Vec<Was>,
    /// Its parent's slots that a task takes along.
    pub(crate) passed: Vec<u32>,
    pub(crate) joined: Vec<Joined>,
    pub(crate) sizes_taken: Vec<Size>,
    /// Items of the reductions of a region that begins.
    pub(crate) folded: Vec<Folded>,
    /// Cells of its own that a task has in the place of items of reductions: where those of what runs begin.
    pub(crate) copied: Vec<Copied>,
    pub(crate) first_copied: usize,
    /// By variable: the number of the task in which it has the number of the thread that runs; the number of this task, and how many there were.
    pub(crate) numbered: Vec<u32>,
    pub(crate) level: u32,
    pub(crate) levels: u32,
    /// Places of `lastprivate` variables.
    pub(crate) lasts: Vec<Was>,
    /// Loops whose turns are divided among tasks.
    pub(crate) nested: Vec<Nested>,
    /// The token at which what is made stands, and by form those.
    pub(crate) site: u32,
    pub(crate) sites: Vec<u32>,
    /// To what the value that is made next is converted.
    pub(crate) wanted: Option<Sort>,
    /// What the function gives that is being made.
    pub(crate) gives: Sort,
    /// Whether tests are those of a loop.
    pub(crate) repeats: bool,
    /// What threads do here together, and whose text this is.
    pub(crate) team: Team,
    pub(crate) whose: Whose,
    /// Jumps to the end of a thread's piece, and forms that keep slots until the next one.
    pub(crate) ends: Vec<u32>,
    pub(crate) kept: Vec<Kept>,
    /// Whether a team of several threads is executed, and the forms where its threads come to different barriers.
    pub(crate) has_team: bool,
    pub(crate) apart: Vec<u32>,
    /// By function: whether constructs in it bind to the region that calls it. How many bodies of such functions were made where they are called;
    /// the functions that are being made; jumps behind the text of the last one; and the forms that end the run where such a construct isn't made in
    /// its region's text.
    pub(crate) binds: Vec<bool>,
    pub(crate) bodies: u32,
    pub(crate) making: Vec<u32>,
    pub(crate) behind: Vec<u32>,
    pub(crate) orphans: Vec<u32>,
    pub(crate) labels: Labels,
    /// Objects that aren't variables: of cells that say what runs; and where random numbers stand.
    pub(crate) flags: u32,
    pub(crate) seed: u32,
    /// Whether the numbers of threads are kept for functions that are called.
    pub(crate) has_numbers: bool,
    /// Whether the text asks for the number of a thread.
    pub(crate) asks_number: bool,
    /// Whether a `final` clause stands in the unit.
    pub(crate) has_final: bool,
    /// By name: whether a function is called of which nothing is known; and those names.
    pub(crate) is_untouched: Vec<bool>,
    pub(crate) untouched: Vec<u32>,
    pub(crate) is_random: bool,
    /// Whether a string is touched that a pointer leads to, and whether letters are written.
    pub(crate) follows_letters: bool,
    pub(crate) writes_letters: bool,
}

/// One less deep, at this token.
pub(crate) fn below(depth: u32, at: u32) -> Result<u32, Fault>
    ensures { IfOk result (λ less. less < depth) }
{
    if depth == 0 {
        Err(Fault::Refused(at, Why::Nesting))
    } else {
        Ok(depth - 1)
    }
}

/// Forms.
impl<'a> Maker<'a> {
    /// The number of the next form.
    pub(crate) fn here(&self) -> Result<u32, Fault> {
        match u32::try_from(self.forms.len()) {
            Ok(here) => Ok(here),
            Err(_) => Err(Fault::Refused(0, Why::Length)),
        }
    }

    /// Adds a form, and gives its number.
    pub(crate) fn emit(&mut self, form: Form) -> Result<u32, Fault> {
        let here = self.here()?;
        if self.forms.len() >= MOST_FORMS {
            return Err(Fault::Refused(0, Why::Length));
        }
        self.forms.push(form)?;
        self.sites.push(self.site)?;
        Ok(here)
    }

    /// The jump of this number goes here.
    pub(crate) fn lands(&mut self, jump: u32) -> Result<(), Fault> {
        let here = self.here()?;
        self.aims_at(jump, here);
        Ok(())
    }

    fn aims_at(&mut self, jump: u32, target: u32) {
        if let Some(form) = self.forms.get_mut(jump as usize) {
            match form {
                Form::Jump(to) => *to = target,
                Form::Branch(_, _, to) | Form::Repeat(_, _, to) => *to = target,
                Form::Task { behind, .. } => *behind = target,
                _ => {}
            }
        }
    }

    /// The task that this form creates has so many slots, from its parent's on.
    pub(crate) fn gets_slots(&mut self, task: u32, from: u32, count: u32) {
        if let Some(form) = self.forms.get_mut(task as usize) {
            match form {
                Form::Task { first, slots, .. } => {
                    *first = from;
                    *slots = count;
                }
                _ => {}
            }
        }
    }

    /// What this form copies comes from another slot, or goes to one.
    pub(crate) fn copies_by(&mut self, copy: u32, slot: u32, is_target: bool) {
        if let Some(form) = self.forms.get_mut(copy as usize) {
            match form {
                Form::Copy(to, from) => {
                    if is_target {
                        *to = slot;
                    } else {
                        *from = slot;
                    }
                }
                _ => {}
            }
        }
    }

    /// A jump to what isn't made yet.
    pub(crate) fn jump(&mut self) -> Result<u32, Fault> {
        self.emit(Form::Jump(0))
    }

    /// A jump where the value is 0.
    pub(crate) fn branch(&mut self, at: u32, slot: u32) -> Result<u32, Fault> {
        if self.repeats {
            self.emit(Form::Repeat(at, slot, 0))
        } else {
            self.emit(Form::Branch(at, slot, 0))
        }
    }

    pub(crate) fn repeat(&mut self, at: u32, slot: u32) -> Result<u32, Fault> {
        self.emit(Form::Repeat(at, slot, 0))
    }
}

/// Slots.
impl<'a> Maker<'a> {
    pub(crate) fn fresh(&mut self) -> Result<u32, Fault> {
        let slot = self.frame.next;
        if slot >= MOST_SLOTS {
            return Err(Fault::Refused(0, Why::Length));
        }
        self.frame.next = slot.saturating_add(1);
        self.frame.most = self.frame.most.max(self.frame.next);
        Ok(slot)
    }

    pub(crate) fn number(&mut self, number: u64) -> Result<u32, Fault> {
        let slot = self.fresh()?;
        self.emit(Form::Number(slot, number))?;
        Ok(slot)
    }

    pub(crate) fn unknown(&mut self) -> Result<u32, Fault> {
        let slot = self.fresh()?;
        self.emit(Form::Unknown(slot))?;
        Ok(slot)
    }

    pub(crate) fn copy(&mut self, from: u32) -> Result<u32, Fault> {
        let slot = self.fresh()?;
        self.emit(Form::Copy(slot, from))?;
        Ok(slot)
    }

    pub(crate) fn operate(
        &mut self,
        operation: Operation,
        kind: Kind,
        one: u32,
        other: u32,
    ) -> Result<u32, Fault> {
        let slot = self.fresh()?;
        self.emit(Form::Operate(slot, operation, kind, one, other))?;
        Ok(slot)
    }

    /// A place moved on by so many elements of so many cells.
    pub(crate) fn advance(&mut self, place: u32, count: u32, cells: u32) -> Result<u32, Fault> {
        self.advance_in(place, count, cells, 0)
    }

    /// The same where an array of so many cells begins, or 0 where it isn't known how many.
    pub(crate) fn advance_in(
        &mut self,
        place: u32,
        count: u32,
        cells: u32,
        among: u32,
    ) -> Result<u32, Fault> {
        let slot = self.fresh()?;
        self.emit(Form::Advance(slot, place, count, cells, among))?;
        Ok(slot)
    }

    /// A place moved on by so many cells.
    pub(crate) fn moved(&mut self, place: u32, cells: u32) -> Result<u32, Fault> {
        if cells == 0 {
            return Ok(place);
        }
        let count = self.number(u64::from(cells))?;
        self.advance(place, count, 1)
    }

    /// 1 where the value is 0, else 0.
    pub(crate) fn is_zero(&mut self, slot: u32) -> Result<u32, Fault> {
        let zero = self.number(0)?;
        self.operate(Operation::Equal, WORD, slot, zero)
    }

    /// 0 where the value is 0, else 1.
    pub(crate) fn truth(&mut self, slot: u32) -> Result<u32, Fault> {
        let turned = self.is_zero(slot)?;
        self.is_zero(turned)
    }

    pub(crate) fn value(&mut self, slot: u32, sort: Sort) -> Val {
        Val {
            slot,
            sort,
            own: false,
            within: None,
        }
    }

    pub(crate) fn unknown_of(&mut self, sort: Sort) -> Result<Val, Fault> {
        let slot = self.unknown()?;
        Ok(self.value(slot, sort))
    }
}

/// Variables.
impl<'a> Maker<'a> {
    pub(crate) fn held(&self, variable: u32) -> Held {
        self.held
            .get(variable as usize)
            .copied()
            .unwrap_or(Held::Nowhere)
    }

    pub(crate) fn hold(&mut self, variable: u32, held: Held) {
        if let Some(place) = self.held.get_mut(variable as usize) {
            *place = held;
        }
    }

    /// Holds it otherwise, until `restore`.
    pub(crate) fn hold_for_now(&mut self, variable: u32, held: Held) -> Result<(), Fault> {
        let was = Was {
            variable,
            held: self.held(variable),
        };
        self.was.push(was)?;
        self.hold(variable, held);
        Ok(())
    }

    /// Variables are held again as they were.
    pub(crate) fn restore(&mut self, base: usize) {
        for _was in base..self.was.len() {
            if let Some(was) = self.was.pop() {
                self.hold(was.variable, was.held);
            }
        }
    }

    pub(crate) fn sort_of(&self, variable: u32) -> Sort {
        match self.unit.variables.get(variable as usize) {
            Some(variable) => sort_of(self.unit, variable),
            None => Sort::INT,
        }
    }

    pub(crate) fn extent(&self, at: u32, sort: Sort) -> Result<Extent, Fault> {
        match self.layouts.extent(self.unit, sort) {
            Some(extent) => Ok(extent),
            None => Err(Fault::Refused(at, Why::Incomplete)),
        }
    }

    /// By which an object is known that isn't a variable's.
    pub(crate) fn name_at(&self, at: u32) -> u32 {
        match u32::try_from(self.unit.variables.len()) {
            Ok(variables) => variables.saturating_add(at),
            Err(_) => at,
        }
    }

    /// A new object of a variable, which is held there and ends with its block.
    pub(crate) fn begin(&mut self, at: u32, variable: u32, zero: bool) -> Result<u32, Fault> {
        let sort = self.sort_of(variable);
        let extent = self.extent(at, sort)?;
        let slot = self.fresh()?;
        self.emit(Form::Begin(slot, extent.cells, variable, zero))?;
        self.live.push(slot)?;
        Ok(slot)
    }

    /// The objects end that began since, the last one first.
    pub(crate) fn end_since(&mut self, at: u32, base: usize) -> Result<(), Fault> {
        self.leave(at, base)?;
        self.live.truncate(base);
        self.labels.narrows(base);
        Ok(())
    }

    /// The same where a jump leaves them.
    pub(crate) fn leave(&mut self, at: u32, base: usize) -> Result<(), Fault> {
        for place in (base..self.live.len()).rev() {
            if let Some(slot) = self.live.get(place).copied() {
                self.emit(Form::End(at, slot))?;
            }
        }
        Ok(())
    }
}
