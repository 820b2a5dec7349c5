//! Copies of what tasks reduce: where a function gets the place of an item, or something else leads there, the task that takes part has cells of its own
//! (OpenMP API 5.2, section 5.5.1).
use crate::clauses::Joined;
use crate::fault::{Fault, Why};
use crate::maker::{Held, Maker};
use crate::section::Count;
use ot_exec_code::{Form, Kind, Operation};
use ot_exec_layout::{Class, Sort, kind_of};
use ot_exec_sharing::{Capture, How};
use ot_exec_tree::{Clause, Expr, Role};
use ot_model::Fold;

/// How deep an item of a reduction nests at most, and its type.
pub(crate) const ITEM_DEPTH: u32 = 16;

/// Cells of its own that a task has in the place of an item: the variable, how that was held, the slots of the place of the item and of the first such
/// cell, how many they are, and by which operation they are added to the item.
#[derive(Clone, Copy)]
pub(crate) struct Copied {
    variable: u32,
    was: Held,
    item: u32,
    first: u32,
    cells: Count,
    adds: Option<(Operation, Kind)>,
}

/// The variable by which an item is reached.
pub(crate) fn variable_of(depth: u32, item: &Expr) -> Option<u32> {
    if depth == 0 {
        return None;
    }
    match item {
        Expr::Variable(_, variable) => Some(*variable),
        Expr::Section(_, one, _, _) | Expr::Index(_, one, _) => variable_of(depth - 1, one),
        _ => None,
    }
}

/// The operation by which what tasks have is added up, where the cells begin with 0.
fn operation_of(fold: Fold) -> Option<Operation> {
    match fold {
        Fold::Plus => Some(Operation::Add),
        Fold::Xor => Some(Operation::Xor),
        _ => None,
    }
}

impl<'a> Maker<'a> {
    /// The variable of an item of which the task has cells of its own.
    pub(crate) fn copied_item(&self, at: u32, item: &Expr) -> Option<u32> {
        match variable_of(ITEM_DEPTH, item) {
            Some(variable) if self.owned.is_passed_on(at, variable) => Some(variable),
            _ => None,
        }
    }

    /// The integers of which a type is made, where it is made of such.
    fn element_kind(&self, sort: Sort) -> Option<Kind> {
        let mut sort = sort;
        for _level in 0..ITEM_DEPTH {
            match self.class(sort) {
                Class::Integer(integer) => return Some(kind_of(integer)),
                Class::Array(_) | Class::Pointer => match sort.target(self.unit) {
                    Some(target) => sort = target,
                    None => return None,
                },
                _ => return None,
            }
        }
        None
    }

    /// The task that begins has cells of its own in the place of an item. Its variable leads there.
    pub(crate) fn begins_copy(
        &mut self,
        at: u32,
        joined: Joined,
        variable: u32,
    ) -> Result<(), Fault> {
        let was = self.held(variable);
        let (base, leads) = match was {
            Held::Own(slot) => (slot, false),
            Held::Lender(slot) => (slot, true),
            _ => return Err(Fault::Refused(at, Why::NoPlace)),
        };
        let adds = match (
            operation_of(joined.fold),
            self.element_kind(self.sort_of(variable)),
        ) {
            (Some(operation), Some(kind)) => Some((operation, kind)),
            _ => None,
        };
        let first = self.fresh()?;
        match joined.cells {
            Count::Of(cells) => self.emit(Form::Begin(first, cells, variable, adds.is_some()))?,
            Count::By(count) => self.emit(Form::Allocate(
                first,
                variable,
                count,
                1,
                adds.is_some(),
            ))?,
        };
        let before = self.fresh()?;
        self.emit(Form::Distance(before, base, joined.slot, 1))?;
        let place = self.advance(first, before, 1)?;
        let held = if leads {
            self.begins_with(at, variable, place)?
        } else {
            Held::Place(place)
        };
        self.hold_for_now(variable, held)?;
        self.copied.push(Copied {
            variable,
            was,
            item: joined.slot,
            first,
            cells: joined.cells,
            adds,
        })?;
        Ok(())
    }

    /// What the task has in cells of its own is added to the items.
    pub(crate) fn adds_copies(&mut self, at: u32) -> Result<(), Fault> {
        for place in self.first_copied..self.copied.len() {
            if let Some(copied) = self.copied.get(place).copied() {
                self.adds_copy(at, copied)?;
            }
        }
        Ok(())
    }

    fn adds_copy(&mut self, at: u32, copied: Copied) -> Result<(), Fault> {
        let mark = self.frame.next;
        let count = self.counted(copied.cells)?;
        let (index, start, out) = self.begins_count(at, count)?;
        let to = self.advance(copied.item, index, 1)?;
        let value = match copied.adds {
            Some((operation, kind)) => {
                let from = self.advance(copied.first, index, 1)?;
                let old = self.fresh()?;
                self.emit(Form::LoadOwn(at, old, to))?;
                let new = self.fresh()?;
                self.emit(Form::LoadOwn(at, new, from))?;
                self.operate(operation, kind, old, new)?
            }
            None => self.unknown()?,
        };
        self.emit(Form::StoreOwn(at, to, value))?;
        self.ends_count(index, start, out)?;
        self.frame.next = mark;
        Ok(())
    }

    /// Whether clauses name items in which a task takes part.
    fn takes_part_by(&self, clauses: &[Clause]) -> bool {
        clauses.iter().any(|clause| matches!(
            clause.role,
            Role::InReduction(_) | Role::Reduction(_)
        ))
    }

    /// A task within takes part by the items, and not by what this one has in their place: their variables are held as before, and how they were is kept.
    pub(crate) fn holds_items(
        &mut self,
        clauses: &[Clause],
        captures: &[Capture],
    ) -> Result<usize, Fault> {
        let base = self.was.len();
        if !self.takes_part_by(clauses) {
            return Ok(base);
        }
        for capture in captures {
            if capture.how == How::Reduced
                && let Some(held) = self.held_before(capture.variable)
            {
                self.hold_for_now(capture.variable, held)?;
            }
        }
        Ok(base)
    }

    /// How a variable was held before this task had cells of its own.
    fn held_before(&self, variable: u32) -> Option<Held> {
        for place in self.first_copied..self.copied.len() {
            if let Some(copied) = self.copied.get(place)
                && copied.variable == variable
            {
                return Some(copied.was);
            }
        }
        None
    }
}
