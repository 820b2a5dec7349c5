//! Clauses.
use crate::fault::{Fault, Why};
use crate::maker::{ALONE, Aim, FINAL, Held, LONG, Maker, WORD};
use crate::section::Count;
use crate::unions::stands_apart;
use crate::value::DEEPEST;
use ot_exec_code::{Depends, Folded, Form, Item, Operation};
use ot_exec_layout::{Class, Sort};
use ot_exec_sharing::{condition_of, value_of};
use ot_exec_tree::{Clause, Dependence, Directive, Expr, Integer, Iterator, Reducing, Role};
use ot_model::Fold;

/// How many numbers an iterator has at most.
const MOST_TURNS: u64 = 128;

/// A cell, or some, by which a task takes part in a reduction: the place among what it takes along.
#[derive(Clone, Copy)]
pub(crate) struct Joined {
    pub(crate) fold: Fold,
    pub(crate) slot: u32,
    pub(crate) cells: Count,
    /// The variable that leads there, where the task has cells of its own.
    pub(crate) copied: Option<u32>,
}

pub(crate) fn fold_of(reducing: Reducing) -> Fold {
    match reducing {
        Reducing::Plus => Fold::Plus,
        Reducing::Times => Fold::Times,
        Reducing::And | Reducing::Both => Fold::And,
        Reducing::Or | Reducing::Either => Fold::Or,
        Reducing::Xor => Fold::Xor,
        Reducing::Min => Fold::Min,
        Reducing::Max => Fold::Max,
    }
}

fn mode_of(dependence: Dependence) -> Depends {
    match dependence {
        Dependence::In => Depends::In,
        Dependence::Out | Dependence::Inout => Depends::InOut,
        Dependence::Mutexinoutset => Depends::MutexInOutSet,
        Dependence::Inoutset => Depends::InOutSet,
    }
}

impl<'a> Maker<'a> {
    /// The slot that says whether a task of this directive may be deferred: not where its condition is 0, in a final task, or where a
    /// team has one thread, which executes its tasks one after another.
    pub(crate) fn deferral(
        &mut self,
        at: u32,
        clauses: &[Clause],
        directive: Directive,
    ) -> Result<Option<u32>, Fault> {
        let condition = match condition_of(clauses, directive) {
            Some(condition) => {
                let value = self.expression(DEEPEST, condition)?;
                let slot = self.test(at, value)?;
                Some(self.truth(slot)?)
            }
            None => None,
        };
        let free = self.may_defer(at)?;
        match condition {
            Some(condition) => Ok(Some(self.operate(Operation::And, WORD, condition, free)?)),
            None => Ok(Some(free)),
        }
    }

    /// The slot that says whether what runs may defer tasks.
    pub(crate) fn may_defer(&mut self, at: u32) -> Result<u32, Fault> {
        let alone = self.flag(at, ALONE)?;
        let kept = if self.has_final {
            let flag = self.flag(at, FINAL)?;
            self.operate(Operation::Or, WORD, alone, flag)?
        } else {
            alone
        };
        self.is_zero(kept)
    }

    /// The slot that says whether tasks within are final, where the clause stands here.
    pub(crate) fn finality(&mut self, at: u32, clauses: &[Clause]) -> Result<Option<u32>, Fault> {
        let Some(condition) = value_of(clauses, Role::Final) else {
            return Ok(None);
        };
        let value = self.expression(DEEPEST, condition)?;
        let slot = self.test(at, value)?;
        let slot = self.truth(slot)?;
        let flag = self.flag(at, FINAL)?;
        Ok(Some(self.operate(Operation::Or, WORD, flag, slot)?))
    }

    /// What says nothing of order is evaluated.
    pub(crate) fn evaluates(&mut self, clauses: &[Clause]) -> Result<(), Fault> {
        if let Some(value) = value_of(clauses, Role::Priority) {
            self.expression(DEEPEST, value)?;
        }
        Ok(())
    }

    /// Where an item begins, and what lies there.
    pub(crate) fn item_place(&mut self, depth: u32, item: &Expr) -> Result<Aim, Fault> {
        if depth == 0 {
            return Err(Fault::Refused(0, Why::Nesting));
        }
        match item {
            Expr::Section(at, one, start, _) => {
                let base = self.item_place(depth - 1, one)?;
                let pointer = self.load(base)?;
                let index = match start {
                    Some(start) => {
                        self.converted(DEEPEST, start, Sort::integer(Integer::Long))?
                            .slot
                    }
                    None => self.number(0)?,
                };
                let place = self.stepped(*at, pointer, index)?;
                self.followed(base.site, place)
            }
            Expr::Index(_, one, index) => {
                let base = self.item_place(depth - 1, one)?;
                let pointer = self.load(base)?;
                let index = self.expression(DEEPEST, index)?;
                self.element(base.site, pointer, index, 0)
            }
            other => self.aim(DEEPEST, other),
        }
    }

    /// The items of `depend` clauses.
    pub(crate) fn dependences(&mut self, clauses: &[Clause]) -> Result<(), Fault> {
        for clause in clauses {
            if let Role::Depend(dependence) = clause.role {
                let mode = mode_of(dependence);
                match clause.iterators.as_slice() {
                    [] => self.dependence(mode, clause.items.as_slice())?,
                    [iterator] => self.iterated(
                        clause.at,
                        mode,
                        iterator,
                        clause.items.as_slice(),
                    )?,
                    _ => return Err(Fault::Refused(clause.at, Why::Iterator)),
                }
            }
        }
        Ok(())
    }

    fn dependence(&mut self, mode: Depends, items: &[Expr]) -> Result<(), Fault> {
        for item in items {
            if self.is_empty(item) {
                continue;
            }
            let place = self.item_place(64, item)?;
            stands_apart(place.site, place.within)?;
            self.items.push(Item {
                mode,
                slot: place.slot,
            })?;
        }
        Ok(())
    }

    /// Whether it is a section of no length.
    fn is_empty(&mut self, item: &Expr) -> bool {
        match item {
            Expr::Section(_, _, _, Some(length)) => {
                match self.layouts.constant(self.unit, length) {
                    Some(length) => length.number == 0,
                    None => false,
                }
            }
            _ => false,
        }
    }

    /// The items of an iterator are written out.
    fn iterated(
        &mut self,
        at: u32,
        mode: Depends,
        iterator: &Iterator,
        items: &[Expr],
    ) -> Result<(), Fault> {
        let start = self.layouts.constant(self.unit, &iterator.start);
        let end = self.layouts.constant(self.unit, &iterator.end);
        let (Some(start), Some(end), true) = (start, end, iterator.step.is_none()) else {
            return self.iterated_when_met(at, mode, iterator, items);
        };
        let (Some(start), Some(end)) = (start.count(), end.count()) else {
            return Err(Fault::Refused(at, Why::Iterator));
        };
        if end.saturating_sub(start) > MOST_TURNS {
            return Err(Fault::Refused(at, Why::Iterator));
        }
        let base = self.was.len();
        for number in start..end {
            let slot = self.number(number)?;
            self.hold_for_now(iterator.variable, Held::Slot(slot))?;
            self.dependence(mode, items)?;
        }
        self.restore(base);
        Ok(())
    }

    /// Where the range is known only when it is met, items are written out for as many numbers as it may have. Those that it hasn't then
    /// name no cell.
    fn iterated_when_met(
        &mut self,
        at: u32,
        mode: Depends,
        iterator: &Iterator,
        items: &[Expr],
    ) -> Result<(), Fault> {
        let sort = self.sort_of(iterator.variable);
        let start = self.converted(DEEPEST, &iterator.start, sort)?.slot;
        let end = self.converted(DEEPEST, &iterator.end, sort)?.slot;
        let step = self.step_of(at, iterator)?;
        let number = self.copy(start)?;
        let base = self.was.len();
        self.hold_for_now(iterator.variable, Held::Slot(number))?;
        for _turn in 0..MOST_TURNS {
            let first = self.items.len();
            for _item in items {
                self.names_no_cell(mode)?;
            }
            let next = self.frame.next;
            let out = self.is_behind(at, number, end)?;
            self.places_from(first, items)?;
            self.emit(Form::Operate(number, Operation::Add, LONG, number, step))?;
            self.lands(out)?;
            self.frame.next = next;
        }
        self.restore(base);
        let out = self.is_behind(at, number, end)?;
        self.has_no_room(at)?;
        self.lands(out)
    }

    /// The jump that is taken where a number isn't less than the end.
    fn is_behind(&mut self, at: u32, number: u32, end: u32) -> Result<u32, Fault> {
        let test = self.operate(Operation::Less, LONG, number, end)?;
        self.repeat(at, test)
    }

    /// The step of an iterator, which has to be a constant above 0.
    fn step_of(&mut self, at: u32, iterator: &Iterator) -> Result<u32, Fault> {
        let Some(step) = &iterator.step else {
            return self.number(1);
        };
        match self.layouts.constant(self.unit, step) {
            Some(step) => match step.count() {
                Some(step) if step > 0 => self.number(step),
                _ => Err(Fault::Refused(at, Why::Iterator)),
            },
            None => Err(Fault::Refused(at, Why::Iterator)),
        }
    }

    /// An item that begins outside of its object, until a place is put into its slot.
    fn names_no_cell(&mut self, mode: Depends) -> Result<(), Fault> {
        let slot = self.fresh()?;
        self.emit(Form::Address(slot, self.flags, u32::MAX))?;
        self.items.push(Item { mode, slot })?;
        Ok(())
    }

    /// Where the items begin now, in the slots of those from this one on.
    fn places_from(&mut self, first: usize, items: &[Expr]) -> Result<(), Fault> {
        for (number, item) in items.iter().enumerate() {
            if self.is_empty(item) {
                continue;
            }
            let place = self.item_place(64, item)?;
            stands_apart(place.site, place.within)?;
            if let Some(one) = self.items.get(first.saturating_add(number)).copied() {
                self.emit(Form::Copy(one.slot, place.slot))?;
            }
        }
        Ok(())
    }

    /// The run ends here, since it would need too much.
    fn has_no_room(&mut self, at: u32) -> Result<(), Fault> {
        let count = self.number(u64::MAX)?;
        let slot = self.fresh()?;
        let name = self.name_at(at);
        self.emit(Form::Allocate(slot, name, count, 1, false))?;
        Ok(())
    }

    /// The items of a region's reductions.
    pub(crate) fn folds(&mut self, clauses: &[Clause], of_group: bool) -> Result<(), Fault> {
        for clause in clauses {
            let reducing = match (clause.role, of_group) {
                (Role::TaskReduction(reducing), true) => Some(reducing),
                (Role::Reduction(reducing), false) => Some(reducing),
                _ => None,
            };
            if let Some(reducing) = reducing {
                self.folds_by(clause.at, fold_of(reducing), clause.items.as_slice())?;
            }
        }
        Ok(())
    }

    fn folds_by(&mut self, at: u32, fold: Fold, items: &[Expr]) -> Result<(), Fault> {
        for item in items {
            let aim = self.item_place(64, item)?;
            stands_apart(aim.site, aim.within)?;
            let cells = self.item_cells(at, item, aim)?;
            let count = self.counted(cells)?;
            self.folded.push(Folded {
                fold,
                slot: aim.slot,
                count,
            })?;
        }
        Ok(())
    }

    /// By what a task takes part in reductions: it takes their places along.
    pub(crate) fn joins(&mut self, at: u32, clauses: &[Clause], base: usize) -> Result<(), Fault> {
        for clause in clauses {
            let reducing = match clause.role {
                Role::InReduction(reducing) | Role::Reduction(reducing) => Some(reducing),
                _ => None,
            };
            if let Some(reducing) = reducing {
                self.joins_by(at, clause, fold_of(reducing), base)?;
            }
        }
        Ok(())
    }

    fn joins_by(&mut self, at: u32, clause: &Clause, fold: Fold, base: usize) -> Result<(), Fault> {
        for item in clause.items.iter() {
            let aim = self.item_place(64, item)?;
            stands_apart(aim.site, aim.within)?;
            let cells = self.item_cells(clause.at, item, aim)?;
            let slot = self.passes(aim.slot, base)?;
            let cells = match cells {
                Count::Of(cells) => Count::Of(cells),
                Count::By(count) => Count::By(self.passes(count, base)?),
            };
            let copied = self.copied_item(at, item);
            self.joined.push(Joined {
                fold,
                slot,
                cells,
                copied,
            })?;
        }
        Ok(())
    }

    /// Whether a value is a pointer.
    pub(crate) fn is_pointer(&self, sort: Sort) -> bool {
        matches!(self.class(sort), Class::Pointer)
    }
}
