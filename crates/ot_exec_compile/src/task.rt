//! Tasks: what they take along, and their bodies.
use crate::fault::{Fault, Why};
use crate::maker::{Aim, Around, FINAL, Frame, Held, Maker, NUMBER, Returns, Taken, Val, Way};
use crate::team::{Team, Whose};
use ot_exec_code::Form;
use ot_exec_layout::{Class, Sort};
use ot_exec_sharing::{Capture, How};
use ot_exec_tree::Clause;
use std::mem;

/// Where the lists of what a task takes along began.
#[derive(Clone, Copy)]
pub(crate) struct Bases {
    pub(crate) taken: usize,
    pub(crate) passed: usize,
    pub(crate) joined: usize,
    pub(crate) sizes: usize,
}

/// A task whose body is being made.
#[derive(Clone, Copy)]
pub(crate) struct Opened {
    task: u32,
    first: u32,
    frame: Frame,
    around: Around,
    gives: Sort,
    was: usize,
    bases: Bases,
    /// The slot of what says whether its parent is final.
    flag: Option<u32>,
    team: Team,
    whose: Whose,
    text: u32,
    copied: usize,
    /// The number of its parent, and the slot of what its parent's thread has for a number.
    level: u32,
    number: Option<u32>,
}

impl Opened {
    /// The first of its parent's slots that had no value before.
    pub(crate) fn unused(&self) -> u32 {
        self.frame.next.max(self.frame.most)
    }
}

/// A size that a task takes along: of this type, and where that was before.
#[derive(Clone, Copy)]
pub(crate) struct Size {
    kind: u32,
    slot: u32,
    was: Option<u32>,
}

/// What its parent does.
impl<'a> Maker<'a> {
    pub(crate) fn bases(&self) -> Bases {
        Bases {
            taken: self.taken.len(),
            passed: self.passed.len(),
            joined: self.joined.len(),
            sizes: self.sizes_taken.len(),
        }
    }

    /// The task takes a slot's value along: the slot that it has there.
    pub(crate) fn passes(&mut self, slot: u32, base: usize) -> Result<u32, Fault> {
        let place = self.passed.len().saturating_sub(base);
        self.passed.push(slot)?;
        match u32::try_from(place) {
            Ok(place) => Ok(place),
            Err(_) => Err(Fault::Refused(0, Why::Length)),
        }
    }

    /// What the construct at this token has from outside.
    pub(crate) fn takes(&mut self, at: u32, clauses: &[Clause]) -> Result<Bases, Fault> {
        let bases = self.bases();
        self.stamp = self.stamp.wrapping_add(1);
        let sharing = self.sharing;
        let held = self.holds_items(clauses, sharing.captures(at))?;
        for capture in sharing.captures(at) {
            if self.is_new(capture.variable) {
                self.take(at, *capture, bases.passed)?;
                let sort = self.sort_of(capture.variable);
                self.takes_sizes(sort, bases.passed)?;
            }
        }
        self.joins(at, clauses, bases.passed)?;
        self.restore(held);
        Ok(bases)
    }

    fn is_new(&mut self, variable: u32) -> bool {
        match self.stamps.get_mut(variable as usize) {
            Some(stamp) => {
                let is_new = *stamp != self.stamp;
                *stamp = self.stamp;
                is_new
            }
            None => false,
        }
    }

    fn take(&mut self, at: u32, capture: Capture, base: usize) -> Result<(), Fault> {
        let variable = capture.variable;
        match capture.how {
            How::Private | How::Lastprivate => self.taken.push(Taken {
                variable,
                how: capture.how,
                slot: None,
                own: false,
                is_value: false,
            })?,
            How::Shared => self.take_shared(at, capture, base)?,
            How::Own => self.take_own(at, capture, base)?,
            How::Reduced => self.take_reduced(at, capture, base)?,
            How::Firstprivate | How::Both => self.take_copy(at, capture, base)?,
        }
        Ok(())
    }

    fn take_slot(
        &mut self,
        capture: Capture,
        slot: u32,
        own: bool,
        is_value: bool,
        base: usize,
    ) -> Result<(), Fault> {
        let slot = self.passes(slot, base)?;
        self.taken.push(Taken {
            variable: capture.variable,
            how: capture.how,
            slot: Some(slot),
            own,
            is_value,
        })?;
        Ok(())
    }

    fn take_shared(&mut self, at: u32, capture: Capture, base: usize) -> Result<(), Fault> {
        match self.held(capture.variable) {
            // it is there by its number
            Held::Object(_) => Ok(()),
            Held::Place(slot) => self.take_slot(capture, slot, false, false, base),
            Held::Own(slot) => self.take_slot(capture, slot, true, false, base),
            Held::Lender(slot) => self.take_slot(capture, slot, true, true, base),
            Held::Slot(slot) => self.take_slot(capture, slot, false, true, base),
            Held::Nowhere => Err(Fault::Refused(at, Why::NoPlace)),
        }
    }

    /// The thread's variable: nobody else sees that it is touched, unless the thread shares it with tasks. One without a place is only read,
    /// and its value goes along.
    fn take_own(&mut self, at: u32, capture: Capture, base: usize) -> Result<(), Fault> {
        let variable = capture.variable;
        match self.held(variable) {
            Held::Place(slot) if !self.owned.is_lent(variable) => {
                self.take_slot(capture, slot, true, false, base)
            }
            Held::Slot(slot) if self.owned.has_memory(variable) => {
                self.take_slot(capture, slot, true, true, base)
            }
            _ => self.take_shared(at, capture, base),
        }
    }

    fn take_reduced(&mut self, at: u32, capture: Capture, base: usize) -> Result<(), Fault> {
        let aim = self.aim_variable(at, capture.variable)?;
        if self.is_pointer(aim.sort) {
            let value = self.load(aim)?;
            return self.take_slot(capture, value.slot, true, true, base);
        }
        if aim.way == Way::Slot {
            return Err(Fault::Refused(at, Why::NoPlace));
        }
        self.take_slot(capture, aim.slot, true, false, base)
    }

    /// A value is copied when the task is created. An array or a struct is copied whole.
    fn take_copy(&mut self, at: u32, capture: Capture, base: usize) -> Result<(), Fault> {
        let aim = self.aim_variable(at, capture.variable)?;
        let aim = Aim { site: at, ..aim };
        match self.class(aim.sort) {
            Class::Array(_) | Class::Record(_) => {
                let slot = self.copied(at, capture.variable, aim)?;
                self.take_slot(capture, slot, false, false, base)
            }
            _ => {
                let value = self.load(aim)?;
                self.take_slot(capture, value.slot, value.own, true, base)
            }
        }
    }

    /// The place of a new object with the same cells.
    pub(crate) fn copied(&mut self, at: u32, variable: u32, aim: Aim) -> Result<u32, Fault> {
        let slot = self.fresh()?;
        let target = Aim {
            slot,
            sort: aim.sort,
            way: Way::Own,
            site: at,
            lends: false,
            within: None,
        };
        if let Some(cells) = self.size_slot(aim.sort) {
            self.emit(Form::Allocate(slot, variable, cells, 1, false))?;
            self.copy_many(target, aim, cells)?;
            return Ok(slot);
        }
        let extent = self.extent(at, aim.sort)?;
        self.emit(Form::Begin(slot, extent.cells, variable, false))?;
        let source = Val {
            slot: aim.slot,
            sort: aim.sort,
            own: aim.way == Way::Own,
            within: None,
        };
        self.copy_cells(target, source, extent.cells)?;
        Ok(slot)
    }

    /// Sizes in a variable's type that aren't constant.
    fn takes_sizes(&mut self, sort: Sort, base: usize) -> Result<(), Fault> {
        let mut sort = sort;
        for _level in 0..8 {
            if let (Some(slot), Some(kind)) = (self.size_slot(sort), sort.own_kind()) {
                let passed = self.passes(slot, base)?;
                self.sizes_taken.push(Size {
                    kind,
                    slot: passed,
                    was: Some(slot),
                })?;
            }
            match sort.target(self.unit) {
                Some(target) => sort = target,
                None => return Ok(()),
            }
        }
        Ok(())
    }
}

/// What is made of the task itself.
impl<'a> Maker<'a> {
    /// The task begins. Its parent's slots are left.
    pub(crate) fn enters(
        &mut self,
        at: u32,
        when: Option<u32>,
        is_final: Option<u32>,
        bases: Bases,
    ) -> Result<Opened, Fault> {
        let finals = match is_final {
            Some(inner) => {
                let flag = self.flag(at, FINAL)?;
                let inner = self.passes(inner, bases.passed)?;
                Some((inner, self.passes(flag, bases.passed)?))
            }
            None => None,
        };
        let number = self.leaves_number(at, bases.passed)?;
        let first = self.frame.next;
        for place in bases.passed..self.passed.len() {
            if let Some(slot) = self.passed.get(place).copied() {
                self.copy(slot)?;
            }
        }
        let count = self.frame.next.saturating_sub(first);
        let items = mem::replace(&mut self.items, Vec::new(self.alloc));
        let task = self.emit(Form::Task {
            site: at,
            first,
            slots: 0,
            behind: 0,
            items,
            when,
        })?;
        let flag = finals.map(|finals| finals.1);
        let mut opened = self.opens(task, first, count, bases, flag);
        opened.number = number;
        self.hides_number(at, number)?;
        self.keeps_numbers(bases, opened.level, self.level);
        self.binds(at, bases)?;
        if let Some((inner, _)) = finals {
            self.set_flag(at, FINAL, inner)?;
        }
        Ok(opened)
    }

    /// A task's own slots begin, so many of which have values.
    pub(crate) fn opens(
        &mut self,
        task: u32,
        first: u32,
        count: u32,
        bases: Bases,
        flag: Option<u32>,
    ) -> Opened {
        let opened = Opened {
            task,
            first,
            frame: self.frame,
            around: self.around,
            gives: self.gives,
            was: self.was.len(),
            bases,
            flag,
            team: self.team,
            whose: self.whose,
            text: self.labels.begins(),
            copied: self.first_copied,
            level: self.level,
            number: None,
        };
        self.first_copied = self.copied.len();
        self.levels = self.levels.saturating_add(1);
        self.level = self.levels;
        self.frame = Frame {
            next: count,
            most: count,
            floor: self.live.len(),
            returns: Returns::Nowhere,
        };
        self.around = Around::NOTHING;
        self.team = Team::Nothing;
        self.whose = Whose::Nobody;
        opened
    }

    /// Variables are held in the task's own slots.
    pub(crate) fn binds(&mut self, at: u32, bases: Bases) -> Result<(), Fault> {
        for place in bases.sizes..self.sizes_taken.len() {
            if let Some(size) = self.sizes_taken.get(place).copied() {
                self.set_size(size.kind, Some(size.slot));
            }
        }
        for place in bases.taken..self.taken.len() {
            if let Some(taken) = self.taken.get(place).copied() {
                self.bind(at, taken)?;
            }
        }
        for place in bases.joined..self.joined.len() {
            if let Some(joined) = self.joined.get(place).copied() {
                self.takes_part(at, joined)?;
                if let Some(variable) = joined.copied {
                    self.begins_copy(at, joined, variable)?;
                }
            }
        }
        Ok(())
    }

    fn set_size(&mut self, kind: u32, slot: Option<u32>) {
        if let Some(place) = self.sizes.get_mut(kind as usize) {
            *place = slot;
        }
    }

    fn bind(&mut self, at: u32, taken: Taken) -> Result<(), Fault> {
        let variable = taken.variable;
        let held = match (taken.slot, taken.is_value) {
            (None, _) => self.begins_private(at, variable)?,
            (Some(slot), true) => {
                if taken.own {
                    Held::Lender(slot)
                } else {
                    self.begins_with(at, variable, slot)?
                }
            }
            (Some(slot), false) => {
                if is_copy(taken.how) {
                    self.live.push(slot)?;
                }
                if taken.own {
                    Held::Own(slot)
                } else {
                    Held::Place(slot)
                }
            }
        };
        self.hold_for_now(variable, held)
    }

    /// A private copy without a value.
    pub(crate) fn begins_private(&mut self, at: u32, variable: u32) -> Result<Held, Fault> {
        if self.sharing.is_object(variable) {
            let sort = self.sort_of(variable);
            if let Some(cells) = self.size_slot(sort) {
                let slot = self.fresh()?;
                self.emit(Form::Allocate(slot, variable, cells, 1, false))?;
                self.live.push(slot)?;
                return Ok(Held::Place(slot));
            }
            let slot = self.begin(at, variable, false)?;
            Ok(Held::Place(slot))
        } else {
            Ok(Held::Slot(self.unknown()?))
        }
    }

    /// A private copy with the value of a slot.
    pub(crate) fn begins_with(
        &mut self,
        at: u32,
        variable: u32,
        value: u32,
    ) -> Result<Held, Fault> {
        if !self.sharing.is_object(variable) {
            return Ok(Held::Slot(value));
        }
        let slot = self.begin(at, variable, false)?;
        self.emit(Form::StoreOwn(at, slot, value))?;
        Ok(Held::Place(slot))
    }

    /// The task ends, and its parent's slots are those again.
    pub(crate) fn leaves(&mut self, at: u32, opened: Opened) -> Result<(), Fault> {
        self.adds_copies(at)?;
        self.end_since(at, self.frame.floor)?;
        if let Some(flag) = opened.flag {
            self.set_flag(at, FINAL, flag)?;
        }
        if let Some(number) = opened.number {
            self.set_flag(at, NUMBER, number)?;
        }
        self.emit(Form::Finish)?;
        let slots = self.frame.most.max(1);
        self.closes(opened, opened.first, slots)
    }

    /// Its parent goes on; the task has so many of its slots, from the first on.
    pub(crate) fn closes(&mut self, opened: Opened, first: u32, slots: u32) -> Result<(), Fault> {
        self.lands(opened.task)?;
        self.gets_slots(opened.task, first, slots);
        self.restore(opened.was);
        self.frame = opened.frame;
        self.frame.most = self.frame.most.max(first.saturating_add(slots));
        self.around = opened.around;
        self.gives = opened.gives;
        self.team = opened.team;
        self.whose = opened.whose;
        self.labels.goes_on(opened.text);
        self.copied.truncate(self.first_copied);
        self.first_copied = opened.copied;
        self.keeps_numbers(opened.bases, self.level, opened.level);
        self.level = opened.level;
        self.forgets(opened.bases);
        Ok(())
    }

    pub(crate) fn forgets(&mut self, bases: Bases) {
        for place in bases.sizes..self.sizes_taken.len() {
            if let Some(size) = self.sizes_taken.get(place).copied() {
                self.set_size(size.kind, size.was);
            }
        }
        self.sizes_taken.truncate(bases.sizes);
        self.taken.truncate(bases.taken);
        self.passed.truncate(bases.passed);
        self.joined.truncate(bases.joined);
    }
}

/// Whether a variable's cells are the task's own.
fn is_copy(how: How) -> bool {
    match how {
        How::Firstprivate | How::Both => true,
        How::Shared | How::Own | How::Reduced | How::Private | How::Lastprivate => false,
    }
}

/// Within the slots of who comes to a construct.
impl<'a> Maker<'a> {
    /// Private copies of a construct that is executed by who comes to it.
    pub(crate) fn copies_here(&mut self, at: u32) -> Result<(), Fault> {
        self.stamp = self.stamp.wrapping_add(1);
        let sharing = self.sharing;
        for capture in sharing.captures(at) {
            if self.is_new(capture.variable) {
                self.copy_here(at, *capture)?;
            }
        }
        Ok(())
    }

    fn copy_here(&mut self, at: u32, capture: Capture) -> Result<(), Fault> {
        let variable = capture.variable;
        let held = match capture.how {
            How::Shared | How::Own => return Ok(()),
            How::Private | How::Lastprivate => self.begins_private(at, variable)?,
            How::Reduced => {
                let aim = self.aim_variable(at, variable)?;
                if self.is_pointer(aim.sort) {
                    Held::Lender(self.load(aim)?.slot)
                } else {
                    Held::Own(aim.slot)
                }
            }
            How::Firstprivate | How::Both => {
                let aim = self.aim_variable(at, variable)?;
                match self.class(aim.sort) {
                    Class::Array(_) | Class::Record(_) => {
                        let slot = self.copied(at, variable, aim)?;
                        self.live.push(slot)?;
                        Held::Place(slot)
                    }
                    _ => {
                        let value = self.load(aim)?;
                        let slot = self.copy(value.slot)?;
                        self.begins_with(at, variable, slot)?
                    }
                }
            }
        };
        self.hold_for_now(variable, held)
    }
}
