//! Where the values of slots come from, form after form: of jumps that meet each value may be there that one of them leaves.
use crate::graph::{ANY, Going, Graph, Load, MEMORY, NONE, OUTER, PLAIN, Touch, UNKNOWN};
use crate::slots::given_by;
use crate::spots::{Spots, spots_of};
use ot_exec_code::{Code, Form};
use std::alloc::{AllocError, Global};
use std::collections::BTreeMap;

/// What a slot had before it was given another value, or the value with which a loop's turn begins.
#[derive(Clone, Copy)]
struct Was {
    slot: u32,
    value: u32,
}

/// A loop that is open: where its turns begin, the last form that jumps back there, and where its slots begin among those of all that are open.
#[derive(Clone, Copy)]
struct Loop {
    head: u32,
    last: u32,
    first: usize,
}

/// A function: the first of its parameters' values, how many there are, and the value of what it gives.
#[derive(Clone, Copy)]
struct Called {
    first: u32,
    count: u32,
    gives: u32,
}

/// A value of which a branch or an index is made, or whether a task is deferred.
#[derive(Clone, Copy)]
pub(crate) struct Asked {
    pub at: usize,
    pub value: u32,
    /// Whether it stands in the first function, in no task and no region: nothing else happens meanwhile.
    pub is_free: bool,
}

/// What slots may have at a form, or where a form stores.
#[derive(Clone, Copy)]
pub(crate) struct Met {
    pub at: usize,
    pub value: u32,
}

/// When a slot was last looked at, and what it was then given.
#[derive(Clone, Copy)]
struct Seen {
    stamp: u32,
    value: u32,
}

/// How many slots are looked at, and how much is done for jumps.
const SLOTS: usize = 1 << 22;

const WORK: usize = 1 << 26;

#[derive(Drop)]
pub(crate) struct Trace<'a> {
    alloc: Global,
    code: &'a Code,
    spots: Spots,
    /// By the name of a variable, whether it lives as long as the program and nothing but the code writes it.
    closed: &'a [bool],
    pub graph: Graph,
    pub asked: Vec<Asked>,
    pub loads: Vec<Load>,
    pub stores: Vec<Touch>,
    /// What variables that live as long as the program begin with.
    pub starts: Vec<Touch>,
    /// Of which the turns of loops and lengths are made.
    pub bounds: Vec<u32>,
    /// What slots may have where jumps meet, and where forms of the first function store that stand in no task and no region.
    pub meetings: Vec<Met>,
    pub free_stores: Vec<Met>,
    /// The places of these variables, by the form at which each begins.
    pub globals: BTreeMap<u32, u32>,
    /// By place of a variable of one cell that lives as long as the program, the form at which it begins.
    cells: BTreeMap<u32, u32>,
    /// By slot, what it has, and when it was last looked at.
    now: Vec<u32>,
    seen: Vec<Seen>,
    stamp: u32,
    /// What slots had before, since the function began.
    log: Vec<Was>,
    /// By form: how long the log was at the first jump to it.
    sources: Vec<usize>,
    loops: Vec<Loop>,
    heads: Vec<Was>,
    functions: Vec<Called>,
    /// Of what is called by a value: its parameters, and what it gives.
    passed: Vec<u32>,
    given: u32,
    /// By index the places of cells that no variable names, which say what runs.
    flags: BTreeMap<u32, u32>,
    /// What runs: the function, the first one that is called, the task, how many regions are open in the function, and the form.
    function: u32,
    entry: u32,
    base: u32,
    task: u32,
    regions: u32,
    at: usize,
    work: usize,
}

/// The function that is called first.
fn entry_of(code: &Code) -> u32 {
    for form in &code.forms {
        if let Form::Call(_, function, _) = form {
            return *function;
        }
    }
    NONE
}

/// No jump goes there.
const NEVER: usize = usize::MAX;

/// What a trace begins with.
impl<'a> Trace<'a> {
    fn new(alloc: Global, code: &'a Code, closed: &'a [bool]) -> Result<Trace<'a>, AllocError> {
        let spots = spots_of(alloc, code)?;
        let mut graph = Graph::new(alloc)?;
        let given = graph.value(ANY)?;
        let slots = spots.slots.min(SLOTS);
        if spots.slots > SLOTS {
            graph.is_full = true;
        }
        Ok(Trace {
            alloc,
            code,
            spots,
            closed,
            graph,
            asked: Vec::new(alloc),
            loads: Vec::new(alloc),
            stores: Vec::new(alloc),
            starts: Vec::new(alloc),
            bounds: Vec::new(alloc),
            meetings: Vec::new(alloc),
            free_stores: Vec::new(alloc),
            globals: BTreeMap::new(alloc),
            cells: BTreeMap::new(alloc),
            now: vec![in alloc; PLAIN; slots]?,
            seen: vec![in alloc; Seen {
                stamp: 0,
                value: PLAIN
            }; slots]?,
            stamp: 0,
            log: Vec::new(alloc),
            sources: vec![in alloc; NEVER; code.forms.len()]?,
            loops: Vec::new(alloc),
            heads: Vec::new(alloc),
            functions: Vec::new(alloc),
            passed: Vec::new(alloc),
            given,
            flags: BTreeMap::new(alloc),
            function: NONE,
            entry: entry_of(code),
            base: 0,
            task: 0,
            regions: 0,
            at: 0,
            work: 0,
        })
    }

    /// Functions with so many parameters.
    fn calls(&mut self, parameters: &[u32]) -> Result<(), AllocError> {
        for number in 0..self.code.functions.len() {
            let count = match parameters.get(number) {
                Some(count) => *count,
                None => 0,
            };
            let gives = self.graph.value(ANY)?;
            let first = gives.saturating_add(1);
            for _ in 0..count {
                self.graph.value(ANY)?;
            }
            self.functions.push(Called {
                first,
                count,
                gives,
            })?;
        }
        Ok(())
    }

    /// Functions that are values may be called by any value.
    fn takes(&mut self) -> Result<(), AllocError> {
        let code = self.code;
        let mut is_taken = vec![in self.alloc; false; code.functions.len()]?;
        for form in &code.forms {
            if let Form::Function(_, number) = form {
                if let Some(taken) = is_taken.get_mut(*number as usize) {
                    if !*taken {
                        *taken = true;
                        self.take(*number)?;
                    }
                }
            }
        }
        Ok(())
    }

    fn take(&mut self, number: u32) -> Result<(), AllocError> {
        let Some(called) = self.functions.get(number as usize).copied() else {
            return Ok(());
        };
        for parameter in 0..called.count {
            let passed = match self.passed.get(parameter as usize) {
                Some(passed) => *passed,
                None => {
                    let passed = self.graph.value(ANY)?;
                    self.passed.push(passed)?;
                    passed
                }
            };
            let to = called.first.saturating_add(parameter);
            self.graph.link(passed, to, Going::Is)?;
        }
        self.graph.link(called.gives, self.given, Going::Is)
    }
}

/// Slots.
impl<'a> Trace<'a> {
    fn gives(&mut self, slot: u32, value: u32) -> Result<(), AllocError> {
        let slot = self.base.saturating_add(slot);
        self.puts(slot, value)
    }

    /// To a slot of the function.
    fn puts(&mut self, slot: u32, value: u32) -> Result<(), AllocError> {
        if let Some(place) = self.now.get_mut(slot as usize) {
            self.log.push(Was {
                slot,
                value: *place,
            })?;
            *place = value;
        }
        Ok(())
    }

    fn has(&self, slot: u32) -> u32 {
        match self.now.get(slot as usize) {
            Some(value) => *value,
            None => PLAIN,
        }
    }

    /// The value of a slot, in the task that reads it.
    fn reads(&mut self, slot: u32) -> Result<u32, AllocError> {
        let slot = self.base.saturating_add(slot);
        let found = self.has(slot);
        if found <= MEMORY {
            return Ok(found);
        }
        self.graph.reads(found);
        if self.graph.task_of(found) == self.task {
            return Ok(found);
        }
        let own = self.graph.value(self.task)?;
        self.graph.link(found, own, Going::Is)?;
        self.graph.reads(own);
        self.puts(slot, own)?;
        Ok(own)
    }

    /// So much is done.
    fn spends(&mut self, steps: usize) {
        self.work = self.work.saturating_add(steps);
        if self.work > WORK {
            self.graph.is_full = true;
        }
    }

    /// A new value in the task that runs, which is that of others too.
    fn same_as(&mut self, value: u32) -> Result<u32, AllocError> {
        let own = self.graph.value(self.task)?;
        self.graph.link(value, own, Going::Is)?;
        Ok(own)
    }

    /// The value of a slot where several meet, since the last stamp.
    fn meeting(&mut self, slot: u32) -> Result<Option<u32>, AllocError> {
        let stamp = self.stamp;
        match self.seen.get(slot as usize).copied() {
            Some(seen) if seen.stamp == stamp => Ok(Some(seen.value)),
            Some(_) => {
                let value = self.graph.value(self.task)?;
                if let Some(seen) = self.seen.get_mut(slot as usize) {
                    *seen = Seen { stamp, value };
                }
                let had = self.has(slot);
                self.graph.link(had, value, Going::MayBe)?;
                self.puts(slot, value)?;
                Ok(Some(value))
            }
            None => Ok(None),
        }
    }
}

/// Jumps.
impl<'a> Trace<'a> {
    /// What begins, meets or turns at a form.
    fn comes_to(&mut self, at: usize) -> Result<(), AllocError> {
        let spot = self.spots.at(at);
        self.at = at;
        self.base = spot.inside.base;
        self.task = spot.inside.task;
        if spot.function != NONE {
            self.begins(spot.function)?;
        }
        match self.sources.get(at).copied() {
            Some(first) if first != NEVER => self.meets(first)?,
            _ => {}
        }
        if spot.back != NONE {
            self.turns(at, spot.back)?;
        }
        Ok(())
    }

    fn begins(&mut self, function: u32) -> Result<(), AllocError> {
        self.function = function;
        self.regions = 0;
        for number in 0..self.log.len() {
            if let Some(was) = self.log.get(number).copied() {
                if let Some(value) = self.now.get_mut(was.slot as usize) {
                    *value = PLAIN;
                }
            }
        }
        self.log.clear();
        self.loops.clear();
        self.heads.clear();
        if let Some(called) = self.functions.get(function as usize).copied() {
            for parameter in 0..called.count {
                let passed = called.first.saturating_add(parameter);
                let own = self.same_as(passed)?;
                self.puts(parameter, own)?;
            }
        }
        Ok(())
    }

    /// Jumps meet: each slot that was given a value since the first of them may have any that it had.
    fn meets(&mut self, first: usize) -> Result<(), AllocError> {
        let end = self.log.len();
        self.spends(end.saturating_sub(first));
        if self.graph.is_full {
            return Ok(());
        }
        self.stamp = self.stamp.saturating_add(1);
        for number in first..end {
            if let Some(was) = self.log.get(number).copied() {
                if let Some(value) = self.meeting(was.slot)? {
                    self.graph.link(was.value, value, Going::MayBe)?;
                    self.meetings.push(Met { at: self.at, value })?;
                }
            }
        }
        Ok(())
    }

    /// A loop's turns begin: each slot that is given a value in them may have that or the one from before.
    fn turns(&mut self, at: usize, last: u32) -> Result<(), AllocError> {
        let code = self.code;
        let end = (last as usize).saturating_add(1).min(code.forms.len());
        self.spends(end.saturating_sub(at));
        if self.graph.is_full {
            return Ok(());
        }
        self.stamp = self.stamp.saturating_add(1);
        let first = self.heads.len();
        for number in at..end {
            let Some(form) = code.forms.get(number) else {
                return Ok(());
            };
            if let Some(slot) = given_by(form) {
                let base = self.spots.at(number).inside.base;
                self.turn(base.saturating_add(slot))?;
            }
        }
        self.loops.push(Loop {
            head: u32::try_from(at).unwrap_or(NONE),
            last,
            first,
        })?;
        Ok(())
    }

    fn turn(&mut self, slot: u32) -> Result<(), AllocError> {
        let is_seen = match self.seen.get(slot as usize) {
            Some(seen) => seen.stamp == self.stamp,
            None => true,
        };
        if is_seen {
            return Ok(());
        }
        if let Some(value) = self.meeting(slot)? {
            self.graph.moves(value);
            self.heads.push(Was { slot, value })?;
        }
        Ok(())
    }

    fn jumps(&mut self, at: usize, to: u32) -> Result<(), AllocError> {
        if to as usize <= at {
            return self.jumps_back(at, to);
        }
        let length = self.log.len();
        if let Some(source) = self.sources.get_mut(to as usize) {
            *source = length.min(*source);
        }
        Ok(())
    }

    fn jumps_back(&mut self, at: usize, to: u32) -> Result<(), AllocError> {
        let Some(it) = self.loops.last().copied() else {
            self.graph.is_full = true;
            return Ok(());
        };
        if it.head != to {
            self.graph.is_full = true;
            return Ok(());
        }
        for number in it.first..self.heads.len() {
            if let Some(head) = self.heads.get(number).copied() {
                let had = self.has(head.slot);
                self.graph.link(had, head.value, Going::MayBe)?;
            }
        }
        if it.last as usize == at {
            self.loops.pop();
            self.heads.truncate(it.first);
        }
        Ok(())
    }
}

/// Forms.
impl<'a> Trace<'a> {
    fn form(&mut self, at: usize, form: &Form) -> Result<(), AllocError> {
        match form {
            Form::Number(to, _) | Form::Function(to, _) | Form::Context(to) => self.gives(
                *to, PLAIN,
            ),
            Form::Unknown(to) => self.gives(*to, UNKNOWN),
            Form::Copy(to, from) | Form::Convert(to, _, from) => {
                let value = self.reads(*from)?;
                self.gives(*to, value)
            }
            Form::Operate(to, _, _, one, other) | Form::Distance(to, one, other, _) => {
                self.counts(*to, *one, *other)
            }
            Form::Advance(to, place, number, _, _) => self.advances(at, *to, *place, *number),
            Form::Address(to, object, index) => self.address(*to, *object, *index),
            Form::Begin(to, _, name, _) => self.begins_object(*to, *name),
            Form::Allocate(to, name, count, _, _) => {
                self.bounds_by(*count)?;
                self.begins_object(*to, *name)
            }
            other => self.touch(at, other),
        }
    }

    fn begins_object(&mut self, to: u32, name: u32) -> Result<(), AllocError> {
        let place = if (name as usize) < self.closed.len() {
            self.graph.value(self.task)?
        } else {
            OUTER
        };
        self.gives(to, place)
    }

    /// The turns of a loop, or a length, are made of a slot.
    fn bounds_by(&mut self, slot: u32) -> Result<(), AllocError> {
        let value = self.reads(slot)?;
        self.bounds.push(value)?;
        Ok(())
    }

    /// A branch or an index is made of a slot, or a task deferred.
    fn asks(&mut self, at: usize, slot: u32) -> Result<(), AllocError> {
        let value = self.reads(slot)?;
        let is_free = self.is_free();
        self.asked.push(Asked { at, value, is_free })?;
        Ok(())
    }

    fn is_free(&self) -> bool {
        self.function == self.entry && self.task == 0 && self.regions == 0
    }

    /// A place is moved on. By a number that isn't written in the text it moves from turn to turn, and from call to call.
    fn advances(&mut self, at: usize, to: u32, place: u32, by: u32) -> Result<(), AllocError> {
        self.asks(at, by)?;
        let place = self.reads(place)?;
        if self.reads(by)? == PLAIN {
            return self.gives(to, place);
        }
        let moved = self.graph.value(self.task)?;
        self.graph.link(place, moved, Going::Is)?;
        self.graph.moves(moved);
        self.gives(to, moved)
    }

    fn counts(&mut self, to: u32, one: u32, other: u32) -> Result<(), AllocError> {
        let one = self.reads(one)?;
        let other = self.reads(other)?;
        let value = if one == PLAIN && other == PLAIN {
            PLAIN
        } else {
            let value = self.graph.value(self.task)?;
            self.graph.link(one, value, Going::Counted)?;
            self.graph.link(other, value, Going::Counted)?;
            value
        };
        self.gives(to, value)
    }

    /// The place of an object that lives as long as the program. Cells of one that no variable names say what runs.
    fn address(&mut self, to: u32, object: u32, index: u32) -> Result<(), AllocError> {
        let Some(Form::Begin(_, cells, name, _)) = self.code.forms.get(object as usize) else {
            return self.gives(to, OUTER);
        };
        let place = match self.closed.get(*name as usize) {
            Some(true) => {
                let global = self.global(object)?;
                self.same_as(global)?
            }
            Some(false) if *cells == 1 => self.outer()?,
            Some(false) => OUTER,
            None if *cells > 1 && *name as usize == self.closed.len() => {
                let flag = self.flag(index)?;
                self.same_as(flag)?
            }
            None => OUTER,
        };
        if *cells == 1 && place > MEMORY {
            let _ = self.cells.insert(place, object)?;
        }
        self.gives(to, place)
    }

    /// The place of a cell that says what runs.
    fn flag(&mut self, index: u32) -> Result<u32, AllocError> {
        if let Some(place) = self.flags.get(&index) {
            return Ok(*place);
        }
        let place = self.graph.value(ANY)?;
        let _ = self.flags.insert(index, place)?;
        Ok(place)
    }

    /// A place at which others may write.
    fn outer(&mut self) -> Result<u32, AllocError> {
        let place = self.graph.value(self.task)?;
        self.graph.leaks(place);
        Ok(place)
    }

    /// The place of a variable that lives as long as the program.
    fn global(&mut self, object: u32) -> Result<u32, AllocError> {
        if let Some(place) = self.globals.get(&object) {
            return Ok(*place);
        }
        let place = self.graph.value(ANY)?;
        let _ = self.globals.insert(object, place)?;
        Ok(place)
    }

    fn touch(&mut self, at: usize, form: &Form) -> Result<(), AllocError> {
        match form {
            Form::Load(_, to, place) | Form::LoadOwn(_, to, place) => self.loaded(*to, *place),
            Form::StoreOwn(_, place, from) if self.function == NONE => {
                let place = self.reads(*place)?;
                let value = self.reads(*from)?;
                self.starts.push(Touch { place, value })?;
                Ok(())
            }
            Form::Store(_, place, from) | Form::StoreOwn(_, place, from) => {
                let place = self.reads(*place)?;
                let value = self.reads(*from)?;
                self.stores.push(Touch { place, value })?;
                if self.is_free() {
                    self.free_stores.push(Met { at, value: place })?;
                }
                Ok(())
            }
            Form::ReadRange(_, _, count) => self.bounds_by(*count),
            Form::WriteRange(_, place, count) => {
                self.bounds_by(*count)?;
                let place = self.reads(*place)?;
                self.stores.push(Touch {
                    place,
                    value: UNKNOWN,
                })?;
                Ok(())
            }
            Form::Group(_, folded) => {
                self.regions = self.regions.saturating_add(1);
                for one in folded {
                    self.is_reduced(one.slot)?;
                }
                Ok(())
            }
            Form::Joins(_, _, slot) => self.is_reduced(*slot),
            other => self.goes(at, other),
        }
    }

    /// A slot has what lies at another one's place.
    fn loaded(&mut self, to: u32, place: u32) -> Result<(), AllocError> {
        let place = self.reads(place)?;
        let value = self.graph.value(self.task)?;
        let variable = self.cells.get(&place).copied().unwrap_or(NONE);
        self.loads.push(Load {
            place,
            value,
            variable,
        })?;
        self.gives(to, value)
    }

    /// The end of a region writes what lies at a slot's place.
    fn is_reduced(&mut self, slot: u32) -> Result<(), AllocError> {
        let place = self.reads(slot)?;
        self.stores.push(Touch {
            place,
            value: UNKNOWN,
        })?;
        Ok(())
    }

    fn goes(&mut self, at: usize, form: &Form) -> Result<(), AllocError> {
        match form {
            Form::Branch(_, slot, to) => {
                if !self.is_end(at, *slot) {
                    self.asks(at, *slot)?;
                }
                self.jumps(at, *to)
            }
            Form::Repeat(_, slot, to) => {
                self.bounds_by(*slot)?;
                self.jumps(at, *to)
            }
            Form::Jump(to) => self.jumps(at, *to),
            Form::Call(_, function, first) => {
                match self.functions.get(*function as usize).copied() {
                    Some(called) => self.call(called, *first),
                    None => Ok(()),
                }
            }
            Form::CallBy(_, _, first) => self.call_by(*first),
            Form::Return => self.returns(),
            Form::Leave(_) => {
                self.regions = self.regions.saturating_sub(1);
                Ok(())
            }
            Form::Task {
                when: Some(slot),
                ..
            } => self.asks(at, *slot),
            _ => Ok(()),
        }
    }

    /// Whether an object ends behind a branch, at the place by which that goes: a pointer that is freed is as the run has it.
    fn is_end(&self, at: usize, slot: u32) -> bool {
        match self.code.forms.get(at.saturating_add(1)) {
            Some(Form::End(_, ended)) => *ended == slot,
            _ => false,
        }
    }

    fn call(&mut self, called: Called, first: u32) -> Result<(), AllocError> {
        for parameter in 0..called.count {
            let value = self.reads(first.saturating_add(parameter))?;
            let to = called.first.saturating_add(parameter);
            self.graph.link(value, to, Going::Is)?;
        }
        let given = self.same_as(called.gives)?;
        self.gives(first, given)
    }

    fn returns(&mut self) -> Result<(), AllocError> {
        let value = self.reads(0)?;
        match self.functions.get(self.function as usize).copied() {
            Some(called) => self.graph.link(value, called.gives, Going::Is),
            None => Ok(()),
        }
    }

    fn call_by(&mut self, first: u32) -> Result<(), AllocError> {
        let count = self.passed.len();
        self.spends(count);
        let mut parameter = 0u32;
        for number in 0..count {
            let value = self.reads(first.saturating_add(parameter))?;
            if let Some(to) = self.passed.get(number).copied() {
                self.graph.link(value, to, Going::Is)?;
            }
            parameter = parameter.saturating_add(1);
        }
        let given = self.given;
        let given = self.same_as(given)?;
        self.gives(first, given)
    }
}

/// The values of all slots of this code, whose functions have so many parameters, and of whose variables nothing but the code writes these.
pub(crate) fn traced<'a>(
    alloc: Global,
    code: &'a Code,
    parameters: &[u32],
    closed: &'a [bool],
) -> Result<Trace<'a>, AllocError> {
    let mut trace = Trace::new(alloc, code, closed)?;
    trace.calls(parameters)?;
    trace.takes()?;
    for (at, form) in code.forms.iter().enumerate() {
        if trace.graph.is_full {
            return Ok(trace);
        }
        trace.comes_to(at)?;
        trace.form(at, form)?;
    }
    Ok(trace)
}
