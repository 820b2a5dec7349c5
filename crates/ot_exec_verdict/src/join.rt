//! The same code with less that is known: what a branch or an index reads from memory isn't known any more. So its ways are those of the
//! run with any numbers in memory, for the lengths and the turns of loops that it has. Branches whose bodies create nothing are joined.
use crate::region::{Region, Regions, regions_of};
use ot_exec_code::{Code, Form, Function};
use ot_exec_flow::{given_by, spare_of};
use std::alloc::{AllocError, Global};
use std::collections::BTreeSet;

/// The code in which less is known, and by its form the one of which that is made.
#[derive(Drop)]
pub(crate) struct Other {
    pub code: Code,
    olds: Vec<u32>,
    regions: Regions,
}

impl Other {
    fn old(&self, at: usize) -> usize {
        match self.olds.get(at) {
            Some(old) => *old as usize,
            None => 0,
        }
    }

    /// Whether a form stands in a body that is joined: what it comes to need not be so on any way.
    pub(crate) fn is_joined(&self, at: usize) -> bool {
        self.regions.has(self.old(at))
    }

    /// Whether bodies that leave loops are joined: these branches are to be split.
    pub(crate) fn splits_loops(&self, split: &mut [bool]) -> bool {
        let mut has_some = false;
        for region in &self.regions.all {
            if region.leaves_loop()
                && let Some(place) = split.get_mut(region.start)
            {
                *place = true;
                has_some = true;
            }
        }
        has_some
    }

    /// The branch that joins it, in the old code.
    pub(crate) fn joined_by(&self, at: usize) -> Option<usize> {
        self.regions.around(self.old(at))
    }
}

/// What is asked of a form.
#[derive(Drop)]
struct Plan<'a> {
    marks: &'a [bool],
    regions: Regions,
    /// By form, whether a region begins there, and whether it is the jump that ends a first body: the other body comes next.
    begins: Vec<bool>,
    skips: Vec<bool>,
    spare: u32,
}

impl<'a> Plan<'a> {
    fn is_marked(&self, at: usize) -> bool {
        matches!(self.marks.get(at), Some(true))
    }

    fn is_joined(&self, at: usize) -> bool {
        self.regions.has(at)
    }

    fn begins(&self, at: usize) -> bool {
        matches!(self.begins.get(at), Some(true))
    }

    fn skips(&self, at: usize) -> bool {
        matches!(self.skips.get(at), Some(true))
    }
}

/// What is made.
#[derive(Drop)]
struct Made {
    forms: Vec<Form>,
    olds: Vec<u32>,
    /// By form of the old code, where it stands in the new one.
    places: Vec<u32>,
    /// Tests in the new code, which go on behind themselves.
    tests: Vec<u32>,
    old: u32,
}

impl Made {
    fn put(&mut self, form: Form) -> Result<(), AllocError> {
        self.forms.push(form)?;
        self.olds.push(self.old)?;
        Ok(())
    }

    fn here(&self) -> u32 {
        u32::try_from(self.forms.len()).unwrap_or(u32::MAX)
    }

    /// Of each slot that these forms give nothing is known.
    fn blur(&mut self, alloc: Global, forms: &[Form]) -> Result<(), AllocError> {
        let mut given = BTreeSet::new(alloc);
        for form in forms {
            if matches!(form, Form::Context(_)) {
                continue;
            }
            if let Some(slot) = given_by(form) {
                if given.insert(slot)? {
                    self.put(Form::Unknown(slot))?;
                }
            }
        }
        Ok(())
    }
}

fn plan_of<'a>(
    alloc: Global,
    code: &Code,
    marks: &'a [bool],
    split: &[bool],
) -> Result<Option<Plan<'a>>, AllocError> {
    let Some(regions) = regions_of(alloc, &code.forms, marks, split)? else {
        return Ok(None);
    };
    let mut begins = vec![in alloc; false; code.forms.len()]?;
    let mut skips = vec![in alloc; false; code.forms.len()]?;
    for region in &regions.all {
        set(&mut begins, region.start);
        if region.has_other {
            set(&mut skips, region.middle.saturating_sub(1));
        }
    }
    Ok(Some(Plan {
        marks,
        regions,
        begins,
        skips,
        spare: spare_of(code),
    }))
}

fn set(flags: &mut [bool], at: usize) {
    if let Some(flag) = flags.get_mut(at) {
        *flag = true;
    }
}

/// What is joined is blurred where its first body ends, and at the end.
fn blurs(alloc: Global, code: &Code, plan: &Plan<'_>) -> Result<Vec<Vec<Region>>, AllocError> {
    let mut blurs = Vec::new(alloc);
    for _ in 0..code.forms.len().saturating_add(1) {
        blurs.push(Vec::new(alloc))?;
    }
    for region in &plan.regions.all {
        if let Some(list) = blurs.get_mut(region.middle) {
            list.push(*region)?;
        }
        if region.end != region.middle {
            if let Some(list) = blurs.get_mut(region.end) {
                list.push(*region)?;
            }
        }
    }
    Ok(blurs)
}

/// The forms of the code at their new places, whose jumps still name old ones.
fn made_of(alloc: Global, code: &Code, plan: &Plan<'_>) -> Result<Made, AllocError> {
    let blurs = blurs(alloc, code, plan)?;
    let mut made = Made {
        forms: Vec::new(alloc),
        olds: Vec::new(alloc),
        places: Vec::new(alloc),
        tests: Vec::new(alloc),
        old: 0,
    };
    for (at, form) in code.forms.iter().enumerate() {
        made.old = u32::try_from(at).unwrap_or(u32::MAX);
        let here = made.here();
        made.places.push(here)?;
        if let Some(list) = blurs.get(at) {
            for region in list {
                let from = if at == region.end {
                    region.first
                } else {
                    region.start
                };
                if let Some(part) = code.forms.get(from..at.min(code.forms.len())) {
                    made.blur(alloc, part)?;
                }
            }
        }
        put_form(alloc, &mut made, form, at, plan)?;
    }
    Ok(made)
}

fn put_form(
    alloc: Global,
    made: &mut Made,
    form: &Form,
    at: usize,
    plan: &Plan<'_>,
) -> Result<(), AllocError> {
    let spare = plan.spare;
    match form {
        Form::Branch(site, _, to) if plan.is_marked(at) => {
            made.put(Form::Unknown(spare))?;
            if !plan.begins(at) {
                made.put(Form::Branch(*site, spare, *to))?;
            }
            Ok(())
        }
        Form::Jump(_) if plan.skips(at) => Ok(()),
        Form::Advance(to, place, number, stride, cells) => {
            if plan.is_marked(at) {
                made.put(Form::Unknown(spare))?;
                made.put(Form::Advance(*to, *place, spare, *stride, *cells))
            } else {
                // An index that isn't known, and doesn't come from memory, comes from what was joined: it isn't judged.
                let here = made.here();
                made.tests.push(here)?;
                made.put(Form::Repeat(0, *number, 0))?;
                made.put(Form::Advance(*to, *place, *number, *stride, *cells))
            }
        }
        Form::Store(site, place, _) if plan.is_joined(at) => {
            made.put(Form::Unknown(spare))?;
            made.put(Form::Store(*site, *place, spare))
        }
        Form::StoreOwn(site, place, _) if plan.is_joined(at) => {
            made.put(Form::Unknown(spare))?;
            made.put(Form::StoreOwn(*site, *place, spare))
        }
        other => {
            let copied = copy_of(alloc, other, spare, plan.is_marked(at))?;
            made.put(copied)
        }
    }
}

/// A form once more, with one slot more where it is a task. A task of which it isn't known whether it is deferred is: that orders less.
fn copy_of(alloc: Global, form: &Form, spare: u32, is_marked: bool) -> Result<Form, AllocError> {
    match form {
        Form::Task {
            site,
            first,
            slots: _,
            behind,
            items,
            when,
        } => Ok(Form::Task {
            site: *site,
            first: *first,
            slots: spare.saturating_add(1),
            behind: *behind,
            items: items.as_slice().to_vec(alloc)?,
            when: if is_marked { None } else { *when },
        }),
        Form::WaitFor(site, items) => Ok(Form::WaitFor(*site, items.as_slice().to_vec(alloc)?)),
        Form::Group(site, items) => Ok(Form::Group(*site, items.as_slice().to_vec(alloc)?)),
        other => Ok(plain_copy(other)),
    }
}

/// One without a list.
fn plain_copy(form: &Form) -> Form {
    match form {
        Form::Number(to, number) => Form::Number(*to, *number),
        Form::Unknown(to) => Form::Unknown(*to),
        Form::Copy(to, from) => Form::Copy(*to, *from),
        Form::Address(to, object, index) => Form::Address(*to, *object, *index),
        Form::Function(to, function) => Form::Function(*to, *function),
        Form::Operate(to, by, kind, one, other) => Form::Operate(*to, *by, *kind, *one, *other),
        Form::Convert(to, kind, from) => Form::Convert(*to, *kind, *from),
        Form::Advance(to, place, number, stride, cells) => Form::Advance(
            *to, *place, *number, *stride, *cells,
        ),
        Form::Distance(to, one, other, stride) => Form::Distance(*to, *one, *other, *stride),
        Form::Begin(to, cells, name, zero) => Form::Begin(*to, *cells, *name, *zero),
        Form::Allocate(to, name, count, each, zero) => {
            Form::Allocate(*to, *name, *count, *each, *zero)
        }
        Form::End(site, place) => Form::End(*site, *place),
        Form::Load(site, to, place) => Form::Load(*site, *to, *place),
        Form::Store(site, place, from) => Form::Store(*site, *place, *from),
        Form::LoadOwn(site, to, place) => Form::LoadOwn(*site, *to, *place),
        Form::StoreOwn(site, place, from) => Form::StoreOwn(*site, *place, *from),
        Form::ReadRange(site, place, count) => Form::ReadRange(*site, *place, *count),
        Form::WriteRange(site, place, count) => Form::WriteRange(*site, *place, *count),
        other => plain_jump(other),
    }
}

fn plain_jump(form: &Form) -> Form {
    match form {
        Form::Jump(to) => Form::Jump(*to),
        Form::Branch(site, slot, to) => Form::Branch(*site, *slot, *to),
        Form::Repeat(site, slot, to) => Form::Repeat(*site, *slot, *to),
        Form::Call(site, function, first) => Form::Call(*site, *function, *first),
        Form::CallBy(site, slot, first) => Form::CallBy(*site, *slot, *first),
        Form::Return => Form::Return,
        Form::Finish => Form::Finish,
        Form::Wait(site) => Form::Wait(*site),
        Form::Leave(site) => Form::Leave(*site),
        Form::Lock(site, slot) => Form::Lock(*site, *slot),
        Form::Unlock(site, slot) => Form::Unlock(*site, *slot),
        Form::Joins(site, fold, place) => Form::Joins(*site, *fold, *place),
        Form::Turn(site, slot) => Form::Turn(*site, *slot),
        Form::Context(to) => Form::Context(*to),
        Form::Within(slot) => Form::Within(*slot),
        _ => Form::Stop,
    }
}

fn moved(places: &[u32], at: u32) -> u32 {
    match places.get(at as usize) {
        Some(place) => *place,
        None => u32::MAX,
    }
}

/// The jumps of the forms go to new places.
fn move_jumps(forms: &mut [Form], places: &[u32]) {
    for form in forms.iter_mut() {
        match form {
            Form::Jump(to) | Form::Branch(_, _, to) | Form::Repeat(_, _, to) => {
                *to = moved(places, *to);
            }
            Form::Task { behind, .. } => *behind = moved(places, *behind),
            _ => {}
        }
    }
}

/// The code in which what branches and indexes read from memory isn't known, by these marks; branches that are split aren't joined. None
/// where it is too much.
pub(crate) fn forgotten(
    alloc: Global,
    code: &Code,
    marks: &[bool],
    split: &[bool],
) -> Result<Option<Other>, AllocError> {
    let Some(plan) = plan_of(alloc, code, marks, split)? else {
        return Ok(None);
    };
    let mut made = made_of(alloc, code, &plan)?;
    move_jumps(&mut made.forms, &made.places);
    for test in &made.tests {
        if let Some(Form::Repeat(_, _, to)) = made.forms.get_mut(*test as usize) {
            *to = test.saturating_add(1);
        }
    }
    let slots = plan.spare.saturating_add(1);
    let mut functions = Vec::new(alloc);
    for function in &code.functions {
        let start = moved(&made.places, function.start);
        functions.push(Function { start, slots })?;
    }
    let changing = code.changing.as_slice().to_vec(alloc)?;
    let Made { forms, olds, .. } = made;
    let Plan { regions, .. } = plan;
    Ok(Some(Other {
        code: Code {
            forms,
            slots,
            functions,
            changing,
        },
        olds,
        regions,
    }))
}
