//! Branches both of whose bodies are executed, one after the other: what they touch is touched on some way, and what they leave isn't known.
//! That is so of bodies that create, await, call and end nothing, so that nothing else is ordered on one of the two ways.
use ot_exec_code::Form;
use std::alloc::{AllocError, Global};

/// A branch whose bodies are joined: its first body goes up to a form, and the other one, if there is one, from there to the end. Where the first body leaves
/// a loop, the other one is all that the loop does behind it.
#[derive(Clone, Copy, Debug, PartialEq, Eq)]
pub(crate) struct Region {
    /// The branch.
    pub start: usize,
    /// Where the first body ends.
    pub middle: usize,
    /// Where the whole ends.
    pub end: usize,
    /// Whether a jump to the end stands before the middle.
    pub has_other: bool,
    /// Where the turns begin of the loop that the first body leaves; else the branch.
    pub first: usize,
}

impl Region {
    /// Whether its first body leaves a loop.
    pub(crate) fn leaves_loop(self) -> bool {
        self.first < self.start
    }

    /// The first form that stands in it.
    fn inside(self) -> usize {
        if self.leaves_loop() {
            self.first
        } else {
            self.start.saturating_add(1)
        }
    }

    fn has(self, at: usize) -> bool {
        self.inside() <= at && at < self.end
    }

    fn length(self) -> usize {
        self.end.saturating_sub(self.first)
    }
}

/// Whether a form creates, awaits, calls or ends nothing, and jumps nowhere but here.
fn is_plain(form: &Form, start: usize, end: usize) -> bool {
    match form {
        Form::Number(_, _)
        | Form::Unknown(_)
        | Form::Copy(_, _)
        | Form::Address(_, _, _)
        | Form::Function(_, _)
        | Form::Operate(_, _, _, _, _)
        | Form::Convert(_, _, _)
        | Form::Advance(_, _, _, _, _)
        | Form::Distance(_, _, _, _)
        | Form::Load(_, _, _)
        | Form::Store(_, _, _)
        | Form::LoadOwn(_, _, _)
        | Form::StoreOwn(_, _, _)
        | Form::ReadRange(_, _, _)
        | Form::WriteRange(_, _, _)
        | Form::Turn(_, _)
        | Form::Context(_)
        | Form::Within(_) => true,
        Form::Jump(to) | Form::Branch(_, _, to) | Form::Repeat(_, _, to) => {
            let to = *to as usize;
            start <= to && to <= end
        }
        _ => false,
    }
}

fn are_plain(forms: &[Form], start: usize, end: usize) -> bool {
    match forms.get(start..end) {
        Some(part) => part.iter().all(|form| is_plain(form, start, end)),
        None => false,
    }
}

/// The region of a branch at this form, if its bodies can be joined.
fn region_at(forms: &[Form], at: usize, looks: &mut usize) -> Option<Region> {
    let Form::Branch(_, _, to) = forms.get(at)? else {
        return None;
    };
    let middle = *to as usize;
    let first = at.checked_add(1)?;
    let last = middle.checked_sub(1)?;
    if last < first {
        return None;
    }
    if let Form::Jump(end) = forms.get(last)? {
        let end = *end as usize;
        if end > middle && are_plain(forms, first, last) && are_plain(forms, middle, end) {
            return Some(Region {
                start: at,
                middle,
                end,
                has_other: true,
                first: at,
            });
        }
    }
    if are_plain(forms, first, middle) {
        return Some(Region {
            start: at,
            middle,
            end: middle,
            has_other: false,
            first: at,
        });
    }
    region_of_loop(forms, at, middle, looks)
}

/// The region of a branch whose first body leaves a loop: its turns are executed to the end, too.
fn region_of_loop(forms: &[Form], at: usize, middle: usize, looks: &mut usize) -> Option<Region> {
    let Form::Jump(end) = forms.get(middle.checked_sub(1)?)? else {
        return None;
    };
    let end = *end as usize;
    if end <= middle || end.saturating_sub(at) > *looks {
        return None;
    }
    *looks -= end.saturating_sub(at);
    let first = turns_from(forms, at, middle, end)?;
    if end.saturating_sub(first) > *looks {
        return None;
    }
    *looks -= end.saturating_sub(first);
    if !are_plain(forms, first, end) {
        return None;
    }
    Some(Region {
        start: at,
        middle,
        end,
        has_other: true,
        first,
    })
}

/// Where the turns begin of the innermost loop around a branch whose last forms stand here.
fn turns_from(forms: &[Form], at: usize, middle: usize, end: usize) -> Option<usize> {
    for form in forms.get(middle..end)? {
        if let Form::Jump(to) = form {
            let to = *to as usize;
            if to < at {
                return Some(to);
            }
        }
    }
    None
}

/// What the regions ask at each form: how many of them are open there.
#[derive(Drop)]
pub(crate) struct Regions {
    pub all: Vec<Region>,
    /// By form, how many regions it stands in.
    pub depths: Vec<u32>,
}

/// How much regions may have in all, so that what is made of them is no longer than that.
const MOST: usize = 2_000_000;

/// The regions of the branches that are marked, but for those that are split; none where they are too much in all.
pub(crate) fn regions_of(
    alloc: Global,
    forms: &[Form],
    marks: &[bool],
    split: &[bool],
) -> Result<Option<Regions>, AllocError> {
    let mut all = Vec::new(alloc);
    let mut depths = vec![in alloc; 0u32; forms.len()]?;
    let mut left = MOST;
    let mut looks = MOST;
    for (at, is_marked) in marks.iter().enumerate() {
        if !*is_marked || matches!(split.get(at), Some(true)) {
            continue;
        }
        if let Some(region) = region_at(forms, at, &mut looks) {
            let length = region.length();
            if length > left {
                return Ok(None);
            }
            left -= length;
            deepen(&mut depths, region);
            all.push(region)?;
        }
    }
    Ok(Some(Regions { all, depths }))
}

impl Regions {
    /// Whether a form stands in a region.
    pub(crate) fn has(&self, at: usize) -> bool {
        match self.depths.get(at) {
            Some(depth) => *depth > 0,
            None => false,
        }
    }

    /// The branch of the innermost region in which a form stands.
    pub(crate) fn around(&self, at: usize) -> Option<usize> {
        let mut found = None;
        for region in &self.all {
            if region.has(at) {
                found = Some(region.start);
            }
        }
        found
    }
}

/// Counts a region at each of its forms.
fn deepen(depths: &mut [u32], region: Region) {
    for place in region.inside()..region.end {
        if let Some(depth) = depths.get_mut(place) {
            *depth = depth.saturating_add(1);
        }
    }
}
