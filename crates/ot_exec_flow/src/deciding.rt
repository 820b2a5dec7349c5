//! Branches that decide numbers of which the turns of loops and lengths are made, as in `n = argc > 1 ? atoi(argv[1]) : 100`.
use crate::graph::{Graph, Load, MEMORY};
use crate::trace::{Asked, Met};
use ot_exec_code::{Code, Form};
use std::alloc::{AllocError, Global};
use std::collections::BTreeSet;

/// What is loaded, of what the turns of loops and lengths are made, what slots may have where jumps meet, and where the first function stores while
/// nothing else happens.
#[derive(Clone, Copy)]
pub(crate) struct Deciding<'a> {
    pub loads: &'a [Load],
    pub bounds: &'a [u32],
    pub meetings: &'a [Met],
    pub stores: &'a [Met],
}

impl<'a> Deciding<'a> {
    /// By form: whether such a number depends on the way to it, or is stored there.
    pub(crate) fn forms(
        &self,
        alloc: Global,
        code: &Code,
        graph: &mut Graph,
    ) -> Result<Vec<bool>, AllocError> {
        let parts = graph.parts_of(alloc, self.bounds)?;
        let mut forms = vec![in alloc; false; code.forms.len()]?;
        for met in self.meetings {
            if has(&parts, met.value as usize) {
                set(&mut forms, met.at);
            }
        }
        let mut places = BTreeSet::new(alloc);
        for load in self.loads {
            if has(&parts, load.value as usize) {
                let place = graph.chief_of(load.place);
                if place > MEMORY {
                    places.insert(place)?;
                }
            }
        }
        for store in self.stores {
            let place = graph.chief_of(store.value);
            if places.contains(&place) {
                set(&mut forms, store.at);
            }
        }
        Ok(forms)
    }
}

fn has(flags: &[bool], at: usize) -> bool {
    flags.get(at).copied().unwrap_or(false)
}

fn set(flags: &mut [bool], at: usize) {
    if let Some(flag) = flags.get_mut(at) {
        *flag = true;
    }
}

/// Whether one of these forms decides.
fn any(decides: &[bool], start: usize, end: usize) -> bool {
    match decides.get(start..end) {
        Some(part) => part.iter().any(|decides| *decides),
        None => false,
    }
}

/// How far a branch looks for what it decides.
const FAR: usize = 1000;

/// Whether a branch decides a number: where its ways meet, or in its bodies.
fn is_deciding(code: &Code, decides: &[bool], at: usize) -> bool {
    let Some(Form::Branch(_, _, to)) = code.forms.get(at) else {
        return false;
    };
    let middle = *to as usize;
    let end = match code.forms.get(middle.saturating_sub(1)) {
        Some(Form::Jump(end)) => *end as usize,
        _ => middle,
    };
    let end = end.max(middle);
    end.saturating_sub(at) <= FAR
        && (has(decides, middle) || has(decides, end) || any(decides, at, end))
}

/// Branches that decide such numbers, while nothing else happens, are as the run has them.
pub(crate) fn unmark(code: &Code, asked: &[Asked], decides: &[bool], marks: &mut [bool]) {
    for it in asked {
        if it.is_free && is_deciding(code, decides, it.at) {
            if let Some(mark) = marks.get_mut(it.at) {
                *mark = false;
            }
        }
    }
}
