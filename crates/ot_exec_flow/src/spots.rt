//! Where forms stand: in which function and task, and where loops begin.
use crate::graph::NONE;
use crate::slots::given_by;
use ot_exec_code::{Code, Form};
use std::alloc::{AllocError, Global};

/// Where the slots of what runs begin among those of its function, and its task: 0 of the function's own, else one more than its form.
#[derive(Clone, Copy)]
pub(crate) struct Inside {
    pub base: u32,
    pub task: u32,
}

const OWN: Inside = Inside { base: 0, task: 0 };

/// Where a form stands, which function begins there, and which form is the last that jumps back to it.
#[derive(Clone, Copy)]
pub(crate) struct Spot {
    pub inside: Inside,
    pub function: u32,
    pub back: u32,
}

const NOWHERE: Spot = Spot {
    inside: OWN,
    function: NONE,
    back: NONE,
};

/// The spots of all forms, and how many slots they give values to.
#[derive(Drop)]
pub(crate) struct Spots {
    pub all: Vec<Spot>,
    pub slots: usize,
}

impl Spots {
    pub(crate) fn at(&self, at: usize) -> Spot {
        match self.all.get(at) {
            Some(spot) => *spot,
            None => NOWHERE,
        }
    }

    /// A form stands there.
    fn place(&mut self, at: usize, inside: Inside, form: &Form) {
        if let Some(slot) = given_by(form) {
            let slot = inside.base.saturating_add(slot) as usize;
            self.slots = self.slots.max(slot.saturating_add(1));
        }
        if let Some(spot) = self.all.get_mut(at) {
            spot.inside = inside;
        }
    }

    /// A form jumps there.
    fn jump(&mut self, at: u32, to: u32) {
        if to <= at {
            if let Some(spot) = self.all.get_mut(to as usize) {
                spot.back = at;
            }
        }
    }
}

pub(crate) fn spots_of(alloc: Global, code: &Code) -> Result<Spots, AllocError> {
    let mut spots = Spots {
        all: vec![in alloc; NOWHERE; code.forms.len()]?,
        slots: 0,
    };
    for (number, function) in code.functions.iter().enumerate() {
        if let Some(spot) = spots.all.get_mut(function.start as usize) {
            spot.function = u32::try_from(number).unwrap_or(NONE);
        }
    }
    let mut around = Vec::new(alloc);
    let mut inside = OWN;
    for (at, form) in code.forms.iter().enumerate() {
        if spots.at(at).function != NONE {
            inside = OWN;
            around.clear();
        }
        spots.place(at, inside, form);
        let here = u32::try_from(at).unwrap_or(NONE);
        match form {
            Form::Task { first, .. } => {
                around.push(inside)?;
                inside = Inside {
                    base: inside.base.saturating_add(*first),
                    task: here.saturating_add(1),
                };
            }
            Form::Finish => {
                if let Some(outer) = around.pop() {
                    inside = outer;
                }
            }
            Form::Jump(to) | Form::Branch(_, _, to) | Form::Repeat(_, _, to) => {
                spots.jump(here, *to);
            }
            _ => {}
        }
    }
    Ok(spots)
}
