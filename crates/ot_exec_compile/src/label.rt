//! Labels and `goto` (ISO C11, section 6.8.6.1). A jump ends the objects that live where it stands and don't where it goes.
use crate::fault::{Fault, Why};
use crate::maker::Maker;
use ot_exec_code::Form;
use std::alloc::{AllocError, Global};
use std::mem;

/// How many labels are met, and how many jumps wait for theirs, at most.
const MOST: usize = 256;

/// A label that was met.
#[derive(Clone, Copy)]
struct Label {
    name: u32,
    /// Where code goes on that jumps there.
    form: u32,
    /// How many blocks are open there, how many objects live, and how many loops that tell their turns are around.
    blocks: usize,
    living: usize,
    loops: usize,
    /// The text in which it stands.
    text: u32,
    /// Whether all of these blocks are open still, and all of these objects live.
    is_open: bool,
}

/// A jump to a label that wasn't met yet.
#[derive(Drop)]
struct Waiting {
    at: u32,
    name: u32,
    jump: u32,
    text: u32,
    /// The fewest blocks that were open since.
    blocks: usize,
    /// The slots with the places of the objects that live where it stands; how many of them have lived since.
    live: Vec<u32>,
    fewest: usize,
    /// The slots with the contexts of the loops around it.
    contexts: Vec<u32>,
}

/// Labels and jumps of the functions that are being made. A function's body is a text, and so is that of a construct: no jump leaves it.
#[derive(Drop)]
pub(crate) struct Labels {
    met: Vec<Label>,
    waiting: Vec<Waiting>,
    /// The slots with the contexts of the loops around.
    pub(crate) contexts: Vec<u32>,
    /// How many blocks are open.
    blocks: usize,
    /// The text that is made, and how many began.
    text: u32,
    texts: u32,
}

impl Labels {
    pub(crate) fn new(alloc: Global) -> Labels {
        Labels {
            met: Vec::new(alloc),
            waiting: Vec::new(alloc),
            contexts: Vec::new(alloc),
            blocks: 0,
            text: 0,
            texts: 0,
        }
    }

    /// A text begins: the one around it.
    pub(crate) fn begins(&mut self) -> u32 {
        let around = self.text;
        self.texts = self.texts.saturating_add(1);
        self.text = self.texts;
        around
    }

    /// The text around goes on.
    pub(crate) fn goes_on(&mut self, around: u32) {
        self.text = around;
    }

    /// A function's text ends, and all that began in it: no jump waits for a label any more.
    pub(crate) fn ends(&mut self, around: u32) -> Result<(), Fault> {
        let own = self.text;
        for one in self.waiting.iter() {
            if one.text >= own {
                return Err(Fault::Refused(one.at, Why::NoLabel));
            }
        }
        for _label in 0..self.met.len() {
            match self.met.last() {
                Some(label) if label.text >= own => {
                    let _ = self.met.pop();
                }
                _ => break,
            }
        }
        self.text = around;
        Ok(())
    }

    pub(crate) fn opens_block(&mut self) {
        self.blocks = self.blocks.saturating_add(1);
    }

    pub(crate) fn closes_block(&mut self) {
        self.blocks = self.blocks.saturating_sub(1);
        let blocks = self.blocks;
        for label in self.met.iter_mut() {
            if label.blocks > blocks {
                label.is_open = false;
            }
        }
        for one in self.waiting.iter_mut() {
            one.blocks = one.blocks.min(blocks);
        }
    }

    /// Only so many objects live from here on.
    pub(crate) fn narrows(&mut self, living: usize) {
        for label in self.met.iter_mut() {
            if label.living > living {
                label.is_open = false;
            }
        }
        for one in self.waiting.iter_mut() {
            one.fewest = one.fewest.min(living);
        }
    }

    fn find(&self, name: u32) -> Option<Label> {
        self.met
            .iter()
            .find(|label| label.name == name && label.text == self.text)
            .copied()
    }

    fn is_awaited(&self, name: u32) -> bool {
        self.waiting
            .iter()
            .any(|one| one.name == name && one.text == self.text)
    }

    fn meets(&mut self, at: u32, name: u32, form: u32, living: usize) -> Result<(), Fault> {
        if self.met.len() >= MOST {
            return Err(Fault::Refused(at, Why::Goto));
        }
        self.met.push(Label {
            name,
            form,
            blocks: self.blocks,
            living,
            loops: self.contexts.len(),
            text: self.text,
            is_open: true,
        })?;
        Ok(())
    }

    fn waits(
        &mut self,
        alloc: Global,
        at: u32,
        name: u32,
        jump: u32,
        live: &[u32],
    ) -> Result<(), Fault> {
        if self.waiting.len() >= MOST {
            return Err(Fault::Refused(at, Why::Goto));
        }
        let fewest = live.len();
        let live = copied(alloc, live)?;
        let contexts = copied(alloc, self.contexts.as_slice())?;
        self.waiting.push(Waiting {
            at,
            name,
            jump,
            text: self.text,
            blocks: self.blocks,
            live,
            fewest,
            contexts,
        })?;
        Ok(())
    }
}

fn copied(alloc: Global, slots: &[u32]) -> Result<Vec<u32>, AllocError> {
    let mut made = Vec::new(alloc);
    for slot in slots {
        made.push(*slot)?;
    }
    Ok(made)
}

impl<'a> Maker<'a> {
    pub(crate) fn goes_to(&mut self, at: u32, name: u32) -> Result<(), Fault> {
        let Some(label) = self.labels.find(name) else {
            let jump = self.jump()?;
            return self
                .labels
                .waits(self.alloc, at, name, jump, self.live.as_slice());
        };
        if !label.is_open {
            return Err(Fault::Refused(at, Why::Goto));
        }
        self.leave(at, label.living)?;
        if let Some(context) = self.labels.contexts.get(label.loops).copied() {
            self.emit(Form::Within(context))?;
        }
        self.emit(Form::Jump(label.form))?;
        Ok(())
    }

    pub(crate) fn labels_here(&mut self, at: u32, name: u32) -> Result<(), Fault> {
        let living = self.live.len();
        if self.labels.is_awaited(name) {
            let over = self.jump()?;
            let ways = self.all_arrive(name, living)?;
            self.lands(over)?;
            for way in ways.iter() {
                self.lands(*way)?;
            }
        }
        let form = self.here()?;
        self.labels.meets(at, name, form, living)
    }

    /// The jumps that waited for a label land: what is left to do on each way, and the jumps at their ends.
    fn all_arrive(&mut self, name: u32, living: usize) -> Result<Vec<u32>, Fault> {
        let mut ways = Vec::new(self.alloc);
        let mut waiting = mem::replace(&mut self.labels.waiting, Vec::new(self.alloc));
        for _one in 0..waiting.len() {
            if let Some(one) = waiting.pop() {
                if one.name == name && one.text == self.labels.text {
                    ways.push(self.arrives(&one, living)?)?;
                } else {
                    self.labels.waiting.push(one)?;
                }
            }
        }
        Ok(ways)
    }

    fn arrives(&mut self, one: &Waiting, living: usize) -> Result<u32, Fault> {
        if one.fewest < living || one.blocks < self.labels.blocks {
            return Err(Fault::Refused(one.at, Why::Goto));
        }
        self.lands(one.jump)?;
        for place in (living..one.live.len()).rev() {
            if let Some(slot) = one.live.get(place).copied() {
                self.emit(Form::End(one.at, slot))?;
            }
        }
        if let Some(context) = one.contexts.get(self.labels.contexts.len()).copied() {
            self.emit(Form::Within(context))?;
        }
        self.jump()
    }
}
