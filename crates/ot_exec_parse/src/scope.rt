//! What names mean, block by block (ISO C11, section 6.2.1).
use std::alloc::{AllocError, Global};
use std::collections::BTreeMap;

/// What a name means: each by its number in the unit.
#[derive(Clone, Copy, Debug, PartialEq, Eq)]
pub(crate) enum Meaning {
    Type(u32),
    Variable(u32),
    Function(u32),
    Enumerator(u32),
}

/// The type of a struct, a union or an enumeration, and how many blocks are open where its tag was declared.
#[derive(Clone, Copy)]
struct Tagged {
    kind: u32,
    blocks: usize,
}

/// What a name meant before.
#[derive(Clone, Copy)]
enum Before {
    Name(u32, Option<Meaning>),
    Tag(u32, Option<Tagged>),
}

#[derive(Drop)]
pub(crate) struct Scope {
    names: BTreeMap<u32, Meaning>,
    /// The types of structs, unions and enumerations by their tags.
    tags: BTreeMap<u32, Tagged>,
    /// What has to be put back when blocks end, and for each block how much of it was there before.
    before: Vec<Before>,
    blocks: Vec<usize>,
}

impl Scope {
    pub(crate) fn new(alloc: Global) -> Scope {
        Scope {
            names: BTreeMap::new(alloc),
            tags: BTreeMap::new(alloc),
            before: Vec::new(alloc),
            blocks: Vec::new(alloc),
        }
    }

    pub(crate) fn meaning(&self, name: u32) -> Option<Meaning> {
        self.names.get(&name).copied()
    }

    pub(crate) fn tagged(&self, tag: u32) -> Option<u32> {
        match self.tags.get(&tag) {
            Some(tagged) => Some(tagged.kind),
            None => None,
        }
    }

    /// A name means this up to the end of the block.
    pub(crate) fn declare(&mut self, name: u32, meaning: Meaning) -> Result<(), AllocError> {
        let old = self.names.insert(name, meaning)?;
        self.before.push(Before::Name(name, old))?;
        Ok(())
    }

    /// A tag is this type's up to the end of the block.
    pub(crate) fn tag(&mut self, tag: u32, kind: u32) -> Result<(), AllocError> {
        let tagged = Tagged {
            kind,
            blocks: self.blocks.len(),
        };
        let old = self.tags.insert(tag, tagged)?;
        self.before.push(Before::Tag(tag, old))?;
        Ok(())
    }

    /// Whether a tag was declared in the block that is open.
    pub(crate) fn is_own_tag(&self, tag: u32) -> bool {
        match self.tags.get(&tag) {
            Some(tagged) => tagged.blocks == self.blocks.len(),
            None => false,
        }
    }

    pub(crate) fn open(&mut self) -> Result<(), AllocError> {
        self.blocks.push(self.before.len())?;
        Ok(())
    }

    /// Puts back what names meant before the block.
    pub(crate) fn close(&mut self) -> Result<(), AllocError> {
        let start = self.blocks.pop().unwrap_or(0);
        let many = self.before.len();
        for _ in 0..many {
            if self.before.len() <= start {
                return Ok(());
            }
            match self.before.pop() {
                Some(Before::Name(name, Some(old))) => {
                    let _ = self.names.insert(name, old)?;
                }
                Some(Before::Name(name, None)) => {
                    let _ = self.names.remove(&name);
                }
                Some(Before::Tag(tag, Some(old))) => {
                    let _ = self.tags.insert(tag, old)?;
                }
                Some(Before::Tag(tag, None)) => {
                    let _ = self.tags.remove(&tag);
                }
                None => return Ok(()),
            }
        }
        Ok(())
    }
}
