//! Macros (ISO C11, section 6.10.3).
use ot_exec_lexemes::Raw;
use std::alloc::{AllocError, Global};

/// What a name stands for.
#[derive(Drop)]
pub(crate) struct Macro {
    /// The names of its parameters, if it has a list of them.
    pub parameters: Option<Vec<u32>>,
    /// Whether the last parameter stands for all arguments that are left.
    pub takes_rest: bool,
    pub body: Vec<Raw>,
    /// Whether the text defines it, or a file that it includes.
    pub is_of_text: bool,
}

impl Macro {
    pub(crate) fn copy(&self, alloc: Global) -> Result<Macro, AllocError> {
        let parameters = match &self.parameters {
            Some(names) => Some(names.as_slice().to_vec(alloc)?),
            None => None,
        };
        Ok(Macro {
            parameters,
            takes_rest: self.takes_rest,
            body: self.body.as_slice().to_vec(alloc)?,
            is_of_text: self.is_of_text,
        })
    }
}

/// Sets of names: each is one name and another set, and 0 is the empty one.
#[derive(Drop)]
pub(crate) struct Hidden {
    sets: Vec<(u32, usize)>,
}

/// How many names a set may have, so that looking for one costs no more.
const MOST: usize = 64;

impl Hidden {
    pub(crate) fn new(alloc: Global) -> Hidden {
        Hidden {
            sets: Vec::new(alloc),
        }
    }

    /// Whether a set has this name, or more names than may be.
    pub(crate) fn has(&self, set: usize, name: u32) -> bool {
        let mut at = set;
        for _ in 0..MOST {
            if at == 0 {
                return false;
            }
            match self.sets.get(at - 1) {
                Some((other, next)) => {
                    if *other == name {
                        return true;
                    }
                    at = *next;
                }
                None => return false,
            }
        }
        true
    }

    /// A set with one name more.
    pub(crate) fn with(&mut self, set: usize, name: u32) -> Result<usize, AllocError> {
        self.sets.push((name, set))?;
        Ok(self.sets.len())
    }
}
