//! The names of a text.
use crate::word::WORDS;
use indexmap::IndexSet;
use std::alloc::{AllocError, Global};

/// Names by their numbers: those of `word` first, and each other one in the order in which it comes.
#[derive(Drop)]
pub struct Names {
    names: IndexSet<String>,
}

impl Names {
    /// The words alone.
    pub fn new(alloc: Global) -> Result<Names, AllocError> {
        let mut names = Names {
            names: IndexSet::new(alloc),
        };
        names.put_all(alloc, &WORDS)?;
        Ok(names)
    }

    fn put_all(&mut self, alloc: Global, words: &[&str]) -> Result<(), AllocError> {
        for word in words {
            self.number_of(alloc, word)?;
        }
        Ok(())
    }

    /// The number of a name, which it gets where it has none.
    pub fn number_of(&mut self, alloc: Global, name: &str) -> Result<u32, AllocError> {
        let number = match self.names.get_index_of(name) {
            Some(number) => number,
            None => self.names.insert_full(String::from_str(alloc, name)?)?.0,
        };
        Ok(u32::try_from(number).unwrap_or(u32::MAX))
    }

    /// The name of a number.
    pub fn text(&self, number: u32) -> &str {
        match self.names.get_index(number as usize) {
            Some(name) => name.as_str(),
            None => "",
        }
    }

    /// How many there are.
    pub fn len(&self) -> usize {
        self.names.len()
    }
}
