ghost use Rattle.std.specs.Prelude.{◌≡◌, ◌≢◌, ◌<◌, ℕ, false, IfOk, length, replicate, slice_set};
ghost use Rattle.ot_hall.specs.Marking.{has_bit_at, IsLowest, IsFirst};

use std::alloc::{AllocError, Global};
use std::marker::Model;

/// Marks of the numbers below some count, each set or not: a bit each, 64 in a word.
#[derive(Drop)]
pub(crate) struct Marks {
    words: Vec<u64>,
    count: u32,
}

impl Model for Marks {
    ghost use Rattle.std.specs.Prelude.{List, Bool};
    ghost use Rattle.ot_hall.specs.Marking.{marks_of, IsMarks};

    ghost Value = { List Bool };

    ghost view = { marks_of };

    ghost invariant = { IsMarks };
}

impl Marks {
    /// None is set.
    pub(crate) fn new(alloc: Global, count: u32) -> Result<Marks, AllocError>
        ensures { IfOk result (λ marks. marks ≡ replicate count false) }
    {
        let words = vec![in alloc; 0u64; count.div_ceil(64) as usize]?;
        Ok(Marks { words, count })
    }

    /// Sets or clears the mark of a number.
    pub(crate) fn put(&mut self, number: u32, is_set: bool)
        requires { number < length self.old }
        ensures { self.new ≡ slice_set self.old number is_set }
    {
        let place = (number / 64) as usize;
        self.words[place] = with_bit(self.words[place], number % 64, is_set);
    }

    /// The first number whose mark is set, from this one on.
    pub(crate) fn first_from(&self, from: u32) -> Option<u32>
        ensures { IsFirst self.now from result }
    {
        let mut next = from as usize;
        for place in (from / 64) as usize..self.words.len() {
            if let Some(bit) = lowest_from(self.words[place], (next % 64) as u32) {
                return Some((place * 64) as u32 + bit);
            }
            next = (place + 1) * 64;
        }
        None
    }
}

// The word with a bit set or cleared.
fn with_bit(word: u64, k: u32, is_set: bool) -> u64
    requires { k < 64 }
    ensures here { has_bit_at result k ≡ is_set }
    ensures others { (i : ℕ) → i < 64 → i ≢ k → has_bit_at result i ≡ has_bit_at word i }
{
    let bit = 1u64 << k;
    if is_set { word | bit } else { word & !bit }
}

// The lowest bit of a word that is set, from a place on.
fn lowest_from(word: u64, from: u32) -> Option<u32>
    requires { from < 64 }
    ensures { IsLowest word from result }
{
    let ahead = word & (u64::MAX << from);
    if ahead == 0 {
        return None;
    }
    Some(ahead.trailing_zeros())
}
