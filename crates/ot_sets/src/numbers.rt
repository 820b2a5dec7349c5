//! Sets of numbers, as bits.
ghost use Rattle.std.specs.Prelude.{◌≡◌, ◌==◌, ◌&&◌, ◌||◌, ◌<◌, ◌≤◌, ◌/◌, ◌%◌, ℕ, IfOk, OnOk, OnErr, [], true, false, not, length, get_or};
ghost use Rattle.std.specs.Int.{bit_at};
ghost use Rattle.ot_sets.specs.Sets.{has, words_of};

use std::alloc::{AllocError, Global};

/// A set of numbers.
#[derive(Debug, Drop)]
pub struct Numbers {
    /// Each number is a bit: that of 64 is the lowest bit of the second word.
    words: Vec<u64>,
}

impl Numbers {
    /// No number at all. It takes no memory.
    pub fn new(alloc: Global) -> Numbers
        ensures none { (k : ℕ) → has result k ≡ false }
        ensures words { words_of result ≡ [] }
    {
        Numbers {
            words: Vec::new(alloc),
        }
    }

    /// Whether a number is among them.
    pub fn has(&self, number: usize) -> bool
        ensures { result ≡ has self.now number }
    {
        match self.words.get(number / 64) {
            Some(word) => (*word >> (number % 64)) & 1 == 1,
            None => false,
        }
    }

    /// The numbers from 64 times this place on, as the bits of a word: the first of them is the lowest bit.
    pub fn word(&self, place: usize) -> u64
        ensures { result ≡ get_or (words_of self.now) place 0 }
    {
        match self.words.get(place) {
            Some(word) => *word,
            None => 0,
        }
    }

    /// Whether there is none among them.
    pub fn is_empty(&self) -> bool
        ensures none { result ≡ true → (k : ℕ) → has self.now k ≡ false }
        ensures some { result ≡ false → (k : ℕ) × (has self.now k ≡ true) }
    {
        for place in 0..self.words.len() {
            if self.word(place) != 0 {
                return false;
            }
        }
        true
    }

    /// Puts a number among them.
    pub fn insert(&mut self, number: usize) -> Result<(), AllocError>
        ensures put { OnOk result ((k : ℕ) → has self.new k ≡ (has self.old k || (k == number))) }
        ensures stays { OnErr result ((k : ℕ) → has self.new k ≡ has self.old k) }
    {
        let place = number / 64;
        self.reach(place + 1)?;
        self.words[place] |= 1u64 << (number % 64);
        Ok(())
    }

    /// Puts all numbers of another set among them.
    pub fn join(&mut self, other: &Numbers) -> Result<(), AllocError>
        ensures put { OnOk result ((k : ℕ) → has self.new k ≡ (has self.old k || has other.now k)) }
        ensures stays { OnErr result ((k : ℕ) → has self.new k ≡ has self.old k) }
    {
        self.reach(other.words.len())?;
        for place in 0..other.words.len() {
            self.words[place] |= other.words[place];
        }
        Ok(())
    }

    /// Makes as many words as these.
    fn reach(&mut self, len: usize) -> Result<(), AllocError>
        ensures same { (place : ℕ) → get_or (words_of self.new) place 0 ≡ get_or (words_of self.old) place 0 }
        ensures there { OnOk result (len ≤ length (words_of self.new)) }
    {
        if self.words.len() < len {
            self.words.resize(len, 0)?;
        }
        Ok(())
    }

    /// Takes out all numbers of another set. It takes no memory.
    pub fn take_out(&mut self, other: &Numbers)
        ensures { (k : ℕ) → has self.new k ≡ (has self.old k && not (has other.now k)) }
    {
        for place in 0..other.words.len() {
            self.take_bits(place, other.words[place]);
        }
    }

    /// Takes out those of the numbers from 64 times this place on whose bits are set here. It takes no
    /// memory.
    pub fn take_bits(&mut self, place: usize, bits: u64)
        ensures { (k : ℕ) → has self.new k ≡ (has self.old k && not ((k / 64 == place) && (bit_at bits (k % 64) == 1))) }
    {
        if place < self.words.len() {
            self.words[place] &= !bits;
        }
    }

    /// Takes out this number and all that are greater. It takes no memory.
    pub fn truncate(&mut self, number: usize)
        ensures below { (k : ℕ) → k < number → has self.new k ≡ has self.old k }
        ensures rest { (k : ℕ) → number ≤ k → has self.new k ≡ false }
    {
        let place = number / 64;
        if place < self.words.len() {
            self.words.truncate(place + 1);
            self.words[place] &= (1u64 << (number % 64)) - 1;
        }
    }

    /// Takes out all. It takes no memory.
    pub fn clear(&mut self)
        ensures none { (k : ℕ) → has self.new k ≡ false }
        ensures words { words_of self.new ≡ [] }
    {
        self.words.clear();
    }

    /// The same numbers once more.
    pub fn copy(&self, alloc: Global) -> Result<Numbers, AllocError>
        ensures { IfOk result (λ copied. words_of copied ≡ words_of self.now) }
    {
        Ok(Numbers {
            words: self.words.as_slice().to_vec(alloc)?,
        })
    }
}
