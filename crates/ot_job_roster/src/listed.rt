ghost use Rattle.std.specs.Prelude.{◌≡◌, ◌≢◌, ◌<◌, ℕ, length, get_or, ◌≤◌, ◌^◌, [], true, false, slice_get, OnOk};
ghost use Rattle.std.specs.Int.{bit_at};
ghost use Rattle.ot_job_roster.specs.Listed.{has_bit, bits_in, has, IsListBelow};

use std::alloc::{AllocError, Global};
use std::marker::Model;

/// Numbers in their order, each listed by a bit.
#[derive(Debug, Drop)]
pub struct Listed {
    /// The lowest bit of the first word is number 0.
    words: Vec<u64>,
    /// How many are listed.
    count: usize,
}

impl Model for Listed {
    ghost use Rattle.std.specs.Prelude.{◌≡◌, ◌≤◌, ◌+◌, ◌*◌, ◌^◌, length};
    ghost use Rattle.ot_job_roster.specs.Listed.{Numbers, numbers_in};

    ghost Value = { Numbers };

    ghost view = { λ l. record { listed = numbers_in l.words.items; room = 64 * length l.words.items } };

    ghost invariant = { λ l. (l.count ≡ length (numbers_in l.words.items)) × (64 * length l.words.items ≤ 2 ^ 63 + 64) };
}

impl Listed {
    /// No number, and room for none.
    pub fn new(alloc: Global) -> Listed
        ensures none { result.listed ≡ [] }
        ensures room { result.room ≡ 0 }
    {
        Listed {
            words: Vec::new(alloc),
            count: 0,
        }
    }

    /// How many are listed.
    pub fn count(&self) -> usize
        ensures { result ≡ length self.now.listed }
    {
        self.count
    }

    /// Makes room for the number behind those that there is room for, or one of these.
    pub fn make_room_for(&mut self, number: usize) -> Result<(), AllocError>
        requires next { number ≤ self.old.room }
        requires few { number < 2 ^ 63 }
        ensures room { OnOk result (number < self.new.room) }
        ensures same { self.new.listed ≡ self.old.listed }
        ensures kept { self.old.room ≤ self.new.room }
    {
        if number / 64 == self.words.len() {
            self.words.reserve(1)?;
            self.words.push_reserved(0);
        }
        Ok(())
    }

    /// Lists a number that there is room for, or lists it no more. It takes no memory.
    pub fn set(&mut self, number: usize, listed: bool)
        requires within { number < self.old.room }
        ensures ordered { IsListBelow self.new.room self.new.listed }
        ensures noted { has number self.new.listed ≡ listed }
        ensures others { (k : ℕ) → k ≢ number → has k self.new.listed ≡ has k self.old.listed }
        ensures room { self.new.room ≡ self.old.room }
    {
        if listed {
            self.insert(number);
        } else {
            self.remove(number);
        }
    }

    /// Lists a number that there is room for. It takes no memory.
    fn insert(&mut self, number: usize)
        requires within { number < self.old.room }
        ensures ordered { IsListBelow self.new.room self.new.listed }
        ensures noted { has number self.new.listed ≡ true }
        ensures others { (k : ℕ) → k ≢ number → has k self.new.listed ≡ has k self.old.listed }
        ensures room { self.new.room ≡ self.old.room }
    {
        let word = self.words[number / 64];
        if !has_bit(word, number % 64) {
            self.words[number / 64] = with_bit(word, number % 64);
            self.count += 1;
        }
    }

    /// Lists a number no more. It takes no memory.
    fn remove(&mut self, number: usize)
        requires within { number < self.old.room }
        ensures ordered { IsListBelow self.new.room self.new.listed }
        ensures noted { has number self.new.listed ≡ false }
        ensures others { (k : ℕ) → k ≢ number → has k self.new.listed ≡ has k self.old.listed }
        ensures room { self.new.room ≡ self.old.room }
    {
        let word = self.words[number / 64];
        if has_bit(word, number % 64) {
            self.words[number / 64] = without_bit(word, number % 64);
            self.count -= 1;
        }
    }

    /// The number at this place of the list.
    pub fn at(&self, place: usize) -> Option<usize>
        ensures { result ≡ slice_get self.now.listed place }
    {
        let mut left = place;
        for (i, word) in self.words.iter().enumerate() {
            let ones = count_bits(*word);
            if left < ones {
                return Some(64 * i + bit(*word, left));
            }
            left -= ones;
        }
        None
    }
}

/// Whether a bit is set.
fn has_bit(word: u64, i: usize) -> bool
    requires { i < 64 }
    ensures { result ≡ has_bit word i }
{
    word >> i & 1 == 1
}

/// The word with a bit set.
fn with_bit(word: u64, i: usize) -> u64
    requires { i < 64 }
    ensures set { bit_at result i ≡ 1 }
    ensures others { (k : ℕ) → k ≢ i → bit_at result k ≡ bit_at word k }
{
    word | (1 << i)
}

/// The word with a bit cleared.
fn without_bit(word: u64, i: usize) -> u64
    requires { i < 64 }
    ensures clear { bit_at result i ≡ 0 }
    ensures others { (k : ℕ) → k < 64 → k ≢ i → bit_at result k ≡ bit_at word k }
{
    word & !(1 << i)
}

/// How many bits are set.
fn count_bits(word: u64) -> usize
    ensures { result ≡ length (bits_in word) }
{
    word.count_ones() as usize
}

/// The bit at this place of those that are set.
fn bit(word: u64, place: usize) -> usize
    requires { place < length (bits_in word) }
    ensures is { result ≡ get_or (bits_in word) place 0 }
    ensures within { result < 64 }
{
    let mut rest = word;
    for _ in 0..place {
        rest = without_bit(rest, rest.trailing_zeros() as usize);
    }
    rest.trailing_zeros() as usize
}
