ghost use Rattle.std.specs.Prelude.{◌≡◌, ◌-◌, ◌^◌, ◌<◌, ◌≤◌, ◌++◌, Some, length, take, drop, replicate, slice_get, slice_set, bit_or, pos, IfOk};
ghost use Rattle.page_words.specs.Page.{IsPage, IsMerged};

use outside::Words;
use std::alloc::{AllocError, Global};
use std::marker::Model;

/// A page: up to 64 shared words, each with a mark that says whether it was written.
///
/// It holds its words in place and takes no memory, so a cache of 65,536 pages has about 34 MB of them.
#[derive(Debug, Drop)]
pub struct Page {
    size: u32,
    words: [i64; 64],
    dirty: u64,
}

impl Model for Page {
    ghost use Rattle.page_words.specs.Page.{Page as Seen, IsPage};

    ghost Value = { Seen };

    ghost view = { λ p. record { size = p.size; words = p.words; dirty = p.dirty } };

    ghost invariant = { λ p. IsPage (record { size = p.size; words = p.words; dirty = p.dirty }) };
}

impl Page {
    /// The page of these `size` words, from 1 to 64 of them, none marked. The places after them hold 0.
    pub fn from_words(size: u32, words: &[i64]) -> Page
        requires some_word { 1 ≤ size }
        requires at_most_64 { size ≤ 64 }
        requires count { length words.now ≡ size }
        ensures { result ≡ record { size = size; words = words.now ++ replicate (64 - size) (pos 0); dirty = 0 } }
    {
        let mut kept = [0; 64];
        put_first(&mut kept, words);
        Page {
            size,
            words: kept,
            dirty: 0,
        }
    }

    /// Word k.
    pub fn read(&self, k: u32) -> i64
        requires { k < self.now.size }
        ensures { slice_get self.now.words k ≡ Some result }
    {
        self.words[k as usize]
    }

    /// Sets word k and marks it.
    pub fn write(&mut self, k: u32, value: i64)
        requires { k < self.old.size }
        ensures { self.new ≡ record self.old { words = slice_set self.old.words k value; dirty = bit_or self.old.dirty (2 ^ k) } }
    {
        self.words[k as usize] = value;
        self.dirty |= bit(k);
    }

    /// The marks: bit k says that word k was written.
    pub fn marked(&self) -> u64
        ensures marks { result ≡ self.now.dirty }
        ensures page { IsPage self.now }
    {
        self.dirty
    }

    /// Clears all marks.
    pub fn clean(&mut self)
        ensures { self.new ≡ record self.old { dirty = 0 } }
    {
        self.dirty = 0;
    }

    /// Sets the words whose bits are in the mask to those given, and leaves every mark.
    pub fn merge(&mut self, mask: u64, words: &[i64])
        requires count { length words.now ≡ self.old.size }
        requires bits { mask < 2 ^ self.old.size }
        ensures merged { IsMerged mask words.now self.old.words self.new.words }
        ensures rest { self.new ≡ record self.old { words = self.new.words } }
    {
        merge_words(&mut self.words, mask, words);
    }

    /// The words that the page uses, in order.
    pub fn copy(&self, alloc: Global) -> Result<Words, AllocError>
        ensures { IfOk result (λ words. words ≡ take self.now.size self.now.words) }
    {
        let mut words = Words::new(alloc);
        for word in &self.words[..self.size as usize] {
            words.push(*word)?;
        }
        Ok(words)
    }
}

/// The mask with bit k alone.
fn bit(k: u32) -> u64
    requires { k < 64 }
    ensures { result ≡ 2 ^ k }
{
    1 << k
}

/// Puts the given words in the place of the first ones.
fn put_first(words: &mut [i64], given: &[i64])
    requires { length given.now ≤ length words.old }
    ensures { words.new ≡ given.now ++ drop (length given.now) words.old }
{
    words[..given.len()].copy_from_slice(given);
}

/// Sets the words whose bits are in the mask to those given, and no others. Bit k stands for word k; there are at most 64.
pub fn merge_words(words: &mut [i64], mask: u64, given: &[i64])
    requires count { length given.now ≤ length words.old }
    requires few { length given.now ≤ 64 }
    requires bits { mask < 2 ^ length given.now }
    ensures { IsMerged mask given.now words.old words.new }
{
    for (k, word) in given.iter().enumerate() {
        if mask & bit(k as u32) != 0 {
            words[k] = *word;
        }
    }
}
