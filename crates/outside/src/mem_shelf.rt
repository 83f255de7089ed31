ghost use Rattle.std.specs.Prelude.{◌≡◌, ℕ, ◌+◌, ◌-◌, ◌<◌, ◌≤◌, ◌⊎◌, ◌↔◌, List, Option, Some, None, length, take, drop, map, min, replicate, slice_get, IfOk, OnOk, OnErr, IsErr, IsNone, IfSome, IsSomeAnd, IsTrue, string_bytes, vec_len};
ghost use Rattle.std.specs.FinMap as finite;
ghost use Rattle.std.specs.List.{Contains};
ghost use Rattle.std.specs.Option.{option_map};
ghost use Rattle.outside.specs.Device.{Rose};
ghost use Rattle.outside.specs.MemShelf.{ShelfState, held, place, fault_count, with_call, with_fault};
ghost use Rattle.outside.specs.Shelf.{GivesFrom};

use crate::Failed;
use crate::shelf::Shelf;
use std::alloc::{AllocError, Global};
use std::marker::Model;

/// Texts in memory, for tests. Calls with given numbers fail.
#[derive(Debug, Drop)]
pub struct MemShelf {
    texts: Vec<(String, Vec<u8>)>,
    failing: Vec<u64>,
    calls: u64,
    fault_counts: Vec<u64>,
    other_faults: u64,
}

impl Model for MemShelf {
    ghost use Rattle.std.specs.Prelude.{◌≡◌, map, string_bytes, vec_len};
    ghost use Rattle.outside.specs.MemShelf.{ShelfState};

    ghost Value = { ShelfState };

    ghost view = { λ s. record {
      entries = map (λ t. (string_bytes t.0, t.1.items)) s.texts.items;
      failing = s.failing.items;
      calls = s.calls;
      faults = s.fault_counts.items;
      other_faults = s.other_faults;
    } };

    ghost invariant = { λ s. vec_len s.fault_counts ≡ vec_len s.texts };
}

impl MemShelf {
    /// A shelf of these texts. Where a name stands twice the first text counts. The calls with the numbers
    /// in `failing`, counted from 1, fail.
    pub fn new(
        alloc: Global,
        texts: Vec<(String, Vec<u8>)>,
        failing: Vec<u64>,
    ) -> Result<MemShelf, AllocError>
        ensures told { IfOk result (λ shelf. shelf.entries ≡ map (λ t. (string_bytes t.0, t.1.items)) texts.items) }
        ensures failing { IfOk result (λ shelf. shelf.failing ≡ failing.items) }
        ensures no_calls { IfOk result (λ shelf. shelf.calls ≡ 0) }
        ensures no_faults { IfOk result (λ shelf. shelf.faults ≡ replicate (vec_len texts) 0) }
        ensures no_other_faults { IfOk result (λ shelf. shelf.other_faults ≡ 0) }
    {
        let fault_counts = vec![in alloc; 0; texts.len()]?;
        Ok(MemShelf {
            texts,
            failing,
            calls: 0,
            fault_counts,
            other_faults: 0,
        })
    }

    /// How many calls there were. The count stands still at the end of `u64`.
    pub fn calls(&self) -> u64
        ensures { result ≡ self.now.calls }
    {
        self.calls
    }

    fn count_call(&mut self)
        ensures { self.new ≡ with_call self.old }
    {
        self.calls = self.calls.saturating_add(1);
    }

    // Whether the call that was counted last is one that fails.
    fn is_failing(&self) -> bool
        ensures { IsTrue result ↔ Contains self.now.failing self.now.calls }
    {
        self.failing.contains(&self.calls)
    }

    fn place(&self, name: &str) -> Option<usize>
        ensures first { result ≡ place self.now name.now }
        ensures within { IfSome result (λ i. i < length self.now.faults) }
    {
        self.texts.iter().position(|text| name == text.0.as_str())
    }

    fn text(&self, place: usize) -> &[u8]
        requires { place < length self.now.faults }
        ensures { Some result.now ≡ option_map (λ entry. entry.1) (slice_get self.now.entries place) }
    {
        self.texts[place].1.as_slice()
    }

    // The text that the call that was counted last gives from, unless it fails.
    fn answer(&self, name: &str) -> Option<&[u8]>
        ensures fails { IsNone result ↔ (Contains self.now.failing self.now.calls ⊎ (finite.get (held self.now) name.now ≡ None)) }
        ensures told { IfSome result (λ text. finite.get (held self.now) name.now ≡ Some text.now) }
    {
        if self.is_failing() {
            return None;
        }
        let place = self.place(name)?;
        Some(self.text(place))
    }

    fn count_fault(&mut self, name: &str)
        ensures after { self.new ≡ with_fault self.old (place self.old name.now) }
        ensures rose { Rose (fault_count self.old name.now) (fault_count self.new name.now) }
        ensures no_fall { (other : List ℕ) → fault_count self.old other ≤ fault_count self.new other }
    {
        match self.place(name) {
            Some(i) => self.fault_counts[i] = self.fault_counts[i].saturating_add(1),
            None => self.other_faults = self.other_faults.saturating_add(1),
        }
    }
}

impl Shelf for MemShelf {
    ghost texts = { λ s. Some (held s) };

    ghost faults = { fault_count };

    ghost gave = { λ s name at room given t. (t ≡ with_call s)
        × IsSomeAnd (finite.get (held s) name) (λ text. given ≡ take (min room (length text - at)) (drop at text)) };

    ghost failed = { λ s name _ _ t. t ≡ with_fault (with_call s) (place s name) };

    fn read_at(&mut self, name: &str, at: u64, into: &mut [u8]) -> Result<usize, Failed>
        ensures texts { Some (held self.new) ≡ Some (held self.old) }
        ensures faults { (other : List ℕ) → fault_count self.old other ≤ fault_count self.new other }
        ensures cause { OnErr result (Rose (fault_count self.old name.now) (fault_count self.new name.now)) }
        ensures within { IfOk result (λ count. count ≤ length into.old) }
        ensures told { IfOk result (λ count. IfSome (Some (held self.old)) (λ texts.
            IsSomeAnd (finite.get texts name.now) (λ text. GivesFrom text at (length into.old) (take count into.new)))) }

        // An answered call is counted. One that fails is too, and counts one fault of the name. Nothing else changes.
        ensures gave { IfOk result (λ count. (self.new ≡ with_call self.old)
            × IsSomeAnd (finite.get (held self.old) name.now) (λ text. take count into.new ≡ take (min (length into.old) (length text - at)) (drop at text))) }
        ensures failed { OnErr result (self.new ≡ with_fault (with_call self.old) (place self.old name.now)) }

        // It fails exactly at the calls with the given numbers and at names that are not held.
        ensures fails { IsErr result ↔ (Contains self.old.failing self.new.calls ⊎ (finite.get (held self.old) name.now ≡ None)) }

        // It gives as many bytes as there are and fit, and writes no others.
        ensures most { IfOk result (λ count.
            IsSomeAnd (finite.get (held self.old) name.now) (λ text. count ≡ min (length into.old) (length text - at))) }
        ensures others { IfOk result (λ count. drop count into.new ≡ drop count into.old) }
        ensures untouched { OnErr result (into.new ≡ into.old) }
    {
        self.count_call();
        match self.answer(name) {
            Some(text) => Ok(give(text, at, into)),
            None => {
                self.count_fault(name);
                Err(Failed)
            }
        }
    }
}

// Fills the front of `into` with the bytes of a text from a place on, as many as there are and fit.
fn give(text: &[u8], at: u64, into: &mut [u8]) -> usize
    ensures most { result ≡ min (length into.old) (length text.now - at) }
    ensures given { take result into.new ≡ take result (drop at text.now) }
    ensures others { drop result into.new ≡ drop result into.old }
{
    let start = text.len().min(at as usize);
    let rest = &text[start..];
    let count = rest.len().min(into.len());
    into[..count].copy_from_slice(&rest[..count]);
    count
}
