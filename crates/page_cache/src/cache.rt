ghost use Rattle.std.specs.Prelude.{◌≡◌, ◌<◌, ◌≤◌, ◌↔◌, [], ◌∷◌, true, false, length, IsSome, IsNone, IfOk, OnOk, OnErr, OnSome};
ghost use Rattle.std.specs.Option.{option_copied_mut};
ghost use Rattle.std.specs.Borrow.{sem};
ghost use Rattle.page_cache.specs.Cache.{IsCache, IsLeastFrom, last_number, page_at, is_dirty, is_resident, without};

use lru::LruCache;
use page_words::Page;
use std::alloc::{AllocError, Global};
use std::collections::BTreeSet;
use std::marker::Model;
use std::num::NonZeroUsize;

/// The bounded cache of a node. Contracts see its capacity and the list of its pages, each with its number,
/// the most recently used first.
#[derive(Debug, Drop)]
pub struct Cache {
    pages: LruCache<u32, Page>,
    /// The numbers of the pages, in order.
    numbers: BTreeSet<u32>,
}

impl Model for Cache {
    ghost use Rattle.page_cache.specs.Cache.{Cache as Seen, AreNumbers};

    ghost Value = { Seen };

    ghost view = { λ c. record { capacity = c.pages.cap; pages = c.pages.entries } };

    ghost invariant = { λ c. AreNumbers c.numbers c.pages.entries };
}

impl Cache {
    ghost use Rattle.page_cache.specs.Lending.{LendsUsed, LendsKept};

    /// An empty cache for so many pages, at least one.
    pub fn new(alloc: Global, capacity: u32) -> Result<Cache, AllocError>
        requires { 1 ≤ capacity }
        ensures { IfOk result (λ cache. cache ≡ record { capacity = capacity; pages = [] }) }
    {
        let most = NonZeroUsize::new(capacity as usize).unwrap();
        Ok(Cache {
            pages: LruCache::new(alloc, most)?,
            numbers: BTreeSet::new(alloc),
        })
    }

    /// Lends the page of this number, which becomes the most recently used. None exactly where it is not resident,
    /// and then nothing changes.
    pub fn touch(&mut self, page: u32) -> Option<&mut Page>
        ensures* used { sem 𝓛 (LendsUsed self.entry page result) }
        ensures page { option_copied_mut result ≡ page_at self.old.pages page }
    {
        self.pages.get_mut(&page)
    }

    /// The least recently used page, where the cache is full.
    pub fn victim(&self) -> Option<u32>
        ensures full { IsSome result ↔ (length self.now.pages ≡ self.now.capacity) }
        ensures room { IsNone result ↔ (length self.now.pages < self.now.capacity) }
        ensures last { OnSome result (result ≡ last_number self.now.pages) }
        ensures cache { IsCache self.now }
    {
        if self.pages.len() < self.pages.cap().get() {
            return None;
        }
        self.pages.peek_lru().map(|(number, _)| *number)
    }

    /// Adds a page, which becomes the most recently used. Where memory is refused the page is dropped, and the
    /// cache stays as it was.
    pub fn insert(&mut self, number: u32, page: Page) -> Result<(), AllocError>
        requires room { length self.old.pages < self.old.capacity }
        requires absent { is_resident self.old.pages number ≡ false }
        ensures ok { OnOk result (self.new ≡ record self.old { pages = (number, page) ∷ self.old.pages }) }
        ensures err { OnErr result (self.new ≡ self.old) }
    {
        self.numbers.insert(number)?;
        match self.pages.put(number, page) {
            Ok(_) => Ok(()),
            Err(_) => {
                self.numbers.remove(&number);
                Err(AllocError)
            }
        }
    }

    /// Whether the page is resident and has a mark.
    pub fn is_dirty(&self, page: u32) -> bool
        ensures { result ≡ is_dirty self.now.pages page }
    {
        self.pages
            .peek(&page)
            .is_some_and(|page| page.marked() != 0)
    }

    /// The least number, from `least` on, of a page with a mark.
    pub fn next_dirty(&self, least: u32) -> Option<u32>
        ensures { IsLeastFrom (is_dirty self.now.pages) least result }
    {
        for number in self.numbers.range(least..) {
            if self.is_dirty(*number) {
                return Some(*number);
            }
        }
        None
    }

    /// The least number, from `least` on, of a resident page.
    pub fn next_resident(&self, least: u32) -> Option<u32>
        ensures { IsLeastFrom (is_resident self.now.pages) least result }
    {
        self.numbers.range(least..).next().copied()
    }

    /// Lends the page of this number, and leaves the order. None exactly where it is not resident.
    pub fn peek_mut(&mut self, page: u32) -> Option<&mut Page>
        ensures* kept { sem 𝓛 (LendsKept self.entry page result) }
        ensures page { option_copied_mut result ≡ page_at self.old.pages page }
    {
        self.pages.peek_mut(&page)
    }

    /// Takes out a page without marks. The others stay in their order.
    pub fn drop_clean(&mut self, page: u32)
        requires resident { is_resident self.old.pages page ≡ true }
        requires clean { is_dirty self.old.pages page ≡ false }
        ensures { self.new ≡ record self.old { pages = without self.old.pages page } }
    {
        let _page = self.pages.pop(&page);
        self.numbers.remove(&page);
    }
}
