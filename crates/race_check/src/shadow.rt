ghost use Rattle.std.specs.Prelude.{◌≡◌, ◌↔◌, ℕ, Some, None, IfOk, IfSome, IsTrue, OnOk, if◌then◌else◌, ◌==◌};
ghost use Rattle.span_tree.specs.History.{IsNumbered, IsPlace};
ghost use Rattle.race_check.specs.Access.{IsAccessOf};
ghost use Rattle.race_check.specs.Shadow.{Before, IsBeside, IsShadowOf, IsShadowed, RacesBefore, Upto, no_shadow, shadow_of};

use crate::access::Access;
use span_tree::{History, Place};
use std::alloc::{AllocError, Global};
use std::collections::HashMap;

/// The shadow of a word (Feng, Leiserson 1997): what is kept of its accesses, to be compared with later ones.
#[derive(Clone, Copy, Debug)]
pub(crate) struct Shadow {
    /// The last write or add.
    pub writer: Option<Place>,
    /// A read to which each later place is parallel that is parallel to any read so far.
    pub reader: Option<Place>,
}

impl Shadow {
    /// Whether an access, which comes next, races with one that is passed.
    fn meets(self, history: &History, access: Access) -> bool
        requires numbered { IsNumbered history.now }
        requires access { IsAccessOf history.now access.place access }
        requires shadow { IsShadowOf history.now (Before history.now access.place) access.word self }
        ensures { IsTrue result ↔ RacesBefore history.now access.word access.place }
    {
        is_beside(history, self.writer, access.place)
            || (access.changes && is_beside(history, self.reader, access.place))
    }

    /// The word's shadow when an access is passed too, which races with none before it.
    fn with(self, history: &History, access: Access) -> Shadow
        requires numbered { IsNumbered history.now }
        requires access { IsAccessOf history.now access.place access }
        requires shadow { IsShadowOf history.now (Before history.now access.place) access.word self }
        requires free { RacesBefore history.now access.word access.place → ⊥ }
        ensures { IsShadowOf history.now (Upto history.now access.place) access.word result }
    {
        let place = Some(access.place);
        if access.changes {
            Shadow {
                writer: place,
                reader: self.reader,
            }
        } else if is_beside(history, self.reader, access.place) {
            self
        } else {
            Shadow {
                writer: self.writer,
                reader: place,
            }
        }
    }
}

/// Whether a place is parallel to the one that is kept, where one is kept.
fn is_beside(history: &History, kept: Option<Place>, place: Place) -> bool
    requires kept { IfSome kept (IsPlace history.now) }
    requires place { IsPlace history.now place }
    ensures { IsTrue result ↔ IsBeside history.now kept place }
{
    match kept {
        Some(kept) => history.parallel(kept, place),
        None => false,
    }
}

/// The shadows of all words, while a history is passed in serial order.
#[derive(Drop)]
pub(crate) struct ShadowMemory {
    words: HashMap<u32, Shadow>,
}

impl ShadowMemory {
    /// Nothing is kept of any word.
    pub fn new(alloc: Global) -> ShadowMemory
        ensures { (word : ℕ) → shadow_of result.words word ≡ no_shadow }
    {
        ShadowMemory {
            words: HashMap::new(alloc),
        }
    }

    /// Passes the place that is next in serial order. Where the act there is an access that races with one before it,
    /// the access is the answer, and is not kept.
    pub fn pass(&mut self, history: &History, place: Place) -> Result<Option<Access>, AllocError>
        requires numbered { IsNumbered history.now }
        requires place { IsPlace history.now place }
        requires shadows { IsShadowed history.now (Before history.now place) (shadow_of self.old.words) }
        ensures none { IfOk result (λ found. found ≡ None → IsShadowed history.now (Upto history.now place) (shadow_of self.new.words)) }
        ensures access { IfOk result (λ found. IfSome found (IsAccessOf history.now place)) }
        ensures races { IfOk result (λ found. IfSome found (λ access. RacesBefore history.now access.word place)) }
    {
        let Some(access) = Access::at(history, place) else {
            return Ok(None);
        };
        let shadow = self.at(access.word);
        if shadow.meets(history, access) {
            return Ok(Some(access));
        }
        self.set(access.word, shadow.with(history, access))?;
        Ok(None)
    }

    /// The shadow of a word.
    fn at(&self, word: u32) -> Shadow
        ensures { result ≡ shadow_of self.now.words word }
    {
        self.words.get(&word).copied().unwrap_or(Shadow {
            writer: None,
            reader: None,
        })
    }

    /// From here on this is the word's shadow.
    fn set(&mut self, word: u32, shadow: Shadow) -> Result<(), AllocError>
        ensures ok { OnOk result ((other : ℕ) → shadow_of self.new.words other ≡ (if word == other then shadow else shadow_of self.old.words other)) }
    {
        self.words.insert(word, shadow)?;
        Ok(())
    }
}
