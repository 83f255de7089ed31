ghost use Rattle.std.specs.Prelude.{◌≡◌, ◌↔◌, [], ◌∷◌, ◌++◌, length, slice_get, OnOk, OnErr, IfErr, IsNone, IsTrue};
ghost use Rattle.std.specs.Option.{option_copied_mut, option_to_list};
ghost use Rattle.std.specs.Borrow.{sem};

use std::alloc::Global;
use std::collections::VecDeque;
use std::marker::Model;

/// A ready deque (Blumofe, Leiserson 1999): its owner pushes and pops at the bottom, and thieves take the
/// oldest item from the top. Contracts see the list of its items from the top to the bottom.
#[derive(Debug, Drop)]
pub struct Deque<T> {
    items: VecDeque<T>,
}

impl<T> Model for Deque<T> {
    ghost use Rattle.std.specs.Prelude.{List};

    ghost Value = { List T };

    ghost view = { λ deque. deque.items.items };
}

impl<T> Deque<T> {
    ghost use Rattle.ready_deque.specs.Lending.{LendsItem};

    /// A deque without items.
    pub fn new(alloc: Global) -> Deque<T>
        ensures { result ≡ [] }
    {
        Deque {
            items: VecDeque::new(alloc),
        }
    }

    /// Adds an item at the bottom. Where memory is refused the item is handed back, and the deque stays as it was.
    pub fn push_bottom(&mut self, item: T) -> Result<(), T>
        ensures ok { OnOk result (self.new ≡ self.old ++ item ∷ []) }
        ensures handed_back { IfErr result (λ refused. refused ≡ item) }
        ensures err { OnErr result (self.new ≡ self.old) }
    {
        self.items.push_back(item).map_err(|refused| refused.value)
    }

    /// Takes the item at the bottom, the latest one. None exactly where there is none.
    pub fn pop_bottom(&mut self) -> Option<T>
        ensures item { self.old ≡ self.new ++ option_to_list result }
        ensures none { IsNone result ↔ (self.old ≡ []) }
    {
        self.items.pop_back()
    }

    /// Takes the item at the top, the oldest one. None exactly where there is none.
    pub fn take_top(&mut self) -> Option<T>
        ensures item { self.old ≡ option_to_list result ++ self.new }
        ensures none { IsNone result ↔ (self.old ≡ []) }
    {
        self.items.pop_front()
    }

    /// How many items there are.
    pub fn len(&self) -> usize
        ensures { result ≡ length self.now }
    {
        self.items.len()
    }

    /// Whether there is no item.
    pub fn is_empty(&self) -> bool
        ensures { IsTrue result ↔ (self.now ≡ []) }
    {
        self.items.is_empty()
    }

    /// Lends the item at this place, counted from the top. None exactly where there are no more than that many.
    pub fn at_mut(&mut self, place: usize) -> Option<&mut T>
        ensures* lends { sem 𝓛 (LendsItem T.row self.entry place result) }
        ensures item { option_copied_mut result ≡ slice_get self.old place }
    {
        self.items.get_mut(place)
    }
}
