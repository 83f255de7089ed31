ghost use Rattle.std.specs.Prelude.{◌≡◌, ℕ, ◌≤◌, List, Option, length, take, IfOk, OnErr, IfSome, IsSomeAnd};
ghost use Rattle.std.specs.FinMap as map;
ghost use Rattle.outside.specs.Device.{Rose};
ghost use Rattle.outside.specs.Shelf.{Texts, GivesFrom};

use crate::Failed;

/// Texts under names, read in pieces. What a shelf holds and how often it has failed are meanings
/// for contracts alone; a shelf over a device tells no texts.
pub trait Shelf {
    /// The text of each name that is held, where the shelf tells them.
    ghost texts: { Self → Option Texts };

    /// How often a call for a name has failed. The count never falls, and stands still at the end of `u64`.
    ghost faults: { Self → List ℕ → ℕ };

    /// What an answered call did: the shelf before it, the name, the place, how many bytes were asked for,
    /// the bytes given, and the shelf after it. A shelf may keep no trace of its calls.
    ghost gave: { Self → List ℕ → ℕ → ℕ → List ℕ → Self → Type 0 } = { λ _ _ _ _ _ _. Unit {0} };

    /// What a failed call did: the shelf before it, the name, the place, how many bytes were asked for,
    /// and the shelf after it.
    ghost failed: { Self → List ℕ → ℕ → ℕ → Self → Type 0 } = { λ _ _ _ _ _. Unit {0} };

    /// Fills the front of `into` with bytes of the named text from place `at` on, and answers how many.
    /// A name that is not held is a failure.
    fn read_at(&mut self, name: &str, at: u64, into: &mut [u8]) -> Result<usize, Failed>
        ensures texts { texts self.new ≡ texts self.old }
        ensures faults { (other : List ℕ) → faults self.old other ≤ faults self.new other }
        ensures cause { OnErr result (Rose (faults self.old name.now) (faults self.new name.now)) }
        ensures within { IfOk result (λ count. count ≤ length into.old) }
        // A told text is given from the place on.
        ensures told { IfOk result (λ count. IfSome (texts self.old) (λ held.
            IsSomeAnd (map.get held name.now) (λ text. GivesFrom text at (length into.old) (take count into.new)))) }
        ensures gave { IfOk result (λ count. gave self.old name.now at (length into.old) (take count into.new) self.new) }
        ensures failed { OnErr result (failed self.old name.now at (length into.old) self.new) };
}
