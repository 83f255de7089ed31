//! The first determinacy race of a history.
#![tactic(auto)]

ghost use Rattle.std.specs.Prelude.{◌≡◌, ◌↔◌, Some, None, IfOk, IfSome};
ghost use Rattle.span_tree.specs.History.{IsNumbered};
ghost use Rattle.span_tree.specs.Memory.{HasNoRace, IsFirstRace, IsRace};
ghost use Rattle.race_check.specs.Access.{IsAccessOf, IsLeastRacing};

mod access;
mod shadow;
#[cfg(test)]
mod tests;

use access::Access;
use shadow::ShadowMemory;
use span_tree::{History, Place};
use std::alloc::{AllocError, Global};

/// Two parallel accesses of one word, of which at least one is a write or an add. The first is serially before the
/// second.
#[derive(Clone, Copy, Debug, PartialEq, Eq)]
pub struct Race {
    pub first: Place,
    pub second: Place,
    pub word: u32,
}

/// The first race of a history: of all races the one whose second place is serially least, and among these the one
/// whose first place is. None exactly where no two accesses race. Err only where memory is refused.
///
/// It takes time of the history up to the second place, times the depth of its rows.
pub fn find_race(alloc: Global, history: &History) -> Result<Option<Race>, AllocError>
    ensures some { IfOk result (λ found. (race : Race) → found ≡ Some race → IsFirstRace history.now race.word race.first race.second) }
    ensures none { IfOk result (λ found. (found ≡ None) ↔ HasNoRace history.now) }
{
    // `rows` says that the history is numbered, on which all laws of the serial order stand.
    let _ = history.rows();
    let mut memory = ShadowMemory::new(alloc);
    for place in history.order() {
        if let Some(second) = memory.pass(history, *place)? {
            return Ok(race_with(history, second));
        }
    }
    Ok(None)
}

/// The race of an access with the serially least place that races with it.
fn race_with(history: &History, second: Access) -> Option<Race>
    requires numbered { IsNumbered history.now }
    requires access { IsAccessOf history.now second.place second }
    ensures some { IfSome result (λ race. (race.second ≡ second.place) × (race.word ≡ second.word) × IsLeastRacing history.now second.word race.first second.place) }
    ensures none { result ≡ None → (x : Place) → IsRace history.now second.word x second.place → ⊥ }
{
    for first in history.order() {
        if second.races_at(history, *first) {
            return Some(Race {
                first: *first,
                second: second.place,
                word: second.word,
            });
        }
    }
    None
}
