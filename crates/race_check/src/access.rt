ghost use Rattle.std.specs.Prelude.{◌≡◌, ◌↔◌, ℕ, false, IsTrue, MatchOption};
ghost use Rattle.span_tree.specs.Memory.{IsRace, is_access};
ghost use Rattle.race_check.specs.Access.{IsAccessOf};

use span_tree::{Act, History, Place};

/// An access of a shared word.
#[derive(Clone, Copy, Debug)]
pub(crate) struct Access {
    pub place: Place,
    pub word: u32,
    /// Whether it is a write or an add.
    pub changes: bool,
}

impl Access {
    /// The access at a place. None exactly where the act there is none.
    pub fn at(history: &History, place: Place) -> Option<Access>
        ensures { MatchOption result ((word : ℕ) → is_access history.now word place ≡ false) (IsAccessOf history.now place) }
    {
        match history.act(place)? {
            Act::Read { word, .. } => Some(Access {
                place,
                word,
                changes: false,
            }),
            Act::Write { word, .. } | Act::Add { word, .. } => Some(Access {
                place,
                word,
                changes: true,
            }),
            Act::Print { .. } | Act::Spawn { .. } | Act::Sync => None,
        }
    }

    /// Whether the act at a place races with this access.
    pub fn races_at(self, history: &History, place: Place) -> bool
        requires { IsAccessOf history.now self.place self }
        ensures { IsTrue result ↔ IsRace history.now self.word place self.place }
    {
        match Access::at(history, place) {
            Some(other) => {
                other.word == self.word
                    && (other.changes || self.changes)
                    && history.parallel(place, self.place)
            }
            None => false,
        }
    }
}
