ghost use Rattle.cilk_checker.specs.declared.refusal.CheckRefusal.TheVariants.{Memory};
ghost use Rattle.std.specs.Prelude.{◌≡◌};

use cilk_tree::CheckPlace;
use std::alloc::{AllocError, AllocFailed};
use thiserror::Error;

/// Why a program was not accepted. `At` tells that it is not lawful: `kind` is the number of a rule that it breaks, and
/// `place` shows where. The numbers are 201 for a name that is declared again, 202 for one that is none in scope, 203 for
/// one that stands for the wrong kind of thing, 204 for a wrong number of arguments, 205 for the value of a `void`
/// function, 206 for a spawn or sync in a plain function, 207 for a plain call of a `cilk` procedure, 208 for a spawn of
/// a plain function, 209 for a spawn's target that is used before a sync, 210 for want of a `main` without parameters
/// and 211 for too many words.
#[derive(Clone, Copy, Debug, PartialEq, Eq, Error)]
pub enum CheckRefusal {
    #[error("{kind}")]
    At { kind: u16, place: CheckPlace },
    #[error("out of memory")]
    Memory,
}

impl From<AllocError> for CheckRefusal {
    ghost from_gives = { λ _ refusal. refusal ≡ Memory };

    fn from(_error: AllocError) -> Self {
        CheckRefusal::Memory
    }
}

impl<T: Drop> From<AllocFailed<T>> for CheckRefusal {
    ghost from_gives = { λ _ refusal. refusal ≡ Memory };

    fn from(_error: AllocFailed<T>) -> Self {
        CheckRefusal::Memory
    }
}
