ghost use Rattle.cilk_parser.specs.declared.refusal.ParseRefusal.TheVariants.{Memory};
ghost use Rattle.std.specs.Prelude.{◌≡◌};

use cilk_tree::Kind;
use std::alloc::{AllocError, AllocFailed};
use thiserror::Error;

/// Why tokens were not parsed: for this reason at this offset, or for want of memory.
#[derive(Clone, Copy, Debug, PartialEq, Eq, Error)]
pub enum ParseRefusal {
    #[error("refused at byte {1}")]
    At(Kind, u64),
    #[error("out of memory")]
    Memory,
}

impl From<AllocError> for ParseRefusal {
    ghost from_gives = { λ _ refusal. refusal ≡ Memory };

    fn from(_error: AllocError) -> Self {
        ParseRefusal::Memory
    }
}

impl<T: Drop> From<AllocFailed<T>> for ParseRefusal {
    ghost from_gives = { λ _ refusal. refusal ≡ Memory };

    fn from(_error: AllocFailed<T>) -> Self {
        ParseRefusal::Memory
    }
}
