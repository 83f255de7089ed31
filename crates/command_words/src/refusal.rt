ghost use Rattle.command_words.specs.declared.refusal.WordRefusal.TheVariants.{Memory};
ghost use Rattle.std.specs.Prelude.{◌≡◌};

use std::alloc::AllocError;
use thiserror::Error;

/// Why words were not read. `Words` tells that they are no command.
#[derive(Clone, Copy, Debug, PartialEq, Eq, Error)]
pub enum WordRefusal {
    #[error("the words are no command")]
    Words,
    #[error("out of memory")]
    Memory,
}

impl From<AllocError> for WordRefusal {
    ghost from_gives = { λ _ refusal. refusal ≡ Memory };

    fn from(_error: AllocError) -> Self {
        WordRefusal::Memory
    }
}
