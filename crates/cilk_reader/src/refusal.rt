ghost use Rattle.cilk_reader.specs.Converted.{converted};
ghost use Rattle.cilk_reader.specs.declared.refusal.ReadRefusal.TheVariants.{Memory};
ghost use Rattle.std.specs.Prelude.{◌≡◌};

use cilk_parser::ParseRefusal;
use std::alloc::AllocError;
use thiserror::Error;

/// Why a text was not read.
#[derive(Clone, Copy, Debug, PartialEq, Eq, Error)]
pub enum ReadRefusal {
    /// The text spells no program. `kind` is 101 for a byte that begins no token, 102 for a run that begins with a
    /// digit and is no number, 103 for a token that no program has there or a text that ends too early, 104 for a
    /// level above 64 and 105 for a count above its limit; `offset` is that of the byte where this shows.
    #[error("{kind} at byte {offset}")]
    At { kind: u16, offset: u64 },
    #[error("out of memory")]
    Memory,
}

impl From<AllocError> for ReadRefusal {
    ghost from_gives = { λ _ refusal. refusal ≡ Memory };

    fn from(_error: AllocError) -> Self {
        ReadRefusal::Memory
    }
}

impl From<ParseRefusal> for ReadRefusal {
    ghost from_gives = { λ parsed refusal. refusal ≡ converted parsed };

    fn from(refusal: ParseRefusal) -> Self {
        match refusal {
            ParseRefusal::At(kind, offset) => ReadRefusal::At {
                kind: kind.number(),
                offset,
            },
            ParseRefusal::Memory => ReadRefusal::Memory,
        }
    }
}
