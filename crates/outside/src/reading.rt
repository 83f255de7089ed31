ghost use Rattle.std.specs.Prelude.{◌≡◌, ℕ, ◌+◌, ◌<◌, ◌≤◌, List, [], ◌∷◌, ◌++◌, Err, Some, length, IfOk, IsErrOf, IfSome, IsSomeAnd};
ghost use Rattle.std.specs.FinMap as map;
ghost use Rattle.outside.specs.Device.{Rose};
ghost use Rattle.outside.specs.Shelf.{AreSome, Reads, joined};

use crate::Failed;
use crate::shelf::Shelf;
use std::alloc::{AllocError, Global};
use thiserror::Error;

/// Why a text was not read.
#[derive(Clone, Copy, Debug, PartialEq, Eq, Error)]
pub enum TextRefusal {
    /// A call on the shelf failed.
    #[error("the shelf failed")]
    Fault,
    /// The text has more bytes than the limit.
    #[error("the text is too long")]
    TooLong,
    #[error("out of memory")]
    Memory,
}

/// How many bytes a call on the shelf asks for.
const PIECE: usize = 4096;

/// The whole named text, which has at most `limit` bytes. It asks for pieces of 4,096 bytes, the first from
/// place 0 and each later one from the place reached, until a call gives none or the limit is passed.
pub fn read_text<L: Shelf>(
    alloc: Global,
    shelf: &mut L,
    name: &str,
    limit: u64,
) -> Result<Vec<u8>, TextRefusal>
    ensures texts { L.texts shelf.new ≡ L.texts shelf.old }
    ensures faults { (other : List ℕ) → L.faults shelf.old other ≤ L.faults shelf.new other }

    // The answer is the told text.
    ensures whole { IfOk result (λ text. IfSome (L.texts shelf.old) (λ held. map.get held name.now ≡ Some text.items)) }
    ensures within { IfOk result (λ text. length text.items ≤ limit) }
    ensures too_long { result ≡ Err TextRefusal.TooLong → IfSome (L.texts shelf.old) (λ held.
        IsSomeAnd (map.get held name.now) (λ text. limit < length text)) }
    ensures fault { result ≡ Err TextRefusal.Fault → Rose (L.faults shelf.old name.now) (L.faults shelf.new name.now) }

    // The calls, at most limit + 2 of them, and what they gave: each but the last of Ok gave bytes, and none was made
    // once the limit was passed. Memory is told only of bytes within the limit.
    ensures whole_calls { IfOk result (λ text. (pieces : List (List ℕ)) × (text.items ≡ joined pieces) × AreSome pieces
        × (length pieces ≤ limit) × Reads L.gave name.now shelf.old 0 (pieces ++ [] ∷ []) shelf.new) }
    ensures too_long_calls { result ≡ Err TextRefusal.TooLong → ((pieces : List (List ℕ)) × (last : List ℕ) × AreSome (pieces ++ last ∷ [])
        × (length (joined pieces) ≤ limit) × (limit < length (joined (pieces ++ last ∷ []))) × (length pieces ≤ limit)
        × Reads L.gave name.now shelf.old 0 (pieces ++ last ∷ []) shelf.new) }
    ensures fault_calls { result ≡ Err TextRefusal.Fault → ((pieces : List (List ℕ)) × (last : L) × AreSome pieces
        × (length (joined pieces) ≤ limit) × (length pieces ≤ limit)
        × Reads L.gave name.now shelf.old 0 pieces last × L.failed last name.now (length (joined pieces)) 4096 shelf.new) }
    ensures memory_calls { result ≡ Err TextRefusal.Memory → ((pieces : List (List ℕ)) × (last : List ℕ) × AreSome (pieces ++ last ∷ [])
        × (length (joined (pieces ++ last ∷ [])) ≤ limit) × (length pieces ≤ limit)
        × Reads L.gave name.now shelf.old 0 (pieces ++ last ∷ []) shelf.new) }
{
    let mut text = Vec::new(alloc);
    let mut piece = [0; PIECE];
    loop {
        let reached = text.len() as u64;
        let count = match shelf.read_at(name, reached, &mut piece) {
            Ok(count) => count,
            Err(Failed) => return Err(TextRefusal::Fault),
        };
        if count == 0 {
            return Ok(text);
        }
        // before memory is asked for, so that a text that is too long is never refused for want of it
        if count as u64 > limit - reached {
            return Err(TextRefusal::TooLong);
        }
        if text.extend_from_slice(&piece[..count]).is_err() {
            return Err(TextRefusal::Memory);
        }
    }
}
