ghost use Rattle.std.specs.Prelude.{◌≡◌, ℕ, ◌≤◌, ◌++◌, List, Option, Some, take, OnOk, OnErr, IfSome};
ghost use Rattle.outside.specs.Device.{Rose};

use crate::Failed;

/// Takes bytes, piece after piece. What a sink holds and how often it has failed are meanings for
/// contracts alone; a sink over a device does not tell what it holds.
pub trait Sink {
    /// All bytes that were put, where the sink tells them.
    ghost held: { Self → Option (List ℕ) };

    /// How often a put has failed. The count never falls, and stands still at the end of `u64`.
    ghost faults: { Self → ℕ };

    /// What a put that succeeded did: the sink before it, the piece, and the sink after it. A sink may keep
    /// no trace of its puts.
    ghost took: { Self → List ℕ → Self → Type 0 } = { λ _ _ _. Unit {0} };

    /// What a put that failed did: the sink before it, the piece, and the sink after it.
    ghost failed: { Self → List ℕ → Self → Type 0 } = { λ _ _ _. Unit {0} };

    /// Puts the piece behind what is held. After a failure a front part of the piece may have been kept.
    fn put(&mut self, piece: &[u8]) -> Result<(), Failed>
        ensures faults { faults self.old ≤ faults self.new }
        ensures cause { OnErr result (Rose (faults self.old) (faults self.new)) }
        ensures whole { OnOk result (IfSome (held self.old) (λ before. held self.new ≡ Some (before ++ piece.now))) }
        ensures part { OnErr result (IfSome (held self.old) (λ before.
            (kept : ℕ) × (held self.new ≡ Some (before ++ take kept piece.now)))) }
        ensures took { OnOk result (took self.old piece.now self.new) }
        ensures failed { OnErr result (failed self.old piece.now self.new) };
}
