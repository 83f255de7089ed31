ghost use Rattle.std.specs.Prelude.{◌≡◌, ◌+◌, ◌-◌, ◌<◌, ◌≤◌, [], ◌∷◌, length, slice_get, take, drop, reverse, IfOk};

use std::alloc::{AllocError, Global};
use std::marker::Model;

/// The operands of a function, with room for a fixed number. Contracts see them, the top first, and the room.
#[derive(Debug, Drop)]
pub struct Operands {
    values: Vec<i64>,
    room: usize,
}

impl Model for Operands {
    ghost use Rattle.std.specs.Prelude.{◌≤◌, reverse, vec_len, vec_capacity};
    ghost use Rattle.plain_machine.specs.Stack.{Stack};

    ghost Value = { Stack };

    ghost view = { λ s. record { values = reverse s.values.items; room = s.room } };

    ghost invariant = { λ s. (vec_len s.values ≤ s.room) × (s.room ≤ vec_capacity s.values) };
}

impl Operands {
    /// No operands, and memory for so many.
    pub fn new(alloc: Global, room: usize) -> Result<Self, AllocError>
        ensures { IfOk result (λ s. s ≡ record { values = []; room = room }) }
    {
        let values = Vec::with_capacity(alloc, room)?;
        Ok(Operands { values, room })
    }

    /// Takes the top `taken` operands off.
    pub fn take_off(&mut self, taken: usize)
        requires { taken ≤ length self.old.values }
        ensures { self.new ≡ record self.old { values = drop taken self.old.values } }
    {
        self.values.truncate(self.values.len() - taken);
    }

    /// Puts a value on top.
    pub fn push(&mut self, value: i64)
        requires { length self.old.values < self.old.room }
        ensures { self.new ≡ record self.old { values = value ∷ self.old.values } }
    {
        let pushed = self.values.push(value);
        prove!(pushed.is_ok());
        drop(pushed);
    }

    /// The operand that lies under `above` others.
    pub fn top(&self, above: usize) -> i64
        requires { above < length self.now.values }
        ensures { slice_get self.now.values above ≡ Some result }
    {
        self.values[self.values.len() - 1 - above]
    }

    /// The top `count` operands, the top last.
    pub fn last(&self, count: usize) -> &[i64]
        requires { count ≤ length self.now.values }
        ensures { result.now ≡ reverse (take count self.now.values) }
    {
        &self.values[self.values.len() - count..]
    }
}
