ghost use Rattle.std.specs.Prelude.{◌≡◌, ◌+◌, ◌<◌, ◌^◌, [], ◌∷◌, ◌++◌, length, slice_set, IfOk, OnOk};

use machine_code::Instr;
use std::alloc::{AllocError, Global};
use std::marker::Model;

/// The instructions so far, of which there are fewer than 2^32. Contracts see the list.
#[derive(Drop)]
pub(crate) struct Instrs {
    items: Vec<Instr>,
}

impl Model for Instrs {
    ghost use Rattle.std.specs.Prelude.{List, length, ◌<◌, ◌^◌};
    ghost use Rattle.machine_code.specs.declared.instr.Instr.{Instr};

    ghost Value = { List Instr };

    ghost view = { λ instrs. instrs.items.items };

    ghost invariant = { λ instrs. length instrs.items.items < 2 ^ 32 };
}

impl Instrs {
    pub(crate) fn new(alloc: Global) -> Self
        ensures { result ≡ [] }
    {
        Instrs {
            items: Vec::new(alloc),
        }
    }

    /// The place of the next instruction.
    pub(crate) fn end(&self) -> u32
        ensures { result ≡ length self.now }
    {
        self.items.len() as u32
    }

    /// The place that has so many others between it and those so far. A place past the numbers of 32 bits is in no code.
    pub(crate) fn ahead(&self, count: u32) -> Result<u32, AllocError>
        ensures { IfOk result (λ place. place ≡ length self.now + count) }
    {
        self.end().checked_add(count).ok_or(AllocError)
    }

    /// Adds an instruction, if there is memory and a number for its place.
    pub(crate) fn push(&mut self, instr: Instr) -> Result<(), AllocError>
        ensures { OnOk result (self.new ≡ self.old ++ instr ∷ []) }
    {
        if self.items.len() >= u32::MAX as usize {
            return Err(AllocError);
        }
        self.items.push(instr)?;
        Ok(())
    }

    /// Adds some instructions, in the same way.
    pub(crate) fn extend(&mut self, more: &[Instr]) -> Result<(), AllocError>
        ensures { OnOk result (self.new ≡ self.old ++ more.now) }
    {
        if more.len() > u32::MAX as usize - self.items.len() {
            return Err(AllocError);
        }
        self.items.extend_from_slice(more)
    }

    /// Puts another instruction in the place of one.
    pub(crate) fn set(&mut self, at: u32, instr: Instr)
        requires { at < length self.old }
        ensures { self.new ≡ slice_set self.old at instr }
    {
        self.items[at as usize] = instr;
    }

    /// The list itself.
    pub(crate) fn into_vec(self) -> Vec<Instr>
        ensures items { result.items ≡ self }
        ensures few { length self < 2 ^ 32 }
    {
        self.items
    }
}
