ghost use Rattle.std.specs.Prelude.{◌≡◌, suc, ◌<◌, ◌≤◌, ◌^◌, ◌∷◌, length, slice_get, slice_set, take, drop, reverse, IfOk, Some};
ghost use Rattle.cilk_meaning.specs.Locals.{local_at};
ghost use Rattle.machine_code.specs.Machine.{Activation, activation};
ghost use Rattle.plain_machine.specs.Stepping.{IsReady};

use crate::operands::Operands;
use machine_code::{Code, Instr, Proc};
use std::alloc::{AllocError, Global};
use std::marker::Model;

/// A function that runs, or waits for one that it called: the place of its next instruction, its locals and its operands.
#[derive(Debug, Drop)]
pub struct Running {
    pc: u32,
    locals: Vec<i64>,
    operands: Operands,
}

impl Model for Running {
    ghost use Rattle.machine_code.specs.Machine.{Activation};

    ghost Value = { Activation };

    ghost view = { λ r. record { pc = r.pc; locals = r.locals.items; operands = r.operands.values; room = r.operands.room } };
}

impl Running {
    /// The procedure at its start, with these arguments. It takes all memory that it needs.
    pub fn start(alloc: Global, proc: Proc, args: &[i64]) -> Result<Self, AllocError>
        requires args { length args.now ≡ proc.params }
        requires locals { proc.params ≤ proc.locals }
        ensures { IfOk result (λ r. r ≡ activation proc args.now) }
    {
        let mut locals = Vec::with_capacity(alloc, proc.locals as usize)?;
        locals.extend_from_slice(args)?;
        locals.resize(proc.locals as usize, 0)?;
        let operands = Operands::new(alloc, proc.operands as usize)?;
        Ok(Running {
            pc: proc.start,
            locals,
            operands,
        })
    }

    /// Its next instruction.
    pub fn instr(&self, code: &Code) -> Instr
        requires { self.now.pc < length code.now.instrs }
        ensures { slice_get code.now.instrs self.now.pc ≡ Some result }
    {
        code.instr(self.pc)
    }

    /// The value of a local.
    pub fn local(&self, local: u32) -> i64
        requires { local < length self.now.locals }
        ensures { result ≡ local_at self.now.locals local }
    {
        self.locals[local as usize]
    }

    /// The operand that lies under `above` others.
    pub fn top(&self, above: usize) -> i64
        requires { above < length self.now.operands }
        ensures { slice_get self.now.operands above ≡ Some result }
    {
        self.operands.top(above)
    }

    /// The top `count` operands, the top last.
    pub fn last(&self, count: usize) -> &[i64]
        requires { count ≤ length self.now.operands }
        ensures { result.now ≡ reverse (take count self.now.operands) }
    {
        self.operands.last(count)
    }

    /// Sets a local.
    pub fn set(&mut self, local: u32, value: i64)
        requires { local < length self.old.locals }
        ensures { self.new ≡ record self.old { locals = slice_set self.old.locals local value } }
    {
        self.locals[local as usize] = value;
    }

    /// Puts a value on top of the operands, and stays at its place.
    pub fn receive(&mut self, value: i64)
        requires { length self.old.operands < self.old.room }
        ensures { self.new ≡ record self.old { operands = value ∷ self.old.operands } }
    {
        self.operands.push(value);
    }

    /// Goes on at another place, without the top `taken` operands.
    pub fn jump(&mut self, to: u32, taken: usize)
        requires { taken ≤ length self.old.operands }
        ensures { self.new ≡ record self.old { pc = to; operands = drop taken self.old.operands } }
    {
        self.operands.take_off(taken);
        self.pc = to;
    }

    /// Goes on at the next place, without the top `taken` operands.
    pub fn pass(&mut self, taken: usize)
        requires { IsReady taken 0 self.old }
        ensures { self.new ≡ record self.old { pc = suc self.old.pc; operands = drop taken self.old.operands } }
    {
        self.operands.take_off(taken);
        self.pc += 1;
    }

    /// Goes on at the next place, with this value for the top `taken` operands.
    pub fn put(&mut self, taken: usize, value: i64)
        requires { IsReady taken 1 self.old }
        ensures { self.new ≡ record self.old { pc = suc self.old.pc; operands = value ∷ drop taken self.old.operands } }
    {
        self.operands.take_off(taken);
        self.operands.push(value);
        self.pc += 1;
    }

    /// Its next place.
    pub fn next(&self) -> u32
        requires { suc self.now.pc < 2 ^ 32 }
        ensures { result ≡ suc self.now.pc }
    {
        self.pc + 1
    }
}
