ghost use Rattle.std.specs.Prelude.{◌≡◌, ◌<◌, ◌≤◌, ◌+◌, length, slice_get, Some, pos};
ghost use Rattle.machine_code.specs.Valid.{IsValid, words_in};

use crate::instr::Instr;
use outside::Words;
use std::marker::Model;

/// A procedure of a code: whether it is a `cilk` procedure, where its instructions start, how many parameters it has, how many
/// parameters and locals, and how many operands it has at once at most.
#[derive(Clone, Copy, Debug, PartialEq, Eq)]
pub struct Proc {
    pub cilk: bool,
    pub start: u32,
    pub params: u32,
    pub locals: u32,
    pub operands: u32,
}

/// Where an array lies among the shared words: its first word, and how many it has.
#[derive(Clone, Copy, Debug, PartialEq, Eq)]
pub struct Extent {
    pub base: u32,
    pub words: u32,
}

/// The code of a program, and the numbers with which some of its shared words start: those from `input_base` on. Every code is
/// well formed (`IsValid`), so no step of it is stuck and none leaves its procedure but by a call or a return.
#[derive(Debug, Drop)]
pub struct Code {
    pub procs: Vec<Proc>,
    pub instrs: Vec<Instr>,
    pub shared: Vec<Extent>,
    pub main: u32,
    pub input_base: u32,
    pub input: Words,
}

impl Model for Code {
    ghost use Rattle.machine_code.specs.Machine.{Code};
    ghost use Rattle.machine_code.specs.Valid.{IsValid, extents};

    ghost Value = { Code };

    ghost view = { λ code. record { procs = code.procs.items; instrs = code.instrs.items; shared = extents code.shared.items; main = code.main; input_base = code.input_base; input = code.input } };

    ghost invariant = { λ code. IsValid (record { procs = code.procs.items; instrs = code.instrs.items; shared = extents code.shared.items; main = code.main; input_base = code.input_base; input = code.input }) };
}

impl Code {
    /// How many shared words there are. The arrays lie one behind another from word 0 on.
    pub fn words(&self) -> u32
        ensures { result ≡ words_in self.now.shared }
    {
        match self.shared.last() {
            Some(extent) => extent.base + extent.words,
            None => 0,
        }
    }

    /// Lets the shared words from `base` on start with these numbers, and all others with 0.
    pub fn set_input(&mut self, base: u32, numbers: Words)
        requires inside { base + length numbers ≤ words_in self.old.shared }
        ensures { self.new ≡ record self.old { input_base = base; input = numbers } }
    {
        self.input_base = base;
        self.input = numbers;
    }

    /// The procedure of this number.
    pub fn proc(&self, number: u32) -> Proc
        requires { number < length self.now.procs }
        ensures valid { IsValid self.now }
        ensures proc { slice_get self.now.procs number ≡ Some result }
    {
        self.procs[number as usize]
    }

    /// The instruction at this place.
    pub fn instr(&self, at: u32) -> Instr
        requires { at < length self.now.instrs }
        ensures { slice_get self.now.instrs at ≡ Some result }
    {
        self.instrs[at as usize]
    }
}
