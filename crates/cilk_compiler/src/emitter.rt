ghost use Rattle.cilk_compiler.specs.Emitting.{at_start, with_code, with_instr, needing};
ghost use Rattle.cilk_tree.specs.Lawful.Scope.{entry};
ghost use Rattle.std.specs.Prelude.{◌≡◌, [], OnOk};

use crate::globals::Globals;
use crate::instrs::Instrs;
use crate::locals::Locals;
use cilk_tree::Function;
use machine_code::Instr;
use std::alloc::{AllocError, Global};

/// The code so far, and the function whose code comes next: whether it is a `cilk` procedure, the point of its body, and how many
/// operands what is written of it has at once at most.
#[derive(Drop)]
pub(crate) struct Emitter<'s, 'a> {
    pub(crate) globals: &'s Globals<'a>,
    pub(crate) cilk: bool,
    pub(crate) locals: Locals<'a>,
    pub(crate) instrs: Instrs,
    pub(crate) operands: u32,
}

impl<'s, 'a> Emitter<'s, 'a> {
    /// No code yet.
    pub(crate) fn new(alloc: Global, globals: &'s Globals<'a>) -> Self
        ensures globals { result.globals.now ≡ globals.now }
        ensures instrs { result.instrs ≡ [] }
    {
        Emitter {
            globals,
            cilk: false,
            locals: Locals::new(alloc),
            instrs: Instrs::new(alloc),
            operands: 0,
        }
    }

    /// Begins a function, with its parameters in scope.
    pub(crate) fn begin(&mut self, function: &'a Function) -> Result<(), AllocError>
        ensures { OnOk result (self.new ≡ at_start function.now self.old) }
    {
        self.cilk = function.cilk;
        self.operands = 1;
        self.locals.restart();
        for parameter in function.params.as_slice() {
            self.locals.declare(parameter.items())?;
        }
        Ok(())
    }

    /// Adds an instruction.
    pub(crate) fn push(&mut self, instr: Instr) -> Result<(), AllocError>
        ensures { OnOk result (self.new ≡ with_instr instr self.old) }
    {
        self.instrs.push(instr)
    }

    /// Makes room for so many operands.
    pub(crate) fn need(&mut self, operands: u32)
        ensures { self.new ≡ needing operands self.old }
    {
        self.operands = self.operands.max(operands);
    }
}
