ghost use Rattle.cilk_compiler.specs.Emitting.{functions_in};
ghost use Rattle.cilk_meaning.specs.Resolving.{resolved_function};
ghost use Rattle.compiled_code.specs.Emitted.{function_code, functions_code, proc_at, procs_at};
ghost use Rattle.std.specs.Prelude.{◌≡◌, ◌++◌, length, IfOk, OnOk};

use crate::emitter::Emitter;
use crate::globals::Globals;
use crate::instrs::Instrs;
use cilk_tree::Function;
use machine_code::{Instr, Proc};
use std::alloc::{AllocError, Global};

/// The procedures of the program's functions, and their code.
pub(crate) fn compile_functions(
    alloc: Global,
    globals: &Globals,
) -> Result<(Vec<Proc>, Instrs), AllocError>
    ensures procs { IfOk result (λ made. made.0.items ≡ procs_at 0 (functions_in globals.now)) }
    ensures instrs { IfOk result (λ made. made.1 ≡ functions_code 0 (functions_in globals.now)) }
{
    let mut emitter = Emitter::new(alloc, globals);
    let mut procs = Vec::new(alloc);
    for function in globals.program().functions.as_slice() {
        let proc = emitter.function(function)?;
        procs.push(proc)?;
    }
    Ok((procs, emitter.instrs))
}

impl<'s, 'a> Emitter<'s, 'a> {
    /// Adds the code of a function, and tells its procedure.
    fn function(&mut self, function: &'a Function) -> Result<Proc, AllocError>
        ensures proc { IfOk result (λ proc. proc ≡ proc_at (length self.old.instrs) (resolved_function self.old.globals.now function.now)) }
        ensures instrs { OnOk result (self.new.instrs ≡ self.old.instrs ++ function_code (length self.old.instrs) (resolved_function self.old.globals.now function.now)) }
        ensures globals { OnOk result (self.new.globals ≡ self.old.globals) }
    {
        let start = self.instrs.end();
        self.begin(function)?;
        let params = self.locals.next();
        self.statements(function.body.as_slice())?;
        self.sync()?;
        self.push(Instr::Const(0))?;
        self.push(Instr::Return)?;
        Ok(Proc {
            cilk: function.cilk,
            start,
            params,
            locals: self.locals.next(),
            operands: self.operands,
        })
    }
}
