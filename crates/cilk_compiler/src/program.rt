ghost use Rattle.cilk_meaning.specs.Resolving.{extents_from, resolved};
ghost use Rattle.compiled_code.specs.Emitted.{compiled};
ghost use Rattle.machine_code.specs.StandsFor.{StandsFor};
ghost use Rattle.machine_code.specs.Valid.{extents, words_in};
ghost use Rattle.std.specs.Prelude.{◌≡◌, ◌<◌, ◌^◌, IfOk};

use crate::functions::compile_functions;
use crate::globals::Globals;
use cilk_checker::Checked;
use cilk_tree::Shared;
use machine_code::{Code, Extent};
use outside::Words;
use std::alloc::{AllocError, Global};

/// The code of a lawful program, which wants what the program wants. It has no input: all shared words start with 0. The error is
/// want of memory, which a code of 2^32 instructions counts as; that of a text of a MiB is far from it.
pub fn compile(alloc: Global, checked: &Checked) -> Result<Code, AllocError>
    ensures compiled { IfOk result (λ code. code ≡ compiled (resolved checked.now)) }
    ensures stands { IfOk result (λ code. StandsFor code (resolved checked.now)) }
{
    let program = checked.program();
    let globals = Globals::new(alloc, program)?;
    let (procs, instrs) = compile_functions(alloc, &globals)?;
    let shared = lay_out(alloc, program.shared.as_slice())?;
    Ok(Code {
        procs,
        instrs: instrs.into_vec(),
        shared,
        main: globals.function(b"main"),
        input_base: 0,
        input: Words::new(alloc),
    })
}

/// Where the arrays lie, one behind another from word 0 on.
fn lay_out(alloc: Global, arrays: &[Shared]) -> Result<Vec<Extent>, AllocError>
    requires { words_in (extents_from 0 arrays.now) < 2 ^ 32 }
    ensures { IfOk result (λ shared. extents shared.items ≡ extents_from 0 arrays.now) }
{
    let mut shared = Vec::new(alloc);
    let mut base = 0;
    for array in arrays {
        let words = array.words as u32;
        shared.push(Extent { base, words })?;
        base += words;
    }
    Ok(shared)
}
