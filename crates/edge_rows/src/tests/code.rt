//! A code with a procedure that prints its two locals.
use machine_code::{Code, Instr, Proc};
use outside::Words;
use std::alloc::{AllocError, Global};

pub(crate) const SHOW: u32 = 1;

static PROCS: [Proc; 2] = [
    // MAIN
    Proc {
        cilk: false,
        start: 0,
        params: 0,
        locals: 0,
        operands: 1,
    },
    // SHOW
    Proc {
        cilk: true,
        start: 2,
        params: 2,
        locals: 2,
        operands: 1,
    },
];

static INSTRS: [Instr; 8] = [
    // MAIN
    Instr::Const(0),
    Instr::Return,
    // SHOW
    Instr::Load(0),
    Instr::PrintTop,
    Instr::Load(1),
    Instr::PrintTop,
    Instr::Const(0),
    Instr::Return,
];

pub(crate) fn code(alloc: Global) -> Result<Code, AllocError> {
    Ok(Code {
        procs: Vec::from_slice(alloc, &PROCS)?,
        instrs: Vec::from_slice(alloc, &INSTRS)?,
        shared: Vec::new(alloc),
        main: 0,
        input_base: 0,
        input: Words::new(alloc),
    })
}
