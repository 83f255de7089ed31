//! A code with a procedure for each row.
use machine_code::{Code, Extent, Instr, Proc};
use outside::Words;
use std::alloc::{AllocError, Global};

pub(crate) const ADD: u32 = 1;

pub(crate) const SUB: u32 = 2;

pub(crate) const MUL: u32 = 3;

pub(crate) const DIV: u32 = 4;

pub(crate) const REM: u32 = 5;

pub(crate) const EQ: u32 = 6;

pub(crate) const NE: u32 = 7;

pub(crate) const LT: u32 = 8;

pub(crate) const LE: u32 = 9;

pub(crate) const GT: u32 = 10;

pub(crate) const GE: u32 = 11;

pub(crate) const NEG: u32 = 12;

pub(crate) const NOT: u32 = 13;

pub(crate) const READ_FIRST: u32 = 14;

pub(crate) const READ: u32 = 15;

pub(crate) const WRITE: u32 = 16;

pub(crate) const FETCH_ADD: u32 = 17;

pub(crate) const WRITE_QUOTIENT: u32 = 18;

pub(crate) const AND_QUOTIENT: u32 = 19;

pub(crate) const COUNT_DOWN: u32 = 20;

pub(crate) const ADD_TO_CALL: u32 = 21;

pub(crate) const CALL_OF_QUOTIENT: u32 = 22;

pub(crate) const DESCEND: u32 = 23;

pub(crate) const POP: u32 = 24;

pub(crate) const STORE: u32 = 25;

pub(crate) const SPAWN: u32 = 26;

pub(crate) const PRINT: u32 = 27;

pub(crate) const CHILD: u32 = 28;

pub(crate) const SPAWN_ALONE: u32 = 29;

static PROCS: [Proc; 30] = [
    // MAIN
    Proc {
        cilk: false,
        start: 0,
        params: 0,
        locals: 0,
        operands: 1,
    },
    // ADD
    Proc {
        cilk: false,
        start: 2,
        params: 2,
        locals: 2,
        operands: 2,
    },
    // SUB
    Proc {
        cilk: false,
        start: 6,
        params: 2,
        locals: 2,
        operands: 2,
    },
    // MUL
    Proc {
        cilk: false,
        start: 10,
        params: 2,
        locals: 2,
        operands: 2,
    },
    // DIV
    Proc {
        cilk: false,
        start: 14,
        params: 2,
        locals: 2,
        operands: 2,
    },
    // REM
    Proc {
        cilk: false,
        start: 18,
        params: 2,
        locals: 2,
        operands: 2,
    },
    // EQ
    Proc {
        cilk: false,
        start: 22,
        params: 2,
        locals: 2,
        operands: 2,
    },
    // NE
    Proc {
        cilk: false,
        start: 26,
        params: 2,
        locals: 2,
        operands: 2,
    },
    // LT
    Proc {
        cilk: false,
        start: 30,
        params: 2,
        locals: 2,
        operands: 2,
    },
    // LE
    Proc {
        cilk: false,
        start: 34,
        params: 2,
        locals: 2,
        operands: 2,
    },
    // GT
    Proc {
        cilk: false,
        start: 38,
        params: 2,
        locals: 2,
        operands: 2,
    },
    // GE
    Proc {
        cilk: false,
        start: 42,
        params: 2,
        locals: 2,
        operands: 2,
    },
    // NEG
    Proc {
        cilk: false,
        start: 46,
        params: 1,
        locals: 1,
        operands: 1,
    },
    // NOT
    Proc {
        cilk: false,
        start: 49,
        params: 1,
        locals: 1,
        operands: 1,
    },
    // READ_FIRST
    Proc {
        cilk: false,
        start: 52,
        params: 1,
        locals: 1,
        operands: 1,
    },
    // READ
    Proc {
        cilk: false,
        start: 55,
        params: 1,
        locals: 1,
        operands: 1,
    },
    // WRITE
    Proc {
        cilk: false,
        start: 58,
        params: 2,
        locals: 2,
        operands: 2,
    },
    // FETCH_ADD
    Proc {
        cilk: false,
        start: 63,
        params: 2,
        locals: 2,
        operands: 2,
    },
    // WRITE_QUOTIENT
    Proc {
        cilk: false,
        start: 67,
        params: 2,
        locals: 2,
        operands: 3,
    },
    // AND_QUOTIENT
    Proc {
        cilk: false,
        start: 74,
        params: 2,
        locals: 2,
        operands: 2,
    },
    // COUNT_DOWN
    Proc {
        cilk: false,
        start: 82,
        params: 1,
        locals: 1,
        operands: 2,
    },
    // ADD_TO_CALL
    Proc {
        cilk: false,
        start: 94,
        params: 2,
        locals: 2,
        operands: 3,
    },
    // CALL_OF_QUOTIENT
    Proc {
        cilk: false,
        start: 102,
        params: 2,
        locals: 2,
        operands: 2,
    },
    // DESCEND
    Proc {
        cilk: false,
        start: 108,
        params: 0,
        locals: 0,
        operands: 1,
    },
    // POP
    Proc {
        cilk: false,
        start: 110,
        params: 2,
        locals: 2,
        operands: 2,
    },
    // STORE
    Proc {
        cilk: false,
        start: 114,
        params: 2,
        locals: 3,
        operands: 2,
    },
    // SPAWN
    Proc {
        cilk: true,
        start: 122,
        params: 0,
        locals: 1,
        operands: 2,
    },
    // PRINT
    Proc {
        cilk: false,
        start: 132,
        params: 0,
        locals: 1,
        operands: 1,
    },
    // CHILD
    Proc {
        cilk: true,
        start: 136,
        params: 2,
        locals: 2,
        operands: 2,
    },
    // SPAWN_ALONE
    Proc {
        cilk: true,
        start: 140,
        params: 2,
        locals: 2,
        operands: 2,
    },
];

static INSTRS: [Instr; 148] = [
    // MAIN
    Instr::Const(0),
    Instr::Return,
    // ADD
    Instr::Load(0),
    Instr::Load(1),
    Instr::Add,
    Instr::Return,
    // SUB
    Instr::Load(0),
    Instr::Load(1),
    Instr::Sub,
    Instr::Return,
    // MUL
    Instr::Load(0),
    Instr::Load(1),
    Instr::Mul,
    Instr::Return,
    // DIV
    Instr::Load(0),
    Instr::Load(1),
    Instr::Div,
    Instr::Return,
    // REM
    Instr::Load(0),
    Instr::Load(1),
    Instr::Rem,
    Instr::Return,
    // EQ
    Instr::Load(0),
    Instr::Load(1),
    Instr::Eq,
    Instr::Return,
    // NE
    Instr::Load(0),
    Instr::Load(1),
    Instr::Ne,
    Instr::Return,
    // LT
    Instr::Load(0),
    Instr::Load(1),
    Instr::Lt,
    Instr::Return,
    // LE
    Instr::Load(0),
    Instr::Load(1),
    Instr::Le,
    Instr::Return,
    // GT
    Instr::Load(0),
    Instr::Load(1),
    Instr::Gt,
    Instr::Return,
    // GE
    Instr::Load(0),
    Instr::Load(1),
    Instr::Ge,
    Instr::Return,
    // NEG
    Instr::Load(0),
    Instr::Neg,
    Instr::Return,
    // NOT
    Instr::Load(0),
    Instr::Not,
    Instr::Return,
    // READ_FIRST
    Instr::Load(0),
    Instr::ReadShared(0),
    Instr::Return,
    // READ
    Instr::Load(0),
    Instr::ReadShared(1),
    Instr::Return,
    // WRITE
    Instr::Load(0),
    Instr::Load(1),
    Instr::WriteShared(1),
    Instr::Const(3),
    Instr::Return,
    // FETCH_ADD
    Instr::Load(0),
    Instr::Load(1),
    Instr::AddShared(1),
    Instr::Return,
    // WRITE_QUOTIENT
    Instr::Load(0),
    Instr::Const(6),
    Instr::Load(1),
    Instr::Div,
    Instr::WriteShared(1),
    Instr::Const(0),
    Instr::Return,
    // AND_QUOTIENT
    Instr::Load(0),
    Instr::JumpIfZero(80),
    Instr::Const(6),
    Instr::Load(1),
    Instr::Div,
    Instr::Return,
    Instr::Const(0),
    Instr::Return,
    // COUNT_DOWN
    Instr::Turn,
    Instr::Load(0),
    Instr::JumpIfZero(92),
    Instr::Load(0),
    Instr::PrintTop,
    Instr::Load(0),
    Instr::Const(1),
    Instr::Sub,
    Instr::Store(0),
    Instr::Jump(82),
    Instr::Const(7),
    Instr::Return,
    // ADD_TO_CALL
    Instr::Const(100),
    Instr::Load(0),
    Instr::Load(1),
    Instr::Call(SUB),
    Instr::Add,
    Instr::PrintTop,
    Instr::Const(0),
    Instr::Return,
    // CALL_OF_QUOTIENT
    Instr::Load(0),
    Instr::Load(1),
    Instr::Div,
    Instr::Const(1),
    Instr::Call(SUB),
    Instr::Return,
    // DESCEND
    Instr::Call(DESCEND),
    Instr::Return,
    // POP
    Instr::Load(0),
    Instr::Load(1),
    Instr::Pop,
    Instr::Return,
    // STORE
    Instr::Load(0),
    Instr::Store(2),
    Instr::Load(1),
    Instr::Store(0),
    Instr::Load(2),
    Instr::Load(0),
    Instr::Sub,
    Instr::Return,
    // SPAWN
    Instr::Const(7),
    Instr::Const(8),
    Instr::Spawn(CHILD, Some(0)),
    Instr::Call(PRINT),
    Instr::Pop,
    Instr::SyncAll,
    Instr::Load(0),
    Instr::PrintTop,
    Instr::Const(0),
    Instr::Return,
    // PRINT
    Instr::Load(0),
    Instr::PrintTop,
    Instr::Const(0),
    Instr::Return,
    // CHILD
    Instr::Load(0),
    Instr::Load(1),
    Instr::Sub,
    Instr::Return,
    // SPAWN_ALONE
    Instr::Load(0),
    Instr::Load(1),
    Instr::Spawn(CHILD, None),
    Instr::SyncAll,
    Instr::Load(0),
    Instr::Load(1),
    Instr::Div,
    Instr::Return,
];

// Array 0 has the words 0 and 1, and array 1 the words 2, 3 and 4.
static SHARED: [Extent; 2] = [Extent { base: 0, words: 2 }, Extent { base: 2, words: 3 }];

pub(crate) fn code(alloc: Global) -> Result<Code, AllocError> {
    Ok(Code {
        procs: Vec::from_slice(alloc, &PROCS)?,
        instrs: Vec::from_slice(alloc, &INSTRS)?,
        shared: Vec::from_slice(alloc, &SHARED)?,
        main: 0,
        input_base: 0,
        input: Words::new(alloc),
    })
}
