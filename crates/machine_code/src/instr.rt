/// One instruction. What it does to the operands is said with the top of them at the right.
#[derive(Clone, Copy, Debug, PartialEq, Eq)]
pub enum Instr {
    /// pushes a value
    Const(i64),
    /// pushes a local
    Load(u32),
    /// pops into a local
    Store(u32),
    /// drops the top
    Pop,
    /// `x y` become the exact sum, or the trap Overflow
    Add,
    Sub,
    Mul,
    /// the quotient rounded toward zero, or the trap DivideByZero or Overflow
    Div,
    /// the remainder with the sign of the dividend, or the trap DivideByZero
    Rem,
    Neg,
    /// 1 where the top is 0, else 0
    Not,
    Eq,
    Ne,
    Lt,
    Le,
    Gt,
    Ge,
    /// goes on at this instruction
    Jump(u32),
    /// pops, and where that is 0 goes on at this instruction
    JumpIfZero(u32),
    /// pops an index of this array; wants to read the word there, which is pushed
    ReadShared(u32),
    /// pops an index of this array and then a value above it; wants to write the value there
    WriteShared(u32),
    /// pops an index of this array and then an addend above it; wants to add there. The old value is pushed, and where the sum is
    /// no value the trap Overflow comes next
    AddShared(u32),
    /// pops and wants to print
    PrintTop,
    /// wants to make a test of a loop
    Turn,
    /// wants to call this plain function, whose first locals its operands become and whose value is pushed at its return
    Call(u32),
    /// wants to spawn this procedure, whose arguments its operands are, with a value for this local
    Spawn(u32, Option<u32>),
    /// wants to sync
    SyncAll,
    /// pops and gives that to the caller, or in the frame's own function returns it
    Return,
}
