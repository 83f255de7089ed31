ghost use Rattle.std.specs.Prelude.{◌≡◌, ◌<◌, length, true, IsSome};
ghost use Rattle.machine_code.specs.Valid.{takes};
ghost use Rattle.plain_machine.specs.Stepping.{NamesProc};

use machine_code::{Code, Instr};

/// How many operands an instruction takes off.
pub fn operand_count(code: &Code, instr: Instr) -> usize
    requires { NamesProc code.now.procs instr }
    ensures { result ≡ takes code.now.procs instr }
{
    match instr {
        Instr::Const(_) | Instr::Load(_) | Instr::Jump(_) | Instr::Turn | Instr::SyncAll => 0,
        Instr::Store(_) | Instr::Pop | Instr::Neg | Instr::Not | Instr::JumpIfZero(_) => 1,
        Instr::ReadShared(_) | Instr::PrintTop | Instr::Return => 1,
        Instr::Add | Instr::Sub | Instr::Mul | Instr::Div | Instr::Rem => 2,
        Instr::Eq | Instr::Ne | Instr::Lt | Instr::Le | Instr::Gt | Instr::Ge => 2,
        Instr::WriteShared(_) | Instr::AddShared(_) => 2,
        Instr::Call(procedure) | Instr::Spawn(procedure, _) => code.proc(procedure).params as usize,
    }
}
