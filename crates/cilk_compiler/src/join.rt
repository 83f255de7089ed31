ghost use Rattle.cilk_compiler.specs.Emitting.{with_instrs};
ghost use Rattle.cilk_compiler.specs.Joins.{IsWithin, join_of, joined, opened};
ghost use Rattle.compiled_code.specs.Emitted.{unary_instr};
ghost use Rattle.std.specs.Prelude.{◌≡◌, ◌<◌, length, IfOk, OnOk};

use crate::emitter::Emitter;
use cilk_tree::{BinaryOp, UnaryOp};
use machine_code::Instr;
use std::alloc::AllocError;

/// What comes behind the right operand: an instruction, or for `&&` and `||` the end of the jump at this place, which passes
/// over that operand.
#[derive(Clone, Copy)]
pub(crate) enum Join {
    Operate(Instr),
    And(u32),
    Or(u32),
}

/// The instruction of an operator before its operand.
pub(crate) fn unary_instr(operator: UnaryOp) -> Instr
    ensures { result ≡ unary_instr operator }
{
    match operator {
        UnaryOp::Neg => Instr::Neg,
        UnaryOp::Not => Instr::Not,
    }
}

impl<'s, 'a> Emitter<'s, 'a> {
    /// Adds what stands between the operands, and tells what comes behind the right one.
    pub(crate) fn open(&mut self, operator: BinaryOp) -> Result<Join, AllocError>
        ensures code { OnOk result (self.new ≡ with_instrs (opened operator self.old.instrs) self.old) }
        ensures join { IfOk result (λ join. join ≡ join_of operator (length self.old.instrs)) }
    {
        match operator {
            BinaryOp::And => self.open_and(),
            BinaryOp::Or => self.open_or(),
            BinaryOp::Eq => Ok(Join::Operate(Instr::Eq)),
            BinaryOp::Ne => Ok(Join::Operate(Instr::Ne)),
            BinaryOp::Lt => Ok(Join::Operate(Instr::Lt)),
            BinaryOp::Le => Ok(Join::Operate(Instr::Le)),
            BinaryOp::Gt => Ok(Join::Operate(Instr::Gt)),
            BinaryOp::Ge => Ok(Join::Operate(Instr::Ge)),
            BinaryOp::Add => Ok(Join::Operate(Instr::Add)),
            BinaryOp::Sub => Ok(Join::Operate(Instr::Sub)),
            BinaryOp::Mul => Ok(Join::Operate(Instr::Mul)),
            BinaryOp::Div => Ok(Join::Operate(Instr::Div)),
            BinaryOp::Rem => Ok(Join::Operate(Instr::Rem)),
        }
    }

    /// Where the left operand is 0 the right one is passed over.
    fn open_and(&mut self) -> Result<Join, AllocError>
        ensures code { OnOk result (self.new ≡ with_instrs (opened BinaryOp.And self.old.instrs) self.old) }
        ensures join { IfOk result (λ join. join ≡ Join.And (length self.old.instrs)) }
    {
        let jump = self.instrs.end();
        self.push(Instr::JumpIfZero(0))?;
        Ok(Join::And(jump))
    }

    /// Where the left operand is not 0 the value is 1, and the right one is passed over.
    fn open_or(&mut self) -> Result<Join, AllocError>
        ensures code { OnOk result (self.new ≡ with_instrs (opened BinaryOp.Or self.old.instrs) self.old) }
        ensures join { IfOk result (λ join. join ≡ join_of BinaryOp.Or (length self.old.instrs)) }
    {
        let jump = self.instrs.ahead(2)?;
        let other = self.instrs.ahead(3)?;
        self.instrs.extend(&[Instr::JumpIfZero(other), Instr::Const(1), Instr::Jump(0)])?;
        Ok(Join::Or(jump))
    }

    /// Adds what comes behind the right operand.
    pub(crate) fn close(&mut self, join: Join) -> Result<(), AllocError>
        requires { IsWithin join (length self.old.instrs) }
        ensures { OnOk result (self.new ≡ with_instrs (joined join self.old.instrs) self.old) }
    {
        match join {
            Join::Operate(instr) => self.push(instr),
            Join::And(jump) => self.close_and(jump),
            Join::Or(jump) => self.close_or(jump),
        }
    }

    /// The value is 1 where the right operand is not 0, and 0 else, and 0 where it was passed over.
    fn close_and(&mut self, jump: u32) -> Result<(), AllocError>
        requires { jump < length self.old.instrs }
        ensures { OnOk result (self.new ≡ with_instrs (joined (Join.And jump) self.old.instrs) self.old) }
    {
        let zero = self.instrs.ahead(3)?;
        let end = self.instrs.ahead(4)?;
        self.instrs.extend(&[Instr::Not, Instr::Not, Instr::Jump(end), Instr::Const(0)])?;
        self.instrs.set(jump, Instr::JumpIfZero(zero));
        Ok(())
    }

    /// The value is 1 where the right operand is not 0, and 0 else.
    fn close_or(&mut self, jump: u32) -> Result<(), AllocError>
        requires { jump < length self.old.instrs }
        ensures { OnOk result (self.new ≡ with_instrs (joined (Join.Or jump) self.old.instrs) self.old) }
    {
        let end = self.instrs.ahead(2)?;
        self.instrs.extend(&[Instr::Not, Instr::Not])?;
        self.instrs.set(jump, Instr::Jump(end));
        Ok(())
    }
}
