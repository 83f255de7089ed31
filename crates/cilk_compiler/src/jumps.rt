ghost use Rattle.cilk_compiler.specs.Emitting.{expr_in, valued};
ghost use Rattle.cilk_compiler.specs.Jumps.{forked, met, parted, turned};
ghost use Rattle.std.specs.Prelude.{◌≡◌, ◌<◌, length, IfOk, OnOk};

use crate::emitter::Emitter;
use cilk_tree::Expr;
use machine_code::Instr;
use std::alloc::AllocError;

impl<'s, 'a> Emitter<'s, 'a> {
    /// Adds a condition and a jump that is made where it is 0. Where that leads is not known yet; its place is the answer.
    pub(crate) fn fork(&mut self, condition: &Expr) -> Result<u32, AllocError>
        ensures code { OnOk result (self.new ≡ forked (expr_in self.old condition.now) self.old) }
        ensures place { IfOk result (λ place. place ≡ length (valued (expr_in self.old condition.now) self.old).instrs) }
    {
        self.value(condition)?;
        let place = self.instrs.end();
        self.push(Instr::JumpIfZero(0))?;
        Ok(place)
    }

    /// Lets the jump of a condition lead to what comes next, and adds a jump over that, whose place is the answer.
    pub(crate) fn part(&mut self, fork: u32) -> Result<u32, AllocError>
        requires { fork < length self.old.instrs }
        ensures code { OnOk result (self.new ≡ parted fork self.old) }
        ensures place { IfOk result (λ place. place ≡ length self.old.instrs) }
    {
        let place = self.instrs.end();
        self.push(Instr::Jump(0))?;
        let other = self.instrs.end();
        self.instrs.set(fork, Instr::JumpIfZero(other));
        Ok(place)
    }

    /// Lets the jump at this place lead to what comes next.
    pub(crate) fn meet(&mut self, jump: u32)
        requires { jump < length self.old.instrs }
        ensures { self.new ≡ met jump self.old }
    {
        let here = self.instrs.end();
        self.instrs.set(jump, Instr::Jump(here));
    }

    /// Goes back to the start of a turn, and lets the jump of the condition lead behind that.
    pub(crate) fn turn_back(&mut self, start: u32, fork: u32) -> Result<(), AllocError>
        requires { fork < length self.old.instrs }
        ensures { OnOk result (self.new ≡ turned start fork self.old) }
    {
        self.push(Instr::Jump(start))?;
        let end = self.instrs.end();
        self.instrs.set(fork, Instr::JumpIfZero(end));
        Ok(())
    }
}
