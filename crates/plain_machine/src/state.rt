ghost use Rattle.std.specs.Prelude.{◌≡◌, drop, ℕ, ℤ, suc, ◌<◌, ◌≤◌, ◌^◌, List, [], ◌∷◌, length, slice_get, slice_set, IfOk, OnOk, OnErr, Some};
ghost use Rattle.cilk_meaning.specs.Locals.{local_at, extent_of};
ghost use Rattle.cilk_meaning.specs.Serve.{now};
ghost use Rattle.cilk_meaning.specs.Values.{is_zero, word_of};
ghost use Rattle.cilk_meaning.specs.Wants.{Deposit};
ghost use Rattle.machine_code.specs.Early.{with_values};
ghost use Rattle.machine_code.specs.Machine.{Code, GoesOn, act, added, arguments_on, binary, called, look, moved, next_with, popping, returned, start_frame, stored, unary, wants};
ghost use Rattle.machine_code.specs.Valid.{takes};
ghost use Rattle.machine_code.specs.declared.code.Proc.{Proc};
ghost use Rattle.machine_code.specs.declared.instr.Instr.TheVariants as instr;
ghost use Rattle.plain_machine.specs.Standing.{StandsIn, own_locals};
ghost use Rattle.plain_machine.specs.Stepping.{CanReceive, HasStepped, IsReady, Makes, Resumes, asked, led_to};

use crate::arithmetic::{negate, operate};
use crate::operand_count::operand_count;
use crate::running::Running;
use crate::want::{Answer, Want};
use crate::word::word_at;
use cilk_meaning::TrapKind;
use cilk_tree::{BinaryOp, UnaryOp};
use machine_code::{Code, Instr, Proc};
use std::alloc::{AllocError, Global};
use std::marker::Model;
use std::mem;

/// So many plain calls may be open in an instance.
const MOST_CALLS: usize = 4096;

/// How deep instances may nest.
const DEEPEST: u32 = 4096;

/// The open functions of a frame, and how deep the instance is: the frame of the definitions.
#[derive(Debug, Drop)]
pub struct State {
    running: Running,
    callers: Vec<Running>,
    depth: u32,
    overflowed: bool,
}

impl Model for State {
    ghost use Rattle.std.specs.Prelude.{reverse};
    ghost use Rattle.machine_code.specs.Machine.{Frame};

    ghost Value = { Frame };

    ghost view = { λ s. record { running = s.running; callers = reverse s.callers.items; depth = s.depth; overflowed = s.overflowed } };
}

impl State {
    /// The start of a procedure, at this depth and with these arguments.
    pub fn start(alloc: Global, proc: Proc, args: &[i64], depth: u32) -> Result<Self, AllocError>
        requires args { length args.now ≡ proc.params }
        requires locals { proc.params ≤ proc.locals }
        ensures { IfOk result (λ s. s ≡ start_frame proc args.now depth) }
    {
        let running = Running::start(alloc, proc, args)?;
        Ok(State {
            running,
            callers: Vec::new(alloc),
            depth,
            overflowed: false,
        })
    }

    /// How deep the instance is.
    pub fn depth(&self) -> u32
        ensures { result ≡ self.now.depth }
    {
        self.depth
    }

    /// The top `count` operands, the top last.
    pub fn last(&self, count: usize) -> &[i64]
        requires { count ≤ length self.now.running.operands }
        ensures { result.now ≡ arguments_on count self.now.running.operands }
    {
        self.running.last(count)
    }

    /// Sets a local of the frame's own function.
    pub fn deposit(&mut self, target: u32, value: i64)
        requires { target < length (own_locals self.old) }
        ensures { self.new ≡ with_values ((Some target, value) ∷ []) self.old }
    {
        match self.callers.first_mut() {
            Some(own) => own.set(target, value),
            None => self.running.set(target, value),
        }
    }

    /// Runs on to the next want, and stays there.
    pub fn run(&mut self, code: &Code) -> Want
        requires { StandsIn code.now self.old }
        ensures stands { StandsIn code.now self.new }
        ensures stepped { HasStepped code.now self.old self.new }
        ensures same { wants code.now self.new ≡ wants code.now self.old }
        ensures asks { asked (look code.now self.new) ≡ Some result }
    {
        loop {
            if let Some(want) = self.step(code) {
                return want;
            }
        }
    }

    /// Goes on from a request with an answer that it gets. Memory may be refused at a call, and then nothing changes.
    pub fn resume(&mut self, code: &Code, answer: Answer) -> Result<(), AllocError>
        requires stands { StandsIn code.now self.old }
        requires resumes { Resumes (look code.now self.old) answer }
        ensures ok { OnOk result (led_to (look code.now self.old) answer ≡ Some self.new) }
        ensures err { OnErr result ((self.new ≡ self.old) × (asked (look code.now self.old) ≡ Some Want.Call)) }
    {
        match (answer, self.instr(code)) {
            (Answer::Value(old), Instr::AddShared(_)) => {
                self.add_was(old);
                Ok(())
            }
            (Answer::Value(value), _) => {
                self.replace(1, value);
                Ok(())
            }
            (Answer::Done, Instr::Call(procedure)) => self.call(code.proc(procedure)),
            (Answer::Done, instr) => {
                self.pass(operand_count(code, instr));
                Ok(())
            }
        }
    }

    /// Makes the next instruction, or says at which want the frame stands.
    fn step(&mut self, code: &Code) -> Option<Want>
        requires { StandsIn code.now self.old }
        ensures { Makes (look code.now self.old) self.old self.new result }
    {
        if self.has_overflowed() {
            return Some(Want::Trap(TrapKind::Overflow));
        }
        match self.instr(code) {
            Instr::Const(value) => self.push(value),
            Instr::Load(local) => self.load(local),
            Instr::Store(local) => self.store(local),
            Instr::Pop => self.pop(),
            Instr::Add => self.binary(BinaryOp::Add),
            Instr::Sub => self.binary(BinaryOp::Sub),
            Instr::Mul => self.binary(BinaryOp::Mul),
            Instr::Div => self.binary(BinaryOp::Div),
            Instr::Rem => self.binary(BinaryOp::Rem),
            Instr::Neg => self.unary(UnaryOp::Neg),
            Instr::Not => self.unary(UnaryOp::Not),
            Instr::Eq => self.binary(BinaryOp::Eq),
            Instr::Ne => self.binary(BinaryOp::Ne),
            Instr::Lt => self.binary(BinaryOp::Lt),
            Instr::Le => self.binary(BinaryOp::Le),
            Instr::Gt => self.binary(BinaryOp::Gt),
            Instr::Ge => self.binary(BinaryOp::Ge),
            Instr::Jump(to) => self.jump(to),
            Instr::JumpIfZero(to) => self.jump_if_zero(to),
            Instr::ReadShared(array) => Some(self.read(code, array)),
            Instr::WriteShared(array) => Some(self.write(code, array)),
            Instr::AddShared(array) => Some(self.add(code, array)),
            Instr::PrintTop => Some(self.print()),
            Instr::Turn => Some(Want::LoopTurn),
            Instr::Call(_) => Some(self.wants_call()),
            Instr::Spawn(procedure, target) => Some(self.wants_spawn(procedure, target)),
            Instr::SyncAll => Some(Want::Sync),
            Instr::Return => self.go_back(),
        }
    }

    /// The sum of the last add was no value.
    fn has_overflowed(&self) -> bool
        ensures { result ≡ self.now.overflowed }
    {
        self.overflowed
    }

    /// The next instruction.
    pub fn instr(&self, code: &Code) -> Instr
        requires { self.now.running.pc < length code.now.instrs }
        ensures { slice_get code.now.instrs self.now.running.pc ≡ Some result }
    {
        self.running.instr(code)
    }

    fn push(&mut self, value: i64) -> Option<Want>
        requires { IsReady 0 1 self.old.running }
        ensures { (code : Code) → Makes (act code self.old (Some (instr.Const value))) self.old self.new result }
    {
        self.running.put(0, value);
        None
    }

    fn load(&mut self, local: u32) -> Option<Want>
        requires ready { IsReady 0 1 self.old.running }
        requires local { local < length self.old.running.locals }
        ensures { (code : Code) → Makes (act code self.old (Some (instr.Load local))) self.old self.new result }
    {
        self.running.put(0, self.running.local(local));
        None
    }

    fn store(&mut self, local: u32) -> Option<Want>
        requires ready { IsReady 1 0 self.old.running }
        requires local { local < length self.old.running.locals }
        ensures { (code : Code) → Makes (act code self.old (Some (instr.Store local))) self.old self.new result }
    {
        self.running.set(local, self.running.top(0));
        self.running.pass(1);
        None
    }

    fn pop(&mut self) -> Option<Want>
        requires { IsReady 1 0 self.old.running }
        ensures { (code : Code) → Makes (act code self.old (Some instr.Pop)) self.old self.new result }
    {
        self.running.pass(1);
        None
    }

    fn binary(&mut self, operator: BinaryOp) -> Option<Want>
        requires { IsReady 2 1 self.old.running }
        ensures { Makes (binary self.old operator) self.old self.new result }
    {
        match operate(operator, self.running.top(1), self.running.top(0)) {
            Ok(value) => {
                self.running.put(2, value);
                None
            }
            Err(kind) => Some(Want::Trap(kind)),
        }
    }

    fn unary(&mut self, operator: UnaryOp) -> Option<Want>
        requires { IsReady 1 1 self.old.running }
        ensures { Makes (unary self.old operator) self.old self.new result }
    {
        match negate(operator, self.running.top(0)) {
            Ok(value) => {
                self.running.put(1, value);
                None
            }
            Err(kind) => Some(Want::Trap(kind)),
        }
    }

    fn jump(&mut self, to: u32) -> Option<Want>
        ensures { (code : Code) → Makes (act code self.old (Some (instr.Jump to))) self.old self.new result }
    {
        self.running.jump(to, 0);
        None
    }

    fn jump_if_zero(&mut self, to: u32) -> Option<Want>
        requires { IsReady 1 0 self.old.running }
        ensures { (code : Code) → Makes (act code self.old (Some (instr.JumpIfZero to))) self.old self.new result }
    {
        if self.running.top(0) == 0 {
            self.running.jump(to, 1);
            None
        } else {
            self.running.pass(1);
            None
        }
    }

    fn read(&self, code: &Code, array: u32) -> Want
        requires ready { IsReady 1 1 self.now.running }
        requires array { array < length code.now.shared }
        ensures { asked (act code.now self.now (Some (instr.ReadShared array))) ≡ Some result }
    {
        match word_at(code, array, self.running.top(0)) {
            Ok(word) => Want::Read { word },
            Err(kind) => Want::Trap(kind),
        }
    }

    fn write(&self, code: &Code, array: u32) -> Want
        requires ready { IsReady 2 0 self.now.running }
        requires array { array < length code.now.shared }
        ensures { asked (act code.now self.now (Some (instr.WriteShared array))) ≡ Some result }
    {
        let value = self.running.top(0);
        match word_at(code, array, self.running.top(1)) {
            Ok(word) => Want::Write { word, value },
            Err(kind) => Want::Trap(kind),
        }
    }

    fn add(&self, code: &Code, array: u32) -> Want
        requires ready { IsReady 2 1 self.now.running }
        requires array { array < length code.now.shared }
        ensures { asked (act code.now self.now (Some (instr.AddShared array))) ≡ Some result }
    {
        let addend = self.running.top(0);
        match word_at(code, array, self.running.top(1)) {
            Ok(word) => Want::Add { word, addend },
            Err(kind) => Want::Trap(kind),
        }
    }

    fn print(&self) -> Want
        requires { IsReady 1 0 self.now.running }
        ensures { (code : Code) → asked (act code self.now (Some instr.PrintTop)) ≡ Some result }
    {
        Want::Print {
            value: self.running.top(0),
        }
    }

    fn wants_call(&self) -> Want
        ensures { (code : Code) (procedure : ℕ) (proc : Proc) → slice_get code.procs procedure ≡ Some proc → asked (act code self.now (Some (instr.Call procedure))) ≡ Some result }
    {
        if self.callers.len() == MOST_CALLS {
            Want::Trap(TrapKind::TooDeep)
        } else {
            Want::Call
        }
    }

    fn wants_spawn(&self, procedure: u32, target: Option<u32>) -> Want
        ensures { (code : Code) (proc : Proc) → slice_get code.procs procedure ≡ Some proc → asked (act code self.now (Some (instr.Spawn procedure target))) ≡ Some result }
    {
        if self.depth == DEEPEST {
            Want::Trap(TrapKind::TooDeep)
        } else {
            Want::Spawn {
                proc: procedure,
                target,
            }
        }
    }

    /// Gives the top operand to the last caller, or says that the instance returns with it.
    fn go_back(&mut self) -> Option<Want>
        requires ready { IsReady 1 0 self.old.running }
        requires callers { CanReceive self.old.callers }
        ensures { (code : Code) → Makes (act code self.old (Some instr.Return)) self.old self.new result }
    {
        let value = self.running.top(0);
        match self.callers.pop() {
            None => Some(Want::Return { value }),
            Some(mut caller) => {
                caller.receive(value);
                self.running = caller;
                None
            }
        }
    }

    /// Lets the procedure run with the arguments that are on top. Where memory is refused nothing changes.
    fn call(&mut self, proc: Proc) -> Result<(), AllocError>
        requires ready { IsReady proc.params 1 self.old.running }
        requires params { proc.params ≤ proc.locals }
        ensures ok { OnOk result (self.new ≡ called self.old proc) }
        ensures err { OnErr result (self.new ≡ self.old) }
    {
        let alloc = *self.callers.allocator();
        let params = proc.params as usize;
        let callee = Running::start(alloc, proc, self.running.last(params))?;
        self.callers.reserve(1)?;
        self.running.pass(params);
        let caller = mem::replace(&mut self.running, callee);
        let pushed = self.callers.push(caller);
        prove!(pushed.is_ok());
        drop(pushed);
        Ok(())
    }

    /// Goes on behind an add, with the old value for the index and the addend.
    fn add_was(&mut self, old: i64)
        requires { IsReady 2 1 self.old.running }
        ensures { (addend index : ℤ) (rest : List ℤ) → self.old.running.operands ≡ addend ∷ index ∷ rest → self.new ≡ added self.old addend rest old }
    {
        let addend = self.running.top(0);
        self.overflowed = old.checked_add(addend).is_none();
        self.running.put(2, old);
    }

    /// Goes on at the next instruction, with a value for the top `taken` operands.
    fn replace(&mut self, taken: usize, value: i64)
        requires { IsReady taken 1 self.old.running }
        ensures { self.new ≡ next_with self.old (value ∷ drop taken self.old.running.operands) }
    {
        self.running.put(taken, value);
    }

    /// Goes on at the next instruction, without the top `taken` operands.
    fn pass(&mut self, taken: usize)
        requires { IsReady taken 0 self.old.running }
        ensures { self.new ≡ next_with self.old (drop taken self.old.running.operands) }
    {
        self.running.pass(taken);
    }
}
