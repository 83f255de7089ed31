ghost use Rattle.std.specs.Prelude.{◌≡◌, ◌+◌, ◌*◌, ◌-◌, ◌<◌, ◌≤◌, ℕ, length, IfOk, MatchOption, OnOk};
ghost use Rattle.cilk_meaning.specs.Serve.{State, first_state, serve};
ghost use Rattle.cilk_meaning.specs.Wants as wanted;
ghost use Rattle.cilk_meaning.specs.Wants.{Asks};
ghost use Rattle.cilk_meaning.specs.World.{End};
ghost use Rattle.machine_code.specs.Machine.{Code as Codes, starts};
ghost use Rattle.machine_code.specs.StandsFor.{start_words_of};
ghost use Rattle.plain_machine.specs.Shown.{WantsNext};
ghost use Rattle.plain_machine.specs.Standing.{StandsIn};
ghost use Rattle.plain_machine.specs.Starting.{IsTarget};
ghost use Rattle.serial_run.specs.Running.{IsStanding, Stands};
ghost use Rattle.serial_run.specs.Serving.{EndsAs, GoesBack, IsDone, LeadsTo, Serves, ServesWant, meant_by, with_value};

use crate::serial_end::SerialEnd;
use crate::words::{copied, start_words, sum_or_old};
use cilk_meaning::NodeEnd;
use machine_code::Code;
use plain_machine::{Answer, Frame, Want, children_can_start, has_run_stands};
use span_tree::{Act, Recording};
use std::alloc::{AllocError, Global};
use std::mem;

/// A frame that waits for its child, whose value goes to this local.
#[derive(Drop)]
pub struct Parent {
    pub frame: Frame,
    pub target: Option<u32>,
}

impl Parent {
    /// The frame with the child's value, which it gets at once: it looks at the target only behind its next sync.
    fn resumed(self, value: i64) -> Frame
        requires { IsTarget self.target self.frame.frame }
        ensures given { result.frame ≡ with_value self.target value self.frame.frame }
        ensures stands { (code : Codes) → StandsIn code self.frame.frame → StandsIn code result.frame }
    {
        let mut frame = self.frame;
        if let Some(target) = self.target {
            frame.deposit(target, value);
        }
        frame
    }
}

/// A serial run: the frame that runs, those that wait for their children, the nearest last, what happened so far, the shared words, and
/// how many ticks are left.
#[derive(Drop)]
pub struct Run {
    pub frame: Frame,
    pub parents: Vec<Parent>,
    pub recording: Recording,
    pub words: Vec<i64>,
    pub left: u64,
}

impl Run {
    /// Before the first tick of `main`, with as many ticks as this.
    pub fn start(alloc: Global, code: &Code, budget: u64) -> Result<Run, AllocError>
        ensures { IfOk result (λ run. LeadsTo code.now (serve (starts code.now) budget (first_state (starts code.now) code.now.main (start_words_of code.now))) budget run) }
    {
        Ok(Run {
            frame: Frame::start(alloc, code, code.main, &[], 0)?,
            parents: Vec::new(alloc),
            recording: Recording::new(alloc, code.main)?,
            words: start_words(alloc, code)?,
            left: budget,
        })
    }

    /// Answers the next want, or gives a value back to the parent. The end, where there is one.
    pub fn turn(&mut self, alloc: Global, code: &Code) -> Result<Option<NodeEnd>, AllocError>
        requires { IsStanding code.now self.old }
        ensures goes { (whole : End) (budget : ℕ) → LeadsTo code.now whole budget self.old → IfOk result (λ stop. MatchOption stop (LeadsTo code.now whole budget self.new) (λ end. EndsAs code.now whole budget end self.new)) }
        ensures nearer { IfOk result (λ stop. MatchOption stop (2 * self.new.left + length self.new.parents.items < 2 * self.old.left + length self.old.parents.items) (λ end. Unit {0})) }
    {
        match self.frame.want(code) {
            Want::Return { value } => Ok(self.give_back(value)),
            Want::Trap(kind) => Ok(Some(NodeEnd::Trapped(kind))),
            _ if self.left == 0 => Ok(Some(NodeEnd::Budget)),
            request => {
                self.left -= 1;
                self.serve(alloc, code, request)?;
                Ok(None)
            }
        }
    }

    /// Gives the value of the frame that runs to its parent, which goes on. Finished where it has none.
    fn give_back(&mut self, value: i64) -> Option<NodeEnd>
        requires { (code : Codes) × IsStanding code self.old }
        ensures left { self.new.left ≡ self.old.left }
        ensures back { (code : Codes) (state : State) → Stands code self.old state → MatchOption result (GoesBack code state value self.new) (λ end. IsDone code state self.new end) }
    {
        match self.parents.pop() {
            Some(parent) => {
                self.recording.leave();
                self.frame = parent.resumed(value);
                None
            }
            None => Some(NodeEnd::Finished),
        }
    }

    /// Serves what the frame wants, where that is a request.
    fn serve(&mut self, alloc: Global, code: &Code, want: Want) -> Result<(), AllocError>
        requires standing { IsStanding code.now self.old }
        requires wants { WantsNext code.now self.old.frame.frame (meant_by want self.old.frame.arguments) }
        ensures { OnOk result (ServesWant code.now (meant_by want self.old.frame.arguments) self.old self.new) }
    {
        match want {
            Want::Read { word } => self.read(code, word),
            Want::Write { word, value } => self.write(code, word, value),
            Want::Add { word, addend } => self.add(code, word, addend),
            Want::Print { value } => self.print(code, value),
            Want::Spawn { proc, target } => self.spawn(alloc, code, proc, target),
            Want::Sync => self.sync(code),
            Want::Call | Want::LoopTurn => self.frame.answer(code, Answer::Done),
            Want::Return { .. } | Want::Trap(_) => Ok(()),
        }
    }

    fn read(&mut self, code: &Code, word: u32) -> Result<(), AllocError>
        requires standing { IsStanding code.now self.old }
        requires wants { WantsNext code.now self.old.frame.frame (Asks (wanted.Read word)) }
        ensures { OnOk result (Serves code.now (wanted.Read word) self.old self.new) }
    {
        let value = self.words[word as usize];
        self.recording.act(Act::Read { word, value })?;
        self.frame.answer(code, Answer::Value(value))
    }

    fn write(&mut self, code: &Code, word: u32, value: i64) -> Result<(), AllocError>
        requires standing { IsStanding code.now self.old }
        requires wants { WantsNext code.now self.old.frame.frame (Asks (wanted.Write word value)) }
        ensures { OnOk result (Serves code.now (wanted.Write word value) self.old self.new) }
    {
        self.recording.act(Act::Write { word, value })?;
        self.words[word as usize] = value;
        self.frame.answer(code, Answer::Done)
    }

    fn add(&mut self, code: &Code, word: u32, addend: i64) -> Result<(), AllocError>
        requires standing { IsStanding code.now self.old }
        requires wants { WantsNext code.now self.old.frame.frame (Asks (wanted.Add word addend)) }
        ensures { OnOk result (Serves code.now (wanted.Add word addend) self.old self.new) }
    {
        let old = self.words[word as usize];
        self.recording.act(Act::Add { word, old, addend })?;
        self.words[word as usize] = sum_or_old(old, addend);
        self.frame.answer(code, Answer::Value(old))
    }

    fn print(&mut self, code: &Code, value: i64) -> Result<(), AllocError>
        requires standing { IsStanding code.now self.old }
        requires wants { WantsNext code.now self.old.frame.frame (Asks (wanted.Print value)) }
        ensures { OnOk result (Serves code.now (wanted.Print value) self.old self.new) }
    {
        self.recording.act(Act::Print { value })?;
        self.frame.answer(code, Answer::Done)
    }

    /// The values of the children are in the frame already.
    fn sync(&mut self, code: &Code) -> Result<(), AllocError>
        requires standing { IsStanding code.now self.old }
        requires wants { WantsNext code.now self.old.frame.frame (Asks wanted.Sync) }
        ensures { OnOk result (Serves code.now wanted.Sync self.old self.new) }
    {
        self.recording.act(Act::Sync)?;
        self.frame.answer(code, Answer::Done)
    }

    /// The child runs, and the frame that spawned it waits for it.
    fn spawn(
        &mut self,
        alloc: Global,
        code: &Code,
        proc: u32,
        target: Option<u32>,
    ) -> Result<(), AllocError>
        requires standing { IsStanding code.now self.old }
        requires wants { WantsNext code.now self.old.frame.frame (Asks (wanted.Spawn target proc self.old.frame.arguments)) }
        ensures { OnOk result (Serves code.now (wanted.Spawn target proc self.old.frame.arguments) self.old self.new) }
    {
        // laws of the machine: the child can be started, and its value can go to its target
        children_can_start();
        has_run_stands();
        let depth = self.frame.depth() + 1;
        let child = Frame::start(alloc, code, proc, self.frame.args(), depth)?;
        let args = copied(alloc, self.frame.args())?;
        self.recording.spawn(proc, args)?;
        self.frame.answer(code, Answer::Done)?;
        let frame = mem::replace(&mut self.frame, child);
        self.parents.push(Parent { frame, target })?;
        Ok(())
    }

    /// What the run leaves that has ended so.
    pub fn finish(self, alloc: Global, end: NodeEnd, budget: u64) -> Result<SerialEnd, AllocError>
        requires { self.left ≤ budget }
        ensures end { IfOk result (λ ended. ended.end ≡ end) }
        ensures history { IfOk result (λ ended. ended.history ≡ self.recording.history) }
        ensures memory { IfOk result (λ ended. ended.memory ≡ self.words.items) }
        ensures ticks { IfOk result (λ ended. ended.ticks ≡ budget - self.left) }
    {
        Ok(SerialEnd {
            end,
            memory: copied(alloc, &self.words)?,
            history: self.recording.finish(),
            ticks: budget - self.left,
        })
    }
}
