ghost use Rattle.std.specs.Prelude.{◌≡◌, ◌<◌, ◌≤◌, ℕ, ℤ, [], ◌∷◌, length, slice_get, IfOk, OnOk, OnErr, IsSome, Some};
ghost use Rattle.std.specs.Option.{option_map};
ghost use Rattle.cilk_meaning.specs.Instance.{limits};
ghost use Rattle.cilk_meaning.specs.Serve.{after, now};
ghost use Rattle.cilk_meaning.specs.Wants.{Request, Asks, Call};
ghost use Rattle.machine_code.specs.Early.{with_values};
ghost use Rattle.machine_code.specs.Machine.{start_frame, starts, wants};
ghost use Rattle.machine_code.specs.Valid.{params_of};
ghost use Rattle.plain_machine.specs.Shown.{Suits, WantsNext, arguments_of, meant, shown_want};
ghost use Rattle.plain_machine.specs.Standing.{StandsIn, own_locals};
ghost use Rattle.plain_machine.specs.Stepping.{HasResumed, HasStepped, NamesChild, child_params};

use crate::state::State;
use crate::want::{Answer, Want};
use machine_code::{Code, Proc};
use std::alloc::{AllocError, Global};
use std::marker::Model;

/// An instance of a procedure that runs on a code, and may travel between nodes: the frame of the definitions, with the arguments
/// of the child for whose spawn it was last asked. It makes only the steps of its code (the machine of `machine_code`): constant work for
/// each, and memory is taken at its start and at plain calls alone.
#[derive(Debug, Drop)]
pub struct Frame {
    state: State,
    spawned: usize,
}

impl Model for Frame {
    ghost use Rattle.std.specs.Prelude.{◌≤◌, length};
    ghost use Rattle.machine_code.specs.Machine.{arguments_on};
    ghost use Rattle.plain_machine.specs.Shown.{Shown};

    ghost Value = { Shown };

    ghost view = { λ f. record { frame = f.state; arguments = arguments_on f.spawned f.state.running.operands } };

    ghost invariant = { λ f. f.spawned ≤ length f.state.running.operands };
}

impl Frame {
    /// The start of the procedure `proc` of the code with these arguments, for an instance that is `depth` deep. It takes all
    /// memory that the steps in its own function need, and fails only where that is refused.
    pub fn start(
        alloc: Global,
        code: &Code,
        proc: u32,
        args: &[i64],
        depth: u32,
    ) -> Result<Frame, AllocError>
        requires proc { proc < length code.now.procs }
        requires args { length args.now ≡ params_of (slice_get code.now.procs proc) }
        requires depth { depth ≤ limits.depth }
        ensures starts { IfOk result (λ f. (procedure : Proc) → slice_get code.now.procs proc ≡ Some procedure → f ≡ record { frame = start_frame procedure args.now depth; arguments = [] }) }
        ensures wants { IfOk result (λ f. wants code.now f.frame ≡ starts code.now depth proc args.now) }
        ensures stands { IfOk result (λ f. StandsIn code.now f.frame) }
    {
        let state = State::start(alloc, code.proc(proc), args, depth)?;
        Ok(Frame { state, spawned: 0 })
    }

    /// Runs on to the next want, and says what it is. Asked again before an answer, the frame says the same, and `args` then has
    /// the arguments of the child where it wants a spawn.
    pub fn want(&mut self, code: &Code) -> Want
        requires { StandsIn code.now self.old.frame }
        ensures want { option_map shown_want (now (wants code.now self.old.frame)) ≡ Some result }
        ensures arguments { option_map arguments_of (now (wants code.now self.old.frame)) ≡ Some self.new.arguments }
        ensures same { wants code.now self.new.frame ≡ wants code.now self.old.frame }
        ensures stepped { HasStepped code.now self.old.frame self.new.frame }
        ensures stands { StandsIn code.now self.new.frame }
    {
        let want = self.state.run(code);
        self.spawned = child_params(code, want);
        want
    }

    /// The arguments of the child for whose spawn the frame was last asked; there are none otherwise.
    pub fn args(&self) -> &[i64]
        ensures { result.now ≡ self.now.arguments }
    {
        self.state.last(self.spawned)
    }

    /// Answers the next want, to which the frame runs on where it does not stand there: a value at a read or an add, `Done` at each
    /// other request. Only a plain call takes memory. Where that is refused the frame stands at this call and can be answered again.
    pub fn answer(&mut self, code: &Code, answer: Answer) -> Result<(), AllocError>
        requires stands { StandsIn code.now self.old.frame }
        requires suits { Suits code.now self.old.frame answer }
        ensures wants { OnOk result ((request : Request) → WantsNext code.now self.old.frame (Asks request) → wants code.now self.new.frame ≡ after (wants code.now self.old.frame) (meant request answer)) }
        ensures resumed { OnOk result ((request : Request) → WantsNext code.now self.old.frame (Asks request) → HasResumed code.now request (meant request answer) self.old.frame self.new.frame) }
        ensures call { OnErr result (WantsNext code.now self.old.frame (Asks Call)) }
        ensures same { OnErr result (wants code.now self.new.frame ≡ wants code.now self.old.frame) }
        ensures stepped { OnErr result (HasStepped code.now self.old.frame self.new.frame) }
        ensures arguments { self.new.arguments ≡ [] }
        ensures stands { StandsIn code.now self.new.frame }
    {
        self.state.run(code);
        self.spawned = 0;
        self.state.resume(code, answer)
    }

    /// Gives a child's value to a local of the frame's own function, also where a plain call is open in it.
    pub fn deposit(&mut self, target: u32, value: i64)
        requires { target < length (own_locals self.old.frame) }
        ensures set { self.new ≡ record self.old { frame = with_values ((Some target, value) ∷ []) self.old.frame } }
        ensures stands { (code : Code) → StandsIn code self.old.frame → StandsIn code self.new.frame }
    {
        self.state.deposit(target, value);
    }

    /// How deep the instance is: 0 for that of `main`, and for a child one more than for its parent.
    pub fn depth(&self) -> u32
        ensures { result ≡ self.now.frame.depth }
    {
        self.state.depth()
    }
}

/// How many arguments the child has that is wanted, if one is.
fn child_params(code: &Code, want: Want) -> usize
    requires { NamesChild code.now.procs want }
    ensures { result ≡ child_params code.now.procs want }
{
    match want {
        Want::Spawn { proc, .. } => code.proc(proc).params as usize,
        _ => 0,
    }
}
