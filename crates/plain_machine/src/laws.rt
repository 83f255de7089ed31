ghost use Rattle.std.specs.Prelude.{ℕ, ℤ, List, Option, IsSome};
ghost use Rattle.cilk_meaning.specs.Serve.{now};
ghost use Rattle.cilk_meaning.specs.Wants.{Asks, Spawn};
ghost use Rattle.machine_code.specs.Early.{Event, Run};
ghost use Rattle.machine_code.specs.Machine.{Code, Frame, wants};
ghost use Rattle.plain_machine.specs.Lasting.{HasLasted, Lasts};
ghost use Rattle.plain_machine.specs.Shown.{WantsNext};
ghost use Rattle.plain_machine.specs.Standing.{StandsIn};
ghost use Rattle.plain_machine.specs.Starting.{CanStart};

/// A law, nothing is done: whatever happened to a frame since its start, it stands in its code, is as deep, and its own function
/// has the locals of its procedure.
pub fn has_run_stands()
    ensures { (code : Code) (depth procedure : ℕ) (arguments : List ℤ) (events : List Event) (run : Run) → HasLasted code depth procedure arguments events run → Lasts code depth procedure run.frame }
{}

/// A law, nothing is done: a frame that stands in a code always wants something, so `Frame::want` always has an answer.
pub fn always_wants()
    ensures { (code : Code) (frame : Frame) → StandsIn code frame → IsSome (now (wants code frame)) }
{}

/// A law, nothing is done: a child that a frame wants to spawn can be started. Its procedure is one of the code and gets as many
/// arguments as it has parameters, it is not too deep, and its target is a local of the frame's own function.
pub fn children_can_start()
    ensures { (code : Code) (frame : Frame) → StandsIn code frame → (target : Option ℕ) (procedure : ℕ) (arguments : List ℤ) → WantsNext code frame (Asks (Spawn target procedure arguments)) → CanStart code frame target procedure arguments }
{}
