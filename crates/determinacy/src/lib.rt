//! Executions without race have one answer: a location consistent run of a program goes as its serial execution does, where that finishes
//! without race.
//!
//! An execution is a trace: its events, and what each frame runs. What a frame is told, and so what it wants next, is a function of the
//! trace, for runs of a cluster and for serial executions alike.
#![tactic(auto)]

ghost use Rattle.determinacy.specs.Determinate.{ThenSerial};

/// A law, nothing is done: a location consistent run of a program goes as its serial execution, if that finishes without race. Each frame is
/// told what its row is, none traps, no more ticks are spent, and a finished run has the same history and memory.
pub fn then_serial()
    ensures { ThenSerial }
{}
