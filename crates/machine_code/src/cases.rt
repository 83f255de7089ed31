//! Small codes and what they want, worked out from the rules in words: the definitions give the same.

ghost use Rattle.machine_code.specs.Cases.{OperatorCases, WordCases, ControlCases, SpawnCases};

/// What operators make of their operands, and where they trap.
pub fn operator_cases()
    ensures { OperatorCases }
{}

/// Shared words: where they lie, what they start with, and what is tested when.
pub fn word_cases()
    ensures { WordCases }
{}

/// Jumps, locals, plain calls and returns.
pub fn control_cases()
    ensures { ControlCases }
{}

/// Spawns, syncs, and values that come early.
pub fn spawn_cases()
    ensures { SpawnCases }
{}
