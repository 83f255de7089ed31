//! Programs and what comes of them, worked out from the rules in words: the definitions give the same.

ghost use Rattle.cilk_meaning.specs.Cases.Expressions.{ArithmeticCases, TestCases, OrderCases};
ghost use Rattle.cilk_meaning.specs.Cases.Programs.{SpawnCases, LogCases, CallCases, AddCases};
ghost use Rattle.cilk_meaning.specs.Cases.Names.{NameCases};
ghost use Rattle.cilk_meaning.specs.Cases.Limits.{LimitCases};
ghost use Rattle.cilk_meaning.specs.Cases.Instances.{InstanceCases, FittingCases};

/// What arithmetic gives, and where it traps.
pub fn arithmetic_cases()
    ensures { ArithmeticCases }
{}

/// What comparisons and logical operators give, and what these do not evaluate.
pub fn test_cases()
    ensures { TestCases }
{}

/// What is evaluated first, and indexes inside and outside of an array.
pub fn order_cases()
    ensures { OrderCases }
{}

/// Spawns, syncs, and what a child's value does.
pub fn spawn_cases()
    ensures { SpawnCases }
{}

/// The events of runs, in order.
pub fn log_cases()
    ensures { LogCases }
{}

/// Plain calls, loops, returns, the input, and traps.
pub fn call_cases()
    ensures { CallCases }
{}

/// Adds, and those whose sum is no value.
pub fn add_cases()
    ensures { AddCases }
{}

/// How deep spawns and plain calls may go.
pub fn limit_cases()
    ensures { LimitCases }
{}

/// What instances want after some answers.
pub fn instance_cases()
    ensures { InstanceCases }
{}

/// Answers that an instance may get, and some that it may not.
pub fn fitting_cases()
    ensures { FittingCases }
{}

/// What names stand for.
pub fn name_cases()
    ensures { NameCases }
{}
