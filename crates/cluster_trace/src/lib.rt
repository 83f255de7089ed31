//! Every run of the written cluster is an execution of its program: each of its items is one that its frame wants by the program's meaning.
#![tactic(auto)]

ghost use Rattle.cluster_trace.specs.Laws.{RunsComeToEnds, RunsObey};

/// A law, nothing is done: the events of each run, with what its frames run, are an execution. Each item answers what its frame wants behind what
/// that was told, a child runs what its parent asked for, and a frame syncs where the children of its block have returned.
pub fn runs_obey()
    ensures { RunsObey }
{}

/// A law, nothing is done: where a run ended, its execution has come to that end. Where it finished `main` has returned, where it trapped some frame
/// wants that trap, and where the budget was spent some frame asks for more.
pub fn runs_come_to_ends()
    ensures { RunsComeToEnds }
{}
