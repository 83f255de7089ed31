//! Laws of the answers of runs, each the contract of a function that does nothing.

ghost use Rattle.run_answers.specs.Laws.{OneNodeRunsAnswerAsElisions, RaceFreeProgramsHaveOneAnswer, RunsAreOfTheProgram};

/// A run of the cluster, ended or not, is an execution of its program: each history of it is a history of the program, and a complete one where the
/// run finished.
pub fn runs_are_of_the_program()
    ensures { RunsAreOfTheProgram }
{}

/// Where the serial elision finishes and its history has no determinacy race (Feng, Leiserson 1997), no run traps, none whose nodes may each make
/// the elision's ticks ends for want of one, and each run that finishes has the elision's history, output, memory and ticks. No run has a race.
pub fn race_free_programs_have_one_answer()
    ensures { RaceFreeProgramsHaveOneAnswer }
{}

/// On one node a run that ended has the end, history, output, memory and ticks of the serial elision with that budget, with races too.
pub fn one_node_runs_answer_as_elisions()
    ensures { OneNodeRunsAnswerAsElisions }
{}
