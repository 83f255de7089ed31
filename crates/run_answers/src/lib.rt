//! The answers of runs: each run is an execution of its program; where the serial elision finishes without race each run that finishes answers as
//! it does; and on one node each run that ended does, with races too.
#![tactic(auto)]

mod laws;

pub use laws::{
    one_node_runs_answer_as_elisions, race_free_programs_have_one_answer, runs_are_of_the_program,
};
