//! The history of a program's serial elision.
#![tactic(auto)]

mod laws;

pub use laws::{
    acts_in_order, answers_determine, complete_is_elision, elision_is_history,
    elision_reads_serially, memory_is_last_writes, race_free_is_elision,
};
