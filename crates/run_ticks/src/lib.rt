//! The ticks of the nodes of a run: together as many as the items of its trace, and one for each Add that is under way.
#![tactic(auto)]

mod laws;

pub use laws::{returned_ticks, run_ticks, spent_ticks};
