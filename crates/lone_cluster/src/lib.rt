//! Runs on one node: nothing is sent, and the run goes depth first, as the elision does.
#![tactic(auto)]

mod laws;

pub use laws::{one_node_acts_by_itself, one_node_ends, one_node_runs_depth_first};
