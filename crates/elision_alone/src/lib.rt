//! The serial elision as the execution depth first of its program on one node, with races or without.
#![tactic(auto)]

mod laws;

pub use laws::{elision_is_alone, elision_runs_as};
