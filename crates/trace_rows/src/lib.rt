//! The history of an execution, whose rows are its frames.
#![tactic(auto)]
