//! The code of the machine for a program without names, and laws that it means what the program means.
#![tactic(auto)]

mod laws;

pub use laws::{compiled_is_valid, compiled_stands};
