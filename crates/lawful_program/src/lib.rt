//! Laws of lawful programs without names: their numbers are in range, and they use no value before its sync; so their code stands for them.
#![tactic(auto)]

mod laws;

pub use laws::{lawful_code, lawful_is_well_formed, lawful_keeps_values};
