//! Decides whether a Cilk program is lawful.
#![tactic(auto)]

mod around;
mod check;
mod functions;
mod globals;
mod locals;
mod meaning;
mod name_map;
mod path;
mod pending;
mod refusal;
mod rules;
mod syncs;
mod uses;
mod walk;

pub use check::{Checked, check_program};
pub use cilk_tree::CheckPlace;
pub use refusal::CheckRefusal;
