//! The code of a plain stack machine: its instructions, what they mean, and when a code stands for a program.
#![tactic(auto)]

mod cases;
mod code;
mod instr;

pub use cases::{control_cases, operator_cases, spawn_cases, word_cases};
pub use code::{Code, Extent, Proc};
pub use instr::Instr;
