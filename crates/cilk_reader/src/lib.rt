//! Reads the text of a Cilk program into its syntax tree.
#![tactic(auto)]

mod lexer;
mod reading;
mod refusal;

pub use reading::read_program;
pub use refusal::ReadRefusal;
