//! Parses the tokens of a Cilk program into its syntax tree.
#![tactic(auto)]

mod addition;
mod call;
mod expression;
mod item;
mod opening;
mod parser;
mod parsing;
mod refusal;
mod simple;
mod starts;
mod statement;
mod tallies;

pub use parser::End;
pub use parsing::parse;
pub use refusal::ParseRefusal;
