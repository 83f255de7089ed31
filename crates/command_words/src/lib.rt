//! The words of a command line: which words are a command, and which.
#![tactic(auto)]

mod command;
mod gathered;
mod number;
mod option_name;
mod reading;
mod refusal;
#[cfg(test)]
mod tests;

pub use command::{Command, FileName, Offline};
pub use reading::read_words;
pub use refusal::WordRefusal;
