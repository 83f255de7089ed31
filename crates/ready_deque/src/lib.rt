//! The ready deque of a node, from which its owner works at the bottom and thieves take at the top.
#![tactic(auto)]

mod deque;
#[cfg(test)]
mod tests;

pub use deque::Deque;
