//! How a stolen frame waits for its children: the joins of a node, and how a thief takes a frame from its deque.
#![tactic(auto)]

mod join;
mod joins;
mod stealing;

pub use joins::Joins;
pub use stealing::steal_from;
