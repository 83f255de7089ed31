//! A value for a turnstile that keeps who added to it, in order, and callers that add from many threads. The tests of
//! `turnstile` stand here, since here it is seen from outside.
#![tactic(auto)]

mod callers;
mod tally;
#[cfg(test)]
mod tests;

pub use callers::{add, add_by_all, look, look_beside, opened};
pub use tally::Tally;
