//! What the crates of rows share: calls of the top call over a shelf and sinks in memory, and texts that repeat a part. They hold
//! no contract, since tests alone use them.
#![tactic(auto)]

mod calls;
mod texts;

pub use calls::{Failing, Left, NOTHING, run, run_source};
pub use texts::{numbered, repeating};
