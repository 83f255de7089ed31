//! The program `backer` as one call over a shelf and two sinks.
#![tactic(auto)]

mod answer;
mod lines;
mod making;
mod race_line;
mod status;
mod top;
mod writing;

pub use status::{Ended, SourceRefusal, Status};
pub use top::{backer, offline};
