//! The serial elision of a code: its end, history, shared words and ticks.
#![tactic(auto)]

mod run;
mod serial_elision;
mod serial_end;
mod words;

pub use serial_elision::serial;
pub use serial_end::SerialEnd;
