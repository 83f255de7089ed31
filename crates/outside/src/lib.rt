//! What the program meets outside itself: a shelf of texts to read from and sinks to put bytes into,
//! as traits whose meanings the theorems speak of, with fakes for tests and adapters for the system.
#![tactic(auto)]

mod mem_shelf;
mod mem_sink;
mod reading;
mod real_shelf;
mod real_sink;
mod retrying;
mod shelf;
mod sink;
#[cfg(test)]
mod tests;
mod words;

pub use mem_shelf::MemShelf;
pub use mem_sink::MemSink;
pub use reading::{TextRefusal, read_text};
pub use real_shelf::RealShelf;
pub use real_sink::RealSink;
pub use shelf::Shelf;
pub use sink::Sink;
pub use words::Words;

/// A device refused a call.
#[derive(Clone, Copy, Debug, PartialEq, Eq)]
pub struct Failed;
