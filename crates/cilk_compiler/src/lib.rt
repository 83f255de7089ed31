//! The compiler: the code of a lawful program, which wants what the program wants.
#![tactic(auto)]

mod emitter;
mod expressions;
mod functions;
mod globals;
mod instrs;
mod join;
mod jumps;
mod locals;
mod names;
mod program;
mod statements;

pub use program::compile;
