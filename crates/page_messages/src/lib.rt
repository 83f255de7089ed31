//! What nodes send to each other, and the log of what they do.
#![tactic(auto)]

mod closure;
mod log;
mod message;
mod parts;
mod post;
#[cfg(test)]
mod tests;

pub use cilk_meaning::{NodeEnd, TrapKind};
pub use closure::{Child, Closure, FrameId, JoinId, Link};
pub use log::{Item, Log, LoggedAct, PostAt, Step, Turn};
pub use message::{Body, Msg};
pub use outside::Words as Args;
pub use parts::{Part, Parts};
pub use post::{Note, Post};
