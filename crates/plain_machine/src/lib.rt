//! The plain stack machine: frames that step through a code from want to want.
#![tactic(auto)]

mod arithmetic;
mod frame;
mod laws;
mod operand_count;
mod operands;
mod running;
mod state;
mod want;
mod word;

pub use frame::Frame;
pub use laws::{always_wants, children_can_start, has_run_stands};
pub use want::{Answer, Want};
