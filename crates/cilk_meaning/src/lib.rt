//! What a Cilk program means: what an instance of a procedure wants after the answers that it got, and the serial
//! elision of the program.
#![tactic(auto)]

mod cases;
mod ends;
mod laws;

pub use cases::{
    add_cases, arithmetic_cases, call_cases, instance_cases, limit_cases, log_cases, name_cases,
    order_cases, spawn_cases, test_cases,
};
pub use ends::{NodeEnd, TrapKind};
pub use laws::{
    always_wants, bound_is_hidden, elision_is_service, lawful_is_parted, more_ticks,
    names_in_scope, returns_synced, ticks_are_counted, wants_are_kept,
};
