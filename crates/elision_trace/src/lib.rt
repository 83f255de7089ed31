//! The serial elision as an execution: its log tells the events of one node, whose positions are the serial order.
#![tactic(auto)]

mod laws;

pub use laws::{
    elision_is_serial, elision_obeys, elision_race_free, elision_reads, elision_remembers,
    elision_returns, elision_ticks, runs_go_as_elision, trace_is_log,
};
