//! The history of a run as a tree of rows, and the dag of spawn and sync in it.
#![tactic(auto)]

mod act;
mod history;
mod laws;
mod recording;
mod row;
#[cfg(test)]
mod tests;

pub use act::{Act, Place};
pub use history::History;
pub use laws::{
    not_parallel_below, not_parallel_in_row, one_is_first, one_of_three, order_is_of_places,
    parallel_is_symmetric, precedes_on, race_free_is_serial, three_places,
};
pub use outside::Words as Args;
pub use recording::Recording;
pub use row::Row;
