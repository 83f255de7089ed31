//! The bounded cache of a node: its resident pages, the least recently used of which makes room.
#![tactic(auto)]

mod cache;
#[cfg(test)]
mod tests;

pub use cache::Cache;
