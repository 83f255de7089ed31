//! Pages of shared words with marks for those written, and the configuration of a cluster, which says
//! how words lie in pages and pages at nodes.
#![tactic(auto)]

mod config;
mod page;
#[cfg(test)]
mod tests;

pub use config::{Config, MOST_BUDGET, MOST_CACHE_PAGES, MOST_NODES};
pub use page::{Page, merge_words};
