//! Rows of the joins of a node and of stealing, as tests alone.
#![tactic(auto)]

#[cfg(test)]
mod tests;
