//! Rows of `check`, as tests alone.
#![tactic(auto)]

#[cfg(test)]
mod tests;
