//! Rows of `serial` and `race`, as tests alone.
#![tactic(auto)]

#[cfg(test)]
mod tests;
