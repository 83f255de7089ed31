//! Rows of what is a program at all, as tests alone.
#![tactic(auto)]

#[cfg(test)]
mod tests;
