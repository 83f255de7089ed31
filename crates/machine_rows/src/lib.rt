//! Rows of `plain_machine`: what frames want on a code written by hand, as tests alone.
#![tactic(auto)]

#[cfg(test)]
mod tests;
