//! Rows of the top call on the programs of `examples/`, as tests alone.
#![tactic(auto)]

#[cfg(test)]
mod tests;
