//! The backing store at one node: the home of its pages.
#![tactic(auto)]

mod home;
mod places;
mod words;

pub use home::Home;
