//! The rows of `serial` and `race`.
mod racing;
mod running;
