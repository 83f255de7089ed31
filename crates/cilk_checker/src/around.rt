use crate::globals::Globals;
use cilk_tree::Function;

/// What is the same at all statements of a function: its program's names, the function and its number.
#[derive(Clone, Copy)]
pub(crate) struct Around<'s, 'a> {
    pub(crate) globals: &'s Globals<'a>,
    pub(crate) function: &'a Function,
    pub(crate) number: u32,
}
