/// A place of a program that a refusal names: an array, by its number; a function, by its number; a statement, by its
/// function's number and its own, which counts the function's statements in preorder, a then list before its else
/// list; or the program as a whole.
#[derive(Clone, Copy, Debug, PartialEq, Eq)]
pub enum CheckPlace {
    Shared(u32),
    Function(u32),
    Statement(u32, u32),
    Whole,
}
