//! The syntax tree of a Cilk program, the words and signs that its text is made of, and what text
//! spells what tree.
#![tactic(auto)]

mod count;
mod ending;
mod kind;
mod name;
mod place;
mod printing;
mod rule;
mod token;
mod tree;

pub use count::{Count, Counted};
pub use ending::Ending;
pub use kind::Kind;
pub use name::Name;
pub use place::CheckPlace;
pub use printing::print_program;
pub use rule::Rule;
pub use token::{Keyword, Placed, Sign, Token};
pub use tree::{BinaryOp, Expr, Function, Program, Shared, Stmt, UnaryOp};
