ghost use Rattle.cilk_tree.specs.Syntax.{operator_strength};
ghost use Rattle.std.specs.Prelude.{◌≡◌, ◌<◌};

use crate::name::Name;
use sqlite_items::{Boxed, Items};

/// A whole source file: its shared arrays and its functions, each in order of declaration.
#[derive(Debug, Drop)]
pub struct Program {
    pub shared: Items<Shared>,
    pub functions: Items<Function>,
}

/// A shared array: its name and how many words it has.
#[derive(Debug, Drop)]
pub struct Shared {
    pub name: Name,
    pub words: u64,
}

/// A function. `cilk` says whether it is a `cilk` procedure, and `gives` whether it gives a value
/// (`int`) or not (`void`).
#[derive(Debug, Drop)]
pub struct Function {
    pub cilk: bool,
    pub gives: bool,
    pub name: Name,
    pub params: Items<Name>,
    pub body: Items<Stmt>,
}

/// A statement.
#[derive(Debug, Drop)]
pub enum Stmt {
    /// `int x;`
    Declare(Name),
    /// `x = e;`
    Assign(Name, Expr),
    /// `a[i] = e;`, the index first
    Put(Name, Expr, Expr),
    /// `print(e);`
    Print(Expr),
    /// the condition, the statements where it holds, and those of `else`
    If(Expr, Items<Stmt>, Items<Stmt>),
    While(Expr, Items<Stmt>),
    Block(Items<Stmt>),
    /// the target, the function and the arguments
    Call(Option<Name>, Name, Items<Expr>),
    /// the target, the procedure and the arguments
    Spawn(Option<Name>, Name, Items<Expr>),
    /// `x = fetch_add(a[i], e);`: the target, the array, the index and the addend
    Add(Option<Name>, Name, Expr, Expr),
    Sync,
    Return(Option<Expr>),
}

/// An expression.
#[derive(Debug, Drop)]
pub enum Expr {
    Number(i64),
    Local(Name),
    /// `a[i]`
    Get(Name, Boxed<Expr>),
    Unary(UnaryOp, Boxed<Expr>),
    /// the operator, its left operand and its right one
    Binary(BinaryOp, Boxed<Expr>, Boxed<Expr>),
}

#[derive(Clone, Copy, Debug, PartialEq, Eq)]
pub enum UnaryOp {
    Neg,
    Not,
}

#[derive(Clone, Copy, Debug, PartialEq, Eq)]
pub enum BinaryOp {
    Or,
    And,
    Eq,
    Ne,
    Lt,
    Le,
    Gt,
    Ge,
    Add,
    Sub,
    Mul,
    Div,
    Rem,
}

impl BinaryOp {
    /// How strongly the operator binds its operands.
    pub fn strength(self) -> u8
        ensures value { result ≡ operator_strength self }
        ensures few { result < 7 }
    {
        match self {
            BinaryOp::Or => 1,
            BinaryOp::And => 2,
            BinaryOp::Eq | BinaryOp::Ne => 3,
            BinaryOp::Lt | BinaryOp::Le | BinaryOp::Gt | BinaryOp::Ge => 4,
            BinaryOp::Add | BinaryOp::Sub => 5,
            BinaryOp::Mul | BinaryOp::Div | BinaryOp::Rem => 6,
        }
    }
}
