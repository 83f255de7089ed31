ghost use Rattle.std.specs.Prelude.{◌≡◌, ◌++◌, codes, OnOk};
ghost use Rattle.std.specs.Fmt.{signed_decimal};
ghost use Rattle.cilk_tree.specs.Canonical.{plain_expression, grouped, gap_between, expression_text, expr_text};
ghost use Rattle.cilk_tree.specs.Levels.{operator_sign, unary_sign};
ghost use Rattle.cilk_tree.specs.Syntax.{strength};
ghost use Rattle.cilk_tree.specs.Token.{sign_text};

use crate::token::Sign;
use crate::tree::{BinaryOp, Expr, UnaryOp};
use std::alloc::{AllocError, Global};

/// How strongly a unary operator binds its operand.
const UNARY: u8 = 7;

/// Appends the expression, with the parentheses that it needs and no others.
#[cycle(expression)]
pub(crate) fn push_expression(
    alloc: Global,
    text: &mut Vec<u8>,
    expr: &Expr,
) -> Result<(), AllocError>
    ensures { OnOk result (text.new.items ≡ text.old.items ++ expr_text expr.now) }
{
    match expr {
        Expr::Number(value) => push_number(alloc, text, *value),
        Expr::Local(name) => text.extend_from_slice(name.items()),
        Expr::Get(name, index) => {
            text.extend_from_slice(name.items())?;
            text.extend_from_slice(b"[")?;
            push_expression(alloc, text, index.get())?;
            text.extend_from_slice(b"]")
        }
        Expr::Unary(operator, operand) => {
            text.extend_from_slice(sign_before(*operator).text())?;
            push_gap(text, *operator, operand.get())?;
            push_operand(alloc, text, UNARY, operand.get())
        }
        Expr::Binary(operator, left, right) => {
            let least = operator.strength();
            push_operand(alloc, text, least, left.get())?;
            push_between(text, *operator)?;
            push_operand(alloc, text, least + 1, right.get())
        }
    }
}

/// Appends the expression, in parentheses where it binds weaker than this.
#[cycle(expression)]
fn push_operand(alloc: Global, text: &mut Vec<u8>, least: u8, expr: &Expr) -> Result<(), AllocError>
    ensures { OnOk result (text.new.items ≡ text.old.items ++ expression_text (grouped least (plain_expression expr.now))) }
{
    if least <= strength_of(expr) {
        push_expression(alloc, text, expr)
    } else {
        text.extend_from_slice(b"(")?;
        push_expression(alloc, text, expr)?;
        text.extend_from_slice(b")")
    }
}

fn push_number(alloc: Global, text: &mut Vec<u8>, value: i64) -> Result<(), AllocError>
    ensures { OnOk result (text.new.items ≡ text.old.items ++ signed_decimal value) }
{
    let digits = format!(in alloc; "{value}")?;
    text.extend_from_slice(digits.as_bytes())
}

/// Appends the blank between two unary `-`, which together would be another sign.
fn push_gap(text: &mut Vec<u8>, operator: UnaryOp, operand: &Expr) -> Result<(), AllocError>
    ensures { OnOk result (text.new.items ≡ text.old.items ++ gap_between operator (grouped 7 (plain_expression operand.now))) }
{
    match (operator, operand) {
        (UnaryOp::Neg, Expr::Unary(UnaryOp::Neg, _)) => text.extend_from_slice(b" "),
        _ => Ok(()),
    }
}

/// Appends the operator with a blank on either side.
fn push_between(text: &mut Vec<u8>, operator: BinaryOp) -> Result<(), AllocError>
    ensures { OnOk result (text.new.items ≡ text.old.items ++ (codes " " ++ sign_text (operator_sign operator) ++ codes " ")) }
{
    text.extend_from_slice(b" ")?;
    text.extend_from_slice(sign_between(operator).text())?;
    text.extend_from_slice(b" ")
}

/// How strongly the parts of the expression hold together as it is printed.
fn strength_of(expr: &Expr) -> u8
    ensures { result ≡ strength (plain_expression expr.now) }
{
    match expr {
        Expr::Number(_) | Expr::Local(_) | Expr::Get(_, _) => 8,
        Expr::Unary(_, _) => UNARY,
        Expr::Binary(operator, _, _) => operator.strength(),
    }
}

/// The sign of the operator between two operands.
fn sign_between(operator: BinaryOp) -> Sign
    ensures { result ≡ operator_sign operator }
{
    match operator {
        BinaryOp::Or => Sign::OrOr,
        BinaryOp::And => Sign::AndAnd,
        BinaryOp::Eq => Sign::Equal,
        BinaryOp::Ne => Sign::NotEqual,
        BinaryOp::Lt => Sign::Less,
        BinaryOp::Le => Sign::LessEqual,
        BinaryOp::Gt => Sign::Greater,
        BinaryOp::Ge => Sign::GreaterEqual,
        BinaryOp::Add => Sign::Plus,
        BinaryOp::Sub => Sign::Minus,
        BinaryOp::Mul => Sign::Star,
        BinaryOp::Div => Sign::Slash,
        BinaryOp::Rem => Sign::Percent,
    }
}

/// The sign of the operator before its operand.
fn sign_before(operator: UnaryOp) -> Sign
    ensures { result ≡ unary_sign operator }
{
    match operator {
        UnaryOp::Neg => Sign::Minus,
        UnaryOp::Not => Sign::Bang,
    }
}
