ghost use Rattle.std.specs.Prelude.{◌≡◌};
ghost use Rattle.cilk_meaning.specs.Values.{operated, negated};

use cilk_meaning::TrapKind;
use cilk_tree::{BinaryOp, UnaryOp};

/// The value of an operator, or its trap.
pub fn operate(operator: BinaryOp, x: i64, y: i64) -> Result<i64, TrapKind>
    ensures { result ≡ operated operator x y }
{
    match operator {
        BinaryOp::Or => Ok((x != 0 || y != 0) as i64),
        BinaryOp::And => Ok((x != 0 && y != 0) as i64),
        BinaryOp::Eq => Ok((x == y) as i64),
        BinaryOp::Ne => Ok((x != y) as i64),
        BinaryOp::Lt => Ok((x < y) as i64),
        BinaryOp::Le => Ok((x <= y) as i64),
        BinaryOp::Gt => Ok((x > y) as i64),
        BinaryOp::Ge => Ok((x >= y) as i64),
        BinaryOp::Add => x.checked_add(y).ok_or(TrapKind::Overflow),
        BinaryOp::Sub => x.checked_sub(y).ok_or(TrapKind::Overflow),
        BinaryOp::Mul => x.checked_mul(y).ok_or(TrapKind::Overflow),
        BinaryOp::Div => quotient(x, y),
        BinaryOp::Rem => remainder(x, y),
    }
}

/// Rounded toward zero.
fn quotient(x: i64, y: i64) -> Result<i64, TrapKind>
    ensures { result ≡ operated BinaryOp.Div x y }
{
    if y == 0 {
        Err(TrapKind::DivideByZero)
    } else {
        x.checked_div(y).ok_or(TrapKind::Overflow)
    }
}

/// With the sign of the dividend.
fn remainder(x: i64, y: i64) -> Result<i64, TrapKind>
    ensures { result ≡ operated BinaryOp.Rem x y }
{
    if y == 0 {
        Err(TrapKind::DivideByZero)
    } else {
        Ok(x.wrapping_rem(y))
    }
}

/// The value of a unary operator, or its trap.
pub fn negate(operator: UnaryOp, x: i64) -> Result<i64, TrapKind>
    ensures { result ≡ negated operator x }
{
    match operator {
        UnaryOp::Neg => x.checked_neg().ok_or(TrapKind::Overflow),
        UnaryOp::Not => Ok((x == 0) as i64),
    }
}
