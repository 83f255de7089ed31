ghost use Rattle.cilk_parser.specs.Phrases.{HasOperator, HasVariable, Lacks, LacksVariable, Parses, enclosed_phrase, expression_phrase, stops_below};
ghost use Rattle.cilk_parser.specs.Starts.{starts_operand};
ghost use Rattle.cilk_parser.specs.Steps.{sign_operator};
ghost use Rattle.std.specs.Prelude.{◌≡◌, ◌≤◌, ℕ, IfOk, IsTrue, MatchOption, MatchResult};

use crate::opening::Opening;
use crate::parser::Parser;
use crate::refusal::ParseRefusal;
use crate::starts::OperandStart;
use cilk_tree::{BinaryOp, Count, Counted, Expr, Name, Sign, Token, UnaryOp};
use sqlite_items::Boxed;
use std::alloc::{AllocError, Global};

impl<'a> Parser<'a> {
    /// Reads an expression whose operators bind at least as strongly as `least`, up to where it cannot go on. `level`
    /// is the level of its tokens.
    #[cycle(expression)]
    pub(crate) fn expression(
        &mut self,
        least: u8,
        level: u64,
        opening: Opening,
    ) -> Result<Expr, ParseRefusal>
        ensures reads { MatchResult result (λ tree. Parses (expression_phrase least level opening) self.old self.new tree) (λ refusal. Lacks (expression_phrase least level opening) self.old refusal) }
        ensures stops { IfOk result (λ _. IsTrue (stops_below least self.new.left)) }
    {
        let mut left = self.operand(level, opening)?;
        while let Some(operator) = self.operator(least) {
            self.pass(level, &[Count::OneMore(Counted::Operators)])?;
            let right = self.expression(operator.strength() + 1, level, Opening::Inside)?;
            left = binary(self.alloc(), operator, left, right)?;
        }
        Ok(left)
    }

    /// Reads an expression of this level, and the sign that closes it, which has the level `closing_level`.
    #[cycle(expression)]
    pub(crate) fn enclosed(
        &mut self,
        level: u64,
        opening: Opening,
        closing: Sign,
        closing_level: u64,
    ) -> Result<Expr, ParseRefusal>
        ensures { MatchResult result (λ tree. Parses (enclosed_phrase level opening closing closing_level) self.old self.new tree) (λ refusal. Lacks (enclosed_phrase level opening closing closing_level) self.old refusal) }
    {
        let inner = self.expression(0, level, opening)?;
        self.sign(closing, closing_level)?;
        Ok(inner)
    }

    /// Reads what is no operation of two operands.
    #[cycle(expression)]
    fn operand(&mut self, level: u64, opening: Opening) -> Result<Expr, ParseRefusal>
        ensures { (least : ℕ) → MatchResult result (λ tree. Parses (expression_phrase least level opening) self.old self.new tree) (λ refusal. Lacks (expression_phrase least level opening) self.old refusal) }
    {
        match self.operand_start() {
            OperandStart::Number(value) => {
                self.pass(level, opening.counts())?;
                Ok(Expr::Number(value))
            }
            OperandStart::Name => {
                let name = self.name(level, opening.counts())?;
                self.variable(level, name)
            }
            OperandStart::Group => self.group(level, opening),
            OperandStart::Prefix(operator) => self.prefix(operator, level, opening),
            OperandStart::Other => Err(self.unexpected()),
        }
    }

    /// Reads an expression in parentheses.
    #[cycle(expression)]
    fn group(&mut self, level: u64, opening: Opening) -> Result<Expr, ParseRefusal>
        requires { starts_operand self.old.left ≡ OperandStart.Group }
        ensures { (least : ℕ) → MatchResult result (λ tree. Parses (expression_phrase least level opening) self.old self.new tree) (λ refusal. Lacks (expression_phrase least level opening) self.old refusal) }
    {
        self.pass(level, opening.counts())?;
        self.enclosed(level + 1, Opening::Inside, Sign::CloseParen, level)
    }

    /// Reads a unary operator and its operand.
    #[cycle(expression)]
    fn prefix(
        &mut self,
        operator: UnaryOp,
        level: u64,
        opening: Opening,
    ) -> Result<Expr, ParseRefusal>
        requires { starts_operand self.old.left ≡ OperandStart.Prefix operator }
        ensures { (least : ℕ) → MatchResult result (λ tree. Parses (expression_phrase least level opening) self.old self.new tree) (λ refusal. Lacks (expression_phrase least level opening) self.old refusal) }
    {
        self.pass(level, opening.operator_counts())?;
        let operand = self.operand(level + 1, Opening::Inside)?;
        Ok(Expr::Unary(operator, Boxed::new(self.alloc(), operand)?))
    }

    /// Reads the index behind a name, where one follows.
    #[cycle(expression)]
    fn variable(&mut self, level: u64, name: Name) -> Result<Expr, ParseRefusal>
        requires { level ≤ 64 }
        ensures { MatchResult result (λ tree. HasVariable level name self.old self.new tree) (λ refusal. LacksVariable level name self.old refusal) }
    {
        if !self.is_at(Sign::OpenBracket) {
            return Ok(Expr::Local(name));
        }
        self.pass(level, &[])?;
        let index = self.enclosed(level + 1, Opening::Inside, Sign::CloseBracket, level)?;
        Ok(Expr::Get(name, Boxed::new(self.alloc(), index)?))
    }

    /// How the operand begins that stands first.
    fn operand_start(&self) -> OperandStart
        ensures { result ≡ starts_operand self.now.left }
    {
        self.first()
            .map_or(OperandStart::Other, |token| OperandStart::of(token))
    }

    /// The operator that stands first, where it binds at least as strongly as `least`.
    fn operator(&self, least: u8) -> Option<BinaryOp>
        ensures { MatchOption result (IsTrue (stops_below least self.now.left)) (λ operator. HasOperator least self.now.left operator) }
    {
        let Token::Mark(sign) = self.first()? else {
            return None;
        };
        let operator = operator_of(*sign)?;
        (operator.strength() >= least).then_some(operator)
    }
}

/// The operator that the sign stands for between two operands.
fn operator_of(sign: Sign) -> Option<BinaryOp>
    ensures { result ≡ sign_operator sign }
{
    match sign {
        Sign::OrOr => Some(BinaryOp::Or),
        Sign::AndAnd => Some(BinaryOp::And),
        Sign::Equal => Some(BinaryOp::Eq),
        Sign::NotEqual => Some(BinaryOp::Ne),
        Sign::Less => Some(BinaryOp::Lt),
        Sign::LessEqual => Some(BinaryOp::Le),
        Sign::Greater => Some(BinaryOp::Gt),
        Sign::GreaterEqual => Some(BinaryOp::Ge),
        Sign::Plus => Some(BinaryOp::Add),
        Sign::Minus => Some(BinaryOp::Sub),
        Sign::Star => Some(BinaryOp::Mul),
        Sign::Slash => Some(BinaryOp::Div),
        Sign::Percent => Some(BinaryOp::Rem),
        _ => None,
    }
}

/// The operation on the two operands.
pub(crate) fn binary(
    alloc: Global,
    operator: BinaryOp,
    left: Expr,
    right: Expr,
) -> Result<Expr, AllocError>
    ensures { IfOk result (λ tree. tree ≡ Expr.Binary operator left right) }
{
    let left = Boxed::new(alloc, left)?;
    let right = Boxed::new(alloc, right)?;
    Ok(Expr::Binary(operator, left, right))
}
