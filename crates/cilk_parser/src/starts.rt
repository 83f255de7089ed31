ghost use Rattle.cilk_parser.specs.Starts.{operand_start, statement_start, simple_start, item_start};
ghost use Rattle.std.specs.Prelude.{◌≡◌};

use cilk_tree::{BinaryOp, Keyword, Sign, Token, UnaryOp};

/// How an operand begins.
#[derive(Clone, Copy)]
pub(crate) enum OperandStart {
    Number(i64),
    Name,
    Group,
    Prefix(UnaryOp),
    Other,
}

impl OperandStart {
    pub(crate) fn of(token: &Token) -> Self
        ensures { result ≡ operand_start token.now }
    {
        match token {
            Token::Number(value) => OperandStart::Number(*value),
            Token::Name(_) => OperandStart::Name,
            Token::Word(_) => OperandStart::Other,
            Token::Mark(sign) => match sign {
                Sign::OpenParen => OperandStart::Group,
                Sign::Minus => OperandStart::Prefix(UnaryOp::Neg),
                Sign::Bang => OperandStart::Prefix(UnaryOp::Not),
                _ => OperandStart::Other,
            },
        }
    }
}

/// How a statement begins that is no declaration and no block.
#[derive(Clone, Copy)]
pub(crate) enum StatementStart {
    Empty,
    Name,
    Spawn,
    Add,
    Sync,
    If,
    While,
    For,
    Print,
    Return,
    Other,
}

impl StatementStart {
    pub(crate) fn of(token: &Token) -> Self
        ensures { result ≡ statement_start token.now }
    {
        match token {
            Token::Number(_) => StatementStart::Other,
            Token::Name(_) => StatementStart::Name,
            Token::Word(word) => match word {
                Keyword::Spawn => StatementStart::Spawn,
                Keyword::FetchAdd => StatementStart::Add,
                Keyword::Sync => StatementStart::Sync,
                Keyword::If => StatementStart::If,
                Keyword::While => StatementStart::While,
                Keyword::For => StatementStart::For,
                Keyword::Print => StatementStart::Print,
                Keyword::Return => StatementStart::Return,
                _ => StatementStart::Other,
            },
            Token::Mark(sign) => match sign {
                Sign::Semicolon => StatementStart::Empty,
                _ => StatementStart::Other,
            },
        }
    }
}

/// What follows the name that begins an assignment, a step or a store. A step or a change has its operator.
#[derive(Clone, Copy)]
pub(crate) enum SimpleStart {
    Assign,
    Change(BinaryOp),
    Step(BinaryOp),
    Index,
    Other,
}

impl SimpleStart {
    pub(crate) fn of(token: &Token) -> Self
        ensures { result ≡ simple_start token.now }
    {
        match token {
            Token::Number(_) | Token::Name(_) | Token::Word(_) => SimpleStart::Other,
            Token::Mark(sign) => match sign {
                Sign::Assign => SimpleStart::Assign,
                Sign::PlusAssign => SimpleStart::Change(BinaryOp::Add),
                Sign::MinusAssign => SimpleStart::Change(BinaryOp::Sub),
                Sign::PlusPlus => SimpleStart::Step(BinaryOp::Add),
                Sign::MinusMinus => SimpleStart::Step(BinaryOp::Sub),
                Sign::OpenBracket => SimpleStart::Index,
                _ => SimpleStart::Other,
            },
        }
    }
}

/// How an item begins.
#[derive(Clone, Copy)]
pub(crate) enum ItemStart {
    Cilk,
    Void,
    Int,
    Other,
}

impl ItemStart {
    pub(crate) fn of(token: &Token) -> Self
        ensures { result ≡ item_start token.now }
    {
        match token {
            Token::Number(_) | Token::Name(_) | Token::Mark(_) => ItemStart::Other,
            Token::Word(word) => match word {
                Keyword::Cilk => ItemStart::Cilk,
                Keyword::Void => ItemStart::Void,
                Keyword::Int => ItemStart::Int,
                _ => ItemStart::Other,
            },
        }
    }
}
