ghost use Rattle.cilk_tree.specs.Token.{keyword_text, sign_text};
ghost use Rattle.std.specs.Prelude.{◌≡◌};

use crate::name::Name;

/// A token of a text. A number has its value, which is not negative.
#[derive(Debug, Drop)]
pub enum Token {
    Name(Name),
    Number(i64),
    Word(Keyword),
    Mark(Sign),
}

/// A token of a text, and the offset of its first byte.
#[derive(Debug, Drop)]
pub struct Placed {
    pub offset: u64,
    pub token: Token,
}

/// The reserved words.
#[derive(Clone, Copy, Debug, PartialEq, Eq)]
pub enum Keyword {
    Cilk,
    CilkFor,
    Else,
    FetchAdd,
    For,
    If,
    Int,
    Print,
    Return,
    Spawn,
    Sync,
    Void,
    While,
}

impl Keyword {
    /// All the reserved words.
    pub const ALL: [Keyword; 13] = [
        Keyword::Cilk,
        Keyword::CilkFor,
        Keyword::Else,
        Keyword::FetchAdd,
        Keyword::For,
        Keyword::If,
        Keyword::Int,
        Keyword::Print,
        Keyword::Return,
        Keyword::Spawn,
        Keyword::Sync,
        Keyword::Void,
        Keyword::While,
    ];

    /// How the word is written.
    pub fn text(self) -> &'static [u8]
        ensures { result.now ≡ keyword_text self }
    {
        match self {
            Keyword::Cilk => b"cilk",
            Keyword::CilkFor => b"cilk_for",
            Keyword::Else => b"else",
            Keyword::FetchAdd => b"fetch_add",
            Keyword::For => b"for",
            Keyword::If => b"if",
            Keyword::Int => b"int",
            Keyword::Print => b"print",
            Keyword::Return => b"return",
            Keyword::Spawn => b"spawn",
            Keyword::Sync => b"sync",
            Keyword::Void => b"void",
            Keyword::While => b"while",
        }
    }
}

/// The signs.
#[derive(Clone, Copy, Debug, PartialEq, Eq)]
pub enum Sign {
    Plus,
    Minus,
    Star,
    Slash,
    Percent,
    Assign,
    Equal,
    NotEqual,
    Less,
    LessEqual,
    Greater,
    GreaterEqual,
    AndAnd,
    OrOr,
    Bang,
    PlusPlus,
    MinusMinus,
    PlusAssign,
    MinusAssign,
    OpenParen,
    CloseParen,
    OpenBracket,
    CloseBracket,
    OpenBrace,
    CloseBrace,
    Comma,
    Semicolon,
}

impl Sign {
    /// All the signs, a longer one before a shorter one.
    pub const ALL: [Sign; 27] = [
        Sign::Equal,
        Sign::NotEqual,
        Sign::LessEqual,
        Sign::GreaterEqual,
        Sign::AndAnd,
        Sign::OrOr,
        Sign::PlusPlus,
        Sign::MinusMinus,
        Sign::PlusAssign,
        Sign::MinusAssign,
        Sign::Plus,
        Sign::Minus,
        Sign::Star,
        Sign::Slash,
        Sign::Percent,
        Sign::Assign,
        Sign::Less,
        Sign::Greater,
        Sign::Bang,
        Sign::OpenParen,
        Sign::CloseParen,
        Sign::OpenBracket,
        Sign::CloseBracket,
        Sign::OpenBrace,
        Sign::CloseBrace,
        Sign::Comma,
        Sign::Semicolon,
    ];

    /// How the sign is written.
    pub fn text(self) -> &'static [u8]
        ensures { result.now ≡ sign_text self }
    {
        match self {
            Sign::Plus => b"+",
            Sign::Minus => b"-",
            Sign::Star => b"*",
            Sign::Slash => b"/",
            Sign::Percent => b"%",
            Sign::Assign => b"=",
            Sign::Equal => b"==",
            Sign::NotEqual => b"!=",
            Sign::Less => b"<",
            Sign::LessEqual => b"<=",
            Sign::Greater => b">",
            Sign::GreaterEqual => b">=",
            Sign::AndAnd => b"&&",
            Sign::OrOr => b"||",
            Sign::Bang => b"!",
            Sign::PlusPlus => b"++",
            Sign::MinusMinus => b"--",
            Sign::PlusAssign => b"+=",
            Sign::MinusAssign => b"-=",
            Sign::OpenParen => b"(",
            Sign::CloseParen => b")",
            Sign::OpenBracket => b"[",
            Sign::CloseBracket => b"]",
            Sign::OpenBrace => b"{",
            Sign::CloseBrace => b"}",
            Sign::Comma => b",",
            Sign::Semicolon => b";",
        }
    }
}
