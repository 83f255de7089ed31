ghost use Rattle.cilk_parser.specs.Steps.{is_mark};
ghost use Rattle.cilk_parser.specs.Tally.{none_counted, is_over};
ghost use Rattle.cilk_tree.specs.declared.ending.Ending.TheVariants.{Reached};
ghost use Rattle.std.specs.Prelude.{◌≡◌, ◌≢◌, ◌≤◌, ◌↔◌, [], false, length, drop, IsTrue, MatchOption, MatchResult};
ghost use Rattle.cilk_tree.specs.Counts.{is_long};
ghost use Rattle.cilk_parser.specs.Spots.{StartsAt, HasNamed, HasPassed, HasRead, HasSize, IsOver, LacksName, LacksSign, LacksSize, end_refusal, is_keyword, is_name_before, is_sign, is_keyword_token, unexpected_of};

use crate::refusal::ParseRefusal;
use crate::tallies::Tallies;
use cilk_tree::{Count, Ending, Keyword, Kind, Name, Placed, Sign, Token};
use std::alloc::{AllocError, Global};
use std::marker::Model;

/// The deepest level that a token may have.
const DEEPEST_LEVEL: u64 = 64;

/// How many bytes a name may have.
const LONGEST_NAME: usize = 63;

/// The end of a text: its size in bytes, and how its tokens end.
#[derive(Clone, Copy, Debug, PartialEq, Eq)]
pub struct End {
    pub size: u64,
    pub ending: Ending,
}

impl End {
    /// The refusal where the tokens end too early.
    fn refusal(&self) -> ParseRefusal
        ensures { result ≡ end_refusal self.now.size self.now.ending }
    {
        match self.ending {
            Ending::Reached => ParseRefusal::At(Kind::Unexpected, self.size),
            Ending::Stopped(kind, place) => ParseRefusal::At(kind, place),
        }
    }
}

/// Whether the token is a name that is too long.
fn is_long(token: &Token) -> bool
    ensures { result ≡ is_long token.now }
{
    match token {
        Token::Name(name) => name.items().len() > LONGEST_NAME,
        Token::Number(_) | Token::Word(_) | Token::Mark(_) => false,
    }
}

/// Reads the tokens of a text from the front, and counts.
#[derive(Drop)]
pub(crate) struct Parser<'a> {
    alloc: Global,
    end: End,
    tallies: Tallies,
    left: &'a [Placed],
}

impl<'a> Model for Parser<'a> {
    ghost use Rattle.std.specs.Prelude.{◌≡◌, false};
    ghost use Rattle.cilk_parser.specs.Spots.{Spot};
    ghost use Rattle.cilk_parser.specs.Tally.{is_over};

    ghost Value = { Spot };

    ghost view = { λ parser. record { end = parser.end; tallies = parser.tallies; left = parser.left.now } };

    ghost invariant = { λ parser. is_over parser.tallies ≡ false };
}

impl<'a> Parser<'a> {
    /// Begins with these tokens, of a text that ends so.
    pub(crate) fn new(alloc: Global, places: &'a [Placed], end: End) -> Self
        ensures { result ≡ record { end = end; tallies = none_counted; left = places.now } }
    {
        Parser {
            alloc,
            end,
            tallies: Tallies::none(),
            left: places,
        }
    }

    /// What memory is taken from.
    pub(crate) fn alloc(&self) -> Global {
        self.alloc
    }

    /// The first token.
    pub(crate) fn first(&self) -> Option<&'a Token>
        ensures { MatchOption result (self.now.left ≡ []) (λ token. StartsAt token.now self.now.left) }
    {
        Some(&self.left.first()?.token)
    }

    /// Whether the sign stands first.
    pub(crate) fn is_at(&self, sign: Sign) -> bool
        ensures { result ≡ is_sign sign self.now.left }
    {
        self.left
            .first()
            .is_some_and(|placed| is_mark(&placed.token, sign))
    }

    /// Whether the reserved word stands first.
    pub(crate) fn is_at_keyword(&self, word: Keyword) -> bool
        ensures { result ≡ is_keyword word self.now.left }
    {
        self.left
            .first()
            .is_some_and(|placed| is_keyword_token(&placed.token, word))
    }

    /// The refusal of the first token, or of the end where none is left.
    pub(crate) fn unexpected(&self) -> ParseRefusal
        ensures { result ≡ unexpected_of self.now.end self.now.left }
    {
        match self.left.first() {
            Some(placed) => ParseRefusal::At(Kind::Unexpected, placed.offset),
            None => self.end.refusal(),
        }
    }

    /// Passes the first token, which has this level and counts as this, unless it is too deep or passes a limit.
    pub(crate) fn pass(&mut self, level: u64, counts: &[Count]) -> Result<(), ParseRefusal>
        requires some { self.old.left ≢ [] }
        requires few { length counts.now ≤ 3 }
        ensures { MatchResult result (λ _. HasPassed level counts.now self.old self.new) (λ refusal. IsOver level counts.now self.old refusal) }
    {
        let Some((placed, rest)) = self.left.split_first() else {
            unreachable!()
        };
        if level > DEEPEST_LEVEL {
            return Err(ParseRefusal::At(Kind::TooDeep, placed.offset));
        }
        let tallies = self.tallies.after(counts);
        if tallies.is_over() || is_long(&placed.token) {
            return Err(ParseRefusal::At(Kind::TooMany, placed.offset));
        }
        self.tallies = tallies;
        self.left = rest;
        Ok(())
    }

    /// Reads the sign, which has this level.
    pub(crate) fn sign(&mut self, sign: Sign, level: u64) -> Result<(), ParseRefusal>
        ensures { MatchResult result (λ _. HasRead sign level self.old self.new) (λ refusal. LacksSign sign level self.old refusal) }
    {
        if !self.is_at(sign) {
            return Err(self.unexpected());
        }
        self.pass(level, &[])
    }

    /// Reads a name, which has this level and counts as this.
    pub(crate) fn name(&mut self, level: u64, counts: &[Count]) -> Result<Name, ParseRefusal>
        requires { length counts.now ≤ 3 }
        ensures { MatchResult result (λ name. HasNamed level counts.now name self.old self.new) (λ refusal. LacksName level counts.now self.old refusal) }
    {
        let Some(Token::Name(name)) = self.first() else {
            return Err(self.unexpected());
        };
        let name = Name::from_slice(self.alloc, name.items())?;
        self.pass(level, counts)?;
        Ok(name)
    }

    /// Reads how many words an array has.
    pub(crate) fn array_size(&mut self) -> Result<u64, ParseRefusal>
        ensures { MatchResult result (λ words. HasSize words self.old self.new) (λ refusal. LacksSize self.old refusal) }
    {
        let Some(Token::Number(value)) = self.first() else {
            return Err(self.unexpected());
        };
        let Ok(words) = u64::try_from(*value) else {
            return Err(self.unexpected());
        };
        self.pass(0, &[])?;
        Ok(words)
    }

    /// Whether a name stands first, and the sign behind it.
    pub(crate) fn is_name_before(&self, sign: Sign) -> bool
        ensures { result ≡ is_name_before sign self.now.left }
    {
        is_name_before(self.left, sign)
    }

    /// Whether a name and a parenthesis stand first. No limit was passed before.
    pub(crate) fn is_at_call(&self) -> bool
        ensures same { result ≡ is_name_before Sign.OpenParen self.now.left }
        ensures within { is_over self.now.tallies ≡ false }
    {
        is_name_before(self.left, Sign::OpenParen)
    }

    /// Whether a name and a parenthesis stand behind the first token.
    pub(crate) fn is_before_call(&self) -> bool
        ensures { result ≡ is_name_before Sign.OpenParen (drop 1 self.now.left) }
    {
        match self.left.split_first() {
            Some((_, rest)) => is_name_before(rest, Sign::OpenParen),
            None => false,
        }
    }

    /// Whether no token is left.
    pub(crate) fn is_done(&self) -> bool
        ensures { IsTrue result ↔ (self.now.left ≡ []) }
    {
        self.left.is_empty()
    }

    /// What is answered where the program is whole and the tokens end.
    pub(crate) fn finish(&self) -> Result<(), ParseRefusal>
        ensures { MatchResult result (λ _. self.now.end.ending ≡ Reached) (λ refusal. (self.now.end.ending ≢ Reached) × (refusal ≡ end_refusal self.now.end.size self.now.end.ending)) }
    {
        match self.end.ending {
            Ending::Reached => Ok(()),
            Ending::Stopped(_, _) => Err(self.end.refusal()),
        }
    }
}

/// Whether a name stands first, and the sign behind it.
fn is_name_before(left: &[Placed], sign: Sign) -> bool
    ensures { result ≡ is_name_before sign left.now }
{
    let Some((first, rest)) = left.split_first() else {
        return false;
    };
    let Some(second) = rest.first() else {
        return false;
    };
    matches!(first.token, Token::Name(_)) && is_mark(&second.token, sign)
}

/// Whether the token is the sign.
fn is_mark(token: &Token, sign: Sign) -> bool
    ensures { result ≡ is_mark sign token.now }
{
    match token {
        Token::Mark(other) => sign.text() == other.text(),
        Token::Name(_) | Token::Number(_) | Token::Word(_) => false,
    }
}

/// Whether the token is the reserved word.
fn is_keyword_token(token: &Token, word: Keyword) -> bool
    ensures { result ≡ is_keyword_token word token.now }
{
    match token {
        Token::Word(other) => word.text() == other.text(),
        Token::Name(_) | Token::Number(_) | Token::Mark(_) => false,
    }
}
