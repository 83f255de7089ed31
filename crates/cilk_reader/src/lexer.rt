ghost use Rattle.std.specs.Prelude.{◌≡◌, ◌+◌, ◌^◌, ◌<◌, ◌≤◌, ℕ, ◌++◌, ◌==◌, not, List, length, drop, IfOk, IsTrue, IsFalse, MatchOption};
ghost use Rattle.std.specs.List.{list_all, prefix_len};
ghost use Rattle.cilk_tree.specs.declared.ending.Ending.{Ending};
ghost use Rattle.cilk_tree.specs.declared.token.Placed.{Placed};
ghost use Rattle.cilk_tree.specs.declared.token.Token.TheVariants.{Number};
ghost use Rattle.cilk_tree.specs.Lexeme.{Divides, has_close, has_longer_sign, is_blank, is_digit, is_reserved, is_word, starts, IsLexeme, IsNumeral};
ghost use Rattle.cilk_tree.specs.Token.{keyword_text, sign_text};
ghost use Rattle.cilk_reader.specs.Heads.{begins_piece, past_line, IsCommentBody, IsPieceBefore, IsGapBefore, IsHead};

use cilk_tree::{Ending, Keyword, Kind, Name, Placed, Sign, Token};
use std::alloc::{AllocError, Global};
use std::str;

/// The tokens of a text with their offsets, and where they end.
#[derive(Debug, Drop)]
pub(crate) struct Division {
    pub(crate) places: Vec<Placed>,
    pub(crate) ending: Ending,
}

/// What a text begins with that begins with no blank and no whole comment.
#[derive(Drop)]
enum Head<'a> {
    /// a token, and the text after it
    Token(Token, &'a [u8]),
    /// no token
    End(Ending),
}

/// Divides the text into its tokens, as far as it can be divided.
pub(crate) fn divide(alloc: Global, text: &[u8]) -> Result<Division, AllocError>
    ensures divides { IfOk result (λ division. Divides 0 text.now division.places.items division.ending) }
    // There is no other division.
    ensures only { (places : List Placed) (ending : Ending) → Divides 0 text.now places ending →
        IfOk result (λ division. (division.places.items ≡ places) × (division.ending ≡ ending)) }
{
    let mut places = Vec::new(alloc);
    let mut rest = text;
    loop {
        let start = after_gap(rest);
        let offset = (text.len() - start.len()) as u64;
        match head_of(alloc, start, offset)? {
            Head::Token(token, after) => {
                places.push(Placed { offset, token })?;
                rest = after;
            }
            Head::End(ending) => return Ok(Division { places, ending }),
        }
    }
}

/// The text after all the blanks and whole comments that it begins with.
fn after_gap(text: &[u8]) -> &[u8]
    ensures gap { IsGapBefore text.now result.now }
    ensures whole { IsFalse (begins_piece result.now) }
{
    let mut rest = text;
    while let Some(after) = after_piece(rest) {
        rest = after;
    }
    rest
}

/// The text after the blank or the whole comment that it begins with.
fn after_piece(text: &[u8]) -> Option<&[u8]>
    ensures { MatchOption result (IsFalse (begins_piece text.now)) (λ rest. IsPieceBefore text.now rest.now) }
{
    if let Some(body) = text.strip_prefix(b"//") {
        return Some(after_line(body));
    }
    if let Some(body) = text.strip_prefix(b"/*") {
        return after_close(body);
    }
    let (first, rest) = text.split_first()?;
    is_blank(*first).then_some(rest)
}

/// The text from the end of its first line on.
fn after_line(text: &[u8]) -> &[u8]
    ensures { result.now ≡ past_line text.now }
{
    &text[line_len(text)..]
}

/// How many bytes stand before the end of the text's first line.
fn line_len(text: &[u8]) -> usize
    ensures longest { result ≡ prefix_len (λ byte. not (byte == 10)) text.now }
    ensures within { result ≤ length text.now }
{
    text.iter().take_while(|byte| **byte != b'\n').count()
}

/// The text after the first `*/` in it.
fn after_close(text: &[u8]) -> Option<&[u8]>
    ensures { MatchOption result (IsFalse (has_close text.now)) (λ rest. IsCommentBody text.now rest.now) }
{
    let mut rest = text;
    while let Some((_, after)) = rest.split_first() {
        if let Some(behind) = rest.strip_prefix(b"*/") {
            return Some(behind);
        }
        rest = after;
    }
    None
}

/// What the text at this offset begins with, with no gap before it.
fn head_of(alloc: Global, text: &[u8], offset: u64) -> Result<Head, AllocError>
    requires whole { IsFalse (begins_piece text.now) }
    requires fits { offset + length text.now < 2 ^ 64 }
    ensures { IfOk result (λ found. IsHead offset text.now found) }
{
    match text.first() {
        None => Ok(Head::End(Ending::Reached)),
        Some(first) if is_word(*first) => word_head(alloc, text, offset),
        Some(_) => Ok(sign_head(text, offset)),
    }
}

/// What a text that begins with a letter, a digit or `_` begins with.
fn word_head(alloc: Global, text: &[u8], offset: u64) -> Result<Head, AllocError>
    requires { IsTrue (starts is_word text.now) }
    ensures { IfOk result (λ found. IsHead offset text.now found) }
{
    let (word, rest) = split_word(text);
    Ok(match word_token(alloc, word)? {
        Some(token) => Head::Token(token, rest),
        None => Head::End(Ending::Stopped(Kind::BadNumber, offset)),
    })
}

/// What a text begins with that begins with no letter, digit or `_`.
fn sign_head(text: &[u8], offset: u64) -> Head
    requires some { 0 < length text.now }
    requires plain { IsFalse (starts is_word text.now) }
    requires whole { IsFalse (begins_piece text.now) }
    requires fits { offset + length text.now < 2 ^ 64 }
    ensures { IsHead offset text.now result }
{
    if text.starts_with(b"/*") {
        return Head::End(Ending::Stopped(Kind::Unexpected, offset + text.len() as u64));
    }
    match sign_at(text) {
        Some(sign) => Head::Token(Token::Mark(sign), &text[sign.text().len()..]),
        None => Head::End(Ending::Stopped(Kind::BadByte, offset)),
    }
}

/// The letters, digits and `_` that the text begins with, and what follows them.
fn split_word(text: &[u8]) -> (&[u8], &[u8])
    ensures parts { text.now ≡ result.0.now ++ result.1.now }
    ensures word { IsTrue (list_all is_word result.0.now) }
    ensures whole { IsFalse (starts is_word result.1.now) }
{
    text.split_at(word_len(text))
}

/// How many letters, digits and `_` the text begins with.
fn word_len(text: &[u8]) -> usize
    ensures longest { result ≡ prefix_len is_word text.now }
    ensures within { result ≤ length text.now }
{
    text.iter().take_while(|byte| is_word(**byte)).count()
}

fn is_blank(byte: u8) -> bool
    ensures { result ≡ is_blank byte }
{
    // From tab to carriage return stand the ends of a line and form feed too.
    matches!(byte, b'\t'..=b'\r' | b' ')
}

fn is_word(byte: u8) -> bool
    ensures { result ≡ is_word byte }
{
    byte.is_ascii_alphanumeric() || byte == b'_'
}

/// The token that a whole run of letters, digits and `_` is, where it is no number that is written wrong.
fn word_token(alloc: Global, word: &[u8]) -> Result<Option<Token>, AllocError>
    requires some { 0 < length word.now }
    requires word { IsTrue (list_all is_word word.now) }
    ensures { IfOk result (λ read. MatchOption read
        (IsTrue (starts is_digit word.now) × ((n : ℕ) → IsNumeral word.now n → ⊥))
        (λ token. IsLexeme word.now token)) }
{
    if word[0].is_ascii_digit() {
        return Ok(number_of(word).map(Token::Number));
    }
    if let Some(keyword) = keyword_of(word) {
        return Ok(Some(Token::Word(keyword)));
    }
    Ok(Some(Token::Name(Name::from_slice(alloc, word)?)))
}

/// The number that the word is in decimal, without leading zeros.
fn number_of(word: &[u8]) -> Option<i64>
    requires { IsTrue (list_all is_word word.now) }
    ensures { MatchOption result ((n : ℕ) → IsNumeral word.now n → ⊥) (λ value. IsLexeme word.now (Number value)) }
{
    if word.len() > 1 && word[0] == b'0' {
        return None;
    }
    str::from_utf8(word).ok()?.parse().ok()
}

/// The reserved word that the word is.
fn keyword_of(word: &[u8]) -> Option<Keyword>
    ensures { MatchOption result (IsFalse (is_reserved word.now)) (λ keyword. word.now ≡ keyword_text keyword) }
{
    Keyword::ALL
        .iter()
        .copied()
        .find(|keyword| word == keyword.text())
}

/// The longest sign that the text begins with.
fn sign_at(text: &[u8]) -> Option<Sign>
    ensures { MatchOption result (IsFalse (has_longer_sign 0 text.now))
        (λ sign. (text.now ≡ sign_text sign ++ drop (length (sign_text sign)) text.now)
        × IsFalse (has_longer_sign (length (sign_text sign)) text.now)) }
{
    Sign::ALL
        .iter()
        .copied()
        .find(|sign| text.starts_with(sign.text()))
}
