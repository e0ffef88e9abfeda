//! The words and signs of a definition.

ghost use Rattle.std.specs.Prelude.{◌≤◌, ◌<◌, IfSome, length};
ghost use Rattle.weedle_refusal.specs.Hint.{EndsMember};

use crate::hint::stands::stand_at;
use memchr::memchr;
use std::alloc::{AllocError, Global};
use weedle_grammar::Class;
use weedle_grammar::scan::run;
use weedle_grammar::trivia::skip_trivia;

/// What ends a member.
const SEMICOLON: &[u8] = b";";

/// What kind of text a token is.
#[derive(Clone, Copy, Debug, PartialEq, Eq)]
pub(crate) enum Kind {
    /// Letters, digits, `_` and `-`.
    Word,
    /// A string with both its quotes.
    Closed,
    /// What is from a `"` on that no second one follows.
    Open,
    /// Lines that begin with `///`, without the LF of the last.
    Docstring,
    /// What is from a `/*` on that no `*/` follows.
    Comment,
    /// Any other character.
    Sign,
}

/// A token, by its bytes.
#[derive(Clone, Copy, Debug)]
pub(crate) struct Token {
    pub(crate) kind: Kind,
    pub(crate) start: usize,
    pub(crate) end: usize,
}

impl Token {
    /// Its bytes.
    pub(crate) fn of<'t>(&self, raw: &'t str) -> &'t [u8] {
        raw.as_bytes().get(self.start..self.end).unwrap_or(b"")
    }
}

/// The tokens of a text that begin from one place up to another, past whitespace and comments.
pub(crate) fn tokens_of(
    alloc: Global,
    raw: &str,
    from: usize,
    to: usize,
) -> Result<Vec<Token>, AllocError>
    requires { from ≤ length raw.now }
{
    let mut tokens = Vec::new(alloc);
    let mut at = from;
    while let Some(token) = next_token(raw, at) {
        if token.start > to {
            break;
        }
        add(&mut tokens, token)?;
        at = token.end;
    }
    Ok(tokens)
}

/// Adds a token; a docstring right behind one is joined with it.
fn add(tokens: &mut Vec<Token>, token: Token) -> Result<(), AllocError> {
    if token.kind == Kind::Docstring {
        if let Some(last) = tokens.last_mut() {
            if last.kind == Kind::Docstring {
                last.end = token.end;
                return Ok(());
            }
        }
    }
    tokens.push(token)?;
    Ok(())
}

/// Where the token behind the first one from a place on begins, or the text ends.
pub(crate) fn past_token(raw: &str, at: usize) -> usize
    requires { at ≤ length raw.now }
    ensures after { at ≤ result }
    ensures within { result ≤ length raw.now }
{
    let Some(first) = next_token(raw, at) else {
        return raw.len();
    };
    match next_token(raw, first.end) {
        Some(second) => second.start,
        None => raw.len(),
    }
}

/// Where the first `;` from a place on ends in no string and no comment, or the text.
pub(crate) fn past_semicolon(raw: &str, at: usize) -> usize
    requires { at ≤ length raw.now }
    ensures after { at ≤ result }
    ensures within { result ≤ length raw.now }
    ensures found { result < length raw.now → EndsMember raw.now at result }
{
    let mut end = at;
    while let Some(token) = next_token(raw, end) {
        if token.of(raw) == b";".as_slice() && stand_at(SEMICOLON, raw.as_bytes(), token.end - 1) {
            return token.end;
        }
        end = token.end;
    }
    raw.len()
}

/// The first token from a place on, or None where whitespace and comments alone follow.
pub(crate) fn next_token(raw: &str, at: usize) -> Option<Token>
    requires { at ≤ length raw.now }
    ensures { IfSome result
        (λ token. (at ≤ token.start) × (token.start < token.end) × (token.end ≤ length raw.now)) }
{
    let rest = skip_trivia(raw.get(at..)?).as_bytes();
    if rest.is_empty() {
        return None;
    }
    let (kind, length) = front_of(rest);
    let start = raw.len() - rest.len();
    Some(Token {
        kind,
        start,
        end: start + length,
    })
}

/// What is at the front of some bytes, and how many it has.
fn front_of(text: &[u8]) -> (Kind, usize)
    requires { 0 < length text.now }
    ensures some { 0 < result.1 }
    ensures within { result.1 ≤ length text.now }
{
    if text.starts_with(b"///") {
        return (Kind::Docstring, line_length(text));
    }
    // One that is closed was skipped.
    if text.starts_with(b"/*") {
        return (Kind::Comment, text.len());
    }
    if text[0] == b'"' {
        return match memchr(b'"', &text[1..]) {
            Some(end) => (Kind::Closed, end + 2),
            None => (Kind::Open, text.len()),
        };
    }
    match run(Class::Name, text) {
        0 => (Kind::Sign, character_length(text)),
        length => (Kind::Word, length),
    }
}

/// How many bytes are in front of the first LF, one at least.
fn line_length(text: &[u8]) -> usize
    requires { 0 < length text.now }
    ensures some { 0 < result }
    ensures within { result ≤ length text.now }
{
    memchr(b'\n', text).unwrap_or(text.len()).max(1)
}

/// How many bytes the first character has.
fn character_length(text: &[u8]) -> usize
    requires { 0 < length text.now }
    ensures some { 0 < result }
    ensures within { result ≤ length text.now }
{
    let more = text[1..]
        .iter()
        .take_while(|byte| (128..192).contains(*byte))
        .count();
    1 + more
}
