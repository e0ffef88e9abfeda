//! Tokens, as unread text is passed over.

ghost use Rattle.std.specs.Prelude.{
  ◌≡◌,
  ◌≤◌,
  ◌<◌,
  ◌+◌,
  ◌^◌,
  ◌==◌,
  ◌&&◌,
  length,
  drop,
  codes,
  IfOk,
  OnOk,
};
ghost use Rattle.weedle_grammar.specs.Rows.{begins};
ghost use Rattle.weedle_recovery.specs.Tokens.{
  IsFirstToken,
  IsNextToken,
  TriviaEnds,
  depth_behind,
  is_line_between,
  line_between,
  string_end as the_string_end,
  string_end_at,
  token_end as the_token_end,
};

use crate::reading::Reading;
use std::alloc::{AllocError, Global};
use weedle_grammar::{Class, Rule};
use weedle_syntax::Limits;

/// A token that is passed over, or the end of the text.
#[derive(Clone, Copy)]
pub(crate) struct Token {
    /// Where it begins.
    pub(crate) at: usize,
    /// Where the first line begins in the whitespace and comments before it; where none does, its
    /// own start.
    pub(crate) line: usize,
    /// Whether a line begins there.
    pub(crate) is_first: bool,
    /// The first byte of the token before it.
    pub(crate) before: u8,
    /// How many braces are open before it, of those that were passed over.
    pub(crate) depth: usize,
}

impl Token {
    /// The first token from a place on.
    pub(crate) fn first(
        alloc: Global,
        text: &Reading<'_>,
        place: usize,
        limits: &mut Limits,
    ) -> Result<Token, AllocError>
        requires { place ≤ length text.now.text }
        ensures is { IfOk result (IsFirstToken text.now.text place) }
        ensures after { IfOk result (λ token. place ≤ token.at) }
        ensures within { IfOk result (λ token. token.at ≤ length text.now.text) }
        ensures falls { OnOk result (limits.new.steps ≤ limits.old.steps) }
    {
        let at = trivia_end(alloc, text, place, limits)?;
        Ok(Token {
            at,
            line: at,
            is_first: false,
            before: 0,
            depth: 0,
        })
    }

    /// The token behind this one.
    pub(crate) fn next(
        &self,
        alloc: Global,
        text: &Reading<'_>,
        limits: &mut Limits,
    ) -> Result<Token, AllocError>
        requires within { self.now.at < length text.now.text }
        requires shallow { self.now.depth ≤ self.now.at }
        ensures is { IfOk result (IsNextToken text.now.text self.now) }
        ensures after { IfOk result (λ token. self.now.at < token.line) }
        ensures line { IfOk result (λ token. token.line ≤ token.at) }
        ensures within { IfOk result (λ token. token.at ≤ length text.now.text) }
        ensures shallow { IfOk result (λ token. token.depth ≤ token.at) }
        ensures falls { OnOk result (limits.new.steps ≤ limits.old.steps) }
    {
        let before = text.byte(self.at);
        let past = token_end(text, self.at);
        let depth = deeper(self.depth, before);
        let at = trivia_end(alloc, text, past, limits)?;
        let line = line_in(text, past, at);
        Ok(Token {
            at,
            line,
            is_first: is_line(text, past, at) && !are_docs(text, before, at),
            before,
            depth,
        })
    }
}

/// Whether a docstring's line follows another one.
fn are_docs(text: &Reading<'_>, before: u8, at: usize) -> bool
    requires { at ≤ length text.now.text }
    ensures { result ≡ (before == 47 && begins (codes "/") (drop at text.now.text)) }
{
    before == b'/' && text.stand_at(b"/", at)
}

/// How many braces are open behind a byte.
fn deeper(depth: usize, byte: u8) -> usize
    requires { depth + 1 < 2 ^ 64 }
    ensures { result ≡ depth_behind depth byte }
{
    match byte {
        b'{' => depth + 1,
        b'}' => depth.saturating_sub(1),
        _ => depth,
    }
}

/// Where the whitespace and the comments end at a place.
fn trivia_end(
    alloc: Global,
    text: &Reading<'_>,
    place: usize,
    limits: &mut Limits,
) -> Result<usize, AllocError>
    requires { place ≤ length text.now.text }
    ensures end { IfOk result (TriviaEnds text.now.text place) }
    ensures after { IfOk result (λ end. place ≤ end) }
    ensures within { IfOk result (λ end. end ≤ length text.now.text) }
    ensures falls { OnOk result (limits.new.steps ≤ limits.old.steps) }
{
    match text.end_of(alloc, Rule::TRIVIA, place, limits)? {
        Some(end) => Ok(end),
        None => unreachable!(),
    }
}

/// Whether a line ends between two places.
fn is_line(text: &Reading<'_>, place: usize, end: usize) -> bool
    requires order { place ≤ end }
    requires within { end ≤ length text.now.text }
    ensures { result ≡ is_line_between text.now.text place end }
{
    text.run_between(Class::NotLineFeed, place, end) < end - place
}

/// Where the first line begins between two places, or the second of them where none does.
fn line_in(text: &Reading<'_>, place: usize, end: usize) -> usize
    requires order { place ≤ end }
    requires within { end ≤ length text.now.text }
    ensures value { result ≡ line_between text.now.text place end }
    ensures after { place ≤ result }
    ensures before { result ≤ end }
{
    let taken = text.run_between(Class::NotLineFeed, place, end);
    if taken < end - place {
        place + taken + 1
    } else {
        end
    }
}

/// Where the token ends that begins at a place.
fn token_end(text: &Reading<'_>, place: usize) -> usize
    requires { place < length text.now.text }
    ensures value { result ≡ the_token_end text.now.text place }
    ensures after { place < result }
    ensures within { result ≤ length text.now.text }
{
    let name = text.end_of_run(Class::Name, place);
    if name > place {
        return name;
    }
    if text.stand_at(b"\"", place) {
        return string_end(text, place);
    }
    if text.stand_at(b"///", place) {
        return text.end_of_run(Class::NotLineFeed, place);
    }
    if text.stand_at(b"/*", place) {
        return text.len();
    }
    text.behind(place)
}

/// Where a string ends that begins at a place: behind its second quote, where that is in the same
/// line, and else behind the first.
fn string_end(text: &Reading<'_>, place: usize) -> usize
    requires { place < length text.now.text }
    ensures value { result ≡ the_string_end text.now.text place }
    ensures after { place < result }
    ensures within { result ≤ length text.now.text }
{
    let inside = text.behind(place);
    let quote = text.end_of_run(Class::NotQuote, inside);
    let end = closed_at(text, inside, quote);
    end
}

/// Where a string ends whose inside is between two places: behind a quote in the same line, and
/// else at the first of them.
fn closed_at(text: &Reading<'_>, inside: usize, quote: usize) -> usize
    requires order { inside ≤ quote }
    requires within { quote ≤ length text.now.text }
    ensures value { result ≡ string_end_at text.now.text inside quote }
    ensures after { inside ≤ result }
    ensures within { result ≤ length text.now.text }
{
    if quote < text.len() && !is_line(text, inside, quote) {
        quote + 1
    } else {
        inside
    }
}
