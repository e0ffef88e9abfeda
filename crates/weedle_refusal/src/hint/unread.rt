//! A definition that isn't read.

use crate::expected::Expected;
use crate::hint::tokens::Token;
use weedle_syntax::Dialect;

/// How far behind the place the end of a definition is looked for.
pub(crate) const LONGEST: usize = 65_536;

/// A definition that isn't read, and what is known of it.
#[derive(Clone, Copy)]
pub(crate) struct Unread<'a> {
    /// The text.
    pub(crate) raw: &'a str,
    /// Where the definition begins.
    pub(crate) start: usize,
    /// The furthest place to which its reading comes.
    pub(crate) place: usize,
    /// What would go on there.
    pub(crate) expected: &'a [Expected],
    /// Its words and signs that begin up to that place.
    pub(crate) tokens: &'a [Token],
    /// The rules that it is read by.
    pub(crate) dialect: Dialect,
}

impl<'a> Unread<'a> {
    /// The words and signs that are read: those that end up to the place.
    pub(crate) fn read(&self) -> &'a [Token] {
        let is_read = |token: &&Token| token.end <= self.place;
        let count = self.tokens.iter().take_while(is_read).count();
        self.tokens.get(..count).unwrap_or(self.tokens)
    }

    /// How many bytes the definition has at most, as far as its end is looked for.
    pub(crate) fn longest(&self) -> usize {
        self.place
            .saturating_add(LONGEST)
            .min(self.raw.len())
            .saturating_sub(self.start)
    }

    /// Whether one of the words for what would go on is this text.
    pub(crate) fn expects(&self, text: &str) -> bool {
        self.expected.iter().any(|word| matches!(*word, Expected::Text(other) if other == text))
    }
}
