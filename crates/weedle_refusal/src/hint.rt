//! What would fix a refused definition, or what it lacks.

ghost use Rattle.std.specs.Prelude.{◌≡◌, ◌≤◌, IfOk, IfSome, length};
ghost use Rattle.weedle_refusal.specs.Hint.{IsHint, IsHintIn};
ghost use Rattle.weedle_refusal.specs.Said.{hint_place};

mod again;
mod beyond;
mod candidates;
mod change;
mod check;
mod docstring;
mod facts;
mod inside;
mod keywords;
mod mended;
mod near;
mod order;
mod said;
mod signs;
mod stands;
mod tokens;
mod unread;
mod words;

use crate::expected::Expected;
use crate::furthest::furthest_in;
use crate::hint::again::Trials;
use crate::hint::candidates::candidates;
use crate::hint::check::{Aim, helps};
use crate::hint::facts::{fact, is_fact};
use crate::hint::tokens::tokens_of;
use crate::hint::unread::Unread;
pub use said::write_hint;
use std::alloc::{AllocError, Global};
use weedle_syntax::Dialect;

/// How many changes of a definition are tried at most.
const MOST_TRIES: usize = 16;

/// What would fix a refused definition, or what it lacks. Places are in bytes from the front of the
/// text.
///
/// The first six are changes that were tried: with them the definition is read to its end, or
/// further by more than the member that is changed.
#[derive(Clone, Copy, Debug, PartialEq, Eq)]
pub enum Hint {
    /// A keyword in place of a word: of `interface A { atribute long x; };` the 8 bytes from 14 on,
    /// and `attribute`.
    Keyword {
        /// Where the word begins.
        place: usize,
        /// How many bytes it has.
        taken: usize,
        /// The keyword that differs from it by one letter missing, added or changed, or by two
        /// neighbours exchanged.
        keyword: &'static str,
    },
    /// A sign is missing: of `interface A {} interface B {};` a `;` at 14.
    Missing {
        /// Where it is missing: behind what is there.
        place: usize,
        /// `;`, `=`, `{`, `,`, `)`, `>`, `]`, `(`, `:`, `}` or `};`.
        sign: &'static str,
    },
    /// A sign is too many: of `interface A { attribute long x;; };` the second `;` at 31.
    Extra {
        /// Where it is.
        place: usize,
        /// The sign, which is one of those that may be missing.
        sign: &'static str,
    },
    /// Another sign should be there: of `enum E { "a"; "b" };` a `,` in place of the `;` at 12.
    WrongSign {
        /// Where the sign is.
        place: usize,
        /// The sign there, `;` or `,`.
        found: &'static str,
        /// The other one.
        sign: &'static str,
    },
    /// Two words are in the wrong order: of `interface A { attribute readonly long x; };` the 9
    /// bytes from 14 on and the 8 from 24 on.
    WordOrder {
        /// Where the first word begins.
        place: usize,
        /// How many bytes it has.
        taken: usize,
        /// Where the second begins, which belongs in front of it.
        next: usize,
        /// How many bytes that has.
        next_taken: usize,
    },
    /// A docstring is where none may: of `/// text` before `typedef long T;` the 8 bytes from 0 on.
    Docstring {
        /// Where it begins.
        place: usize,
        /// How many bytes its lines have, up to the LF of the last.
        taken: usize,
    },
    /// A string isn't closed: of `enum E { "a };` the one from 9 on.
    OpenString {
        /// Where its `"` is.
        place: usize,
    },
    /// A string ends in another line, where its closing `"` is mostly missing: of `enum E { "a,`
    /// and `"b" };` in the next line the one from 9 on.
    SplitString {
        /// Where its `"` is.
        place: usize,
    },
    /// A byte order mark is there, which some editors put in front of a text.
    ByteOrderMark {
        /// Where it is.
        place: usize,
    },
    /// The text has whitespace and comments alone, and no definition.
    NoDefinitions,
}

impl Hint {
    /// Where it is, in bytes from the front of the text. It takes no memory.
    pub fn place(&self) -> usize
        ensures { result ≡ hint_place self.now }
    {
        match *self {
            Hint::Keyword { place, .. }
            | Hint::Missing { place, .. }
            | Hint::Extra { place, .. }
            | Hint::WrongSign { place, .. }
            | Hint::WordOrder { place, .. }
            | Hint::Docstring { place, .. }
            | Hint::OpenString { place }
            | Hint::SplitString { place }
            | Hint::ByteOrderMark { place } => place,
            Hint::NoDefinitions => 0,
        }
    }
}

/// What would fix the definition of a text that begins at `start` and can be read up to `place` and
/// no further, or None where nothing was found.
///
/// For `interface A { atribute long x; };` the definition at 0 is read up to 28, and `attribute` at
/// 14 would fix it.
///
/// A change is a hint only if it was tried: the definition is read again with it, and comes to its
/// end, or beyond the second `;` behind the place. At most sixteen are tried. The hint is the first
/// that comes to the end, else the first that comes so far. All together try at most 16 rules for
/// each byte of the definition, up to 64 kB behind the place, and 100,000 more; each costs a copy
/// of the definition. None is read more than 320 nodes deep. Besides, it looks for what would go
/// on, as [`furthest_in`] does. Where memory is refused, the answer is an error.
pub fn hint_of(
    alloc: Global,
    raw: &str,
    start: usize,
    place: usize,
) -> Result<Option<Hint>, AllocError>
    requires order { start ≤ place }
    requires within { place ≤ length raw.now }
    ensures { IfOk result (λ hint. IfSome hint (IsHint raw.now start place)) }
{
    let Some(rest) = raw.get(start..) else {
        return Ok(None);
    };
    let (_, expected) = furthest_in(alloc, rest)?;
    hint_among(alloc, raw, start, place, &expected, Dialect::Weedle2)
}

/// The same as [`hint_of`] by the rules of a dialect, where it is known what would go on at the
/// place.
pub(crate) fn hint_among(
    alloc: Global,
    raw: &str,
    start: usize,
    place: usize,
    expected: &[Expected],
    dialect: Dialect,
) -> Result<Option<Hint>, AllocError>
    requires order { start ≤ place }
    requires within { place ≤ length raw.now }
    ensures { IfOk result (λ hint. IfSome hint (IsHintIn dialect raw.now start place)) }
{
    let tokens = tokens_of(alloc, raw, start, place)?;
    let unread = Unread {
        raw,
        start,
        place,
        expected,
        tokens: &tokens,
        dialect,
    };
    if let Some(hint) = fact(&unread) {
        if is_fact(raw, start, place, hint, dialect) {
            return Ok(Some(hint));
        }
    }
    let mut hints = candidates(alloc, &unread)?;
    hints.truncate(MOST_TRIES);
    let mut trials = Trials::of(alloc, &unread);
    if let Some(hint) = first_that_helps(&mut trials, &unread, &hints, Aim::End)? {
        return Ok(Some(hint));
    }
    first_that_helps(&mut trials, &unread, &hints, Aim::Beyond)
}

/// The first change that brings the reading so far.
fn first_that_helps(
    trials: &mut Trials,
    unread: &Unread<'_>,
    hints: &[Hint],
    aim: Aim,
) -> Result<Option<Hint>, AllocError>
    requires { unread.now.place ≤ length unread.now.raw.now }
    ensures { IfOk result (λ hint. IfSome hint
        (IsHintIn unread.now.dialect unread.now.raw.now unread.now.start unread.now.place)) }
{
    for hint in hints {
        if helps(trials, unread, *hint, aim)? {
            return Ok(Some(*hint));
        }
    }
    Ok(None)
}
