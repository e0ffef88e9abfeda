//! Hints as numbers. `include/weedle.h` has a name for each kind.

ghost use Rattle.std.specs.Prelude.{◌≡◌};
ghost use Rattle.weedle_c.specs.Explained.{IsHintLength, hint_kind, hint_place};

use weedle_refusal::Hint;

/// There is none.
pub const NONE: usize = 0;

/// A keyword in place of the word there.
pub const KEYWORD: usize = 1;

/// A sign is missing there.
pub const MISSING: usize = 2;

/// The sign there is too many.
pub const EXTRA: usize = 3;

/// Another sign in place of the one there.
pub const WRONG_SIGN: usize = 4;

/// The two words there, in the other order.
pub const WORD_ORDER: usize = 5;

/// The docstring there belongs elsewhere.
pub const DOCSTRING: usize = 6;

/// The string that opens there isn't closed.
pub const OPEN_STRING: usize = 7;

/// The string that opens there ends in another line.
pub const SPLIT_STRING: usize = 8;

/// A byte order mark is there.
pub const BYTE_ORDER_MARK: usize = 9;

/// The text has no definitions.
pub const NO_DEFINITIONS: usize = 10;

/// The kind of a hint.
pub(crate) fn hint_of(hint: &Option<Hint>) -> usize
    ensures { result ≡ hint_kind hint.now }
{
    match hint {
        None => NONE,
        Some(Hint::Keyword { .. }) => KEYWORD,
        Some(Hint::Missing { .. }) => MISSING,
        Some(Hint::Extra { .. }) => EXTRA,
        Some(Hint::WrongSign { .. }) => WRONG_SIGN,
        Some(Hint::WordOrder { .. }) => WORD_ORDER,
        Some(Hint::Docstring { .. }) => DOCSTRING,
        Some(Hint::OpenString { .. }) => OPEN_STRING,
        Some(Hint::SplitString { .. }) => SPLIT_STRING,
        Some(Hint::ByteOrderMark { .. }) => BYTE_ORDER_MARK,
        Some(Hint::NoDefinitions) => NO_DEFINITIONS,
    }
}

/// Where a hint is, in bytes from the front of the text; 0 of none.
pub(crate) fn place_of(hint: &Option<Hint>) -> usize
    ensures { result ≡ hint_place hint.now }
{
    match hint {
        Some(Hint::Keyword { place, .. }) => *place,
        Some(Hint::Missing { place, .. }) => *place,
        Some(Hint::Extra { place, .. }) => *place,
        Some(Hint::WrongSign { place, .. }) => *place,
        Some(Hint::WordOrder { place, .. }) => *place,
        Some(Hint::Docstring { place, .. }) => *place,
        Some(Hint::OpenString { place }) => *place,
        Some(Hint::SplitString { place }) => *place,
        Some(Hint::ByteOrderMark { place }) => *place,
        Some(Hint::NoDefinitions) | None => 0,
    }
}

/// How many bytes a hint speaks of, from its place on.
pub(crate) fn length_of(hint: &Option<Hint>) -> usize
    ensures { IsHintLength hint.now result }
{
    match hint {
        Some(Hint::Keyword { taken, .. }) => *taken,
        Some(Hint::Extra { sign, .. }) => sign.len(),
        Some(Hint::WrongSign { found, .. }) => found.len(),
        Some(
            Hint::WordOrder {
                place,
                next,
                next_taken,
                ..
            },
        ) => next.saturating_add(*next_taken).saturating_sub(*place),
        Some(Hint::Docstring { taken, .. }) => *taken,
        Some(Hint::OpenString { .. }) | Some(Hint::SplitString { .. }) => 1,
        Some(Hint::ByteOrderMark { .. }) => 3,
        Some(Hint::Missing { .. }) | Some(Hint::NoDefinitions) | None => 0,
    }
}
