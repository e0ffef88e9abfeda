//! The bytes of which names are, at the ends of words.

ghost use Rattle.std.specs.Prelude.{◌≡◌};
ghost use Rattle.std.specs.List.{slice_get};
ghost use Rattle.weedle_print.specs.Apart.{
  begins_as_name as the_begins_as_name,
  ends_as_name as the_ends_as_name,
  is_of_name as the_is_of_name,
};

use weedle_grammar::{Class, holds};

/// Whether a letter, a digit, `_` or `-` is at this place of a text.
fn is_of_name_at(text: &str, place: usize) -> bool
    ensures { result ≡ the_is_of_name (slice_get text.now place) }
{
    match text.as_bytes().get(place) {
        Some(&byte) => holds(Class::Name, byte),
        None => false,
    }
}

/// Whether a text begins so, as `long` does, and `;` doesn't.
pub(crate) fn begins_as_name(text: &str) -> bool
    ensures { result ≡ the_begins_as_name text.now }
{
    is_of_name_at(text, 0)
}

/// Whether a text ends so.
pub(crate) fn ends_as_name(text: &str) -> bool
    ensures { result ≡ the_ends_as_name text.now }
{
    is_of_name_at(text, text.len().saturating_sub(1))
}
