//! One look at a text.

ghost use Rattle.std.specs.Prelude.{◌≡◌, ◌+◌, ◌-◌, ◌<◌, ◌≤◌, ◌^◌, max};
ghost use Rattle.weedle_nesting.specs.Bare.{bare};
ghost use Rattle.weedle_nesting.specs.Nesting.{
  attributes_behind,
  brackets_behind,
  most_attributes,
  most_brackets,
};

use crate::marks::{next_mark, past_mark};

/// How deep brackets nest.
#[derive(Clone, Copy, Debug, PartialEq, Eq)]
pub struct Depths {
    /// How many `[` are open at once.
    pub attributes: usize,
    /// How many of `(` and `<` together are open at once.
    pub brackets: usize,
}

/// The most brackets that are open at once in a text, past strings and comments.
///
/// In `[A(optional long a)] typedef sequence<(long or short)> T; // [[[` it is one `[`, and two of
/// `(` and `<`. A closing bracket with nothing open counts for nothing. A string or a comment that
/// isn't closed ends with the text.
///
/// It looks once at each byte, and takes no memory.
///
/// A program that reads untrusted texts can ask it first: with 8 MB of stack, as a main thread has,
/// each reader of whole texts reads what has up to 8,000 of `(` and `<` open at once, and `parse`
/// and `parse_quick` what has up to 3,000 of `[`. So it was measured; nothing promises it.
pub fn nesting(raw: &str) -> Depths
    ensures attributes { result.attributes ≡ most_attributes (bare raw.now) }
    ensures brackets { result.brackets ≡ most_brackets (bare raw.now) }
{
    let look = look_over(raw.as_bytes());
    Depths {
        attributes: look.attributes.most,
        brackets: look.brackets.most,
    }
}

/// How many brackets of a kind are open.
#[derive(Clone, Copy)]
pub(crate) struct Level {
    /// How many are open now.
    pub(crate) depth: usize,
    /// The most that were open at once so far.
    pub(crate) most: usize,
}

/// What was seen so far.
#[derive(Clone, Copy)]
struct Look {
    /// `[`.
    attributes: Level,
    /// `(` and `<`.
    brackets: Level,
}

/// Looks once at each byte.
fn look_over(text: &[u8]) -> Look
    ensures attributes { result.attributes.most ≡ most_attributes (bare text.now) }
    ensures brackets { result.brackets.most ≡ most_brackets (bare text.now) }
{
    let mut look = Look {
        attributes: Level { depth: 0, most: 0 },
        brackets: Level { depth: 0, most: 0 },
    };
    let mut rest = text;
    'marks: while let Some((mark, after)) = next_mark(rest) {
        look.count(mark);
        rest = past_mark(mark, after);
    }
    look
}

impl Look {
    /// Counts a bracket, and no other mark.
    fn count(&mut self, mark: u8)
        requires attributes { self.old.attributes.depth + 1 < 2 ^ 64 }
        requires brackets { self.old.brackets.depth + 1 < 2 ^ 64 }
        ensures attributes { self.new.attributes.depth
            ≡ attributes_behind self.old.attributes.depth mark }
        ensures most_attributes { self.old.attributes.depth ≤ self.old.attributes.most
            → self.new.attributes.most ≡ max self.old.attributes.most self.new.attributes.depth }
        ensures brackets { self.new.brackets.depth ≡ brackets_behind self.old.brackets.depth mark }
        ensures most_brackets { self.old.brackets.depth ≤ self.old.brackets.most
            → self.new.brackets.most ≡ max self.old.brackets.most self.new.brackets.depth }
    {
        match mark {
            b'[' => self.attributes.enter(),
            b']' => self.attributes.leave(),
            b'(' | b'<' => self.brackets.enter(),
            b')' | b'>' => self.brackets.leave(),
            _ => {}
        }
    }
}

impl Level {
    /// Counts one more bracket that is open.
    pub(crate) fn enter(&mut self)
        requires { self.old.depth + 1 < 2 ^ 64 }
        ensures depth { self.new.depth ≡ self.old.depth + 1 }
        ensures most { self.new.most ≡ max self.old.most self.new.depth }
    {
        self.depth += 1;
        self.most = self.most.max(self.depth);
    }

    /// Counts one bracket as closed, where one is open.
    pub(crate) fn leave(&mut self)
        ensures depth { self.new.depth ≡ self.old.depth - 1 }
        ensures most { self.new.most ≡ self.old.most }
    {
        self.depth = self.depth.saturating_sub(1);
    }
}
