//! Docstrings.

ghost use Rattle.std.specs.Prelude.{◌≡◌, string_bytes};
ghost use Rattle.weedle_grammar.specs.written.Table.Leaves.{DOCSTRING};
ghost use Rattle.weedle_base.specs.Own.{own};
ghost use Rattle.weedle_base.specs.OwnLaws.{own_lawful};
ghost use Rattle.weedle_base.specs.AlikeLaws.{equal_equivalence, seen_equivalence};
ghost use Rattle.weedle_parts.specs.ValueTrees.{docstring_tree};

use std::alloc::{AllocError, Global};
use weedle_base::{IResult, Parse, TryClone, docstring};

/// The text of a docstring: its lines without their `///`, and an LF between two, so `/// a` and
/// `///b` on two lines are ` a`, an LF and `b`. It reads what [`docstring`] reads: where the first
/// line is no such line, or the text ends before its LF, it is a mismatch. It takes memory for the
/// text, and where that is refused it is a failure.
#[derive(Debug, PartialEq, Eq, PartialOrd, Ord, Hash, Drop)]
pub struct Docstring(pub String);

impl<'a> Parse<'a> for Docstring {
    ghost reading = { own DOCSTRING docstring_tree (Unit {0}) };

    fn parse(alloc: Global, input: &'a str) -> IResult<&'a str, Self> {
        let (rest, text) = docstring(alloc, input)?;
        Ok((rest, Docstring(text)))
    }

    ghost lawful = { own_lawful DOCSTRING docstring_tree (Unit {0}) };
}

impl TryClone for Docstring {
    ghost alike = { λ a b. string_bytes a.0 ≡ string_bytes b.0 };

    fn try_clone(&self, alloc: Global) -> Result<Docstring, AllocError> {
        Ok(Docstring(self.0.try_clone(alloc)?))
    }

    ghost equivalence = { seen_equivalence (λ d. string_bytes d.0) equal_equivalence };
}
