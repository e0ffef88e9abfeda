//! Empty lists and dictionaries.

ghost use Rattle.weedle_grammar.specs.written.Table.Literals.{
  EMPTY_ARRAY_LIT,
  EMPTY_DICTIONARY_LIT,
};
ghost use Rattle.weedle_base.specs.Own.{own};
ghost use Rattle.weedle_base.specs.OwnLaws.{own_lawful};
ghost use Rattle.weedle_parts.specs.LiteralTrees.{empty_array_tree, empty_dictionary_tree};

use std::alloc::Global;
use weedle_base::term::{CloseBrace, CloseBracket, OpenBrace, OpenBracket};
use weedle_base::{IResult, Parse};

/// An empty list, as `[ ]`. Anything between the brackets but trivia is a mismatch.
#[derive(Clone, Copy, Debug, Default, PartialEq, Eq, PartialOrd, Ord, Hash)]
pub struct EmptyArrayLit {
    /// The `[`.
    pub open_bracket: OpenBracket,
    /// The `]`.
    pub close_bracket: CloseBracket,
}

#[tactic(auto, using(crate::proofs::EmptyRules::empty_array_steps))]
impl<'a> Parse<'a> for EmptyArrayLit {
    ghost reading = { own EMPTY_ARRAY_LIT empty_array_tree ⊥ };

    fn parse(alloc: Global, input: &'a str) -> IResult<&'a str, Self> {
        let (rest, open_bracket) = OpenBracket::parse(alloc, input)?;
        let (rest, close_bracket) = CloseBracket::parse(alloc, rest)?;
        Ok((
            rest,
            EmptyArrayLit {
                open_bracket,
                close_bracket,
            },
        ))
    }

    ghost lawful = { own_lawful EMPTY_ARRAY_LIT empty_array_tree ⊥ };
}

/// An empty dictionary, as `{ }`. Anything between the braces but trivia is a mismatch.
#[derive(Clone, Copy, Debug, Default, PartialEq, Eq, PartialOrd, Ord, Hash)]
pub struct EmptyDictionaryLit {
    /// The `{`.
    pub open_brace: OpenBrace,
    /// The `}`.
    pub close_brace: CloseBrace,
}

#[tactic(auto, using(crate::proofs::EmptyRules::empty_dictionary_steps))]
impl<'a> Parse<'a> for EmptyDictionaryLit {
    ghost reading = { own EMPTY_DICTIONARY_LIT empty_dictionary_tree ⊥ };

    fn parse(alloc: Global, input: &'a str) -> IResult<&'a str, Self> {
        let (rest, open_brace) = OpenBrace::parse(alloc, input)?;
        let (rest, close_brace) = CloseBrace::parse(alloc, rest)?;
        Ok((
            rest,
            EmptyDictionaryLit {
                open_brace,
                close_brace,
            },
        ))
    }

    ghost lawful = { own_lawful EMPTY_DICTIONARY_LIT empty_dictionary_tree ⊥ };
}
