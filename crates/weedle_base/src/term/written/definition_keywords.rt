//! Keywords of definitions and their members.
//!
//! Written by tools/terminals.py, and not edited by hand.

ghost use Rattle.weedle_grammar.specs.Trees.{Mark};
ghost use Rattle.weedle_grammar.specs.written.Table.Keywords.{
  ASYNC,
  ATTRIBUTE,
  CALLBACK,
  CONST,
  DELETER,
  DICTIONARY,
  ENUM,
  GETTER,
  INCLUDES,
  INHERIT,
  INTERFACE,
  ITERABLE,
  MAPLIKE,
  NAMESPACE,
  PARTIAL,
  REQUIRED,
  SETLIKE,
  SETTER,
  STATIC,
  STRINGIFIER,
  TYPEDEF,
  READ_ONLY,
  MIXIN,
  IMPLEMENTS,
  LEGACY_CALLER,
  CONSTRUCTOR,
};
ghost use Rattle.weedle_base.specs.Own.{own};
ghost use Rattle.weedle_base.specs.OwnLaws.{own_lawful};

use crate::{IResult, Parse, keyword};
use std::alloc::Global;
use weedle_grammar::Rule;

/// The keyword `async`, with the trivia around it.
#[derive(Clone, Copy, Debug, Default, PartialEq, Eq, PartialOrd, Ord, Hash)]
pub struct Async;

impl<'a> Parse<'a> for Async {
    ghost reading = { own ASYNC (λ v. Mark) ⊥ };

    fn parse(_alloc: Global, input: &'a str) -> IResult<&'a str, Self> {
        keyword(Rule::ASYNC, "async", Async, input)
    }

    ghost lawful = { own_lawful ASYNC (λ v. Mark) ⊥ };
}

/// The keyword `attribute`, with the trivia around it.
#[derive(Clone, Copy, Debug, Default, PartialEq, Eq, PartialOrd, Ord, Hash)]
pub struct Attribute;

impl<'a> Parse<'a> for Attribute {
    ghost reading = { own ATTRIBUTE (λ v. Mark) ⊥ };

    fn parse(_alloc: Global, input: &'a str) -> IResult<&'a str, Self> {
        keyword(Rule::ATTRIBUTE, "attribute", Attribute, input)
    }

    ghost lawful = { own_lawful ATTRIBUTE (λ v. Mark) ⊥ };
}

/// The keyword `callback`, with the trivia around it.
#[derive(Clone, Copy, Debug, Default, PartialEq, Eq, PartialOrd, Ord, Hash)]
pub struct Callback;

impl<'a> Parse<'a> for Callback {
    ghost reading = { own CALLBACK (λ v. Mark) ⊥ };

    fn parse(_alloc: Global, input: &'a str) -> IResult<&'a str, Self> {
        keyword(Rule::CALLBACK, "callback", Callback, input)
    }

    ghost lawful = { own_lawful CALLBACK (λ v. Mark) ⊥ };
}

/// The keyword `const`, with the trivia around it.
#[derive(Clone, Copy, Debug, Default, PartialEq, Eq, PartialOrd, Ord, Hash)]
pub struct Const;

impl<'a> Parse<'a> for Const {
    ghost reading = { own CONST (λ v. Mark) ⊥ };

    fn parse(_alloc: Global, input: &'a str) -> IResult<&'a str, Self> {
        keyword(Rule::CONST, "const", Const, input)
    }

    ghost lawful = { own_lawful CONST (λ v. Mark) ⊥ };
}

/// The keyword `deleter`, with the trivia around it.
#[derive(Clone, Copy, Debug, Default, PartialEq, Eq, PartialOrd, Ord, Hash)]
pub struct Deleter;

impl<'a> Parse<'a> for Deleter {
    ghost reading = { own DELETER (λ v. Mark) ⊥ };

    fn parse(_alloc: Global, input: &'a str) -> IResult<&'a str, Self> {
        keyword(Rule::DELETER, "deleter", Deleter, input)
    }

    ghost lawful = { own_lawful DELETER (λ v. Mark) ⊥ };
}

/// The keyword `dictionary`, with the trivia around it.
#[derive(Clone, Copy, Debug, Default, PartialEq, Eq, PartialOrd, Ord, Hash)]
pub struct Dictionary;

impl<'a> Parse<'a> for Dictionary {
    ghost reading = { own DICTIONARY (λ v. Mark) ⊥ };

    fn parse(_alloc: Global, input: &'a str) -> IResult<&'a str, Self> {
        keyword(Rule::DICTIONARY, "dictionary", Dictionary, input)
    }

    ghost lawful = { own_lawful DICTIONARY (λ v. Mark) ⊥ };
}

/// The keyword `enum`, with the trivia around it.
#[derive(Clone, Copy, Debug, Default, PartialEq, Eq, PartialOrd, Ord, Hash)]
pub struct Enum;

impl<'a> Parse<'a> for Enum {
    ghost reading = { own ENUM (λ v. Mark) ⊥ };

    fn parse(_alloc: Global, input: &'a str) -> IResult<&'a str, Self> {
        keyword(Rule::ENUM, "enum", Enum, input)
    }

    ghost lawful = { own_lawful ENUM (λ v. Mark) ⊥ };
}

/// The keyword `getter`, with the trivia around it.
#[derive(Clone, Copy, Debug, Default, PartialEq, Eq, PartialOrd, Ord, Hash)]
pub struct Getter;

impl<'a> Parse<'a> for Getter {
    ghost reading = { own GETTER (λ v. Mark) ⊥ };

    fn parse(_alloc: Global, input: &'a str) -> IResult<&'a str, Self> {
        keyword(Rule::GETTER, "getter", Getter, input)
    }

    ghost lawful = { own_lawful GETTER (λ v. Mark) ⊥ };
}

/// The keyword `includes`, with the trivia around it.
#[derive(Clone, Copy, Debug, Default, PartialEq, Eq, PartialOrd, Ord, Hash)]
pub struct Includes;

impl<'a> Parse<'a> for Includes {
    ghost reading = { own INCLUDES (λ v. Mark) ⊥ };

    fn parse(_alloc: Global, input: &'a str) -> IResult<&'a str, Self> {
        keyword(Rule::INCLUDES, "includes", Includes, input)
    }

    ghost lawful = { own_lawful INCLUDES (λ v. Mark) ⊥ };
}

/// The keyword `inherit`, with the trivia around it.
#[derive(Clone, Copy, Debug, Default, PartialEq, Eq, PartialOrd, Ord, Hash)]
pub struct Inherit;

impl<'a> Parse<'a> for Inherit {
    ghost reading = { own INHERIT (λ v. Mark) ⊥ };

    fn parse(_alloc: Global, input: &'a str) -> IResult<&'a str, Self> {
        keyword(Rule::INHERIT, "inherit", Inherit, input)
    }

    ghost lawful = { own_lawful INHERIT (λ v. Mark) ⊥ };
}

/// The keyword `interface`, with the trivia around it.
#[derive(Clone, Copy, Debug, Default, PartialEq, Eq, PartialOrd, Ord, Hash)]
pub struct Interface;

impl<'a> Parse<'a> for Interface {
    ghost reading = { own INTERFACE (λ v. Mark) ⊥ };

    fn parse(_alloc: Global, input: &'a str) -> IResult<&'a str, Self> {
        keyword(Rule::INTERFACE, "interface", Interface, input)
    }

    ghost lawful = { own_lawful INTERFACE (λ v. Mark) ⊥ };
}

/// The keyword `iterable`, with the trivia around it.
#[derive(Clone, Copy, Debug, Default, PartialEq, Eq, PartialOrd, Ord, Hash)]
pub struct Iterable;

impl<'a> Parse<'a> for Iterable {
    ghost reading = { own ITERABLE (λ v. Mark) ⊥ };

    fn parse(_alloc: Global, input: &'a str) -> IResult<&'a str, Self> {
        keyword(Rule::ITERABLE, "iterable", Iterable, input)
    }

    ghost lawful = { own_lawful ITERABLE (λ v. Mark) ⊥ };
}

/// The keyword `maplike`, with the trivia around it.
#[derive(Clone, Copy, Debug, Default, PartialEq, Eq, PartialOrd, Ord, Hash)]
pub struct Maplike;

impl<'a> Parse<'a> for Maplike {
    ghost reading = { own MAPLIKE (λ v. Mark) ⊥ };

    fn parse(_alloc: Global, input: &'a str) -> IResult<&'a str, Self> {
        keyword(Rule::MAPLIKE, "maplike", Maplike, input)
    }

    ghost lawful = { own_lawful MAPLIKE (λ v. Mark) ⊥ };
}

/// The keyword `namespace`, with the trivia around it.
#[derive(Clone, Copy, Debug, Default, PartialEq, Eq, PartialOrd, Ord, Hash)]
pub struct Namespace;

impl<'a> Parse<'a> for Namespace {
    ghost reading = { own NAMESPACE (λ v. Mark) ⊥ };

    fn parse(_alloc: Global, input: &'a str) -> IResult<&'a str, Self> {
        keyword(Rule::NAMESPACE, "namespace", Namespace, input)
    }

    ghost lawful = { own_lawful NAMESPACE (λ v. Mark) ⊥ };
}

/// The keyword `partial`, with the trivia around it.
#[derive(Clone, Copy, Debug, Default, PartialEq, Eq, PartialOrd, Ord, Hash)]
pub struct Partial;

impl<'a> Parse<'a> for Partial {
    ghost reading = { own PARTIAL (λ v. Mark) ⊥ };

    fn parse(_alloc: Global, input: &'a str) -> IResult<&'a str, Self> {
        keyword(Rule::PARTIAL, "partial", Partial, input)
    }

    ghost lawful = { own_lawful PARTIAL (λ v. Mark) ⊥ };
}

/// The keyword `required`, with the trivia around it.
#[derive(Clone, Copy, Debug, Default, PartialEq, Eq, PartialOrd, Ord, Hash)]
pub struct Required;

impl<'a> Parse<'a> for Required {
    ghost reading = { own REQUIRED (λ v. Mark) ⊥ };

    fn parse(_alloc: Global, input: &'a str) -> IResult<&'a str, Self> {
        keyword(Rule::REQUIRED, "required", Required, input)
    }

    ghost lawful = { own_lawful REQUIRED (λ v. Mark) ⊥ };
}

/// The keyword `setlike`, with the trivia around it.
#[derive(Clone, Copy, Debug, Default, PartialEq, Eq, PartialOrd, Ord, Hash)]
pub struct Setlike;

impl<'a> Parse<'a> for Setlike {
    ghost reading = { own SETLIKE (λ v. Mark) ⊥ };

    fn parse(_alloc: Global, input: &'a str) -> IResult<&'a str, Self> {
        keyword(Rule::SETLIKE, "setlike", Setlike, input)
    }

    ghost lawful = { own_lawful SETLIKE (λ v. Mark) ⊥ };
}

/// The keyword `setter`, with the trivia around it.
#[derive(Clone, Copy, Debug, Default, PartialEq, Eq, PartialOrd, Ord, Hash)]
pub struct Setter;

impl<'a> Parse<'a> for Setter {
    ghost reading = { own SETTER (λ v. Mark) ⊥ };

    fn parse(_alloc: Global, input: &'a str) -> IResult<&'a str, Self> {
        keyword(Rule::SETTER, "setter", Setter, input)
    }

    ghost lawful = { own_lawful SETTER (λ v. Mark) ⊥ };
}

/// The keyword `static`, with the trivia around it.
#[derive(Clone, Copy, Debug, Default, PartialEq, Eq, PartialOrd, Ord, Hash)]
pub struct Static;

impl<'a> Parse<'a> for Static {
    ghost reading = { own STATIC (λ v. Mark) ⊥ };

    fn parse(_alloc: Global, input: &'a str) -> IResult<&'a str, Self> {
        keyword(Rule::STATIC, "static", Static, input)
    }

    ghost lawful = { own_lawful STATIC (λ v. Mark) ⊥ };
}

/// The keyword `stringifier`, with the trivia around it.
#[derive(Clone, Copy, Debug, Default, PartialEq, Eq, PartialOrd, Ord, Hash)]
pub struct Stringifier;

impl<'a> Parse<'a> for Stringifier {
    ghost reading = { own STRINGIFIER (λ v. Mark) ⊥ };

    fn parse(_alloc: Global, input: &'a str) -> IResult<&'a str, Self> {
        keyword(Rule::STRINGIFIER, "stringifier", Stringifier, input)
    }

    ghost lawful = { own_lawful STRINGIFIER (λ v. Mark) ⊥ };
}

/// The keyword `typedef`, with the trivia around it.
#[derive(Clone, Copy, Debug, Default, PartialEq, Eq, PartialOrd, Ord, Hash)]
pub struct Typedef;

impl<'a> Parse<'a> for Typedef {
    ghost reading = { own TYPEDEF (λ v. Mark) ⊥ };

    fn parse(_alloc: Global, input: &'a str) -> IResult<&'a str, Self> {
        keyword(Rule::TYPEDEF, "typedef", Typedef, input)
    }

    ghost lawful = { own_lawful TYPEDEF (λ v. Mark) ⊥ };
}

/// The keyword `readonly`, with the trivia around it.
#[derive(Clone, Copy, Debug, Default, PartialEq, Eq, PartialOrd, Ord, Hash)]
pub struct ReadOnly;

impl<'a> Parse<'a> for ReadOnly {
    ghost reading = { own READ_ONLY (λ v. Mark) ⊥ };

    fn parse(_alloc: Global, input: &'a str) -> IResult<&'a str, Self> {
        keyword(Rule::READ_ONLY, "readonly", ReadOnly, input)
    }

    ghost lawful = { own_lawful READ_ONLY (λ v. Mark) ⊥ };
}

/// The keyword `mixin`, with the trivia around it.
#[derive(Clone, Copy, Debug, Default, PartialEq, Eq, PartialOrd, Ord, Hash)]
pub struct Mixin;

impl<'a> Parse<'a> for Mixin {
    ghost reading = { own MIXIN (λ v. Mark) ⊥ };

    fn parse(_alloc: Global, input: &'a str) -> IResult<&'a str, Self> {
        keyword(Rule::MIXIN, "mixin", Mixin, input)
    }

    ghost lawful = { own_lawful MIXIN (λ v. Mark) ⊥ };
}

/// The keyword `implements`, with the trivia around it.
#[derive(Clone, Copy, Debug, Default, PartialEq, Eq, PartialOrd, Ord, Hash)]
pub struct Implements;

impl<'a> Parse<'a> for Implements {
    ghost reading = { own IMPLEMENTS (λ v. Mark) ⊥ };

    fn parse(_alloc: Global, input: &'a str) -> IResult<&'a str, Self> {
        keyword(Rule::IMPLEMENTS, "implements", Implements, input)
    }

    ghost lawful = { own_lawful IMPLEMENTS (λ v. Mark) ⊥ };
}

/// The keyword `legacycaller`, with the trivia around it.
#[derive(Clone, Copy, Debug, Default, PartialEq, Eq, PartialOrd, Ord, Hash)]
pub struct LegacyCaller;

impl<'a> Parse<'a> for LegacyCaller {
    ghost reading = { own LEGACY_CALLER (λ v. Mark) ⊥ };

    fn parse(_alloc: Global, input: &'a str) -> IResult<&'a str, Self> {
        keyword(Rule::LEGACY_CALLER, "legacycaller", LegacyCaller, input)
    }

    ghost lawful = { own_lawful LEGACY_CALLER (λ v. Mark) ⊥ };
}

/// The keyword `constructor`, with the trivia around it.
#[derive(Clone, Copy, Debug, Default, PartialEq, Eq, PartialOrd, Ord, Hash)]
pub struct Constructor;

impl<'a> Parse<'a> for Constructor {
    ghost reading = { own CONSTRUCTOR (λ v. Mark) ⊥ };

    fn parse(_alloc: Global, input: &'a str) -> IResult<&'a str, Self> {
        keyword(Rule::CONSTRUCTOR, "constructor", Constructor, input)
    }

    ghost lawful = { own_lawful CONSTRUCTOR (λ v. Mark) ⊥ };
}
