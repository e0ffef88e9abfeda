//! Keywords of types, arguments and values.
//!
//! Written by tools/terminals.py, and not edited by hand.

ghost use Rattle.weedle_grammar.specs.Trees.{Mark};
ghost use Rattle.weedle_grammar.specs.written.Table.Keywords.{
  OR,
  OPTIONAL,
  UNRESTRICTED,
  SYMBOL,
  ANY,
  BOOLEAN,
  BYTE,
  DOUBLE,
  FALSE,
  FLOAT,
  LONG,
  NULL,
  OBJECT,
  OCTET,
  SEQUENCE,
  SHORT,
  TRUE,
  UNSIGNED,
  UNDEFINED,
  RECORD,
};
ghost use Rattle.weedle_base.specs.Own.{own};
ghost use Rattle.weedle_base.specs.OwnLaws.{own_lawful};

use crate::{IResult, Parse, keyword};
use std::alloc::Global;
use weedle_grammar::Rule;

/// The keyword `or`, with the trivia around it.
#[derive(Clone, Copy, Debug, Default, PartialEq, Eq, PartialOrd, Ord, Hash)]
pub struct Or;

impl<'a> Parse<'a> for Or {
    ghost reading = { own OR (λ v. Mark) ⊥ };

    fn parse(_alloc: Global, input: &'a str) -> IResult<&'a str, Self> {
        keyword(Rule::OR, "or", Or, input)
    }

    ghost lawful = { own_lawful OR (λ v. Mark) ⊥ };
}

/// The keyword `optional`, with the trivia around it.
#[derive(Clone, Copy, Debug, Default, PartialEq, Eq, PartialOrd, Ord, Hash)]
pub struct Optional;

impl<'a> Parse<'a> for Optional {
    ghost reading = { own OPTIONAL (λ v. Mark) ⊥ };

    fn parse(_alloc: Global, input: &'a str) -> IResult<&'a str, Self> {
        keyword(Rule::OPTIONAL, "optional", Optional, input)
    }

    ghost lawful = { own_lawful OPTIONAL (λ v. Mark) ⊥ };
}

/// The keyword `unrestricted`, with the trivia around it.
#[derive(Clone, Copy, Debug, Default, PartialEq, Eq, PartialOrd, Ord, Hash)]
pub struct Unrestricted;

impl<'a> Parse<'a> for Unrestricted {
    ghost reading = { own UNRESTRICTED (λ v. Mark) ⊥ };

    fn parse(_alloc: Global, input: &'a str) -> IResult<&'a str, Self> {
        keyword(Rule::UNRESTRICTED, "unrestricted", Unrestricted, input)
    }

    ghost lawful = { own_lawful UNRESTRICTED (λ v. Mark) ⊥ };
}

/// The keyword `symbol`, with the trivia around it.
#[derive(Clone, Copy, Debug, Default, PartialEq, Eq, PartialOrd, Ord, Hash)]
pub struct Symbol;

impl<'a> Parse<'a> for Symbol {
    ghost reading = { own SYMBOL (λ v. Mark) ⊥ };

    fn parse(_alloc: Global, input: &'a str) -> IResult<&'a str, Self> {
        keyword(Rule::SYMBOL, "symbol", Symbol, input)
    }

    ghost lawful = { own_lawful SYMBOL (λ v. Mark) ⊥ };
}

/// The keyword `any`, with the trivia around it.
#[derive(Clone, Copy, Debug, Default, PartialEq, Eq, PartialOrd, Ord, Hash)]
pub struct Any;

impl<'a> Parse<'a> for Any {
    ghost reading = { own ANY (λ v. Mark) ⊥ };

    fn parse(_alloc: Global, input: &'a str) -> IResult<&'a str, Self> {
        keyword(Rule::ANY, "any", Any, input)
    }

    ghost lawful = { own_lawful ANY (λ v. Mark) ⊥ };
}

/// The keyword `boolean`, with the trivia around it.
#[derive(Clone, Copy, Debug, Default, PartialEq, Eq, PartialOrd, Ord, Hash)]
pub struct Boolean;

impl<'a> Parse<'a> for Boolean {
    ghost reading = { own BOOLEAN (λ v. Mark) ⊥ };

    fn parse(_alloc: Global, input: &'a str) -> IResult<&'a str, Self> {
        keyword(Rule::BOOLEAN, "boolean", Boolean, input)
    }

    ghost lawful = { own_lawful BOOLEAN (λ v. Mark) ⊥ };
}

/// The keyword `byte`, with the trivia around it.
#[derive(Clone, Copy, Debug, Default, PartialEq, Eq, PartialOrd, Ord, Hash)]
pub struct Byte;

impl<'a> Parse<'a> for Byte {
    ghost reading = { own BYTE (λ v. Mark) ⊥ };

    fn parse(_alloc: Global, input: &'a str) -> IResult<&'a str, Self> {
        keyword(Rule::BYTE, "byte", Byte, input)
    }

    ghost lawful = { own_lawful BYTE (λ v. Mark) ⊥ };
}

/// The keyword `double`, with the trivia around it.
#[derive(Clone, Copy, Debug, Default, PartialEq, Eq, PartialOrd, Ord, Hash)]
pub struct Double;

impl<'a> Parse<'a> for Double {
    ghost reading = { own DOUBLE (λ v. Mark) ⊥ };

    fn parse(_alloc: Global, input: &'a str) -> IResult<&'a str, Self> {
        keyword(Rule::DOUBLE, "double", Double, input)
    }

    ghost lawful = { own_lawful DOUBLE (λ v. Mark) ⊥ };
}

/// The keyword `false`, with the trivia around it.
#[derive(Clone, Copy, Debug, Default, PartialEq, Eq, PartialOrd, Ord, Hash)]
pub struct False;

impl<'a> Parse<'a> for False {
    ghost reading = { own FALSE (λ v. Mark) ⊥ };

    fn parse(_alloc: Global, input: &'a str) -> IResult<&'a str, Self> {
        keyword(Rule::FALSE, "false", False, input)
    }

    ghost lawful = { own_lawful FALSE (λ v. Mark) ⊥ };
}

/// The keyword `float`, with the trivia around it.
#[derive(Clone, Copy, Debug, Default, PartialEq, Eq, PartialOrd, Ord, Hash)]
pub struct Float;

impl<'a> Parse<'a> for Float {
    ghost reading = { own FLOAT (λ v. Mark) ⊥ };

    fn parse(_alloc: Global, input: &'a str) -> IResult<&'a str, Self> {
        keyword(Rule::FLOAT, "float", Float, input)
    }

    ghost lawful = { own_lawful FLOAT (λ v. Mark) ⊥ };
}

/// The keyword `long`, with the trivia around it.
#[derive(Clone, Copy, Debug, Default, PartialEq, Eq, PartialOrd, Ord, Hash)]
pub struct Long;

impl<'a> Parse<'a> for Long {
    ghost reading = { own LONG (λ v. Mark) ⊥ };

    fn parse(_alloc: Global, input: &'a str) -> IResult<&'a str, Self> {
        keyword(Rule::LONG, "long", Long, input)
    }

    ghost lawful = { own_lawful LONG (λ v. Mark) ⊥ };
}

/// The keyword `null`, with the trivia around it.
#[derive(Clone, Copy, Debug, Default, PartialEq, Eq, PartialOrd, Ord, Hash)]
pub struct Null;

impl<'a> Parse<'a> for Null {
    ghost reading = { own NULL (λ v. Mark) ⊥ };

    fn parse(_alloc: Global, input: &'a str) -> IResult<&'a str, Self> {
        keyword(Rule::NULL, "null", Null, input)
    }

    ghost lawful = { own_lawful NULL (λ v. Mark) ⊥ };
}

/// The keyword `object`, with the trivia around it.
#[derive(Clone, Copy, Debug, Default, PartialEq, Eq, PartialOrd, Ord, Hash)]
pub struct Object;

impl<'a> Parse<'a> for Object {
    ghost reading = { own OBJECT (λ v. Mark) ⊥ };

    fn parse(_alloc: Global, input: &'a str) -> IResult<&'a str, Self> {
        keyword(Rule::OBJECT, "object", Object, input)
    }

    ghost lawful = { own_lawful OBJECT (λ v. Mark) ⊥ };
}

/// The keyword `octet`, with the trivia around it.
#[derive(Clone, Copy, Debug, Default, PartialEq, Eq, PartialOrd, Ord, Hash)]
pub struct Octet;

impl<'a> Parse<'a> for Octet {
    ghost reading = { own OCTET (λ v. Mark) ⊥ };

    fn parse(_alloc: Global, input: &'a str) -> IResult<&'a str, Self> {
        keyword(Rule::OCTET, "octet", Octet, input)
    }

    ghost lawful = { own_lawful OCTET (λ v. Mark) ⊥ };
}

/// The keyword `sequence`, with the trivia around it.
#[derive(Clone, Copy, Debug, Default, PartialEq, Eq, PartialOrd, Ord, Hash)]
pub struct Sequence;

impl<'a> Parse<'a> for Sequence {
    ghost reading = { own SEQUENCE (λ v. Mark) ⊥ };

    fn parse(_alloc: Global, input: &'a str) -> IResult<&'a str, Self> {
        keyword(Rule::SEQUENCE, "sequence", Sequence, input)
    }

    ghost lawful = { own_lawful SEQUENCE (λ v. Mark) ⊥ };
}

/// The keyword `short`, with the trivia around it.
#[derive(Clone, Copy, Debug, Default, PartialEq, Eq, PartialOrd, Ord, Hash)]
pub struct Short;

impl<'a> Parse<'a> for Short {
    ghost reading = { own SHORT (λ v. Mark) ⊥ };

    fn parse(_alloc: Global, input: &'a str) -> IResult<&'a str, Self> {
        keyword(Rule::SHORT, "short", Short, input)
    }

    ghost lawful = { own_lawful SHORT (λ v. Mark) ⊥ };
}

/// The keyword `true`, with the trivia around it.
#[derive(Clone, Copy, Debug, Default, PartialEq, Eq, PartialOrd, Ord, Hash)]
pub struct True;

impl<'a> Parse<'a> for True {
    ghost reading = { own TRUE (λ v. Mark) ⊥ };

    fn parse(_alloc: Global, input: &'a str) -> IResult<&'a str, Self> {
        keyword(Rule::TRUE, "true", True, input)
    }

    ghost lawful = { own_lawful TRUE (λ v. Mark) ⊥ };
}

/// The keyword `unsigned`, with the trivia around it.
#[derive(Clone, Copy, Debug, Default, PartialEq, Eq, PartialOrd, Ord, Hash)]
pub struct Unsigned;

impl<'a> Parse<'a> for Unsigned {
    ghost reading = { own UNSIGNED (λ v. Mark) ⊥ };

    fn parse(_alloc: Global, input: &'a str) -> IResult<&'a str, Self> {
        keyword(Rule::UNSIGNED, "unsigned", Unsigned, input)
    }

    ghost lawful = { own_lawful UNSIGNED (λ v. Mark) ⊥ };
}

/// The keyword `undefined`, with the trivia around it.
#[derive(Clone, Copy, Debug, Default, PartialEq, Eq, PartialOrd, Ord, Hash)]
pub struct Undefined;

impl<'a> Parse<'a> for Undefined {
    ghost reading = { own UNDEFINED (λ v. Mark) ⊥ };

    fn parse(_alloc: Global, input: &'a str) -> IResult<&'a str, Self> {
        keyword(Rule::UNDEFINED, "undefined", Undefined, input)
    }

    ghost lawful = { own_lawful UNDEFINED (λ v. Mark) ⊥ };
}

/// The keyword `record`, with the trivia around it.
#[derive(Clone, Copy, Debug, Default, PartialEq, Eq, PartialOrd, Ord, Hash)]
pub struct Record;

impl<'a> Parse<'a> for Record {
    ghost reading = { own RECORD (λ v. Mark) ⊥ };

    fn parse(_alloc: Global, input: &'a str) -> IResult<&'a str, Self> {
        keyword(Rule::RECORD, "record", Record, input)
    }

    ghost lawful = { own_lawful RECORD (λ v. Mark) ⊥ };
}
