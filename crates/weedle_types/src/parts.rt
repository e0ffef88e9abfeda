//! Parts that many members and definitions have.

ghost use Rattle.weedle_base.specs.Own.{own};
ghost use Rattle.weedle_base.specs.Reading.{Answers};
ghost use Rattle.weedle_grammar.specs.written.Table.Types.{OPT_EXTENDED_ATTRIBUTE_LIST};
ghost use Rattle.weedle_types.specs.Trees.{attributes_tree};

use crate::attribute::ExtendedAttributeList;
use std::alloc::Global;
use weedle_base::{IResult, Parse};

/// Reads extended attributes where present, as `[Exposed=Window]`. Where they don't it gives None
/// and is no mismatch; where memory is refused that is a failure.
pub fn attributes<'a>(
    alloc: Global,
    input: &'a str,
) -> IResult<&'a str, Option<ExtendedAttributeList<'a>>>
    ensures { Answers (own OPT_EXTENDED_ATTRIBUTE_LIST attributes_tree (Unit {0})) input.now
        result }
{
    Option::parse(alloc, input)
}
