//! The definitions of a whole text.

ghost use Rattle.std.specs.Prelude.{◌≡◌, IfOk};
ghost use Rattle.weedle_build_base.specs.Whole.{IsBuilt};
ghost use Rattle.weedle_idl.specs.written.DefinitionTrees.{definitions_tree};

use crate::part::IdlPart;
use std::alloc::{AllocError, Global};
use weedle_build_base::{Table, build_front};
use weedle_idl::{Definition, Definitions};
use weedle_memo::Memo;
use weedle_rules::Ends;

/// What was built of a text.
#[derive(Drop)]
pub struct Built<'a> {
    /// The definitions at the front of the text, in order.
    pub list: Definitions<'a>,
    /// What follows the definitions.
    pub rest: &'a str,
    /// How many nodes the tree of the list has, each of which was visited once.
    pub visits: u128,
}

/// Builds the definitions at the front of a text along its packrat table: of `enum E {"a"}; x` the
/// list is the enum, the remaining input `x`. `raw` is the text that the table is over.
///
/// It works no rule out and changes nothing in the table: it looks at ends alone, in no more steps
/// than the tree has nodes and its docstrings have lines, up to a factor that the grammar fixes. It
/// takes the memory that the list holds, and is refused for lack of it alone.
pub fn build_definitions<'a>(
    alloc: Global,
    ends: &Ends<'a>,
    raw: &'a str,
) -> Result<Built<'a>, AllocError>
    requires table { ends.now.text ≡ raw.now }
    ensures { IfOk result
        (λ built. IsBuilt raw.now (definitions_tree built.list.items) built.rest.now built.visits) }
{
    let table = Table::of_ends(ends);
    let (list, rest, visits) = build_front::<Vec<IdlPart<Definition<'a>>>>(alloc, table, raw)?;
    Ok(Built { list, rest, visits })
}

/// Builds the definitions at the front of a text along the memo of its definitions, as
/// [`build_definitions`] does along its packrat table. `raw` is the text that the memo is of.
pub fn build_by_memo<'a>(
    alloc: Global,
    memo: &Memo<'_>,
    raw: &'a str,
) -> Result<Built<'a>, AllocError>
    requires memo { memo.now.text ≡ raw.now }
    ensures { IfOk result
        (λ built. IsBuilt raw.now (definitions_tree built.list.items) built.rest.now built.visits) }
{
    let table = Table::of_memo(memo, raw);
    let (list, rest, visits) = build_front::<Vec<IdlPart<Definition<'a>>>>(alloc, table, raw)?;
    Ok(Built { list, rest, visits })
}
