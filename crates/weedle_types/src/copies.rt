//! Copies of parts that several members and definitions have, each with the tree of its original.

ghost use Rattle.std.specs.Prelude.{IfOk, ◌≡◌};
ghost use Rattle.weedle_base.specs.Rules.{option_tree};
ghost use Rattle.weedle_parts.specs.ValueTrees.{docstring_tree};
ghost use Rattle.weedle_types.specs.GenericsTrees.{one_type_tree, two_types_tree};
ghost use Rattle.weedle_types.specs.Trees.{attributes_tree};

use crate::attribute::ExtendedAttributeList;
use crate::types::AttributedType;
use std::alloc::{AllocError, Global};
use weedle_base::TryClone;
use weedle_base::term::Comma;
use weedle_parts::common::{Docstring, Generics};

/// Copies extended attributes, where present. It fails where memory is refused.
#[tactic(auto, using(crate::proofs::CopyFacts::attributes_alike))]
pub fn copy_attributes<'a>(
    attributes: &Option<ExtendedAttributeList<'a>>,
    alloc: Global,
) -> Result<Option<ExtendedAttributeList<'a>>, AllocError>
    ensures { IfOk result (λ copy. attributes_tree copy ≡ attributes_tree attributes.now) }
{
    let copy = attributes.try_clone(alloc)?;
    Ok(copy)
}

/// Copies a docstring that may be absent. It fails where memory is refused.
#[tactic(auto, using(crate::proofs::CopyFacts::docstring_alike))]
pub fn copy_docstring(
    docstring: &Option<Docstring>,
    alloc: Global,
) -> Result<Option<Docstring>, AllocError>
    ensures { IfOk result
        (λ copy. option_tree docstring_tree copy ≡ option_tree docstring_tree docstring.now) }
{
    let copy = docstring.try_clone(alloc)?;
    Ok(copy)
}

/// Copies a type between angle brackets. It fails where memory is refused.
#[tactic(auto, using(crate::proofs::CopyFacts::one_type_alike))]
pub fn copy_one_type<'a>(
    types: &Generics<AttributedType<'a>>,
    alloc: Global,
) -> Result<Generics<AttributedType<'a>>, AllocError>
    ensures { IfOk result (λ copy. one_type_tree copy ≡ one_type_tree types.now) }
{
    let copy = types.try_clone(alloc)?;
    Ok(copy)
}

/// Copies the types of keys and values. It fails where memory is refused.
#[tactic(auto, using(crate::proofs::CopyFacts::two_types_alike))]
pub fn copy_two_types<'a>(
    types: &Generics<(AttributedType<'a>, Comma, AttributedType<'a>)>,
    alloc: Global,
) -> Result<Generics<(AttributedType<'a>, Comma, AttributedType<'a>)>, AllocError>
    ensures { IfOk result (λ copy. two_types_tree copy ≡ two_types_tree types.now) }
{
    let copy = types.try_clone(alloc)?;
    Ok(copy)
}
