//! Clones of types over types in angle brackets.
#![tactic(auto, using(crate::proofs::TreeLaws::clone_steps))]

ghost use Rattle.std.specs.Prelude.{◌≡◌, IfOk};
ghost use Rattle.weedle_types.specs.Trees.{
  frozen_array_type_tree,
  promise_type_tree,
  record_type_tree,
  record_types_tree,
  sequence_type_tree,
};

use super::types::{clone_record_key_type, clone_return_type, clone_type};
use crate::types::{FrozenArrayType, PromiseType, RecordType, RecordTypes, SequenceType};
use std::alloc::{AllocError, Global};
use weedle_parts::common::Generics;

/// Clones a sequence, as `sequence<long>`.
#[cycle(clones)]
pub(crate) fn clone_sequence_type<'a>(
    original: &SequenceType<'a>,
    alloc: Global,
) -> Result<SequenceType<'a>, AllocError>
    ensures { IfOk result (λ v. sequence_type_tree v ≡ sequence_type_tree original.now) }
{
    let body = clone_type(&original.generics.body, alloc)?;
    Ok(SequenceType {
        sequence: original.sequence,
        generics: Generics {
            open_angle: original.generics.open_angle,
            body: Box::new(alloc, body)?,
            close_angle: original.generics.close_angle,
        },
    })
}

/// Clones an array that can't change, as `FrozenArray<long>`.
#[cycle(clones)]
pub(crate) fn clone_frozen_array_type<'a>(
    original: &FrozenArrayType<'a>,
    alloc: Global,
) -> Result<FrozenArrayType<'a>, AllocError>
    ensures { IfOk result (λ v. frozen_array_type_tree v ≡ frozen_array_type_tree original.now) }
{
    let body = clone_type(&original.generics.body, alloc)?;
    Ok(FrozenArrayType {
        frozen_array: original.frozen_array,
        generics: Generics {
            open_angle: original.generics.open_angle,
            body: Box::new(alloc, body)?,
            close_angle: original.generics.close_angle,
        },
    })
}

/// Clones a promise, as `Promise<undefined>`.
#[cycle(clones)]
pub(crate) fn clone_promise_type<'a>(
    original: &PromiseType<'a>,
    alloc: Global,
) -> Result<PromiseType<'a>, AllocError>
    ensures { IfOk result (λ v. promise_type_tree v ≡ promise_type_tree original.now) }
{
    let body = clone_return_type(&original.generics.body, alloc)?;
    Ok(PromiseType {
        promise: original.promise,
        generics: Generics {
            open_angle: original.generics.open_angle,
            body: Box::new(alloc, body)?,
            close_angle: original.generics.close_angle,
        },
    })
}

/// Clones a record, as `record<DOMString, long>`.
#[cycle(clones)]
pub(crate) fn clone_record_type<'a>(
    original: &RecordType<'a>,
    alloc: Global,
) -> Result<RecordType<'a>, AllocError>
    ensures { IfOk result (λ v. record_type_tree v ≡ record_type_tree original.now) }
{
    Ok(RecordType {
        record_: original.record_,
        generics: Generics {
            open_angle: original.generics.open_angle,
            body: clone_record_types(&original.generics.body, alloc)?,
            close_angle: original.generics.close_angle,
        },
    })
}

/// Clones the types of a record, as `DOMString, long`.
#[cycle(clones)]
pub(crate) fn clone_record_types<'a>(
    original: &RecordTypes<'a>,
    alloc: Global,
) -> Result<RecordTypes<'a>, AllocError>
    ensures { IfOk result (λ v. record_types_tree v ≡ record_types_tree original.now) }
{
    let key = clone_record_key_type(&original.0, alloc)?;
    let key = Box::new(alloc, key)?;
    let value = clone_type(&original.2, alloc)?;
    Ok(RecordTypes(key, original.1, Box::new(alloc, value)?))
}
