//! Types over others.
#![tactic(auto, using(crate::proofs::AddsFacts::adds_then, crate::proofs::VariantFacts::variant_steps, weedle_types::proofs::TreeLaws::clone_steps))]

ghost use Rattle.std.specs.Prelude.{OnOk, string_bytes};
ghost use Rattle.weedle_print.specs.Adds.{Adds};
ghost use Rattle.weedle_spell.specs.GenericParts.{may_be_null_spelling};
ghost use Rattle.weedle_spell.specs.written.Types.{
  frozen_array_type_spelling,
  promise_type_spelling,
  record_type_spelling,
  record_types_spelling,
  sequence_type_spelling,
};

use super::types::{print_record_key_type, print_return_type, print_type};
use crate::error::PrintError;
use crate::layout::Layout;
use crate::print::Print;
use weedle_base::term::{
    Comma, FrozenArray, GreaterThan, LessThan, Promise, QMark, Record, Sequence,
};
use weedle_parts::types::MayBeNull;
use weedle_types::types::{FrozenArrayType, PromiseType, RecordType, RecordTypes, SequenceType};

/// Writes a sequence, as `sequence<long>`.
#[cycle(prints)]
pub(crate) fn print_sequence_type(
    type_: &SequenceType<'_>,
    out: &mut String,
    layout: &mut Layout,
) -> Result<(), PrintError>
    ensures { OnOk result
        (Adds (sequence_type_spelling type_.now) (string_bytes out.old) (string_bytes out.new)) }
{
    Sequence::print(&type_.sequence, out, layout)?;
    LessThan::print(&type_.generics.open_angle, out, layout)?;
    print_type(&type_.generics.body, out, layout)?;
    GreaterThan::print(&type_.generics.close_angle, out, layout)
}

/// Writes a sequence that may be null, as `sequence<long>?`.
#[cycle(prints)]
pub(crate) fn print_nullable_sequence_type(
    type_: &MayBeNull<SequenceType<'_>>,
    out: &mut String,
    layout: &mut Layout,
) -> Result<(), PrintError>
    ensures { OnOk result
        (Adds (may_be_null_spelling sequence_type_spelling type_.now) (string_bytes out.old)
        (string_bytes out.new)) }
{
    print_sequence_type(&type_.type_, out, layout)?;
    Option::<QMark>::print(&type_.q_mark, out, layout)
}

/// Writes an array that can't change, as `FrozenArray<long>`.
#[cycle(prints)]
pub(crate) fn print_frozen_array_type(
    type_: &FrozenArrayType<'_>,
    out: &mut String,
    layout: &mut Layout,
) -> Result<(), PrintError>
    ensures { OnOk result
        (Adds (frozen_array_type_spelling type_.now) (string_bytes out.old)
        (string_bytes out.new)) }
{
    FrozenArray::print(&type_.frozen_array, out, layout)?;
    LessThan::print(&type_.generics.open_angle, out, layout)?;
    print_type(&type_.generics.body, out, layout)?;
    GreaterThan::print(&type_.generics.close_angle, out, layout)
}

/// Writes an array that can't change and may be null, as `FrozenArray<long>?`.
#[cycle(prints)]
pub(crate) fn print_nullable_frozen_array_type(
    type_: &MayBeNull<FrozenArrayType<'_>>,
    out: &mut String,
    layout: &mut Layout,
) -> Result<(), PrintError>
    ensures { OnOk result
        (Adds (may_be_null_spelling frozen_array_type_spelling type_.now) (string_bytes out.old)
        (string_bytes out.new)) }
{
    print_frozen_array_type(&type_.type_, out, layout)?;
    Option::<QMark>::print(&type_.q_mark, out, layout)
}

/// Writes a promise, as `Promise<undefined>`.
#[cycle(prints)]
pub(crate) fn print_promise_type(
    type_: &PromiseType<'_>,
    out: &mut String,
    layout: &mut Layout,
) -> Result<(), PrintError>
    ensures { OnOk result
        (Adds (promise_type_spelling type_.now) (string_bytes out.old) (string_bytes out.new)) }
{
    Promise::print(&type_.promise, out, layout)?;
    LessThan::print(&type_.generics.open_angle, out, layout)?;
    print_return_type(&type_.generics.body, out, layout)?;
    GreaterThan::print(&type_.generics.close_angle, out, layout)
}

/// Writes a record, as `record<DOMString, long>`.
#[cycle(prints)]
pub(crate) fn print_record_type(
    type_: &RecordType<'_>,
    out: &mut String,
    layout: &mut Layout,
) -> Result<(), PrintError>
    ensures { OnOk result
        (Adds (record_type_spelling type_.now) (string_bytes out.old) (string_bytes out.new)) }
{
    Record::print(&type_.record_, out, layout)?;
    LessThan::print(&type_.generics.open_angle, out, layout)?;
    print_record_types(&type_.generics.body, out, layout)?;
    GreaterThan::print(&type_.generics.close_angle, out, layout)
}

/// Writes a record that may be null, as `record<DOMString, long>?`.
#[cycle(prints)]
pub(crate) fn print_nullable_record_type(
    type_: &MayBeNull<RecordType<'_>>,
    out: &mut String,
    layout: &mut Layout,
) -> Result<(), PrintError>
    ensures { OnOk result
        (Adds (may_be_null_spelling record_type_spelling type_.now) (string_bytes out.old)
        (string_bytes out.new)) }
{
    print_record_type(&type_.type_, out, layout)?;
    Option::<QMark>::print(&type_.q_mark, out, layout)
}

/// Writes the types of a record, as `DOMString, long`.
#[cycle(prints)]
pub(crate) fn print_record_types(
    types: &RecordTypes<'_>,
    out: &mut String,
    layout: &mut Layout,
) -> Result<(), PrintError>
    ensures { OnOk result
        (Adds (record_types_spelling types.now) (string_bytes out.old) (string_bytes out.new)) }
{
    print_record_key_type(&types.0, out, layout)?;
    Comma::print(&types.1, out, layout)?;
    print_type(&types.2, out, layout)
}
