//! How types are written.

ghost use Rattle.weedle_spell.specs.RecursiveTypes.{
  non_any_type_spelling,
  type_spelling,
  union_member_type_spelling,
};
ghost use Rattle.weedle_spell.specs.written.Types.{
  attributed_non_any_type_spelling,
  attributed_type_spelling,
  frozen_array_type_spelling,
  promise_type_spelling,
  record_key_type_spelling,
  record_type_spelling,
  record_types_spelling,
  return_type_spelling,
  sequence_type_spelling,
  single_type_spelling,
  union_type_spelling,
};

use crate::error::PrintError;
use crate::group::generic_types::{
    print_frozen_array_type, print_promise_type, print_record_type, print_record_types,
    print_sequence_type,
};
use crate::group::types::{
    print_attributed_non_any_type, print_attributed_type, print_non_any_type,
    print_record_key_type, print_return_type, print_single_type, print_type,
};
use crate::group::unions::{print_union_member_type, print_union_type};
use crate::held::Held;
use crate::layout::Layout;
use crate::print::Print;
use weedle_types::types::{
    AttributedNonAnyType, AttributedType, FrozenArrayType, NonAnyType, PromiseType, RecordKeyType,
    RecordType, RecordTypes, ReturnType, SequenceType, SingleType, Type, UnionMemberType,
    UnionType,
};

impl<'a> Print for Held<Type<'a>> {
    type Value = Type<'a>;

    ghost spelling = { type_spelling };

    fn print(value: &Type<'a>, out: &mut String, layout: &mut Layout) -> Result<(), PrintError> {
        print_type(value, out, layout)
    }
}

impl<'a> Print for Held<SingleType<'a>> {
    type Value = SingleType<'a>;

    ghost spelling = { single_type_spelling };

    fn print(
        value: &SingleType<'a>,
        out: &mut String,
        layout: &mut Layout,
    ) -> Result<(), PrintError> {
        print_single_type(value, out, layout)
    }
}

impl<'a> Print for Held<NonAnyType<'a>> {
    type Value = NonAnyType<'a>;

    ghost spelling = { non_any_type_spelling };

    fn print(
        value: &NonAnyType<'a>,
        out: &mut String,
        layout: &mut Layout,
    ) -> Result<(), PrintError> {
        print_non_any_type(value, out, layout)
    }
}

impl<'a> Print for Held<RecordKeyType<'a>> {
    type Value = RecordKeyType<'a>;

    ghost spelling = { record_key_type_spelling };

    fn print(
        value: &RecordKeyType<'a>,
        out: &mut String,
        layout: &mut Layout,
    ) -> Result<(), PrintError> {
        print_record_key_type(value, out, layout)
    }
}

impl<'a> Print for Held<RecordTypes<'a>> {
    type Value = RecordTypes<'a>;

    ghost spelling = { record_types_spelling };

    fn print(
        value: &RecordTypes<'a>,
        out: &mut String,
        layout: &mut Layout,
    ) -> Result<(), PrintError> {
        print_record_types(value, out, layout)
    }
}

impl<'a> Print for Held<SequenceType<'a>> {
    type Value = SequenceType<'a>;

    ghost spelling = { sequence_type_spelling };

    fn print(
        value: &SequenceType<'a>,
        out: &mut String,
        layout: &mut Layout,
    ) -> Result<(), PrintError> {
        print_sequence_type(value, out, layout)
    }
}

impl<'a> Print for Held<FrozenArrayType<'a>> {
    type Value = FrozenArrayType<'a>;

    ghost spelling = { frozen_array_type_spelling };

    fn print(
        value: &FrozenArrayType<'a>,
        out: &mut String,
        layout: &mut Layout,
    ) -> Result<(), PrintError> {
        print_frozen_array_type(value, out, layout)
    }
}

impl<'a> Print for Held<PromiseType<'a>> {
    type Value = PromiseType<'a>;

    ghost spelling = { promise_type_spelling };

    fn print(
        value: &PromiseType<'a>,
        out: &mut String,
        layout: &mut Layout,
    ) -> Result<(), PrintError> {
        print_promise_type(value, out, layout)
    }
}

impl<'a> Print for Held<RecordType<'a>> {
    type Value = RecordType<'a>;

    ghost spelling = { record_type_spelling };

    fn print(
        value: &RecordType<'a>,
        out: &mut String,
        layout: &mut Layout,
    ) -> Result<(), PrintError> {
        print_record_type(value, out, layout)
    }
}

impl<'a> Print for Held<UnionType<'a>> {
    type Value = UnionType<'a>;

    ghost spelling = { union_type_spelling };

    fn print(
        value: &UnionType<'a>,
        out: &mut String,
        layout: &mut Layout,
    ) -> Result<(), PrintError> {
        print_union_type(value, out, layout)
    }
}

impl<'a> Print for Held<UnionMemberType<'a>> {
    type Value = UnionMemberType<'a>;

    ghost spelling = { union_member_type_spelling };

    fn print(
        value: &UnionMemberType<'a>,
        out: &mut String,
        layout: &mut Layout,
    ) -> Result<(), PrintError> {
        print_union_member_type(value, out, layout)
    }
}

impl<'a> Print for Held<AttributedType<'a>> {
    type Value = AttributedType<'a>;

    ghost spelling = { attributed_type_spelling };

    fn print(
        value: &AttributedType<'a>,
        out: &mut String,
        layout: &mut Layout,
    ) -> Result<(), PrintError> {
        print_attributed_type(value, out, layout)
    }
}

impl<'a> Print for Held<AttributedNonAnyType<'a>> {
    type Value = AttributedNonAnyType<'a>;

    ghost spelling = { attributed_non_any_type_spelling };

    fn print(
        value: &AttributedNonAnyType<'a>,
        out: &mut String,
        layout: &mut Layout,
    ) -> Result<(), PrintError> {
        print_attributed_non_any_type(value, out, layout)
    }
}

impl<'a> Print for Held<ReturnType<'a>> {
    type Value = ReturnType<'a>;

    ghost spelling = { return_type_spelling };

    fn print(
        value: &ReturnType<'a>,
        out: &mut String,
        layout: &mut Layout,
    ) -> Result<(), PrintError> {
        print_return_type(value, out, layout)?;
        layout.end_type();
        Ok(())
    }
}
