//! Types, extended attributes and arguments.
//!
//! Written by tools/prints.py, and not edited by hand.

ghost use Rattle.weedle_spell.specs.RecursiveTypes.{
  argument_spelling,
  extended_attribute_spelling,
  non_any_type_spelling,
  type_spelling,
  union_member_type_spelling,
};
ghost use Rattle.weedle_spell.specs.written.Arguments.{
  arguments_spelling,
  extended_attribute_arg_list_spelling,
  extended_attribute_list_spelling,
  extended_attribute_named_arg_list_spelling,
  single_argument_spelling,
  variadic_argument_spelling,
};
ghost use Rattle.weedle_spell.specs.written.PlainAttributes.{
  extended_attribute_ident_list_spelling,
  extended_attribute_ident_spelling,
  extended_attribute_no_args_spelling,
  identifier_list_spelling,
  identifier_or_string_spelling,
};
ghost use Rattle.weedle_spell.specs.written.Types.{
  attributed_non_any_type_spelling,
  attributed_type_spelling,
  frozen_array_type_spelling,
  promise_type_spelling,
  record_key_type_spelling,
  record_type_spelling,
  record_types_spelling,
  return_type_spelling,
  sequence_type_spelling,
  single_type_spelling,
  union_type_spelling,
};

use crate::write::WriteIdl;
use weedle_print::{Held, Layout, Print, PrintError};
use weedle_types::argument::{
    Argument, ParenthesizedArgumentList, SingleArgument, VariadicArgument,
};
use weedle_types::attribute::{
    ExtendedAttribute, ExtendedAttributeArgList, ExtendedAttributeIdent,
    ExtendedAttributeIdentList, ExtendedAttributeList, ExtendedAttributeNamedArgList,
    ExtendedAttributeNoArgs, IdentifierList, IdentifierOrString,
};
use weedle_types::types::{
    AttributedNonAnyType, AttributedType, FrozenArrayType, NonAnyType, PromiseType, RecordKeyType,
    RecordType, RecordTypes, ReturnType, SequenceType, SingleType, Type, UnionMemberType,
    UnionType,
};

impl<'a> WriteIdl for ParenthesizedArgumentList<'a> {
    ghost spelling = { arguments_spelling };

    fn write_part(&self, out: &mut String, layout: &mut Layout) -> Result<(), PrintError> {
        Held::<ParenthesizedArgumentList<'a>>::print(self, out, layout)
    }
}

impl<'a> WriteIdl for Argument<'a> {
    ghost spelling = { argument_spelling };

    fn write_part(&self, out: &mut String, layout: &mut Layout) -> Result<(), PrintError> {
        Held::<Argument<'a>>::print(self, out, layout)
    }
}

impl<'a> WriteIdl for SingleArgument<'a> {
    ghost spelling = { single_argument_spelling };

    fn write_part(&self, out: &mut String, layout: &mut Layout) -> Result<(), PrintError> {
        Held::<SingleArgument<'a>>::print(self, out, layout)
    }
}

impl<'a> WriteIdl for VariadicArgument<'a> {
    ghost spelling = { variadic_argument_spelling };

    fn write_part(&self, out: &mut String, layout: &mut Layout) -> Result<(), PrintError> {
        Held::<VariadicArgument<'a>>::print(self, out, layout)
    }
}

impl<'a> WriteIdl for ExtendedAttribute<'a> {
    ghost spelling = { extended_attribute_spelling };

    fn write_part(&self, out: &mut String, layout: &mut Layout) -> Result<(), PrintError> {
        Held::<ExtendedAttribute<'a>>::print(self, out, layout)
    }
}

impl<'a> WriteIdl for ExtendedAttributeArgList<'a> {
    ghost spelling = { extended_attribute_arg_list_spelling };

    fn write_part(&self, out: &mut String, layout: &mut Layout) -> Result<(), PrintError> {
        Held::<ExtendedAttributeArgList<'a>>::print(self, out, layout)
    }
}

impl<'a> WriteIdl for ExtendedAttributeNamedArgList<'a> {
    ghost spelling = { extended_attribute_named_arg_list_spelling };

    fn write_part(&self, out: &mut String, layout: &mut Layout) -> Result<(), PrintError> {
        Held::<ExtendedAttributeNamedArgList<'a>>::print(self, out, layout)
    }
}

impl<'a> WriteIdl for ExtendedAttributeIdentList<'a> {
    ghost spelling = { extended_attribute_ident_list_spelling };

    fn write_part(&self, out: &mut String, layout: &mut Layout) -> Result<(), PrintError> {
        Held::<ExtendedAttributeIdentList<'a>>::print(self, out, layout)
    }
}

impl<'a> WriteIdl for ExtendedAttributeIdent<'a> {
    ghost spelling = { extended_attribute_ident_spelling };

    fn write_part(&self, out: &mut String, layout: &mut Layout) -> Result<(), PrintError> {
        Held::<ExtendedAttributeIdent<'a>>::print(self, out, layout)
    }
}

impl<'a> WriteIdl for ExtendedAttributeNoArgs<'a> {
    ghost spelling = { extended_attribute_no_args_spelling };

    fn write_part(&self, out: &mut String, layout: &mut Layout) -> Result<(), PrintError> {
        Held::<ExtendedAttributeNoArgs<'a>>::print(self, out, layout)
    }
}

impl<'a> WriteIdl for IdentifierOrString<'a> {
    ghost spelling = { identifier_or_string_spelling };

    fn write_part(&self, out: &mut String, layout: &mut Layout) -> Result<(), PrintError> {
        Held::<IdentifierOrString<'a>>::print(self, out, layout)
    }
}

impl<'a> WriteIdl for Type<'a> {
    ghost spelling = { type_spelling };

    fn write_part(&self, out: &mut String, layout: &mut Layout) -> Result<(), PrintError> {
        Held::<Type<'a>>::print(self, out, layout)
    }
}

impl<'a> WriteIdl for NonAnyType<'a> {
    ghost spelling = { non_any_type_spelling };

    fn write_part(&self, out: &mut String, layout: &mut Layout) -> Result<(), PrintError> {
        Held::<NonAnyType<'a>>::print(self, out, layout)
    }
}

impl<'a> WriteIdl for RecordTypes<'a> {
    ghost spelling = { record_types_spelling };

    fn write_part(&self, out: &mut String, layout: &mut Layout) -> Result<(), PrintError> {
        Held::<RecordTypes<'a>>::print(self, out, layout)
    }
}

impl<'a> WriteIdl for UnionMemberType<'a> {
    ghost spelling = { union_member_type_spelling };

    fn write_part(&self, out: &mut String, layout: &mut Layout) -> Result<(), PrintError> {
        Held::<UnionMemberType<'a>>::print(self, out, layout)
    }
}

impl<'a> WriteIdl for AttributedType<'a> {
    ghost spelling = { attributed_type_spelling };

    fn write_part(&self, out: &mut String, layout: &mut Layout) -> Result<(), PrintError> {
        Held::<AttributedType<'a>>::print(self, out, layout)
    }
}

impl<'a> WriteIdl for AttributedNonAnyType<'a> {
    ghost spelling = { attributed_non_any_type_spelling };

    fn write_part(&self, out: &mut String, layout: &mut Layout) -> Result<(), PrintError> {
        Held::<AttributedNonAnyType<'a>>::print(self, out, layout)
    }
}

impl<'a> WriteIdl for ExtendedAttributeList<'a> {
    ghost spelling = { extended_attribute_list_spelling };

    fn write_part(&self, out: &mut String, layout: &mut Layout) -> Result<(), PrintError> {
        Held::<ExtendedAttributeList<'a>>::print(self, out, layout)
    }
}

impl<'a> WriteIdl for IdentifierList<'a> {
    ghost spelling = { identifier_list_spelling };

    fn write_part(&self, out: &mut String, layout: &mut Layout) -> Result<(), PrintError> {
        Held::<IdentifierList<'a>>::print(self, out, layout)
    }
}

impl<'a> WriteIdl for SingleType<'a> {
    ghost spelling = { single_type_spelling };

    fn write_part(&self, out: &mut String, layout: &mut Layout) -> Result<(), PrintError> {
        Held::<SingleType<'a>>::print(self, out, layout)
    }
}

impl<'a> WriteIdl for SequenceType<'a> {
    ghost spelling = { sequence_type_spelling };

    fn write_part(&self, out: &mut String, layout: &mut Layout) -> Result<(), PrintError> {
        Held::<SequenceType<'a>>::print(self, out, layout)
    }
}

impl<'a> WriteIdl for FrozenArrayType<'a> {
    ghost spelling = { frozen_array_type_spelling };

    fn write_part(&self, out: &mut String, layout: &mut Layout) -> Result<(), PrintError> {
        Held::<FrozenArrayType<'a>>::print(self, out, layout)
    }
}

impl<'a> WriteIdl for PromiseType<'a> {
    ghost spelling = { promise_type_spelling };

    fn write_part(&self, out: &mut String, layout: &mut Layout) -> Result<(), PrintError> {
        Held::<PromiseType<'a>>::print(self, out, layout)
    }
}

impl<'a> WriteIdl for RecordType<'a> {
    ghost spelling = { record_type_spelling };

    fn write_part(&self, out: &mut String, layout: &mut Layout) -> Result<(), PrintError> {
        Held::<RecordType<'a>>::print(self, out, layout)
    }
}

impl<'a> WriteIdl for RecordKeyType<'a> {
    ghost spelling = { record_key_type_spelling };

    fn write_part(&self, out: &mut String, layout: &mut Layout) -> Result<(), PrintError> {
        Held::<RecordKeyType<'a>>::print(self, out, layout)
    }
}

impl<'a> WriteIdl for ReturnType<'a> {
    ghost spelling = { return_type_spelling };

    fn write_part(&self, out: &mut String, layout: &mut Layout) -> Result<(), PrintError> {
        Held::<ReturnType<'a>>::print(self, out, layout)
    }
}

impl<'a> WriteIdl for UnionType<'a> {
    ghost spelling = { union_type_spelling };

    fn write_part(&self, out: &mut String, layout: &mut Layout) -> Result<(), PrintError> {
        Held::<UnionType<'a>>::print(self, out, layout)
    }
}
