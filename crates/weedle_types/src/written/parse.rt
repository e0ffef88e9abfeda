//! `Parse` for the types of the recursive group: each has the reading of its rule.

ghost use Rattle.weedle_base.specs.Own.{own};
ghost use Rattle.weedle_base.specs.OwnLaws.{own_lawful};
ghost use Rattle.weedle_grammar.specs.written.Table.Types.{
  ARGUMENT,
  ATTRIBUTED_NON_ANY_TYPE,
  ATTRIBUTED_TYPE,
  EXTENDED_ATTRIBUTE,
  EXTENDED_ATTRIBUTE_ARG_LIST,
  EXTENDED_ATTRIBUTE_NAMED_ARG_LIST,
  FROZEN_ARRAY_TYPE,
  NON_ANY_TYPE,
  PARENTHESIZED_ARGUMENT_LIST,
  PROMISE_TYPE,
  RECORD_KEY_TYPE,
  RECORD_TYPE,
  RECORD_TYPES,
  RETURN_TYPE,
  SEQUENCE_TYPE,
  SINGLE_ARGUMENT,
  SINGLE_TYPE,
  TYPE,
  UNION_MEMBER_TYPE,
  VARIADIC_ARGUMENT,
};
ghost use Rattle.weedle_types.specs.Trees.{
  argument_tree,
  arguments_tree,
  attributed_non_any_type_tree,
  attributed_type_tree,
  extended_attribute_arg_list_tree,
  extended_attribute_named_arg_list_tree,
  extended_attribute_tree,
  frozen_array_type_tree,
  non_any_type_tree,
  promise_type_tree,
  record_key_type_tree,
  record_type_tree,
  record_types_tree,
  return_type_tree,
  sequence_type_tree,
  single_argument_tree,
  single_type_tree,
  type_tree,
  union_member_type_tree,
  variadic_argument_tree,
};

use crate::argument::{Argument, ParenthesizedArgumentList, SingleArgument, VariadicArgument};
use crate::attribute::{
    ExtendedAttribute, ExtendedAttributeArgList, ExtendedAttributeNamedArgList,
};
use crate::reading::arguments::{argument, arguments, single_argument, variadic_argument};
use crate::reading::attributes::{
    extended_attribute, extended_attribute_arg_list, extended_attribute_named_arg_list,
};
use crate::reading::generic_types::{
    frozen_array_type, promise_type, record_type, record_types, sequence_type,
};
use crate::reading::types::{
    attributed_non_any_type, attributed_type, non_any_type, record_key_type, return_type,
    single_type, type_,
};
use crate::reading::unions::union_member_type;
use crate::types::{
    AttributedNonAnyType, AttributedType, FrozenArrayType, NonAnyType, PromiseType, RecordKeyType,
    RecordType, RecordTypes, ReturnType, SequenceType, SingleType, Type, UnionMemberType,
};
use std::alloc::Global;
use weedle_base::{IResult, Parse};

impl<'a> Parse<'a> for Type<'a> {
    ghost reading = { own TYPE type_tree (Unit {0}) };

    fn parse(alloc: Global, input: &'a str) -> IResult<&'a str, Self> {
        type_(alloc, input)
    }

    ghost lawful = { own_lawful TYPE type_tree (Unit {0}) };
}

impl<'a> Parse<'a> for SingleType<'a> {
    ghost reading = { own SINGLE_TYPE single_type_tree (Unit {0}) };

    fn parse(alloc: Global, input: &'a str) -> IResult<&'a str, Self> {
        single_type(alloc, input)
    }

    ghost lawful = { own_lawful SINGLE_TYPE single_type_tree (Unit {0}) };
}

impl<'a> Parse<'a> for NonAnyType<'a> {
    ghost reading = { own NON_ANY_TYPE non_any_type_tree (Unit {0}) };

    fn parse(alloc: Global, input: &'a str) -> IResult<&'a str, Self> {
        non_any_type(alloc, input)
    }

    ghost lawful = { own_lawful NON_ANY_TYPE non_any_type_tree (Unit {0}) };
}

impl<'a> Parse<'a> for RecordKeyType<'a> {
    ghost reading = { own RECORD_KEY_TYPE record_key_type_tree (Unit {0}) };

    fn parse(alloc: Global, input: &'a str) -> IResult<&'a str, Self> {
        record_key_type(alloc, input)
    }

    ghost lawful = { own_lawful RECORD_KEY_TYPE record_key_type_tree (Unit {0}) };
}

impl<'a> Parse<'a> for ReturnType<'a> {
    ghost reading = { own RETURN_TYPE return_type_tree (Unit {0}) };

    fn parse(alloc: Global, input: &'a str) -> IResult<&'a str, Self> {
        return_type(alloc, input)
    }

    ghost lawful = { own_lawful RETURN_TYPE return_type_tree (Unit {0}) };
}

impl<'a> Parse<'a> for AttributedType<'a> {
    ghost reading = { own ATTRIBUTED_TYPE attributed_type_tree (Unit {0}) };

    fn parse(alloc: Global, input: &'a str) -> IResult<&'a str, Self> {
        attributed_type(alloc, input)
    }

    ghost lawful = { own_lawful ATTRIBUTED_TYPE attributed_type_tree (Unit {0}) };
}

impl<'a> Parse<'a> for AttributedNonAnyType<'a> {
    ghost reading = { own ATTRIBUTED_NON_ANY_TYPE attributed_non_any_type_tree (Unit {0}) };

    fn parse(alloc: Global, input: &'a str) -> IResult<&'a str, Self> {
        attributed_non_any_type(alloc, input)
    }

    ghost lawful = { own_lawful ATTRIBUTED_NON_ANY_TYPE attributed_non_any_type_tree (Unit {0}) };
}

impl<'a> Parse<'a> for SequenceType<'a> {
    ghost reading = { own SEQUENCE_TYPE sequence_type_tree (Unit {0}) };

    fn parse(alloc: Global, input: &'a str) -> IResult<&'a str, Self> {
        sequence_type(alloc, input)
    }

    ghost lawful = { own_lawful SEQUENCE_TYPE sequence_type_tree (Unit {0}) };
}

impl<'a> Parse<'a> for FrozenArrayType<'a> {
    ghost reading = { own FROZEN_ARRAY_TYPE frozen_array_type_tree (Unit {0}) };

    fn parse(alloc: Global, input: &'a str) -> IResult<&'a str, Self> {
        frozen_array_type(alloc, input)
    }

    ghost lawful = { own_lawful FROZEN_ARRAY_TYPE frozen_array_type_tree (Unit {0}) };
}

impl<'a> Parse<'a> for PromiseType<'a> {
    ghost reading = { own PROMISE_TYPE promise_type_tree (Unit {0}) };

    fn parse(alloc: Global, input: &'a str) -> IResult<&'a str, Self> {
        promise_type(alloc, input)
    }

    ghost lawful = { own_lawful PROMISE_TYPE promise_type_tree (Unit {0}) };
}

impl<'a> Parse<'a> for RecordType<'a> {
    ghost reading = { own RECORD_TYPE record_type_tree (Unit {0}) };

    fn parse(alloc: Global, input: &'a str) -> IResult<&'a str, Self> {
        record_type(alloc, input)
    }

    ghost lawful = { own_lawful RECORD_TYPE record_type_tree (Unit {0}) };
}

impl<'a> Parse<'a> for RecordTypes<'a> {
    ghost reading = { own RECORD_TYPES record_types_tree (Unit {0}) };

    fn parse(alloc: Global, input: &'a str) -> IResult<&'a str, Self> {
        record_types(alloc, input)
    }

    ghost lawful = { own_lawful RECORD_TYPES record_types_tree (Unit {0}) };
}

impl<'a> Parse<'a> for UnionMemberType<'a> {
    ghost reading = { own UNION_MEMBER_TYPE union_member_type_tree (Unit {0}) };

    fn parse(alloc: Global, input: &'a str) -> IResult<&'a str, Self> {
        union_member_type(alloc, input)
    }

    ghost lawful = { own_lawful UNION_MEMBER_TYPE union_member_type_tree (Unit {0}) };
}

impl<'a> Parse<'a> for ExtendedAttribute<'a> {
    ghost reading = { own EXTENDED_ATTRIBUTE extended_attribute_tree (Unit {0}) };

    fn parse(alloc: Global, input: &'a str) -> IResult<&'a str, Self> {
        extended_attribute(alloc, input)
    }

    ghost lawful = { own_lawful EXTENDED_ATTRIBUTE extended_attribute_tree (Unit {0}) };
}

impl<'a> Parse<'a> for ExtendedAttributeArgList<'a> {
    ghost reading = { own EXTENDED_ATTRIBUTE_ARG_LIST extended_attribute_arg_list_tree (Unit {0}) };

    fn parse(alloc: Global, input: &'a str) -> IResult<&'a str, Self> {
        extended_attribute_arg_list(alloc, input)
    }

    ghost lawful = { own_lawful EXTENDED_ATTRIBUTE_ARG_LIST extended_attribute_arg_list_tree
        (Unit {0}) };
}

impl<'a> Parse<'a> for ExtendedAttributeNamedArgList<'a> {
    ghost reading = { own EXTENDED_ATTRIBUTE_NAMED_ARG_LIST extended_attribute_named_arg_list_tree
        (Unit {0}) };

    fn parse(alloc: Global, input: &'a str) -> IResult<&'a str, Self> {
        extended_attribute_named_arg_list(alloc, input)
    }

    ghost lawful = { own_lawful EXTENDED_ATTRIBUTE_NAMED_ARG_LIST
        extended_attribute_named_arg_list_tree (Unit {0}) };
}

impl<'a> Parse<'a> for Argument<'a> {
    ghost reading = { own ARGUMENT argument_tree (Unit {0}) };

    fn parse(alloc: Global, input: &'a str) -> IResult<&'a str, Self> {
        argument(alloc, input)
    }

    ghost lawful = { own_lawful ARGUMENT argument_tree (Unit {0}) };
}

impl<'a> Parse<'a> for SingleArgument<'a> {
    ghost reading = { own SINGLE_ARGUMENT single_argument_tree (Unit {0}) };

    fn parse(alloc: Global, input: &'a str) -> IResult<&'a str, Self> {
        single_argument(alloc, input)
    }

    ghost lawful = { own_lawful SINGLE_ARGUMENT single_argument_tree (Unit {0}) };
}

impl<'a> Parse<'a> for VariadicArgument<'a> {
    ghost reading = { own VARIADIC_ARGUMENT variadic_argument_tree (Unit {0}) };

    fn parse(alloc: Global, input: &'a str) -> IResult<&'a str, Self> {
        variadic_argument(alloc, input)
    }

    ghost lawful = { own_lawful VARIADIC_ARGUMENT variadic_argument_tree (Unit {0}) };
}

impl<'a> Parse<'a> for ParenthesizedArgumentList<'a> {
    ghost reading = { own PARENTHESIZED_ARGUMENT_LIST arguments_tree (Unit {0}) };

    fn parse(alloc: Global, input: &'a str) -> IResult<&'a str, Self> {
        arguments(alloc, input)
    }

    ghost lawful = { own_lawful PARENTHESIZED_ARGUMENT_LIST arguments_tree (Unit {0}) };
}
