//! `TryClone` for the types that hold boxes and lists: a clone has the tree of the original.

ghost use Rattle.std.specs.Prelude.{◌≡◌};
ghost use Rattle.weedle_base.specs.AlikeLaws.{equal_equivalence, seen_equivalence};
ghost use Rattle.weedle_types.specs.Trees.{
  argument_tree,
  arguments_tree,
  attributed_non_any_type_tree,
  attributed_type_tree,
  extended_attribute_arg_list_tree,
  extended_attribute_ident_list_tree,
  extended_attribute_named_arg_list_tree,
  extended_attribute_tree,
  frozen_array_type_tree,
  non_any_type_tree,
  promise_type_tree,
  record_key_type_tree,
  record_type_tree,
  record_types_tree,
  return_type_tree,
  sequence_type_tree,
  single_argument_tree,
  single_type_tree,
  type_tree,
  union_member_type_tree,
  variadic_argument_tree,
};

use crate::argument::{Argument, ParenthesizedArgumentList, SingleArgument, VariadicArgument};
use crate::attribute::{
    ExtendedAttribute, ExtendedAttributeArgList, ExtendedAttributeIdentList,
    ExtendedAttributeNamedArgList,
};
use crate::clones::arguments::{
    clone_argument, clone_arguments, clone_single_argument, clone_variadic_argument,
};
use crate::clones::attributes::{
    clone_extended_attribute, clone_extended_attribute_arg_list,
    clone_extended_attribute_ident_list, clone_extended_attribute_named_arg_list,
};
use crate::clones::generic_types::{
    clone_frozen_array_type, clone_promise_type, clone_record_type, clone_record_types,
    clone_sequence_type,
};
use crate::clones::types::{
    clone_attributed_non_any_type, clone_attributed_type, clone_non_any_type,
    clone_record_key_type, clone_return_type, clone_single_type, clone_type,
};
use crate::clones::unions::clone_union_member_type;
use crate::types::{
    AttributedNonAnyType, AttributedType, FrozenArrayType, NonAnyType, PromiseType, RecordKeyType,
    RecordType, RecordTypes, ReturnType, SequenceType, SingleType, Type, UnionMemberType,
};
use std::alloc::{AllocError, Global};
use weedle_base::TryClone;

impl<'a> TryClone for Type<'a> {
    ghost alike = { λ a b. type_tree a ≡ type_tree b };

    fn try_clone(&self, alloc: Global) -> Result<Self, AllocError> {
        clone_type(self, alloc)
    }

    ghost equivalence = { seen_equivalence type_tree equal_equivalence };
}

impl<'a> TryClone for SingleType<'a> {
    ghost alike = { λ a b. single_type_tree a ≡ single_type_tree b };

    fn try_clone(&self, alloc: Global) -> Result<Self, AllocError> {
        clone_single_type(self, alloc)
    }

    ghost equivalence = { seen_equivalence single_type_tree equal_equivalence };
}

impl<'a> TryClone for NonAnyType<'a> {
    ghost alike = { λ a b. non_any_type_tree a ≡ non_any_type_tree b };

    fn try_clone(&self, alloc: Global) -> Result<Self, AllocError> {
        clone_non_any_type(self, alloc)
    }

    ghost equivalence = { seen_equivalence non_any_type_tree equal_equivalence };
}

impl<'a> TryClone for RecordKeyType<'a> {
    ghost alike = { λ a b. record_key_type_tree a ≡ record_key_type_tree b };

    fn try_clone(&self, alloc: Global) -> Result<Self, AllocError> {
        clone_record_key_type(self, alloc)
    }

    ghost equivalence = { seen_equivalence record_key_type_tree equal_equivalence };
}

impl<'a> TryClone for ReturnType<'a> {
    ghost alike = { λ a b. return_type_tree a ≡ return_type_tree b };

    fn try_clone(&self, alloc: Global) -> Result<Self, AllocError> {
        clone_return_type(self, alloc)
    }

    ghost equivalence = { seen_equivalence return_type_tree equal_equivalence };
}

impl<'a> TryClone for AttributedType<'a> {
    ghost alike = { λ a b. attributed_type_tree a ≡ attributed_type_tree b };

    fn try_clone(&self, alloc: Global) -> Result<Self, AllocError> {
        clone_attributed_type(self, alloc)
    }

    ghost equivalence = { seen_equivalence attributed_type_tree equal_equivalence };
}

impl<'a> TryClone for AttributedNonAnyType<'a> {
    ghost alike = { λ a b. attributed_non_any_type_tree a ≡ attributed_non_any_type_tree b };

    fn try_clone(&self, alloc: Global) -> Result<Self, AllocError> {
        clone_attributed_non_any_type(self, alloc)
    }

    ghost equivalence = { seen_equivalence attributed_non_any_type_tree equal_equivalence };
}

impl<'a> TryClone for SequenceType<'a> {
    ghost alike = { λ a b. sequence_type_tree a ≡ sequence_type_tree b };

    fn try_clone(&self, alloc: Global) -> Result<Self, AllocError> {
        clone_sequence_type(self, alloc)
    }

    ghost equivalence = { seen_equivalence sequence_type_tree equal_equivalence };
}

impl<'a> TryClone for FrozenArrayType<'a> {
    ghost alike = { λ a b. frozen_array_type_tree a ≡ frozen_array_type_tree b };

    fn try_clone(&self, alloc: Global) -> Result<Self, AllocError> {
        clone_frozen_array_type(self, alloc)
    }

    ghost equivalence = { seen_equivalence frozen_array_type_tree equal_equivalence };
}

impl<'a> TryClone for PromiseType<'a> {
    ghost alike = { λ a b. promise_type_tree a ≡ promise_type_tree b };

    fn try_clone(&self, alloc: Global) -> Result<Self, AllocError> {
        clone_promise_type(self, alloc)
    }

    ghost equivalence = { seen_equivalence promise_type_tree equal_equivalence };
}

impl<'a> TryClone for RecordType<'a> {
    ghost alike = { λ a b. record_type_tree a ≡ record_type_tree b };

    fn try_clone(&self, alloc: Global) -> Result<Self, AllocError> {
        clone_record_type(self, alloc)
    }

    ghost equivalence = { seen_equivalence record_type_tree equal_equivalence };
}

impl<'a> TryClone for RecordTypes<'a> {
    ghost alike = { λ a b. record_types_tree a ≡ record_types_tree b };

    fn try_clone(&self, alloc: Global) -> Result<Self, AllocError> {
        clone_record_types(self, alloc)
    }

    ghost equivalence = { seen_equivalence record_types_tree equal_equivalence };
}

impl<'a> TryClone for UnionMemberType<'a> {
    ghost alike = { λ a b. union_member_type_tree a ≡ union_member_type_tree b };

    fn try_clone(&self, alloc: Global) -> Result<Self, AllocError> {
        clone_union_member_type(self, alloc)
    }

    ghost equivalence = { seen_equivalence union_member_type_tree equal_equivalence };
}

impl<'a> TryClone for ExtendedAttribute<'a> {
    ghost alike = { λ a b. extended_attribute_tree a ≡ extended_attribute_tree b };

    fn try_clone(&self, alloc: Global) -> Result<Self, AllocError> {
        clone_extended_attribute(self, alloc)
    }

    ghost equivalence = { seen_equivalence extended_attribute_tree equal_equivalence };
}

impl<'a> TryClone for ExtendedAttributeArgList<'a> {
    ghost alike = { λ a b. extended_attribute_arg_list_tree a
        ≡ extended_attribute_arg_list_tree b };

    fn try_clone(&self, alloc: Global) -> Result<Self, AllocError> {
        clone_extended_attribute_arg_list(self, alloc)
    }

    ghost equivalence = { seen_equivalence extended_attribute_arg_list_tree equal_equivalence };
}

impl<'a> TryClone for ExtendedAttributeNamedArgList<'a> {
    ghost alike = { λ a b. extended_attribute_named_arg_list_tree a
        ≡ extended_attribute_named_arg_list_tree b };

    fn try_clone(&self, alloc: Global) -> Result<Self, AllocError> {
        clone_extended_attribute_named_arg_list(self, alloc)
    }

    ghost equivalence = { seen_equivalence extended_attribute_named_arg_list_tree
        equal_equivalence };
}

impl<'a> TryClone for Argument<'a> {
    ghost alike = { λ a b. argument_tree a ≡ argument_tree b };

    fn try_clone(&self, alloc: Global) -> Result<Self, AllocError> {
        clone_argument(self, alloc)
    }

    ghost equivalence = { seen_equivalence argument_tree equal_equivalence };
}

impl<'a> TryClone for SingleArgument<'a> {
    ghost alike = { λ a b. single_argument_tree a ≡ single_argument_tree b };

    fn try_clone(&self, alloc: Global) -> Result<Self, AllocError> {
        clone_single_argument(self, alloc)
    }

    ghost equivalence = { seen_equivalence single_argument_tree equal_equivalence };
}

impl<'a> TryClone for VariadicArgument<'a> {
    ghost alike = { λ a b. variadic_argument_tree a ≡ variadic_argument_tree b };

    fn try_clone(&self, alloc: Global) -> Result<Self, AllocError> {
        clone_variadic_argument(self, alloc)
    }

    ghost equivalence = { seen_equivalence variadic_argument_tree equal_equivalence };
}

impl<'a> TryClone for ParenthesizedArgumentList<'a> {
    ghost alike = { λ a b. arguments_tree a ≡ arguments_tree b };

    fn try_clone(&self, alloc: Global) -> Result<Self, AllocError> {
        clone_arguments(self, alloc)
    }

    ghost equivalence = { seen_equivalence arguments_tree equal_equivalence };
}

impl<'a> TryClone for ExtendedAttributeIdentList<'a> {
    ghost alike = { λ a b. extended_attribute_ident_list_tree a
        ≡ extended_attribute_ident_list_tree b };

    fn try_clone(&self, alloc: Global) -> Result<Self, AllocError> {
        clone_extended_attribute_ident_list(self, alloc)
    }

    ghost equivalence = { seen_equivalence extended_attribute_ident_list_tree equal_equivalence };
}
