//! The laws of types. Written by tools/spellings.py, and not edited by hand.

ghost use Rattle.weedle_grammar.specs.written.Table.Types.{
  ATTRIBUTED_NON_ANY_TYPE,
  ATTRIBUTED_TYPE,
  FROZEN_ARRAY_TYPE,
  NON_ANY_TYPE,
  PROMISE_TYPE,
  RECORD_KEY_TYPE,
  RECORD_TYPE,
  RECORD_TYPES,
  RETURN_TYPE,
  SEQUENCE_TYPE,
  SINGLE_TYPE,
  TYPE,
  UNION_MEMBER_TYPE,
  UNION_TYPE,
};
ghost use Rattle.weedle_spell.specs.Laws.{SpellsValues};
ghost use Rattle.weedle_spell.specs.RecursiveTypes.{
  non_any_type_spelling,
  type_spelling,
  union_member_type_spelling,
};
ghost use Rattle.weedle_spell.specs.written.Types.{
  attributed_non_any_type_spelling,
  attributed_type_spelling,
  frozen_array_type_spelling,
  promise_type_spelling,
  record_key_type_spelling,
  record_type_spelling,
  record_types_spelling,
  return_type_spelling,
  sequence_type_spelling,
  single_type_spelling,
  union_type_spelling,
};
ghost use Rattle.weedle_types.specs.Trees.{
  attributed_non_any_type_tree,
  attributed_type_tree,
  frozen_array_type_tree,
  non_any_type_tree,
  promise_type_tree,
  record_key_type_tree,
  record_type_tree,
  record_types_tree,
  return_type_tree,
  sequence_type_tree,
  single_type_tree,
  type_tree,
  union_member_type_tree,
  union_type_tree,
};

/// A law, which does nothing: the text of a type, as `long`, `any` or `(long or DOMString)?`, is a
/// rendering of its value.
#[tactic(auto, using(crate::proofs::written::TypeLaws::type_law))]
pub fn type_()
    ensures { SpellsValues TYPE type_tree type_spelling }
{}

/// A law, which does nothing: the text of a type that is neither `any` nor a union, as `long?`, is
/// a rendering of its value.
#[tactic(auto, using(crate::proofs::written::TypeLaws::non_any_type_law))]
pub fn non_any_type()
    ensures { SpellsValues NON_ANY_TYPE non_any_type_tree non_any_type_spelling }
{}

/// A law, which does nothing: the text of a member of a union, as `[Clamp] octet` or
/// `(long or DOMString)`, is a rendering of its value.
#[tactic(auto, using(crate::proofs::written::TypeLaws::union_member_type_law))]
pub fn union_member_type()
    ensures { SpellsValues UNION_MEMBER_TYPE union_member_type_tree union_member_type_spelling }
{}

/// A law, which does nothing: the text of a type that is no union, as `any` or `long?`, is a
/// rendering of its value.
#[tactic(auto, using(crate::proofs::written::TypeLaws::single_type_law))]
pub fn single_type()
    ensures { SpellsValues SINGLE_TYPE single_type_tree single_type_spelling }
{}

/// A law, which does nothing: the text of the type of a result, as `undefined` or `long`, is a
/// rendering of its value.
#[tactic(auto, using(crate::proofs::written::TypeLaws::return_type_law))]
pub fn return_type()
    ensures { SpellsValues RETURN_TYPE return_type_tree return_type_spelling }
{}

/// A law, which does nothing: the text of the type of a record's keys, as `DOMString`, is a
/// rendering of its value.
#[tactic(auto, using(crate::proofs::written::TypeLaws::record_key_type_law))]
pub fn record_key_type()
    ensures { SpellsValues RECORD_KEY_TYPE record_key_type_tree record_key_type_spelling }
{}

/// A law, which does nothing: the text of the types of a record, as `DOMString, long`, is a
/// rendering of its value.
#[tactic(auto, using(crate::proofs::written::TypeLaws::record_types_law))]
pub fn record_types()
    ensures { SpellsValues RECORD_TYPES record_types_tree record_types_spelling }
{}

/// A law, which does nothing: the text of a sequence, as `sequence<long>`, is a rendering of its
/// value.
#[tactic(auto, using(crate::proofs::written::TypeLaws::sequence_type_law))]
pub fn sequence_type()
    ensures { SpellsValues SEQUENCE_TYPE sequence_type_tree sequence_type_spelling }
{}

/// A law, which does nothing: the text of an array that can't change, as `FrozenArray<long>`, is a
/// rendering of its value.
#[tactic(auto, using(crate::proofs::written::TypeLaws::frozen_array_type_law))]
pub fn frozen_array_type()
    ensures { SpellsValues FROZEN_ARRAY_TYPE frozen_array_type_tree frozen_array_type_spelling }
{}

/// A law, which does nothing: the text of a promise, as `Promise<undefined>`, is a rendering of its
/// value.
#[tactic(auto, using(crate::proofs::written::TypeLaws::promise_type_law))]
pub fn promise_type()
    ensures { SpellsValues PROMISE_TYPE promise_type_tree promise_type_spelling }
{}

/// A law, which does nothing: the text of a record, as `record<DOMString, long>`, is a rendering of
/// its value.
#[tactic(auto, using(crate::proofs::written::TypeLaws::record_type_law))]
pub fn record_type()
    ensures { SpellsValues RECORD_TYPE record_type_tree record_type_spelling }
{}

/// A law, which does nothing: the text of a union, as `(long or [Clamp] octet)`, is a rendering of
/// its value.
#[tactic(auto, using(crate::proofs::written::TypeLaws::union_type_law))]
pub fn union_type()
    ensures { SpellsValues UNION_TYPE union_type_tree union_type_spelling }
{}

/// A law, which does nothing: the text of a type with the extended attributes before it, as
/// `[Clamp] octet`, is a rendering of its value.
#[tactic(auto, using(crate::proofs::written::TypeLaws::attributed_type_law))]
pub fn attributed_type()
    ensures { SpellsValues ATTRIBUTED_TYPE attributed_type_tree attributed_type_spelling }
{}

/// A law, which does nothing: the text of a type that is neither `any` nor a union, with the
/// extended attributes before it, as `[Clamp] octet`, is a rendering of its value.
#[tactic(auto, using(crate::proofs::written::TypeLaws::attributed_non_any_type_law))]
pub fn attributed_non_any_type()
    ensures { SpellsValues ATTRIBUTED_NON_ANY_TYPE attributed_non_any_type_tree
        attributed_non_any_type_spelling }
{}
