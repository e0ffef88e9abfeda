//! The laws of the types that hold no other type.

ghost use Rattle.weedle_parts.specs.ValueTrees.{
  long_long_type_tree,
  long_type_tree,
  short_type_tree,
  integer_type_tree,
  float_type_tree,
  double_type_tree,
  floating_point_type_tree,
  const_type_tree,
};
ghost use Rattle.weedle_grammar.specs.written.Table.SimpleTypes.{
  LONG_LONG_TYPE,
  LONG_TYPE,
  SHORT_TYPE,
  INTEGER_TYPE,
  FLOAT_TYPE,
  DOUBLE_TYPE,
  FLOATING_POINT_TYPE,
  CONST_TYPE,
};
ghost use Rattle.weedle_spell.specs.Laws.{SpellsValues};
ghost use Rattle.weedle_spell.specs.SimpleTypes.{
  long_long_type_spelling,
  long_type_spelling,
  short_type_spelling,
  integer_type_spelling,
  float_type_spelling,
  double_type_spelling,
  floating_point_type_spelling,
  const_type_spelling,
};

/// A law, which does nothing: the text of `unsigned long long` or `long long` is a rendering of its
/// value.
#[tactic(auto, using(crate::proofs::SimpleTypeLaws::long_long_type_law))]
pub fn long_long_type()
    ensures { SpellsValues LONG_LONG_TYPE long_long_type_tree long_long_type_spelling }
{}

/// A law, which does nothing: the text of `unsigned long` or `long` is a rendering of its value.
#[tactic(auto, using(crate::proofs::SimpleTypeLaws::long_type_law))]
pub fn long_type()
    ensures { SpellsValues LONG_TYPE long_type_tree long_type_spelling }
{}

/// A law, which does nothing: the text of `unsigned short` or `short` is a rendering of its value.
#[tactic(auto, using(crate::proofs::SimpleTypeLaws::short_type_law))]
pub fn short_type()
    ensures { SpellsValues SHORT_TYPE short_type_tree short_type_spelling }
{}

/// A law, which does nothing: the text of a type of integers, as `unsigned long`, is a rendering of
/// its value.
#[tactic(auto, using(crate::proofs::SimpleTypeLaws::integer_type_law))]
pub fn integer_type()
    ensures { SpellsValues INTEGER_TYPE integer_type_tree integer_type_spelling }
{}

/// A law, which does nothing: the text of `unrestricted float` or `float` is a rendering of its
/// value.
#[tactic(auto, using(crate::proofs::SimpleTypeLaws::float_type_law))]
pub fn float_type()
    ensures { SpellsValues FLOAT_TYPE float_type_tree float_type_spelling }
{}

/// A law, which does nothing: the text of `unrestricted double` or `double` is a rendering of its
/// value.
#[tactic(auto, using(crate::proofs::SimpleTypeLaws::double_type_law))]
pub fn double_type()
    ensures { SpellsValues DOUBLE_TYPE double_type_tree double_type_spelling }
{}

/// A law, which does nothing: the text of a type of floating point numbers, as
/// `unrestricted double`, is a rendering of its value.
#[tactic(auto, using(crate::proofs::SimpleTypeLaws::floating_point_type_law))]
pub fn floating_point_type()
    ensures { SpellsValues FLOATING_POINT_TYPE floating_point_type_tree
        floating_point_type_spelling }
{}

/// A law, which does nothing: the text of the type of a constant, as `long?` or `Name`, is a
/// rendering of its value.
#[tactic(auto, using(crate::proofs::SimpleTypeLaws::const_type_law))]
pub fn const_type()
    ensures { SpellsValues CONST_TYPE const_type_tree const_type_spelling }
{}
