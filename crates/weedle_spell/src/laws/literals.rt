//! The laws of literals and defaults.

ghost use Rattle.weedle_parts.specs.LiteralTrees.{
  integer_tree,
  float_tree,
  boolean_tree,
  empty_array_tree,
  empty_dictionary_tree,
  default_value_tree,
  const_value_tree,
  default_tree,
};
ghost use Rattle.weedle_grammar.specs.written.Table.Literals.{
  INTEGER_LIT,
  FLOAT_LIT,
  BOOLEAN_LIT,
  EMPTY_ARRAY_LIT,
  EMPTY_DICTIONARY_LIT,
  DEFAULT_VALUE,
  CONST_VALUE,
  DEFAULT,
};
ghost use Rattle.weedle_spell.specs.Laws.{SpellsValues};
ghost use Rattle.weedle_spell.specs.Literals.{
  integer_spelling,
  float_spelling,
  boolean_spelling,
  empty_array_spelling,
  empty_dictionary_spelling,
  default_value_spelling,
  const_value_spelling,
  default_spelling,
};

/// A law, which does nothing: the text of a whole number, as `-12`, `0x1F` or `017`, is a rendering
/// of its value.
#[tactic(auto, using(crate::proofs::LiteralLaws::integer_law))]
pub fn integer()
    ensures { SpellsValues INTEGER_LIT integer_tree integer_spelling }
{}

/// A law, which does nothing: the text of a float, as `1.5` or `-Infinity`, is a rendering of its
/// value.
#[tactic(auto, using(crate::proofs::LiteralLaws::float_law))]
pub fn float()
    ensures { SpellsValues FLOAT_LIT float_tree float_spelling }
{}

/// A law, which does nothing: the text of a boolean, `true` or `false`, is a rendering of its
/// value.
#[tactic(auto, using(crate::proofs::LiteralLaws::boolean_law))]
pub fn boolean()
    ensures { SpellsValues BOOLEAN_LIT boolean_tree boolean_spelling }
{}

/// A law, which does nothing: the text of an empty list, `[]`, is a rendering of its value.
#[tactic(auto, using(crate::proofs::LiteralLaws::empty_array_law))]
pub fn empty_array()
    ensures { SpellsValues EMPTY_ARRAY_LIT empty_array_tree empty_array_spelling }
{}

/// A law, which does nothing: the text of an empty dictionary, `{}`, is a rendering of its value.
#[tactic(auto, using(crate::proofs::LiteralLaws::empty_dictionary_law))]
pub fn empty_dictionary()
    ensures { SpellsValues EMPTY_DICTIONARY_LIT empty_dictionary_tree empty_dictionary_spelling }
{}

/// A law, which does nothing: the text of the value of a default, as `"a"`, `[]` or `null`, is a
/// rendering of that value.
#[tactic(auto, using(crate::proofs::LiteralLaws::default_value_law))]
pub fn default_value()
    ensures { SpellsValues DEFAULT_VALUE default_value_tree default_value_spelling }
{}

/// A law, which does nothing: the text of the value of a constant, as `1` or `true`, is a rendering
/// of that value.
#[tactic(auto, using(crate::proofs::LiteralLaws::const_value_law))]
pub fn const_value()
    ensures { SpellsValues CONST_VALUE const_value_tree const_value_spelling }
{}

/// A law, which does nothing: the text of a default, as `= 1`, is a rendering of its value.
#[tactic(auto, using(crate::proofs::LiteralLaws::default_law))]
pub fn default()
    ensures { SpellsValues DEFAULT default_tree default_spelling }
{}
