//! The laws of names, numbers, strings and docstrings.

ghost use Rattle.weedle_parts.specs.LiteralTrees.{
  dec_tree,
  hex_tree,
  oct_tree,
  float_value_tree,
  string_tree,
};
ghost use Rattle.weedle_parts.specs.ValueTrees.{identifier_tree, docstring_tree};
ghost use Rattle.weedle_grammar.specs.written.Table.Leaves.{
  IDENTIFIER,
  DEC_LIT,
  HEX_LIT,
  OCT_LIT,
  FLOAT_VALUE_LIT,
  STRING_LIT,
  DOCSTRING,
};
ghost use Rattle.weedle_spell.specs.Laws.{SpellsExactly, SpellsValues};
ghost use Rattle.weedle_spell.specs.Leaves.{
  identifier_spelling,
  dec_spelling,
  hex_spelling,
  oct_spelling,
  float_value_spelling,
  string_spelling,
  docstring_spelling,
};

/// A law, which does nothing: the text of a name, as `_name`, is a rendering of its value, which is
/// without the underscore.
#[tactic(auto, using(crate::proofs::LeafLaws::identifier_law))]
pub fn identifier()
    ensures { SpellsValues IDENTIFIER identifier_tree identifier_spelling }
{}

/// A law, which does nothing: the text of a decimal number, as `-12`, is a rendering of its value.
#[tactic(auto, using(crate::proofs::LeafLaws::dec_law))]
pub fn dec()
    ensures { SpellsValues DEC_LIT dec_tree dec_spelling }
{}

/// A law, which does nothing: the text of a hexadecimal number, as `-0x1F`, is a rendering of its
/// value.
#[tactic(auto, using(crate::proofs::LeafLaws::hex_law))]
pub fn hex()
    ensures { SpellsValues HEX_LIT hex_tree hex_spelling }
{}

/// A law, which does nothing: the text of an octal number, as `017`, is a rendering of its value.
#[tactic(auto, using(crate::proofs::LeafLaws::oct_law))]
pub fn oct()
    ensures { SpellsValues OCT_LIT oct_tree oct_spelling }
{}

/// A law, which does nothing: the text of a number with a point or an exponent, as `-1.5e3`, is a
/// rendering of its value.
#[tactic(auto, using(crate::proofs::LeafLaws::float_value_law))]
pub fn float_value()
    ensures { SpellsValues FLOAT_VALUE_LIT float_value_tree float_value_spelling }
{}

/// A law, which does nothing: the text of a string, as `"a b"`, is a rendering of its value, which
/// is without the quotes.
#[tactic(auto, using(crate::proofs::LeafLaws::string_law))]
pub fn string()
    ensures { SpellsValues STRING_LIT string_tree string_spelling }
{}

/// A law, which does nothing: the text of a docstring, as `/// a` and an LF, is a rendering of its
/// value. The LF of its last line may not be absent.
#[tactic(auto, using(crate::proofs::LeafLaws::docstring_law))]
pub fn docstring()
    ensures { SpellsExactly DOCSTRING docstring_tree docstring_spelling }
{}
