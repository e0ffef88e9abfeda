//! The laws of definitions without members. Written by tools/spellings.py, and not edited by hand.

ghost use Rattle.weedle_grammar.specs.written.Table.Definitions.{
  CALLBACK_DEFINITION,
  ENUM_DEFINITION,
  IMPLEMENTS_DEFINITION,
  INCLUDES_STATEMENT_DEFINITION,
  TYPEDEF_DEFINITION,
};
ghost use Rattle.weedle_grammar.specs.written.Table.OtherMembers.{ENUM_VALUE_LIST, ENUM_VARIANT};
ghost use Rattle.weedle_parts.specs.ValueTrees.{punctuated_non_empty_tree};
ghost use Rattle.weedle_spell.specs.Laws.{SpellsValues};
ghost use Rattle.weedle_spell_idl.specs.written.Statements.{
  callback_definition_spelling,
  enum_definition_spelling,
  enum_value_list_spelling,
  enum_variant_spelling,
  implements_definition_spelling,
  includes_statement_definition_spelling,
  typedef_definition_spelling,
};
ghost use Rattle.weedle_statements.specs.written.Trees.{
  callback_definition_tree,
  enum_definition_tree,
  enum_variant_tree,
  implements_definition_tree,
  includes_statement_definition_tree,
  typedef_definition_tree,
};

/// A law, which does nothing: the text of a callback, as `callback F = undefined (long x);`, is a
/// rendering of its value.
#[tactic(auto, using(crate::proofs::written::StatementLaws::callback_definition_law))]
pub fn callback_definition()
    ensures { SpellsValues CALLBACK_DEFINITION callback_definition_tree
        callback_definition_spelling }
{}

/// A law, which does nothing: the text of a value of an enum, as `"blob"`, is a rendering of its
/// value.
#[tactic(auto, using(crate::proofs::written::StatementLaws::enum_variant_law))]
pub fn enum_variant()
    ensures { SpellsValues ENUM_VARIANT enum_variant_tree enum_variant_spelling }
{}

/// A law, which does nothing: the text of the values of an enum, one at least, and a comma behind
/// the last where present, as `"a", "b",`, is a rendering of its value.
#[tactic(auto, using(crate::proofs::written::StatementLaws::enum_value_list_law))]
pub fn enum_value_list()
    ensures { SpellsValues ENUM_VALUE_LIST (punctuated_non_empty_tree enum_variant_tree)
        enum_value_list_spelling }
{}

/// A law, which does nothing: the text of an enum, as `enum A { "a", "b" };`, is a rendering of its
/// value.
#[tactic(auto, using(crate::proofs::written::StatementLaws::enum_definition_law))]
pub fn enum_definition()
    ensures { SpellsValues ENUM_DEFINITION enum_definition_tree enum_definition_spelling }
{}

/// A law, which does nothing: the text of the use of a mixin by an interface, as `A includes B;`,
/// is a rendering of its value.
#[tactic(auto, using(crate::proofs::written::StatementLaws::includes_statement_definition_law))]
pub fn includes_statement_definition()
    ensures { SpellsValues INCLUDES_STATEMENT_DEFINITION includes_statement_definition_tree
        includes_statement_definition_spelling }
{}

/// A law, which does nothing: the text of the older form of a mixin's use, as `A implements B;`, is
/// a rendering of its value.
#[tactic(auto, using(crate::proofs::written::StatementLaws::implements_definition_law))]
pub fn implements_definition()
    ensures { SpellsValues IMPLEMENTS_DEFINITION implements_definition_tree
        implements_definition_spelling }
{}

/// A law, which does nothing: the text of a name for a type, as `typedef long A;`, is a rendering
/// of its value.
#[tactic(auto, using(crate::proofs::written::StatementLaws::typedef_definition_law))]
pub fn typedef_definition()
    ensures { SpellsValues TYPEDEF_DEFINITION typedef_definition_tree typedef_definition_spelling }
{}
