//! The laws of definitions. Written by tools/spellings.py, and not edited by hand.

ghost use Rattle.weedle_grammar.specs.written.Table.Definitions.{DEFINITION, DEFINITIONS};
ghost use Rattle.weedle_idl.specs.written.DefinitionTrees.{definition_tree, definitions_tree};
ghost use Rattle.weedle_spell.specs.Laws.{SpellsValues};
ghost use Rattle.weedle_spell_idl.specs.written.Definitions.{
  definition_spelling,
  definitions_spelling,
};

/// A law, which does nothing: the text of a definition, as `interface A {};`, is a rendering of its
/// value.
#[tactic(auto, using(crate::proofs::written::DefinitionLaws::definition_law))]
pub fn definition()
    ensures { SpellsValues DEFINITION definition_tree definition_spelling }
{}

/// A law, which does nothing: the text of definitions one after another, as
/// `interface A {}; interface B {};`, is a rendering of its value.
#[tactic(auto, using(crate::proofs::written::DefinitionLaws::definitions_law))]
pub fn definitions()
    ensures { SpellsValues DEFINITIONS definitions_tree definitions_spelling }
{}
