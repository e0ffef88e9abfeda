//! The laws of what is inherited from, and of the words before a member.
//! Written by tools/spellings.py, and not edited by hand.

ghost use Rattle.weedle_grammar.specs.written.Table.InterfaceMembers.{
  INHERITANCE,
  SPECIAL,
  STRINGIFIER_OR_INHERIT_OR_STATIC,
  STRINGIFIER_OR_STATIC,
};
ghost use Rattle.weedle_parts.specs.ModifierTrees.{
  inheritance_tree,
  special_tree,
  stringifier_or_inherit_or_static_tree,
  stringifier_or_static_tree,
};
ghost use Rattle.weedle_spell.specs.Laws.{SpellsValues};
ghost use Rattle.weedle_spell_idl.specs.written.Modifiers.{
  inheritance_spelling,
  special_spelling,
  stringifier_or_inherit_or_static_spelling,
  stringifier_or_static_spelling,
};

/// A law, which does nothing: the text of what an interface or a dictionary inherits from, as
/// `: Node`, is a rendering of its value.
#[tactic(auto, using(crate::proofs::written::ModifierLaws::inheritance_law))]
pub fn inheritance()
    ensures { SpellsValues INHERITANCE inheritance_tree inheritance_spelling }
{}

/// A law, which does nothing: the text of the word of a special operation, as `getter`, is a
/// rendering of its value.
#[tactic(auto, using(crate::proofs::written::ModifierLaws::special_law))]
pub fn special()
    ensures { SpellsValues SPECIAL special_tree special_spelling }
{}

/// A law, which does nothing: the text of the word before an attribute, as `static`, is a rendering
/// of its value.
#[tactic(auto, using(crate::proofs::written::ModifierLaws::stringifier_or_inherit_or_static_law))]
pub fn stringifier_or_inherit_or_static()
    ensures { SpellsValues STRINGIFIER_OR_INHERIT_OR_STATIC stringifier_or_inherit_or_static_tree
        stringifier_or_inherit_or_static_spelling }
{}

/// A law, which does nothing: the text of the word before an operation, as `stringifier` or
/// `static`, is a rendering of its value.
#[tactic(auto, using(crate::proofs::written::ModifierLaws::stringifier_or_static_law))]
pub fn stringifier_or_static()
    ensures { SpellsValues STRINGIFIER_OR_STATIC stringifier_or_static_tree
        stringifier_or_static_spelling }
{}
