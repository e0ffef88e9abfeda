//! The laws of the members of interfaces, of interfaces and of mixins.
//! Written by tools/spellings.py, and not edited by hand.

ghost use Rattle.weedle_grammar.specs.written.Table.Definitions.{
  CALLBACK_INTERFACE_DEFINITION,
  INTERFACE_DEFINITION,
  INTERFACE_MIXIN_DEFINITION,
  PARTIAL_INTERFACE_DEFINITION,
  PARTIAL_INTERFACE_MIXIN_DEFINITION,
};
ghost use Rattle.weedle_grammar.specs.written.Table.InterfaceMembers.{
  INTERFACE_MEMBER,
  INTERFACE_MEMBERS,
};
ghost use Rattle.weedle_interfaces.specs.written.Trees.{
  callback_interface_definition_tree,
  interface_definition_tree,
  interface_member_tree,
  partial_interface_definition_tree,
};
ghost use Rattle.weedle_mixins.specs.written.Trees.{
  interface_mixin_definition_tree,
  partial_interface_mixin_definition_tree,
};
ghost use Rattle.weedle_spell.specs.Laws.{SpellsValues};
ghost use Rattle.weedle_spell_idl.specs.written.Interfaces.{
  callback_interface_definition_spelling,
  interface_definition_spelling,
  interface_member_spelling,
  interface_members_spelling,
  interface_mixin_definition_spelling,
  partial_interface_definition_spelling,
  partial_interface_mixin_definition_spelling,
};
ghost use Rattle.weedle_types.specs.PartTrees.{members_tree};

/// A law, which does nothing: the text of a member of an interface, as `attribute long length;`, is
/// a rendering of its value.
#[tactic(auto, using(crate::proofs::written::InterfaceLaws::interface_member_law))]
pub fn interface_member()
    ensures { SpellsValues INTERFACE_MEMBER interface_member_tree interface_member_spelling }
{}

/// A law, which does nothing: the text of the members of an interface, one after another, as
/// `long f(); long g();`, is a rendering of its value.
#[tactic(auto, using(crate::proofs::written::InterfaceLaws::interface_members_law))]
pub fn interface_members()
    ensures { SpellsValues INTERFACE_MEMBERS (members_tree interface_member_tree)
        interface_members_spelling }
{}

/// A law, which does nothing: the text of a callback interface, as `callback interface A {};`, is a
/// rendering of its value.
#[tactic(auto, using(crate::proofs::written::InterfaceLaws::callback_interface_definition_law))]
pub fn callback_interface_definition()
    ensures { SpellsValues CALLBACK_INTERFACE_DEFINITION callback_interface_definition_tree
        callback_interface_definition_spelling }
{}

/// A law, which does nothing: the text of an interface, as
/// `interface A : B { attribute long x; };`, is a rendering of its value.
#[tactic(auto, using(crate::proofs::written::InterfaceLaws::interface_definition_law))]
pub fn interface_definition()
    ensures { SpellsValues INTERFACE_DEFINITION interface_definition_tree
        interface_definition_spelling }
{}

/// A law, which does nothing: the text of a part of an interface, as `partial interface A {};`, is
/// a rendering of its value.
#[tactic(auto, using(crate::proofs::written::InterfaceLaws::partial_interface_definition_law))]
pub fn partial_interface_definition()
    ensures { SpellsValues PARTIAL_INTERFACE_DEFINITION partial_interface_definition_tree
        partial_interface_definition_spelling }
{}

/// A law, which does nothing: the text of a mixin, as `interface mixin A {};`, is a rendering of
/// its value.
#[tactic(auto, using(crate::proofs::written::InterfaceLaws::interface_mixin_definition_law))]
pub fn interface_mixin_definition()
    ensures { SpellsValues INTERFACE_MIXIN_DEFINITION interface_mixin_definition_tree
        interface_mixin_definition_spelling }
{}

/// A law, which does nothing: the text of a part of a mixin, as `partial interface mixin A {};`, is
/// a rendering of its value.
#[tactic(auto, using(crate::proofs::written::InterfaceLaws::partial_interface_mixin_definition_law))]
pub fn partial_interface_mixin_definition()
    ensures { SpellsValues PARTIAL_INTERFACE_MIXIN_DEFINITION
        partial_interface_mixin_definition_tree partial_interface_mixin_definition_spelling }
{}
