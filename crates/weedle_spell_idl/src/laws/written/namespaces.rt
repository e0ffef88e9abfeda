//! The laws of namespaces and dictionaries, and of their members.
//! Written by tools/spellings.py, and not edited by hand.

ghost use Rattle.weedle_grammar.specs.written.Table.Definitions.{
  DICTIONARY_DEFINITION,
  NAMESPACE_DEFINITION,
  PARTIAL_DICTIONARY_DEFINITION,
  PARTIAL_NAMESPACE_DEFINITION,
};
ghost use Rattle.weedle_grammar.specs.written.Table.OtherMembers.{
  ATTRIBUTE_NAMESPACE_MEMBER,
  DICTIONARY_MEMBER,
  DICTIONARY_MEMBERS,
  NAMESPACE_MEMBER,
  NAMESPACE_MEMBERS,
  OPERATION_NAMESPACE_MEMBER,
};
ghost use Rattle.weedle_namespaces.specs.written.Trees.{
  attribute_namespace_member_tree,
  dictionary_definition_tree,
  dictionary_member_tree,
  namespace_definition_tree,
  namespace_member_tree,
  operation_namespace_member_tree,
  partial_dictionary_definition_tree,
  partial_namespace_definition_tree,
};
ghost use Rattle.weedle_spell.specs.Laws.{SpellsValues};
ghost use Rattle.weedle_spell_idl.specs.written.Namespaces.{
  attribute_namespace_member_spelling,
  dictionary_definition_spelling,
  dictionary_member_spelling,
  dictionary_members_spelling,
  namespace_definition_spelling,
  namespace_member_spelling,
  namespace_members_spelling,
  operation_namespace_member_spelling,
  partial_dictionary_definition_spelling,
  partial_namespace_definition_spelling,
};
ghost use Rattle.weedle_types.specs.PartTrees.{members_tree};

/// A law, which does nothing: the text of a member of a dictionary, as `required long x;` or
/// `long x = 5;`, is a rendering of its value.
#[tactic(auto, using(crate::proofs::written::NamespaceLaws::dictionary_member_law))]
pub fn dictionary_member()
    ensures { SpellsValues DICTIONARY_MEMBER dictionary_member_tree dictionary_member_spelling }
{}

/// A law, which does nothing: the text of the members of a dictionary, one after another, as
/// `long x; long y = 5;`, is a rendering of its value.
#[tactic(auto, using(crate::proofs::written::NamespaceLaws::dictionary_members_law))]
pub fn dictionary_members()
    ensures { SpellsValues DICTIONARY_MEMBERS (members_tree dictionary_member_tree)
        dictionary_members_spelling }
{}

/// A law, which does nothing: the text of a dictionary, as `dictionary A : B { long x = 5; };`, is
/// a rendering of its value.
#[tactic(auto, using(crate::proofs::written::NamespaceLaws::dictionary_definition_law))]
pub fn dictionary_definition()
    ensures { SpellsValues DICTIONARY_DEFINITION dictionary_definition_tree
        dictionary_definition_spelling }
{}

/// A law, which does nothing: the text of a part of a dictionary, as `partial dictionary A {};`, is
/// a rendering of its value.
#[tactic(auto, using(crate::proofs::written::NamespaceLaws::partial_dictionary_definition_law))]
pub fn partial_dictionary_definition()
    ensures { SpellsValues PARTIAL_DICTIONARY_DEFINITION partial_dictionary_definition_tree
        partial_dictionary_definition_spelling }
{}

/// A law, which does nothing: the text of an operation of a namespace, as `long f(long x);`, is a
/// rendering of its value.
#[tactic(auto, using(crate::proofs::written::NamespaceLaws::operation_namespace_member_law))]
pub fn operation_namespace_member()
    ensures { SpellsValues OPERATION_NAMESPACE_MEMBER operation_namespace_member_tree
        operation_namespace_member_spelling }
{}

/// A law, which does nothing: the text of an attribute of a namespace, as
/// `readonly attribute long x;`, is a rendering of its value.
#[tactic(auto, using(crate::proofs::written::NamespaceLaws::attribute_namespace_member_law))]
pub fn attribute_namespace_member()
    ensures { SpellsValues ATTRIBUTE_NAMESPACE_MEMBER attribute_namespace_member_tree
        attribute_namespace_member_spelling }
{}

/// A law, which does nothing: the text of a member of a namespace, as `long f(long x);`, is a
/// rendering of its value.
#[tactic(auto, using(crate::proofs::written::NamespaceLaws::namespace_member_law))]
pub fn namespace_member()
    ensures { SpellsValues NAMESPACE_MEMBER namespace_member_tree namespace_member_spelling }
{}

/// A law, which does nothing: the text of the members of a namespace, one after another, as
/// `long f(); long g();`, is a rendering of its value.
#[tactic(auto, using(crate::proofs::written::NamespaceLaws::namespace_members_law))]
pub fn namespace_members()
    ensures { SpellsValues NAMESPACE_MEMBERS (members_tree namespace_member_tree)
        namespace_members_spelling }
{}

/// A law, which does nothing: the text of a namespace, as `namespace A { long f(); };`, is a
/// rendering of its value.
#[tactic(auto, using(crate::proofs::written::NamespaceLaws::namespace_definition_law))]
pub fn namespace_definition()
    ensures { SpellsValues NAMESPACE_DEFINITION namespace_definition_tree
        namespace_definition_spelling }
{}

/// A law, which does nothing: the text of a part of a namespace, as `partial namespace A {};`, is a
/// rendering of its value.
#[tactic(auto, using(crate::proofs::written::NamespaceLaws::partial_namespace_definition_law))]
pub fn partial_namespace_definition()
    ensures { SpellsValues PARTIAL_NAMESPACE_DEFINITION partial_namespace_definition_tree
        partial_namespace_definition_spelling }
{}
