//! The laws of constants, attributes, operations, constructors and stringifiers of interfaces, and
//! of the members of mixins. Written by tools/spellings.py, and not edited by hand.

ghost use Rattle.weedle_grammar.specs.written.Table.InterfaceMembers.{
  ATTRIBUTE_INTERFACE_MEMBER,
  CONSTRUCTOR_INTERFACE_MEMBER,
  CONST_MEMBER,
  OPERATION_INTERFACE_MEMBER,
  STRINGIFIER_MEMBER,
};
ghost use Rattle.weedle_grammar.specs.written.Table.OtherMembers.{
  ATTRIBUTE_MIXIN_MEMBER,
  MIXIN_MEMBER,
  MIXIN_MEMBERS,
  OPERATION_MIXIN_MEMBER,
};
ghost use Rattle.weedle_members.specs.written.Trees.{
  attribute_interface_member_tree,
  const_member_tree,
  constructor_interface_member_tree,
  operation_interface_member_tree,
  stringifier_member_tree,
};
ghost use Rattle.weedle_mixins.specs.written.Trees.{
  attribute_mixin_member_tree,
  mixin_member_tree,
  operation_mixin_member_tree,
};
ghost use Rattle.weedle_spell.specs.Laws.{SpellsValues};
ghost use Rattle.weedle_spell_idl.specs.written.Members.{
  attribute_interface_member_spelling,
  attribute_mixin_member_spelling,
  const_member_spelling,
  constructor_interface_member_spelling,
  mixin_member_spelling,
  mixin_members_spelling,
  operation_interface_member_spelling,
  operation_mixin_member_spelling,
  stringifier_member_spelling,
};
ghost use Rattle.weedle_types.specs.PartTrees.{members_tree};

/// A law, which does nothing: the text of an attribute of an interface, as
/// `static readonly attribute long x;`, is a rendering of its value.
#[tactic(auto, using(crate::proofs::written::MemberLaws::attribute_interface_member_law))]
pub fn attribute_interface_member()
    ensures { SpellsValues ATTRIBUTE_INTERFACE_MEMBER attribute_interface_member_tree
        attribute_interface_member_spelling }
{}

/// A law, which does nothing: the text of a constant, as `const long X = 5;`, is a rendering of its
/// value.
#[tactic(auto, using(crate::proofs::written::MemberLaws::const_member_law))]
pub fn const_member()
    ensures { SpellsValues CONST_MEMBER const_member_tree const_member_spelling }
{}

/// A law, which does nothing: the text of a constructor, as `constructor(long x);`, is a rendering
/// of its value.
#[tactic(auto, using(crate::proofs::written::MemberLaws::constructor_interface_member_law))]
pub fn constructor_interface_member()
    ensures { SpellsValues CONSTRUCTOR_INTERFACE_MEMBER constructor_interface_member_tree
        constructor_interface_member_spelling }
{}

/// A law, which does nothing: the text of an operation of an interface, as
/// `getter long item(long index);`, is a rendering of its value.
#[tactic(auto, using(crate::proofs::written::MemberLaws::operation_interface_member_law))]
pub fn operation_interface_member()
    ensures { SpellsValues OPERATION_INTERFACE_MEMBER operation_interface_member_tree
        operation_interface_member_spelling }
{}

/// A law, which does nothing: the text of a stringifier with no body, as `stringifier;`, is a
/// rendering of its value.
#[tactic(auto, using(crate::proofs::written::MemberLaws::stringifier_member_law))]
pub fn stringifier_member()
    ensures { SpellsValues STRINGIFIER_MEMBER stringifier_member_tree stringifier_member_spelling }
{}

/// A law, which does nothing: the text of an operation of a mixin, as
/// `stringifier long f(long x);`, is a rendering of its value.
#[tactic(auto, using(crate::proofs::written::MemberLaws::operation_mixin_member_law))]
pub fn operation_mixin_member()
    ensures { SpellsValues OPERATION_MIXIN_MEMBER operation_mixin_member_tree
        operation_mixin_member_spelling }
{}

/// A law, which does nothing: the text of an attribute of a mixin, as `readonly attribute long x;`,
/// is a rendering of its value.
#[tactic(auto, using(crate::proofs::written::MemberLaws::attribute_mixin_member_law))]
pub fn attribute_mixin_member()
    ensures { SpellsValues ATTRIBUTE_MIXIN_MEMBER attribute_mixin_member_tree
        attribute_mixin_member_spelling }
{}

/// A law, which does nothing: the text of a member of a mixin, as `readonly attribute long x;`, is
/// a rendering of its value.
#[tactic(auto, using(crate::proofs::written::MemberLaws::mixin_member_law))]
pub fn mixin_member()
    ensures { SpellsValues MIXIN_MEMBER mixin_member_tree mixin_member_spelling }
{}

/// A law, which does nothing: the text of the members of a mixin, one after another, as
/// `long f(); long g();`, is a rendering of its value.
#[tactic(auto, using(crate::proofs::written::MemberLaws::mixin_members_law))]
pub fn mixin_members()
    ensures { SpellsValues MIXIN_MEMBERS (members_tree mixin_member_tree) mixin_members_spelling }
{}
