//! The laws of iterations, maps and sets. Written by tools/spellings.py, and not edited by hand.

ghost use Rattle.weedle_grammar.specs.written.Table.InterfaceMembers.{
  ASYNC_ITERABLE_INTERFACE_MEMBER,
  DOUBLE_TYPED_ASYNC_ITERABLE,
  DOUBLE_TYPED_ITERABLE,
  ITERABLE_INTERFACE_MEMBER,
  MAPLIKE_INTERFACE_MEMBER,
  SETLIKE_INTERFACE_MEMBER,
  SINGLE_TYPED_ASYNC_ITERABLE,
  SINGLE_TYPED_ITERABLE,
};
ghost use Rattle.weedle_iterables.specs.written.Trees.{
  async_iterable_interface_member_tree,
  double_typed_async_iterable_tree,
  double_typed_iterable_tree,
  iterable_interface_member_tree,
  maplike_interface_member_tree,
  setlike_interface_member_tree,
  single_typed_async_iterable_tree,
  single_typed_iterable_tree,
};
ghost use Rattle.weedle_spell.specs.Laws.{SpellsValues};
ghost use Rattle.weedle_spell_idl.specs.written.Iterables.{
  async_iterable_interface_member_spelling,
  double_typed_async_iterable_spelling,
  double_typed_iterable_spelling,
  iterable_interface_member_spelling,
  maplike_interface_member_spelling,
  setlike_interface_member_spelling,
  single_typed_async_iterable_spelling,
  single_typed_iterable_spelling,
};

/// A law, which does nothing: the text of an asynchronous iteration over values, as
/// `async iterable<long>;`, is a rendering of its value.
#[tactic(auto, using(crate::proofs::written::IterableLaws::single_typed_async_iterable_law))]
pub fn single_typed_async_iterable()
    ensures { SpellsValues SINGLE_TYPED_ASYNC_ITERABLE single_typed_async_iterable_tree
        single_typed_async_iterable_spelling }
{}

/// A law, which does nothing: the text of an asynchronous iteration over pairs, as
/// `async iterable<DOMString, long>(long x);`, is a rendering of its value.
#[tactic(auto, using(crate::proofs::written::IterableLaws::double_typed_async_iterable_law))]
pub fn double_typed_async_iterable()
    ensures { SpellsValues DOUBLE_TYPED_ASYNC_ITERABLE double_typed_async_iterable_tree
        double_typed_async_iterable_spelling }
{}

/// A law, which does nothing: the text of an asynchronous iteration over values or pairs, as
/// `async iterable<long>;`, is a rendering of its value.
#[tactic(auto, using(crate::proofs::written::IterableLaws::async_iterable_interface_member_law))]
pub fn async_iterable_interface_member()
    ensures { SpellsValues ASYNC_ITERABLE_INTERFACE_MEMBER async_iterable_interface_member_tree
        async_iterable_interface_member_spelling }
{}

/// A law, which does nothing: the text of a map, as `readonly maplike<DOMString, long>;`, is a
/// rendering of its value.
#[tactic(auto, using(crate::proofs::written::IterableLaws::maplike_interface_member_law))]
pub fn maplike_interface_member()
    ensures { SpellsValues MAPLIKE_INTERFACE_MEMBER maplike_interface_member_tree
        maplike_interface_member_spelling }
{}

/// A law, which does nothing: the text of a set, as `readonly setlike<long>;`, is a rendering of
/// its value.
#[tactic(auto, using(crate::proofs::written::IterableLaws::setlike_interface_member_law))]
pub fn setlike_interface_member()
    ensures { SpellsValues SETLIKE_INTERFACE_MEMBER setlike_interface_member_tree
        setlike_interface_member_spelling }
{}

/// A law, which does nothing: the text of an iteration over values, as `iterable<long>;`, is a
/// rendering of its value.
#[tactic(auto, using(crate::proofs::written::IterableLaws::single_typed_iterable_law))]
pub fn single_typed_iterable()
    ensures { SpellsValues SINGLE_TYPED_ITERABLE single_typed_iterable_tree
        single_typed_iterable_spelling }
{}

/// A law, which does nothing: the text of an iteration over pairs, as `iterable<DOMString, long>;`,
/// is a rendering of its value.
#[tactic(auto, using(crate::proofs::written::IterableLaws::double_typed_iterable_law))]
pub fn double_typed_iterable()
    ensures { SpellsValues DOUBLE_TYPED_ITERABLE double_typed_iterable_tree
        double_typed_iterable_spelling }
{}

/// A law, which does nothing: the text of an iteration over values or pairs, as `iterable<long>;`,
/// is a rendering of its value.
#[tactic(auto, using(crate::proofs::written::IterableLaws::iterable_interface_member_law))]
pub fn iterable_interface_member()
    ensures { SpellsValues ITERABLE_INTERFACE_MEMBER iterable_interface_member_tree
        iterable_interface_member_spelling }
{}
