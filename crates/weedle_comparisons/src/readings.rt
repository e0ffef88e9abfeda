//! Arguments in parentheses are in their types as a struct of their own,
//! `ParenthesizedArgumentList`, and members in braces as the generic part,
//! `Braced<InterfaceMembers>` and the like. This generic part, and `Parenthesized<ArgumentList>`
//! beside that struct, read what the rules of arguments in parentheses and of members in braces
//! read.

ghost use Rattle.weedle_base.specs.Rules.{HasRule};
ghost use Rattle.weedle_grammar.specs.written.Table.InterfaceMembers.{BRACED_INTERFACE_MEMBERS};
ghost use Rattle.weedle_grammar.specs.written.Table.OtherMembers.{
  BRACED_DICTIONARY_MEMBERS,
  BRACED_MIXIN_MEMBERS,
  BRACED_NAMESPACE_MEMBERS,
};
ghost use Rattle.weedle_grammar.specs.written.Table.Types.{PARENTHESIZED_ARGUMENT_LIST};
ghost use Rattle.weedle_interfaces.specs.written.Trees.{interface_member_tree};
ghost use Rattle.weedle_mixins.specs.written.Trees.{mixin_member_tree};
ghost use Rattle.weedle_namespaces.specs.written.Trees.{
  dictionary_member_tree,
  namespace_member_tree,
};
ghost use Rattle.weedle_parts.specs.ValueTrees.{braced_tree, parenthesized_tree};
ghost use Rattle.weedle_types.specs.PartTrees.{members_tree};
ghost use Rattle.weedle_types.specs.Trees.{argument_list_tree};

use weedle_base::Parse;
use weedle_interfaces::InterfaceMembers;
use weedle_mixins::mixin::MixinMembers;
use weedle_namespaces::dictionary::DictionaryMembers;
use weedle_namespaces::namespace::NamespaceMembers;
use weedle_parts::common::{Braced, Parenthesized};
use weedle_types::argument::ArgumentList;

/// A law, which does nothing: `Parenthesized<ArgumentList>` reads what the rule of arguments in
/// parentheses reads, as `(long x, long y)`.
#[tactic(auto, using(crate::proofs::ReadingRules::arguments_has_rule))]
pub fn arguments<'a>()
    ensures { HasRule ⟦<Parenthesized<ArgumentList<'a>> as Parse<'a>>⟧.reading
        PARENTHESIZED_ARGUMENT_LIST (parenthesized_tree argument_list_tree) }
{}

/// A law, which does nothing: `Braced<InterfaceMembers>` reads what the rule of an interface's
/// members in braces reads, as `{ attribute long length; }`.
#[tactic(auto, using(crate::proofs::ReadingRules::interface_members_has_rule))]
pub fn interface_members<'a>()
    ensures { HasRule ⟦<Braced<InterfaceMembers<'a>> as Parse<'a>>⟧.reading
        BRACED_INTERFACE_MEMBERS (braced_tree (members_tree interface_member_tree)) }
{}

/// A law, which does nothing: `Braced<MixinMembers>` reads what the rule of a mixin's members in
/// braces reads, as `{ long f(); }`.
#[tactic(auto, using(crate::proofs::ReadingRules::mixin_members_has_rule))]
pub fn mixin_members<'a>()
    ensures { HasRule ⟦<Braced<MixinMembers<'a>> as Parse<'a>>⟧.reading
        BRACED_MIXIN_MEMBERS (braced_tree (members_tree mixin_member_tree)) }
{}

/// A law, which does nothing: `Braced<NamespaceMembers>` reads what the rule of a namespace's
/// members in braces reads, as `{ long f(); }`.
#[tactic(auto, using(crate::proofs::ReadingRules::namespace_members_has_rule))]
pub fn namespace_members<'a>()
    ensures { HasRule ⟦<Braced<NamespaceMembers<'a>> as Parse<'a>>⟧.reading
        BRACED_NAMESPACE_MEMBERS (braced_tree (members_tree namespace_member_tree)) }
{}

/// A law, which does nothing: `Braced<DictionaryMembers>` reads what the rule of a dictionary's
/// members in braces reads, as `{ required long x; }`.
#[tactic(auto, using(crate::proofs::ReadingRules::dictionary_members_has_rule))]
pub fn dictionary_members<'a>()
    ensures { HasRule ⟦<Braced<DictionaryMembers<'a>> as Parse<'a>>⟧.reading
        BRACED_DICTIONARY_MEMBERS (braced_tree (members_tree dictionary_member_tree)) }
{}
