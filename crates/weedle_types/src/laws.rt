//! What the names of lists and brackets have to do with the grammar's rules. Each of these
//! functions does nothing when it runs: its contract is the law.
//!
//! With these laws the types made of generic parts are in further parts, as options, lists and
//! brackets.

ghost use Rattle.weedle_base.specs.Rules.{HasRule};
ghost use Rattle.weedle_parts.specs.ValueTrees.{
  identifier_tree,
  may_be_null_tree,
  parenthesized_tree,
  punctuated_tree,
};
ghost use Rattle.weedle_grammar.specs.written.Table.SimpleTypes.{
  IDENTIFIER_LIST,
  PARENTHESIZED_IDENTIFIER_LIST,
};
ghost use Rattle.weedle_grammar.specs.written.Table.Types.{
  ARGUMENT_LIST,
  EXTENDED_ATTRIBUTE_LIST,
  MAY_BE_NULL_UNION_TYPE,
  OPT_EXTENDED_ATTRIBUTE_LIST,
  UNION_TYPE,
};
ghost use Rattle.weedle_types.specs.Trees.{
  argument_list_tree,
  attributes_tree,
  extended_attribute_list_tree,
  union_type_tree,
};

use crate::argument::ArgumentList;
use crate::attribute::{ExtendedAttributeList, IdentifierList};
use crate::types::UnionType;
use weedle_base::Parse;
use weedle_parts::common::Parenthesized;
use weedle_parts::types::MayBeNull;

/// A law, which does nothing: `UnionType` reads what the rule of unions reads.
#[tactic(auto, using(crate::proofs::AliasRules::union_type_has_rule))]
pub fn union_type<'a>()
    ensures { HasRule ⟦<UnionType<'a> as Parse<'a>>⟧.reading UNION_TYPE union_type_tree }
{}

/// A law, which does nothing: `MayBeNull<UnionType>`, a union that may be null, reads what its rule
/// reads.
#[tactic(auto, using(crate::proofs::AliasRules::nullable_union_type_has_rule))]
pub fn nullable_union_type<'a>()
    ensures { HasRule ⟦<MayBeNull<UnionType<'a>> as Parse<'a>>⟧.reading MAY_BE_NULL_UNION_TYPE
        (may_be_null_tree union_type_tree) }
{}

/// A law, which does nothing: `ExtendedAttributeList` reads what its rule reads.
#[tactic(auto, using(crate::proofs::AliasRules::extended_attribute_list_has_rule))]
pub fn extended_attribute_list<'a>()
    ensures { HasRule ⟦<ExtendedAttributeList<'a> as Parse<'a>>⟧.reading EXTENDED_ATTRIBUTE_LIST
        extended_attribute_list_tree }
{}

/// A law, which does nothing: `Option<ExtendedAttributeList>` reads what the rule of extended
/// attributes that may be absent reads.
#[tactic(auto, using(crate::proofs::AliasRules::attributes_has_rule))]
pub fn attributes<'a>()
    ensures { HasRule ⟦<Option<ExtendedAttributeList<'a>> as Parse<'a>>⟧.reading
        OPT_EXTENDED_ATTRIBUTE_LIST attributes_tree }
{}

/// A law, which does nothing: `ArgumentList` reads what its rule reads.
#[tactic(auto, using(crate::proofs::AliasRules::argument_list_has_rule))]
pub fn argument_list<'a>()
    ensures { HasRule ⟦<ArgumentList<'a> as Parse<'a>>⟧.reading ARGUMENT_LIST argument_list_tree }
{}

/// A law, which does nothing: `IdentifierList` reads what its rule reads.
#[tactic(auto, using(crate::proofs::AliasRules::identifier_list_has_rule))]
pub fn identifier_list<'a>()
    ensures { HasRule ⟦<IdentifierList<'a> as Parse<'a>>⟧.reading IDENTIFIER_LIST
        (punctuated_tree identifier_tree) }
{}

/// A law, which does nothing: `Parenthesized<IdentifierList>`, names in parentheses, reads what its
/// rule reads.
#[tactic(auto, using(crate::proofs::AliasRules::identifiers_has_rule))]
pub fn identifiers<'a>()
    ensures { HasRule ⟦<Parenthesized<IdentifierList<'a>> as Parse<'a>>⟧.reading
        PARENTHESIZED_IDENTIFIER_LIST (parenthesized_tree (punctuated_tree identifier_tree)) }
{}
