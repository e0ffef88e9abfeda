//! The laws of extended attributes without arguments.
//! Written by tools/spellings.py, and not edited by hand.

ghost use Rattle.weedle_grammar.specs.written.Table.SimpleTypes.{IDENTIFIER_LIST};
ghost use Rattle.weedle_grammar.specs.written.Table.Types.{
  EXTENDED_ATTRIBUTE_IDENT,
  EXTENDED_ATTRIBUTE_IDENT_LIST,
  EXTENDED_ATTRIBUTE_NO_ARGS,
  IDENTIFIER_OR_STRING,
};
ghost use Rattle.weedle_parts.specs.ValueTrees.{identifier_tree, punctuated_tree};
ghost use Rattle.weedle_spell.specs.Laws.{SpellsValues};
ghost use Rattle.weedle_spell.specs.written.PlainAttributes.{
  extended_attribute_ident_list_spelling,
  extended_attribute_ident_spelling,
  extended_attribute_no_args_spelling,
  identifier_list_spelling,
  identifier_or_string_spelling,
};
ghost use Rattle.weedle_types.specs.Trees.{
  extended_attribute_ident_list_tree,
  extended_attribute_ident_tree,
  extended_attribute_no_args_tree,
  identifier_or_string_tree,
};

/// A law, which does nothing: the text of a name or a string, as `name` or `"name"`, is a rendering
/// of its value.
#[tactic(auto, using(crate::proofs::written::PlainAttributeLaws::identifier_or_string_law))]
pub fn identifier_or_string()
    ensures { SpellsValues IDENTIFIER_OR_STRING identifier_or_string_tree
        identifier_or_string_spelling }
{}

/// A law, which does nothing: the text of names, as `Window, Worker`, is a rendering of its value.
#[tactic(auto, using(crate::proofs::written::PlainAttributeLaws::identifier_list_law))]
pub fn identifier_list()
    ensures { SpellsValues IDENTIFIER_LIST (punctuated_tree identifier_tree)
        identifier_list_spelling }
{}

/// A law, which does nothing: the text of an extended attribute with a name or a string, as
/// `PutForwards=name`, is a rendering of its value.
#[tactic(auto, using(crate::proofs::written::PlainAttributeLaws::extended_attribute_ident_law))]
pub fn extended_attribute_ident()
    ensures { SpellsValues EXTENDED_ATTRIBUTE_IDENT extended_attribute_ident_tree
        extended_attribute_ident_spelling }
{}

/// A law, which does nothing: the text of an extended attribute with names, as
/// `Exposed=(Window, Worker)`, is a rendering of its value.
#[tactic(auto, using(crate::proofs::written::PlainAttributeLaws::extended_attribute_ident_list_law))]
pub fn extended_attribute_ident_list()
    ensures { SpellsValues EXTENDED_ATTRIBUTE_IDENT_LIST extended_attribute_ident_list_tree
        extended_attribute_ident_list_spelling }
{}

/// A law, which does nothing: the text of an extended attribute that is a name alone, as
/// `Replaceable`, is a rendering of its value.
#[tactic(auto, using(crate::proofs::written::PlainAttributeLaws::extended_attribute_no_args_law))]
pub fn extended_attribute_no_args()
    ensures { SpellsValues EXTENDED_ATTRIBUTE_NO_ARGS extended_attribute_no_args_tree
        extended_attribute_no_args_spelling }
{}
