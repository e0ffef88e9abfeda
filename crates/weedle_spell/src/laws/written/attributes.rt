//! The laws of arguments, and of extended attributes that may have arguments.
//! Written by tools/spellings.py, and not edited by hand.

ghost use Rattle.weedle_grammar.specs.written.Table.Types.{
  ARGUMENT,
  ARGUMENT_LIST,
  EXTENDED_ATTRIBUTE,
  EXTENDED_ATTRIBUTE_ARG_LIST,
  EXTENDED_ATTRIBUTE_LIST,
  EXTENDED_ATTRIBUTE_NAMED_ARG_LIST,
  PARENTHESIZED_ARGUMENT_LIST,
  SINGLE_ARGUMENT,
  VARIADIC_ARGUMENT,
};
ghost use Rattle.weedle_spell.specs.Laws.{SpellsValues};
ghost use Rattle.weedle_spell.specs.RecursiveTypes.{argument_spelling, extended_attribute_spelling};
ghost use Rattle.weedle_spell.specs.written.Arguments.{
  argument_list_spelling,
  arguments_spelling,
  extended_attribute_arg_list_spelling,
  extended_attribute_list_spelling,
  extended_attribute_named_arg_list_spelling,
  single_argument_spelling,
  variadic_argument_spelling,
};
ghost use Rattle.weedle_types.specs.Trees.{
  argument_list_tree,
  argument_tree,
  arguments_tree,
  extended_attribute_arg_list_tree,
  extended_attribute_list_tree,
  extended_attribute_named_arg_list_tree,
  extended_attribute_tree,
  single_argument_tree,
  variadic_argument_tree,
};

/// A law, which does nothing: the text of an argument, as `long x`, or `long... xs`, is a rendering
/// of its value.
#[tactic(auto, using(crate::proofs::written::ArgumentLaws::argument_law))]
pub fn argument()
    ensures { SpellsValues ARGUMENT argument_tree argument_spelling }
{}

/// A law, which does nothing: the text of arguments, as `long x, long y`, is a rendering of its
/// value.
#[tactic(auto, using(crate::proofs::written::ArgumentLaws::argument_list_law))]
pub fn argument_list()
    ensures { SpellsValues ARGUMENT_LIST argument_list_tree argument_list_spelling }
{}

/// A law, which does nothing: the text of arguments in parentheses, as `(long x, long y)`, is a
/// rendering of its value.
#[tactic(auto, using(crate::proofs::written::ArgumentLaws::arguments_law))]
pub fn arguments()
    ensures { SpellsValues PARENTHESIZED_ARGUMENT_LIST arguments_tree arguments_spelling }
{}

/// A law, which does nothing: the text of an extended attribute, as `Exposed=Window` or
/// `Constructor(long x)`, is a rendering of its value.
#[tactic(auto, using(crate::proofs::written::ArgumentLaws::extended_attribute_law))]
pub fn extended_attribute()
    ensures { SpellsValues EXTENDED_ATTRIBUTE extended_attribute_tree extended_attribute_spelling }
{}

/// A law, which does nothing: the text of an extended attribute with arguments, as
/// `Constructor(long x)`, is a rendering of its value.
#[tactic(auto, using(crate::proofs::written::ArgumentLaws::extended_attribute_arg_list_law))]
pub fn extended_attribute_arg_list()
    ensures { SpellsValues EXTENDED_ATTRIBUTE_ARG_LIST extended_attribute_arg_list_tree
        extended_attribute_arg_list_spelling }
{}

/// A law, which does nothing: the text of an extended attribute with a name and arguments, as
/// `NamedConstructor=Image(long x)`, is a rendering of its value.
#[tactic(auto, using(crate::proofs::written::ArgumentLaws::extended_attribute_named_arg_list_law))]
pub fn extended_attribute_named_arg_list()
    ensures { SpellsValues EXTENDED_ATTRIBUTE_NAMED_ARG_LIST extended_attribute_named_arg_list_tree
        extended_attribute_named_arg_list_spelling }
{}

/// A law, which does nothing: the text of extended attributes in brackets, as
/// `[Exposed=Window, SecureContext]`, is a rendering of its value.
#[tactic(auto, using(crate::proofs::written::ArgumentLaws::extended_attribute_list_law))]
pub fn extended_attribute_list()
    ensures { SpellsValues EXTENDED_ATTRIBUTE_LIST extended_attribute_list_tree
        extended_attribute_list_spelling }
{}

/// A law, which does nothing: the text of an argument, as `optional long x = 5`, is a rendering of
/// its value.
#[tactic(auto, using(crate::proofs::written::ArgumentLaws::single_argument_law))]
pub fn single_argument()
    ensures { SpellsValues SINGLE_ARGUMENT single_argument_tree single_argument_spelling }
{}

/// A law, which does nothing: the text of any number of arguments, as `long... xs`, is a rendering
/// of its value.
#[tactic(auto, using(crate::proofs::written::ArgumentLaws::variadic_argument_law))]
pub fn variadic_argument()
    ensures { SpellsValues VARIADIC_ARGUMENT variadic_argument_tree variadic_argument_spelling }
{}
