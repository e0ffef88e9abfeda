//! Which node is the definition, and which the choice among the kinds of definitions.
//!
//! By weedle2's rules a definition is right below the root, and reads its kind directly. By today's
//! it is below a piece, and its kind is behind docstrings and extended attributes.

ghost use Rattle.std.specs.Prelude.{◌≡◌, ◌<◌, length};
ghost use Rattle.weedle_grammar.specs.written.Table.TodayDefinitions.{
  TODAY_DEFINITION,
  TODAY_DEFINITION_KIND,
  TODAY_PIECE,
};
ghost use Rattle.weedle_places.specs.Members.{IsBehindFront, choice_of};
ghost use Rattle.weedle_places.specs.Placed.{ChoiceBegins, FindsDefinition};
ghost use Rattle.weedle_rules.specs.Outcomes.{EndsAt};
ghost use Rattle.weedle_syntax.specs.declared.dialect.Dialect.TheVariants.{Today};
ghost use Rattle.weedle_syntax.specs.Dialects.{definition_of, item_of};
ghost use Rattle.weedle_syntax.specs.Tree.{node_at};

use weedle_grammar::Rule;
use weedle_syntax::{Dialect, Syntax};

/// The definition that a node below the root is or holds, if there is one.
pub(crate) fn definition_at(syntax: &Syntax<'_>, piece: usize) -> Option<usize>
    requires within { piece < length syntax.now.nodes }
    requires rule { (node_at syntax.now.nodes piece).rule ≡ item_of syntax.now.dialect }
    requires reads { EndsAt syntax.now.text (item_of syntax.now.dialect)
        (node_at syntax.now.nodes piece).start (node_at syntax.now.nodes piece).end }
    ensures { FindsDefinition syntax.now.dialect syntax.now.text syntax.now.nodes piece result }
{
    match syntax.dialect() {
        Dialect::Weedle2 => Some(piece),
        Dialect::Today => definition_in(syntax, piece),
    }
}

/// The rule of a node.
fn rule_at(syntax: &Syntax<'_>, i: usize) -> Rule
    requires { i < length syntax.now.nodes }
    ensures { result ≡ (node_at syntax.now.nodes i).rule }
{
    syntax.nodes()[i].rule
}

/// The definition that a piece of today's rules holds, if it holds one.
fn definition_in(syntax: &Syntax<'_>, piece: usize) -> Option<usize>
    requires within { piece < length syntax.now.nodes }
    requires rule { (node_at syntax.now.nodes piece).rule ≡ TODAY_PIECE }
    ensures { FindsDefinition Today syntax.now.text syntax.now.nodes piece result }
{
    // What is known of a tree comes with its nodes.
    let _ = syntax.nodes();
    let mut kinds = syntax.children(piece);
    let Some(kind) = kinds.next() else {
        unreachable!();
    };
    if rule_at(syntax, kind) == Rule::TODAY_DEFINITION {
        return Some(kind);
    }
    None
}

/// The node of the choice among the kinds of definitions: the definition itself, or one that it
/// reads directly.
pub(crate) fn choice_at(syntax: &Syntax<'_>, definition: usize) -> usize
    requires within { definition < length syntax.now.nodes }
    requires rule { (node_at syntax.now.nodes definition).rule
        ≡ definition_of syntax.now.dialect }
    ensures within { result < length syntax.now.nodes }
    ensures rule { (node_at syntax.now.nodes result).rule ≡ choice_of syntax.now.dialect }
    ensures begins { ChoiceBegins syntax.now.dialect syntax.now.text
        (node_at syntax.now.nodes definition).start (node_at syntax.now.nodes result).start }
{
    match syntax.dialect() {
        Dialect::Weedle2 => definition,
        Dialect::Today => kind_behind(syntax, definition),
    }
}

/// The node of the kind of today's definition: the third that it reads directly.
fn kind_behind(syntax: &Syntax<'_>, definition: usize) -> usize
    requires within { definition < length syntax.now.nodes }
    requires rule { (node_at syntax.now.nodes definition).rule ≡ TODAY_DEFINITION }
    ensures within { result < length syntax.now.nodes }
    ensures rule { (node_at syntax.now.nodes result).rule ≡ TODAY_DEFINITION_KIND }
    ensures begins { IsBehindFront syntax.now.text
        (node_at syntax.now.nodes definition).start (node_at syntax.now.nodes result).start }
{
    let _ = syntax.nodes();
    let mut parts = syntax.children(definition);
    let Some(_) = parts.next() else {
        unreachable!();
    };
    let Some(_) = parts.next() else {
        unreachable!();
    };
    let Some(kind) = parts.next() else {
        unreachable!();
    };
    kind
}
