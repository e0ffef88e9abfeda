//! The name of a definition or a member.

ghost use Rattle.std.specs.Prelude.{◌≡◌, ◌<◌, length};
ghost use Rattle.weedle_syntax.specs.Tree.{children_of};
ghost use Rattle.weedle_places.specs.Around.{
  name_among as the_name_among,
  name_of_kind as the_name_of_kind,
  name_behind as the_name_behind,
  own_name_in as the_own_name_in,
  HasNameIn,
};

use crate::name::word_at;
use crate::span::Span;
use weedle_grammar::Rule;
use weedle_grammar::grammar::interface_members::OPT_IDENTIFIER;
use weedle_syntax::{Dialect, Syntax};

/// The first name that a node reads directly, or the one that may be absent.
fn name_among(syntax: &Syntax<'_>, node: usize) -> Option<usize>
    requires { node < length syntax.now.nodes }
    ensures { result ≡ the_name_among syntax.now.nodes (children_of syntax.now.nodes node) }
{
    let nodes = syntax.nodes();
    for child in syntax.children(node) {
        if nodes[child].rule == Rule::IDENTIFIER {
            return Some(child);
        }
        if nodes[child].rule.number() == OPT_IDENTIFIER {
            let next = child + 1;
            if next < nodes.len() && nodes[next].rule == Rule::IDENTIFIER {
                return Some(next);
            }
        }
    }
    None
}

/// The same of the first node that a node reads directly: its kind.
fn name_of_kind(syntax: &Syntax<'_>, node: usize) -> Option<usize>
    requires { node < length syntax.now.nodes }
    ensures { result ≡ the_name_of_kind syntax.now.nodes (children_of syntax.now.nodes node) }
{
    // What is known of a tree comes with its nodes.
    let _ = syntax.nodes();
    let mut kinds = syntax.children(node);
    match kinds.next() {
        Some(kind) => name_among(syntax, kind),
        None => None,
    }
}

/// The same where the kind is behind docstrings and extended attributes, as by today's rules: of
/// the first node that the third reads directly.
fn name_behind(syntax: &Syntax<'_>, node: usize) -> Option<usize>
    requires { node < length syntax.now.nodes }
    ensures { result ≡ the_name_behind syntax.now.nodes (children_of syntax.now.nodes node) }
{
    let _ = syntax.nodes();
    let mut parts = syntax.children(node);
    let Some(_) = parts.next() else {
        return None;
    };
    let Some(_) = parts.next() else {
        return None;
    };
    let Some(choice) = parts.next() else {
        return None;
    };
    name_of_kind(syntax, choice)
}

/// The name of a node: one that it reads directly, or else one that its kind does.
fn own_name(syntax: &Syntax<'_>, node: usize) -> Option<usize>
    requires { node < length syntax.now.nodes }
    ensures { result ≡ the_own_name_in syntax.now.dialect syntax.now.nodes node }
{
    if let Some(name) = name_among(syntax, node) {
        return Some(name);
    }
    match syntax.dialect() {
        Dialect::Weedle2 => name_of_kind(syntax, node),
        Dialect::Today => name_behind(syntax, node),
    }
}

/// Where the name of a node is, with an underscore in front, if it has a name.
pub(crate) fn name_span(syntax: &Syntax<'_>, node: usize) -> Option<Span>
    requires { node < length syntax.now.nodes }
    ensures { HasNameIn syntax.now.dialect syntax.now.text syntax.now.nodes node result }
{
    match own_name(syntax, node) {
        Some(name) => {
            let (span, _) = word_at(syntax, name);
            Some(span)
        }
        None => None,
    }
}
