//! The syntax tree of a text, as it is printed.

use std::alloc::{AllocError, Global};
use std::io::{self, Write};
use weedle_program::Fault;
use weedle_syntax::{Dialect, Node, syntax_quick, syntax_quick_in};

/// What is in front of a node for each node that it is in.
const INDENT: &str = "  ";

/// Writes the nodes of a text that is read whole, one on a line: the name of its rule and its
/// bytes, and of a leaf its text in quotes. A node is two spaces behind the one that it is in. It
/// says whether the text is read whole.
///
/// ```text
/// definitions 0..21
///   definition 0..21
///     includes_statement_definition 0..21
/// ```
///
/// It fails where memory is refused, and where the output can't be written.
pub fn write_syntax<W: Write>(
    alloc: Global,
    dialect: Dialect,
    text: &str,
    out: &mut W,
) -> Result<bool, Fault> {
    let Some(nodes) = nodes_of(alloc, dialect, text)? else {
        return Ok(false);
    };
    for (i, node) in nodes.iter().enumerate() {
        let is_leaf = match nodes.get(i + 1) {
            Some(next) => next.depth <= node.depth,
            None => true,
        };
        write_node(node, is_leaf, text, out)?;
    }
    Ok(true)
}

/// The nodes of a text that the dialect's rules read whole.
fn nodes_of(alloc: Global, dialect: Dialect, text: &str) -> Result<Option<Vec<Node>>, AllocError> {
    match dialect {
        Dialect::Weedle2 => syntax_quick(alloc, text),
        Dialect::Today => syntax_quick_in(alloc, text, dialect),
    }
}

/// Writes the line of a node.
fn write_node<W: Write>(node: &Node, is_leaf: bool, text: &str, out: &mut W) -> io::Result<()> {
    for _ in 0..node.depth {
        write!(out, "{INDENT}")?;
    }
    write!(out, "{} {}..{}", node.rule.name(), node.start, node.end)?;
    if is_leaf {
        let leaf = text.get(node.start..node.end).unwrap_or("");
        write!(out, " {leaf:?}")?;
    }
    writeln!(out)
}
