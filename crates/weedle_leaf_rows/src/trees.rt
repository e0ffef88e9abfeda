//! Walks from node to node, and the examples of docs/USING.md.

ghost use Rattle.std.specs.Prelude.{◌<◌, length};

use std::alloc::{AllocError, Global};
use std::test::Fail;
use weedle_grammar::Rule;
use weedle_places::{Role, names};
use weedle_refusal::Lines;
use weedle_syntax::Syntax;

/// The first child of a node, its next sibling, its parent, and how many nodes are below it.
fn around(syntax: &Syntax<'_>, node: usize) -> (Option<usize>, Option<usize>, Option<usize>, usize)
    requires { node < length syntax.now.nodes }
{
    (
        syntax.first_child(node),
        syntax.next_sibling(node),
        syntax.parent(node),
        syntax.below(node),
    )
}

/// The numbers are those of the nodes by hand in python/tests/test_worked_nodes.py.
#[test]
fn from_node_to_node(rt: HostRuntime) -> Result<(), Fail> {
    let syntax = Syntax::of_front(rt.alloc(), "A includes B;")?;
    assert_eq!(rt;
        (syntax.nodes().len(), syntax.root(), syntax.rest()),
        (35, 0, 13)
    );
    for (node, wanted) in [
        (0, (Some(1), None, None, 34)),
        (2, (Some(3), None, Some(1), 32)),
        (3, (None, Some(4), Some(2), 0)),
        (4, (Some(5), Some(15), Some(2), 10)),
        (24, (Some(25), Some(31), Some(2), 6)),
        (31, (Some(32), None, Some(2), 3)),
    ] {
        if node < syntax.nodes().len() {
            assert_eq!(rt; around(&syntax, node), wanted);
        }
    }
    Ok(())
}

/// The numbers of a node's children; none where there is no such node.
fn children_of(alloc: Global, syntax: &Syntax<'_>, node: usize) -> Result<Vec<usize>, AllocError> {
    if node < syntax.nodes().len() {
        return syntax.children(node).collect(alloc);
    }
    Ok(Vec::new(alloc))
}

#[test]
fn children_and_leaves(rt: HostRuntime) -> Result<(), Fail> {
    let alloc = rt.alloc();
    let syntax = Syntax::of_front(alloc, "A includes B;")?;
    for (node, wanted) in [
        (0, [1].as_slice()),
        (2, [3, 4, 15, 24, 31].as_slice()),
        (3, [].as_slice()),
    ] {
        let children = children_of(alloc, &syntax, node)?;
        assert_eq!(rt; children.as_slice(), wanted);
    }
    let leaves: Vec<usize> = syntax.leaves().collect(alloc)?;
    let wanted: &[usize] = &[
        3, 5, 6, 8, 9, 13, 14, 16, 17, 18, 22, 23, 25, 26, 28, 29, 30, 32, 33, 34,
    ];
    assert!(rt; leaves.as_slice() == wanted);
    Ok(())
}

#[test]
fn what_is_found(rt: HostRuntime) -> Result<(), Fail> {
    let syntax = Syntax::of_front(rt.alloc(), "A includes B;")?;
    for (byte, leaf) in [(0, Some(8)), (12, Some(33)), (13, None)] {
        assert_eq!(rt; syntax.at(byte), leaf);
    }
    assert_eq!(rt; syntax.find(Rule::DEFINITIONS, 1), None);
    assert_eq!(rt; syntax.next_leaf(4), Some(5));
    match syntax.find(Rule::IDENTIFIER, 5) {
        Some(node) => assert_eq!(rt; (node, syntax.text_of(node)), (24, "B")),
        None => assert!(rt; false),
    }
    Ok(())
}

/// A word is a keyword or a name; symbols, numbers, strings, whitespace and comments are none.
#[test]
fn words_blanks_and_comments(rt: HostRuntime) -> Result<(), Fail> {
    let text = "interface _A {\n/*b*/ const long c = 0x1; // d\n};";
    let syntax = Syntax::of_front(rt.alloc(), text)?;
    let words = syntax.nodes().iter().filter(|node| node.is_word()).count();
    let blanks = syntax.nodes().iter().filter(|node| node.is_blank()).count();
    let comments = syntax
        .nodes()
        .iter()
        .filter(|node| node.is_comment())
        .count();
    assert_eq!(rt; (words, blanks, comments), (5, 9, 2));
    Ok(())
}

/// A line for each type that a text names, with its position.
fn types_of(alloc: Global, text: &str) -> Result<String, AllocError> {
    let mut listing = String::new(alloc);
    let lines = Lines::new(alloc, text)?;
    if let Some(found) = names(alloc, text)? {
        for name in &found {
            if name.role == Role::Type {
                let position = lines.position(name.span.start);
                writeln!(listing, "{position}: {}", name.text)?;
            }
        }
    }
    Ok(listing)
}

#[test]
fn the_example_lists_types(rt: HostRuntime) -> Result<(), Fail> {
    let text = "interface A : B {\n  attribute sequence<C?> x;\n};";
    let listing = types_of(rt.alloc(), text)?;
    assert_eq!(rt; listing.as_str(), "2:22: C\n");
    Ok(())
}
