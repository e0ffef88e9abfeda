//! Nodes in 8 bytes each, in runs: places count from where a run begins.

ghost use Rattle.std.specs.Bool.{OnFalse, OnTrue};
ghost use Rattle.std.specs.Prelude.{◌≡◌, [], ◌++◌, All, IfOk, IfSome};
ghost use Rattle.weedle_syntax.specs.Compact.{AreRuns, IsNarrow, IsShortened, node_of, nodes_of};

use crate::narrow::Narrow;
use crate::node::Node;
use std::alloc::{AllocError, Global};
use weedle_grammar::Rule;

/// The greatest depth of a short node, and the greatest place, counted from where its run begins.
const FAR: usize = u16::MAX as usize;

/// A node in 8 bytes.
#[derive(Clone, Copy)]
pub(crate) struct Short {
    rule: Rule,
    depth: u16,
    start: u16,
    end: u16,
}

/// Nodes one behind another, short or long.
#[derive(Clone, Copy)]
pub(crate) struct Run {
    /// From where the places of short ones count.
    pub(crate) base: u32,
    pub(crate) is_long: bool,
    /// The number of the first of them.
    pub(crate) from: usize,
    pub(crate) many: usize,
}

/// Runs of nodes, such as those of a definition each.
#[derive(Drop)]
pub(crate) struct Runs {
    pub(crate) runs: Vec<Run>,
    pub(crate) shorts: Vec<Short>,
    pub(crate) longs: Vec<Narrow>,
    /// How many nodes there are, and one more.
    pub(crate) many: usize,
}

impl Short {
    /// The node, in a run that begins at this place.
    #[inline(always)]
    pub(crate) fn node(self, base: u32) -> Node
        ensures { result ≡ node_of base self }
    {
        Node {
            rule: self.rule,
            start: base as usize + self.start as usize,
            end: base as usize + self.end as usize,
            depth: self.depth as usize,
        }
    }
}

impl Runs {
    /// No nodes, with room for so many short ones.
    pub(crate) fn new(alloc: Global, many: usize) -> Result<Runs, AllocError>
        ensures are { IfOk result AreRuns }
        ensures none { IfOk result (λ nodes. nodes_of nodes ≡ []) }
    {
        let shorts = Vec::with_capacity(alloc, many)?;
        Ok(Runs {
            runs: Vec::new(alloc),
            shorts,
            longs: Vec::new(alloc),
            many: 1,
        })
    }
}

/// The node in 8 bytes, in a run that begins at this place; None where they don't hold it.
#[inline(always)]
fn shortened(node: Node, base: u32) -> Option<Short>
    ensures { IfSome result (λ short. node_of base short ≡ node) }
{
    let base = base as usize;
    if node.start < base || node.end < base {
        return None;
    }
    let (start, end) = (node.start - base, node.end - base);
    if start > FAR || end > FAR || node.depth > FAR {
        return None;
    }
    Some(Short {
        rule: node.rule,
        depth: node.depth as u16,
        start: start as u16,
        end: end as u16,
    })
}

/// Puts nodes behind the others in 8 bytes each, and says whether that holds all of them; else it
/// puts none there.
fn shorten(shorts: &mut Vec<Short>, found: &[Narrow], base: u32) -> Result<bool, AllocError>
    ensures all { IfOk result (λ all. OnTrue all
        (IsShortened base found.now shorts.old.items shorts.new.items)) }
    ensures none { IfOk result (λ all. OnFalse all (shorts.new.items ≡ shorts.old.items)) }
{
    let from = shorts.len();
    shorts.reserve(found.len())?;
    for i in 0..found.len() {
        match shortened(found[i].node(), base) {
            Some(short) => shorts.push_reserved(short),
            None => {
                shorts.truncate(from);
                return Ok(false);
            }
        }
    }
    Ok(true)
}

/// Puts nodes behind the others.
fn lengthen(longs: &mut Vec<Narrow>, found: &[Narrow]) -> Result<(), AllocError>
    ensures { IfOk result (λ _. longs.new.items ≡ longs.old.items ++ found.now) }
{
    longs.reserve(found.len())?;
    for i in 0..found.len() {
        longs.push(found[i])?;
    }
    Ok(())
}

/// That each of them is narrow.
pub(crate) fn are_narrow(found: &[Narrow])
    ensures { All IsNarrow found.now }
{
    for node in found {
        node.node();
    }
}

/// Puts a run of nodes behind the others.
pub(crate) fn push_run(nodes: &mut Runs, found: &[Narrow]) -> Result<(), AllocError>
    requires { AreRuns nodes.old }
    ensures are { IfOk result (λ _. AreRuns nodes.new) }
    ensures items { IfOk result (λ _. nodes_of nodes.new ≡ nodes_of nodes.old ++ found.now) }
{
    are_narrow(found);
    let Some(many) = nodes.many.checked_add(found.len()) else {
        return Err(AllocError);
    };
    let base = match found.first() {
        Some(first) => first.node().start as u32,
        None => 0,
    };
    let from = nodes.shorts.len();
    if shorten(&mut nodes.shorts, found, base)? {
        nodes.runs.push(Run {
            base,
            is_long: false,
            from,
            many: found.len(),
        })?;
    } else {
        let from = nodes.longs.len();
        lengthen(&mut nodes.longs, found)?;
        nodes.runs.push(Run {
            base,
            is_long: true,
            from,
            many: found.len(),
        })?;
    }
    nodes.many = many;
    Ok(())
}
