//! Descent within limits, and where they are spent a memo.

ghost use Rattle.std.specs.Prelude.{◌≡◌, ◌≤◌, ◌+◌, ◌*◌, ◌↔◌, All, length, take, IsSome, IfOk};
ghost use Rattle.std.specs.Prelude.{IfSome, IfNone};
ghost use Rattle.std.specs.Bool.{OnFalse};
ghost use Rattle.weedle_rules.specs.Outcomes.{FailsAt};
ghost use Rattle.weedle_syntax.specs.Steps.{Spends, Steps};
ghost use Rattle.weedle_syntax.specs.Syntax.{
  IsWhole,
  IsSyntax,
  IsFront,
  IsRead,
  IsRuleFront,
  leaves_of,
  rest_of,
};

use crate::front::narrow_within;
use crate::lay::rule_by_descent;
use crate::limits::Limits;
use crate::narrow::widened;
use crate::node::Node;
use crate::on_demand::{front_on_demand, rule_on_demand, syntax};
use crate::readers::whole_within;
use std::alloc::{AllocError, Global};
use weedle_grammar::Rule;

/// Every rule that was read of a text that is read whole, as [`syntax`] gives them, by descent or
/// over a memo.
///
/// It reads by descent, as [`syntax_by_descent`](crate::syntax_by_descent) does, within limits: 16
/// rules for each byte and 4,096 more, 400 nodes deep. Where they are spent it takes [`syntax`]. So
/// for what people write it needs little time, and no memory except for the nodes'; for a hostile
/// text it needs what [`syntax`] needs, and little stack.
pub fn syntax_quick(alloc: Global, raw: &str) -> Result<Option<Vec<Node>>, AllocError>
    ensures whole { IfOk result (λ found. IsSome found ↔ IsWhole raw.now) }
    ensures are { IfOk result (λ found. IfSome found (λ nodes. IsSyntax raw.now nodes.items)) }
    ensures lossless { IfOk result
        (λ found. IfSome found (λ nodes. leaves_of raw.now nodes.items ≡ raw.now)) }
    ensures read { IfOk result
        (λ found. IfSome found (λ nodes. All (IsRead raw.now) nodes.items)) }
{
    let mut limits = Limits::of_length(raw.len());
    match whole_within(alloc, raw, &mut limits) {
        Ok(found) => Ok(found),
        Err(error) => {
            if limits.are_spent() {
                return syntax(alloc, raw);
            }
            Err(error)
        }
    }
}

/// Every rule that was read of the definitions at the front of a text, in preorder, whatever
/// follows them.
///
/// The first node ends where the remaining input begins, which no definition reads. For
/// `enum E { "a" }; enum` these are the nodes of the first definition, and the remaining input
/// begins at 17. For a text that is read whole it returns what [`syntax`] returns. So a tool can
/// show a tree while a text is written.
///
/// It reads by descent or over a memo, as [`syntax_quick`] does, and costs the same. Where memory
/// is refused, the answer is an error.
pub fn syntax_of_front(alloc: Global, raw: &str) -> Result<Vec<Node>, AllocError>
    ensures are { IfOk result (λ nodes. IsFront raw.now nodes.items) }

    // The bytes of the leaves, one after another, are the text up to where the remaining input
    // begins.
    ensures lossless { IfOk result
        (λ nodes. leaves_of raw.now nodes.items ≡ take (rest_of nodes.items) raw.now) }
    ensures read { IfOk result (λ nodes. All (IsRead raw.now) nodes.items) }
{
    let mut limits = Limits::of_length(raw.len());
    match front_within(alloc, raw, &mut limits) {
        Ok(nodes) => return Ok(nodes),
        Err(error) => {
            if !limits.are_spent() {
                return Err(error);
            }
        }
    }
    let nodes = front_on_demand(alloc, raw)?;
    Ok(nodes)
}

/// Every rule that was read of the definitions at the front of a text, by descent within limits.
fn front_within(alloc: Global, raw: &str, limits: &mut Limits) -> Result<Vec<Node>, AllocError>
    ensures are { IfOk result (λ nodes. IsFront raw.now nodes.items) }
{
    let narrow = narrow_within(alloc, raw, limits)?;
    let nodes = widened(alloc, &narrow)?;
    Ok(nodes)
}

/// Every rule that was read where a rule is read at the front of a text, in preorder, whatever
/// follows it; None where the rule fails there.
///
/// The first node is that of the rule, and ends where the remaining input begins. For `TYPE` and
/// `long? x` these are the nodes of `long? `. For `DEFINITIONS` it returns what [`syntax_of_front`]
/// returns, and it costs the same.
pub fn syntax_of_rule(alloc: Global, raw: &str, rule: Rule) -> Result<Option<Vec<Node>>, AllocError>
    ensures fails { IfOk result (λ found. IfNone found (FailsAt raw.now rule 0)) }
    ensures are { IfOk result
        (λ found. IfSome found (λ nodes. IsRuleFront raw.now rule nodes.items)) }
{
    let counted = syntax_counted(alloc, raw, rule)?;
    Ok(counted.nodes)
}

/// The nodes of a rule, and how many rules were tried for them.
#[derive(Drop)]
pub struct Counted {
    /// The nodes, where the rule is read.
    pub nodes: Option<Vec<Node>>,
    /// How many rules were tried by descent.
    pub steps: usize,
    /// Whether a memo was made, since the limits of descent were spent.
    pub by_table: bool,
}

/// Every rule that was read where a rule is read at the front of a text, as [`syntax_of_rule`]
/// gives them, and how many rules were tried for that: at most 16 for each byte and 4,096 more.
///
/// Where these are spent a memo is made, which works out no rule twice at a place.
pub fn syntax_counted(alloc: Global, raw: &str, rule: Rule) -> Result<Counted, AllocError>
    ensures fails { IfOk result (λ counted. IfNone counted.nodes (FailsAt raw.now rule 0)) }
    ensures are { IfOk result
        (λ counted. IfSome counted.nodes (λ nodes. IsRuleFront raw.now rule nodes.items)) }
    ensures few { IfOk result (λ counted. counted.steps ≤ 16 * length raw.now + 4096) }

    // By descent that is how many rules were tried.
    ensures steps { IfOk result
        (λ counted. OnFalse counted.by_table (Steps raw.now rule 0 counted.steps)) }
{
    let mut limits = Limits::of_length(raw.len());
    let most = limits.steps;
    match rule_within(alloc, raw, rule, &mut limits) {
        Ok(nodes) => Ok(Counted {
            nodes,
            steps: most - limits.steps,
            by_table: false,
        }),
        Err(error) => {
            if !limits.are_spent() {
                return Err(error);
            }
            let nodes = rule_on_demand(alloc, raw, rule)?;
            Ok(Counted {
                nodes,
                steps: most.saturating_sub(limits.steps),
                by_table: true,
            })
        }
    }
}

/// Every rule that was read where a rule is read at the front of a text, by descent within limits.
fn rule_within(
    alloc: Global,
    raw: &str,
    rule: Rule,
    limits: &mut Limits,
) -> Result<Option<Vec<Node>>, AllocError>
    ensures fails { IfOk result (λ found. IfNone found (FailsAt raw.now rule 0)) }
    ensures are { IfOk result
        (λ found. IfSome found (λ nodes. IsRuleFront raw.now rule nodes.items)) }
    ensures steps { IfOk result
        (λ _. Spends (Steps raw.now rule 0) limits.old.steps limits.new.steps) }
{
    match rule_by_descent(alloc, raw, rule, limits)? {
        Some(narrow) => {
            let nodes = widened(alloc, &narrow)?;
            Ok(Some(nodes))
        }
        None => Ok(None),
    }
}
