//! Why a text is refused.

ghost use Rattle.std.specs.Prelude.{◌≡◌, ◌≤◌, ◌<◌, IfErr, IfOk, IfSome, length};
ghost use Rattle.weedle_refusal.specs.Refusal.{Explains, ExplainsIn, IsRefusal, RestBeginsIn};
ghost use Rattle.weedle_refusal.specs.declared.error.DialectError.TheVariants.{Memory};
ghost use Rattle.weedle_syntax.specs.declared.dialect.Dialect.TheVariants.{Weedle2};
ghost use Rattle.weedle_rules.specs.Outcomes.{FailsAt};
ghost use Rattle.weedle_syntax.specs.Syntax.{IsRuleFront, RestBegins, rest_of as the_rest_of};

use crate::behind::{refusal_at, refusal_at_in};
use crate::error::DialectError;
use crate::expected::Expected;
use crate::hint::Hint;
use std::alloc::{AllocError, Global};
use weedle_grammar::Rule;
use weedle_syntax::{Dialect, Node, syntax_of_front, syntax_of_rule};

/// Where and why a text is refused. Places are in bytes from the front of the text.
///
/// For `interface A {}; enum E { "a" "b" };` it says that the second definition, from 16 on, isn't
/// read: the reading comes to 29, where a `,` or a `}` would go on.
#[derive(Debug, Drop)]
pub struct Refusal {
    /// Where the remaining input begins: behind the last definition that can be read, and the
    /// whitespace and comments behind it.
    pub start: usize,
    /// The furthest place to which the reading of the remaining input comes. A character begins
    /// there, or the text ends.
    pub place: usize,
    /// What would have been read at that place, each word once. Whitespace and comments, which may
    /// be nearly everywhere, aren't among it.
    pub expected: Vec<Expected>,
    /// What would fix the definition, or what it lacks, where something was found. It may be well
    /// before the furthest place.
    pub hint: Option<Hint>,
}

/// Why a text is refused, or None where it is read whole.
///
/// `interface A {}; enum E { "a" "b" };` is refused from 16 on, and at 29 a `,` or a `}` is
/// expected. Where a text has several syntax errors, it is the first definition that isn't read
/// that is explained.
///
/// It reads the text by [`syntax_of_front`], and costs what that costs. Where that leaves input, it
/// goes on as [`refusal_from`] does.
pub fn refusal_of(alloc: Global, raw: &str) -> Result<Option<Refusal>, AllocError>
    ensures explains { IfOk result (Explains raw.now) }

    // A refusal's place is one of the text.
    ensures within { IfOk result
        (λ answer. IfSome answer (λ refusal. refusal.place ≤ length raw.now)) }
{
    let nodes = syntax_of_front(alloc, raw)?;
    let start = rest_of(&nodes);
    drop(nodes);
    if start == raw.len() {
        return Ok(None);
    }
    let refusal = refusal_from(alloc, raw, start)?;
    Ok(Some(refusal))
}

/// Why a text is refused by the rules of a dialect, or None where they read it whole.
///
/// `[Exposed=*] interface A { long x; };` is refused by weedle2's rules at 9, where the `*` is, and
/// by today's at 32, where a `(` is expected. What is said of it is said by the same rules: of the
/// words, 'a type' is one of the dialect's, and with the change that a hint says they read the
/// definition. A keyword that a hint gives is one of weedle2's.
///
/// By weedle2's rules it costs what [`refusal_of`] costs. By today's it reads the text over a memo,
/// if need be, and the definition that isn't read by descent alone. Where that nests too deep, the
/// answer is [`DialectError::TooDeep`].
pub fn refusal_in(
    alloc: Global,
    raw: &str,
    dialect: Dialect,
) -> Result<Option<Refusal>, DialectError>
    ensures explains { IfOk result (ExplainsIn dialect raw.now) }

    // A refusal's place is one of the text.
    ensures within { IfOk result
        (λ answer. IfSome answer (λ refusal. refusal.place ≤ length raw.now)) }

    // No text is too deep for weedle2's rules.
    ensures deep { dialect ≡ Weedle2 → IfErr result (λ e. e ≡ Memory) }
{
    let left = left_by(alloc, raw, dialect)?;
    if left == raw.len() {
        return Ok(None);
    }
    let refusal = refusal_at_in(alloc, raw, left, dialect)?;
    Ok(Some(refusal))
}

/// Where the remaining input begins behind the definitions at the front of a text, by the rules of
/// a dialect.
pub(crate) fn left_by(alloc: Global, raw: &str, dialect: Dialect) -> Result<usize, AllocError>
    ensures rest { IfOk result (λ end. RestBeginsIn dialect raw.now end) }
    ensures within { IfOk result (λ end. end ≤ length raw.now) }
{
    let nodes = nodes_of(alloc, raw, dialect.start())?;
    let end = first_end(&nodes);
    Ok(end)
}

/// The nodes of a rule at the front of a text, which doesn't fail there.
fn nodes_of(alloc: Global, raw: &str, rule: Rule) -> Result<Vec<Node>, AllocError>
    requires { FailsAt raw.now rule 0 → ⊥ }
    ensures { IfOk result (λ nodes. IsRuleFront raw.now rule nodes.items) }
{
    match syntax_of_rule(alloc, raw, rule)? {
        Some(nodes) => Ok(nodes),
        None => unreachable!(),
    }
}

/// Where the first node ends, or 0 where there is none.
fn first_end(nodes: &[Node]) -> usize
    ensures { result ≡ the_rest_of nodes.now }
{
    match nodes.first() {
        Some(node) => node.end,
        None => 0,
    }
}

/// Why a text is refused whose remaining input begins at this place, as `syntax_of_front` has it.
///
/// It reads the rest as [`furthest_in`] does, mostly in some 30 to 100 nanoseconds for each byte of
/// the definition that isn't read. Besides, it costs what [`hint_of`] costs. Where memory is
/// refused, the answer is an error.
pub fn refusal_from(alloc: Global, raw: &str, start: usize) -> Result<Refusal, AllocError>
    requires rest { RestBegins raw.now start }
    requires unread { start < length raw.now }
    ensures is { IfOk result (IsRefusal raw.now) }
    ensures within { IfOk result (λ refusal. refusal.place ≤ length raw.now) }
{
    let refusal = refusal_at(alloc, raw, start)?;
    Ok(refusal)
}

/// Where the remaining input begins behind the nodes of what is at the front of a text: there the
/// first of them ends.
pub fn rest_of(nodes: &[Node]) -> usize
    requires { 0 < length nodes.now }
    ensures { result ≡ the_rest_of nodes.now }
{
    nodes[0].end
}
