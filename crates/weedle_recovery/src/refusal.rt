//! Why a part of a text is unread.

ghost use Rattle.std.specs.Prelude.{
  ◌≡◌,
  ◌≤◌,
  ◌↔◌,
  ◌++◌,
  IfErr,
  IfNone,
  IfOk,
  IfSome,
  IsTrue,
  length,
  option_map,
  string_bytes,
};
ghost use Rattle.weedle_recovery.specs.Refusals.{
  IsPartRefusal,
  IsPartRefusalIn,
  IsSaidBehind,
  IsSaidInBody,
  IsSaidInDefinition,
  IsUnread,
  front_of as the_front_of,
};
ghost use Rattle.weedle_refusal.specs.declared.error.DialectError.TheVariants.{Memory};
ghost use Rattle.weedle_syntax.specs.declared.dialect.Dialect.TheVariants.{Weedle2, Today};

use crate::moved::{Shift, moved};
use crate::part::Part;
use crate::sign::{missing_sign, of_sign};
use std::alloc::{AllocError, Global};
use weedle_grammar::Rule;
use weedle_refusal::{Dialect, DialectError, Refusal, refusal_at_in};

/// What ends the definition that a member is read in.
const END: &str = "};";

/// Why a part is unread: how far the reading of it comes, what would have been read there, and what
/// would fix it. Places are those of the whole text. None where it is no unread part of the text.
///
/// For `interface A { long x; };` the part from 14 to 22 is an unread member: the reading comes to
/// 20, where a `(` would go on. What is in front of the part, or behind it, isn't looked at, except
/// for the front of its own definition: a member is read as the only one of a definition as short
/// as one can be, all else behind what is read of its definition. Where a sign is missing, and the
/// part has no byte, the sign alone is expected.
///
/// It costs what [`refusal_at`](weedle_refusal::refusal_at) costs for the part, and for what is
/// read of its definition.
pub fn refusal_of_part(alloc: Global, raw: &str, part: &Part) -> Result<Option<Refusal>, AllocError>
    ensures said { IfOk result (λ answer. IfSome answer (IsPartRefusal raw.now part.now)) }
    ensures none { IfOk result (λ answer. IfNone answer (¬ IsUnread raw.now part.now)) }

    // A refusal's place is one of the text.
    ensures within { IfOk result
        (λ answer. IfSome answer (λ refusal. refusal.place ≤ length raw.now)) }
{
    match refusal_of_part_in(alloc, raw, part, Dialect::Weedle2) {
        Ok(answer) => Ok(answer),
        Err(_) => Err(AllocError),
    }
}

/// Why a part is unread by the rules of a dialect, as [`refusal_of_part`] says it.
///
/// For `interface A { async_iterable<long> };` and today's rules the part from 14 to 35 is an
/// unread member: the reading comes to 35, where a `(` or a `;` would go on.
///
/// It costs what [`refusal_at_in`] costs for the part, and for what is read of its definition. By
/// today's rules that may nest too deep for descent: then the answer is [`DialectError::TooDeep`].
pub fn refusal_of_part_in(
    alloc: Global,
    raw: &str,
    part: &Part,
    dialect: Dialect,
) -> Result<Option<Refusal>, DialectError>
    ensures said { IfOk result
        (λ answer. IfSome answer (IsPartRefusalIn dialect raw.now part.now)) }
    ensures none { IfOk result (λ answer. IfNone answer (¬ IsUnread raw.now part.now)) }

    // A refusal's place is one of the text.
    ensures within { IfOk result
        (λ answer. IfSome answer (λ refusal. refusal.place ≤ length raw.now)) }

    // No part is too deep for weedle2's rules.
    ensures deep { dialect ≡ Weedle2 → IfErr result (λ e. e ≡ Memory) }
{
    if !is_unread(raw, part) {
        return Ok(None);
    }
    let refusal = said_of(alloc, raw, part, dialect)?;
    Ok(Some(refusal))
}

/// What is said of an unread part.
fn said_of(alloc: Global, raw: &str, part: &Part, dialect: Dialect) -> Result<Refusal, DialectError>
    requires { IsUnread raw.now part.now }
    ensures said { IfOk result (λ refusal.
        IsSaidBehind dialect (the_front_of dialect part.now.rule) raw.now part.now refusal) }
    ensures within { IfOk result (λ refusal. refusal.place ≤ length raw.now) }
    ensures deep { dialect ≡ Weedle2 → IfErr result (λ e. e ≡ Memory) }
{
    match front_of(dialect, part.rule) {
        Some(front) => in_body(alloc, raw, part, front, dialect),
        None => in_definition(alloc, raw, part, dialect),
    }
}

/// Whether a part is unread, and its places are those of a text in their order.
fn is_unread(raw: &str, part: &Part) -> bool
    ensures { IsTrue result ↔ IsUnread raw.now part.now }
{
    !part.is_read
        && part.definition <= part.start
        && part.start <= part.end
        && raw.is_char_boundary(part.definition)
        && raw.is_char_boundary(part.start)
        && raw.is_char_boundary(part.end)
}

/// The shortest front of a definition of the dialect whose body has members of a rule; None where
/// it is no member's.
fn front_of(dialect: Dialect, rule: Rule) -> Option<&'static str>
    ensures { option_map (λ front. front.now) result ≡ the_front_of dialect rule }
{
    match dialect {
        Dialect::Weedle2 => weedle2_front_of(rule),
        Dialect::Today => today_front_of(rule),
    }
}

/// The same by weedle2's rules.
fn weedle2_front_of(rule: Rule) -> Option<&'static str>
    ensures { option_map (λ front. front.now) result ≡ the_front_of Weedle2 rule }
{
    match rule {
        Rule::INTERFACE_MEMBER => Some("interface A{"),
        Rule::DICTIONARY_MEMBER => Some("dictionary A{"),
        Rule::MIXIN_MEMBER => Some("interface mixin A{"),
        Rule::NAMESPACE_MEMBER => Some("namespace A{"),
        _ => None,
    }
}

/// The same by today's.
fn today_front_of(rule: Rule) -> Option<&'static str>
    ensures { option_map (λ front. front.now) result ≡ the_front_of Today rule }
{
    match rule {
        Rule::TODAY_INTERFACE_MEMBER => Some("interface A{"),
        Rule::TODAY_DICTIONARY_MEMBER => Some("dictionary A{"),
        Rule::TODAY_MIXIN_MEMBER => Some("interface mixin A{"),
        Rule::TODAY_NAMESPACE_MEMBER => Some("namespace A{"),
        _ => None,
    }
}

/// What is said of a member: it is read as the only one of a definition.
fn in_body(
    alloc: Global,
    raw: &str,
    part: &Part,
    front: &str,
    dialect: Dialect,
) -> Result<Refusal, DialectError>
    requires { IsUnread raw.now part.now }
    ensures said { IfOk result (IsSaidInBody dialect raw.now part.now front.now) }
    ensures within { IfOk result (λ refusal. refusal.place ≤ length raw.now) }
    ensures deep { dialect ≡ Weedle2 → IfErr result (λ e. e ≡ Memory) }
{
    let text = between(alloc, front, &raw[part.start..part.end], END)?;
    let said = refusal_at_in(alloc, text.as_str(), 0, dialect)?;
    Ok(moved(
        said,
        &Shift {
            front: front.len(),
            start: part.start,
            count: part.end - part.start,
        },
    ))
}

/// A text between two others.
fn between(alloc: Global, front: &str, text: &str, end: &str) -> Result<String, AllocError>
    ensures { IfOk result
        (λ joined. string_bytes joined ≡ front.now ++ (text.now ++ end.now)) }
{
    let mut joined = String::new(alloc);
    joined.push_str(front)?;
    joined.push_str(text)?;
    joined.push_str(end)?;
    Ok(joined)
}

/// What is said of a definition, or of the rest of one: it is read from the front of the definition
/// up to the end of the part.
fn in_definition(
    alloc: Global,
    raw: &str,
    part: &Part,
    dialect: Dialect,
) -> Result<Refusal, DialectError>
    requires { IsUnread raw.now part.now }
    ensures said { IfOk result (IsSaidInDefinition dialect raw.now part.now) }
    ensures within { IfOk result (λ refusal. refusal.place ≤ length raw.now) }
    ensures deep { dialect ≡ Weedle2 → IfErr result (λ e. e ≡ Memory) }
{
    let said = refusal_at_in(alloc, &raw[..part.end], part.definition, dialect)?;
    match missing_sign(part) {
        Some(sign) => of_sign(alloc, said, part.start, sign),
        None => {
            let Refusal {
                place,
                expected,
                hint,
                ..
            } = said;
            Ok(Refusal {
                start: part.start,
                place,
                expected,
                hint,
            })
        }
    }
}
