//! How definitions of weedle2's begin, which rules are in front of a body, and how a text is looked
//! through for definitions of its dialect.

ghost use Rattle.std.specs.Prelude.{◌≡◌, ◌≤◌, ◌<◌, true, false, length, IfOk, OnOk, IfSome, IfNone};
ghost use Rattle.std.specs.List.{slice_get};
ghost use Rattle.weedle_grammar.specs.written.Table.{row_of as the_row_of};
ghost use Rattle.weedle_grammar.specs.written.Table.Symbols.{OPEN_BRACE};
ghost use Rattle.weedle_recovery.specs.Dialects.{beginnings, parts_in};
ghost use Rattle.weedle_recovery.specs.Stops.{Begins, FrontReads};
ghost use Rattle.weedle_rules.specs.Outcomes.{EndsAt};

use crate::dialects::{count_in_front, part_in};
use crate::reading::Reading;
use crate::today::{TODAY_MEMBERS, TODAY_WITH_BODY};
use std::alloc::{AllocError, Global};
use weedle_grammar::{Row, Rule, row_of};
use weedle_syntax::{Dialect, Limits};

/// The definitions of weedle2's that have a body of members.
const WITH_BODY: [Rule; 9] = [
    Rule::INTERFACE_DEFINITION,
    Rule::DICTIONARY_DEFINITION,
    Rule::INTERFACE_MIXIN_DEFINITION,
    Rule::PARTIAL_INTERFACE_DEFINITION,
    Rule::PARTIAL_DICTIONARY_DEFINITION,
    Rule::PARTIAL_INTERFACE_MIXIN_DEFINITION,
    Rule::NAMESPACE_DEFINITION,
    Rule::PARTIAL_NAMESPACE_DEFINITION,
    Rule::CALLBACK_INTERFACE_DEFINITION,
];

/// How many kinds of definitions there are, by the rules of either dialect.
const DEFINITIONS: usize = 14;

/// The definition of weedle2's of a number, and how many parts at its front show that it begins:
/// its keywords and, except for a typedef, its name. What could be read as another one comes before
/// that one.
pub(crate) fn beginning(number: usize) -> Option<(Rule, usize)>
    ensures { result ≡ slice_get beginnings number }
{
    match number {
        0 => Some((Rule::INTERFACE_MIXIN_DEFINITION, 4)),
        1 => Some((Rule::INTERFACE_DEFINITION, 4)),
        2 => Some((Rule::DICTIONARY_DEFINITION, 4)),
        3 => Some((Rule::ENUM_DEFINITION, 4)),
        4 => Some((Rule::PARTIAL_INTERFACE_MIXIN_DEFINITION, 5)),
        5 => Some((Rule::PARTIAL_INTERFACE_DEFINITION, 4)),
        6 => Some((Rule::TYPEDEF_DEFINITION, 2)),
        7 => Some((Rule::CALLBACK_INTERFACE_DEFINITION, 5)),
        8 => Some((Rule::CALLBACK_DEFINITION, 4)),
        9 => Some((Rule::PARTIAL_DICTIONARY_DEFINITION, 4)),
        10 => Some((Rule::NAMESPACE_DEFINITION, 4)),
        11 => Some((Rule::PARTIAL_NAMESPACE_DEFINITION, 4)),
        12 => Some((Rule::INCLUDES_STATEMENT_DEFINITION, 4)),
        13 => Some((Rule::IMPLEMENTS_DEFINITION, 4)),
        _ => None,
    }
}

/// The rule of one member of a definition with a body.
pub(crate) fn member_of(definition: Rule) -> Rule {
    match definition {
        Rule::DICTIONARY_DEFINITION | Rule::PARTIAL_DICTIONARY_DEFINITION => {
            Rule::DICTIONARY_MEMBER
        }
        Rule::INTERFACE_MIXIN_DEFINITION | Rule::PARTIAL_INTERFACE_MIXIN_DEFINITION => {
            Rule::MIXIN_MEMBER
        }
        Rule::NAMESPACE_DEFINITION | Rule::PARTIAL_NAMESPACE_DEFINITION => Rule::NAMESPACE_MEMBER,
        Rule::TODAY_DICTIONARY | Rule::TODAY_PARTIAL_DICTIONARY => Rule::TODAY_DICTIONARY_MEMBER,
        Rule::TODAY_MIXIN | Rule::TODAY_PARTIAL_MIXIN => Rule::TODAY_MIXIN_MEMBER,
        Rule::TODAY_NAMESPACE | Rule::TODAY_PARTIAL_NAMESPACE => Rule::TODAY_NAMESPACE_MEMBER,
        Rule::TODAY_INTERFACE | Rule::TODAY_PARTIAL_INTERFACE | Rule::TODAY_CALLBACK_INTERFACE =>
            Rule::TODAY_INTERFACE_MEMBER,
        _ => Rule::INTERFACE_MEMBER,
    }
}

/// The rule of a number in the row of a definition.
pub(crate) fn part_of(definition: Rule, number: usize) -> Option<Rule>
    ensures { result ≡ slice_get (parts_in (the_row_of definition)) number }
{
    match row_of(definition) {
        Row::Seq(parts) => parts.at(number),
        _ => None,
    }
}

/// The rule of a number in front of the members of a definition with a body, the `{` included.
pub(crate) fn front_rule(dialect: Dialect, definition: Rule, number: usize) -> Option<Rule> {
    match row_of(definition) {
        Row::Seq(parts) => {
            let all = parts.len().saturating_add(count_in_front(dialect));
            let many = all.saturating_sub(2);
            if number < many {
                part_in(dialect, definition, number)
            } else if number == many {
                Some(Rule::OPEN_BRACE)
            } else {
                None
            }
        }
        _ => None,
    }
}

/// No definition has more parts.
pub(crate) const MOST_PARTS: usize = 8;

/// The definition with a body whose front is read at a place.
pub(crate) fn opened(
    alloc: Global,
    text: &Reading<'_>,
    place: usize,
    limits: &mut Limits,
) -> Result<Option<Rule>, AllocError>
    requires { place ≤ length text.now.text }
    ensures falls { OnOk result (limits.new.steps ≤ limits.old.steps) }
{
    let definitions = with_body(text.dialect());
    for definition in definitions {
        if opens(alloc, text, definition, place, limits)? {
            return Ok(Some(definition));
        }
    }
    Ok(None)
}

/// The definitions that have a body of members.
fn with_body(dialect: Dialect) -> [Rule; 9] {
    match dialect {
        Dialect::Weedle2 => WITH_BODY,
        Dialect::Today => TODAY_WITH_BODY,
    }
}

/// Whether the front of a definition with a body is read at a place, up to its `{`; where that is
/// missing, a member has to be there.
fn opens(
    alloc: Global,
    text: &Reading<'_>,
    definition: Rule,
    place: usize,
    limits: &mut Limits,
) -> Result<bool, AllocError>
    requires { place ≤ length text.now.text }
    ensures falls { OnOk result (limits.new.steps ≤ limits.old.steps) }
{
    let mut at = place;
    for number in 0..MOST_PARTS {
        let Some(rule) = front_rule(text.dialect(), definition, number) else {
            return Ok(true);
        };
        match text.end_of(alloc, rule, at, limits)? {
            Some(end) => at = end,
            None => {
                if rule != Rule::OPEN_BRACE {
                    return Ok(false);
                }
                return text.reads(alloc, member_of(definition), at, limits);
            }
        }
    }
    Ok(true)
}

/// Whether a definition begins at a place: its keywords and its name are read there.
pub(crate) fn begins(
    alloc: Global,
    text: &Reading<'_>,
    place: usize,
    limits: &mut Limits,
) -> Result<bool, AllocError>
    requires { place ≤ length text.now.text }
    ensures yes { IfOk result (λ is. is ≡ true → Begins text.now.dialect text.now.text place) }
    ensures no { IfOk result (λ is. is ≡ false → ¬ Begins text.now.dialect text.now.text place) }
    ensures falls { OnOk result (limits.new.steps ≤ limits.old.steps) }
{
    match begun(alloc, text, place, limits)? {
        Some(_) => Ok(true),
        None => Ok(false),
    }
}

/// The definition that begins at a place.
pub(crate) fn begun(
    alloc: Global,
    text: &Reading<'_>,
    place: usize,
    limits: &mut Limits,
) -> Result<Option<Rule>, AllocError>
    requires { place ≤ length text.now.text }
    ensures some { IfOk result (λ o. IfSome o (λ d. Begins text.now.dialect text.now.text place)) }
    ensures none { IfOk result (λ o. IfNone o (¬ Begins text.now.dialect text.now.text place)) }
    ensures falls { OnOk result (limits.new.steps ≤ limits.old.steps) }
{
    for number in 0..DEFINITIONS {
        let Some(front) = text.beginning(number) else {
            return Ok(None);
        };
        if front_reads(alloc, text, front.0, front.1, place, limits)? {
            return Ok(Some(front.0));
        }
    }
    Ok(None)
}

/// Whether so many parts at the front of a definition are read at a place.
fn front_reads(
    alloc: Global,
    text: &Reading<'_>,
    definition: Rule,
    many: usize,
    place: usize,
    limits: &mut Limits,
) -> Result<bool, AllocError>
    requires { place ≤ length text.now.text }
    ensures yes { IfOk result
        (λ is. is ≡ true → FrontReads text.now.dialect text.now.text definition many place) }
    ensures no { IfOk result
        (λ is. is ≡ false → ¬ FrontReads text.now.dialect text.now.text definition many place) }
    ensures falls { OnOk result (limits.new.steps ≤ limits.old.steps) }
{
    let mut at = place;
    for number in 0..many {
        let Some(rule) = text.part(definition, number) else {
            return Ok(true);
        };
        match text.end_of(alloc, rule, at, limits)? {
            Some(end) => at = end,
            None => return Ok(false),
        }
    }
    Ok(true)
}

/// The rules of weedle2's of members.
const MEMBERS: [Rule; 4] = [
    Rule::INTERFACE_MEMBER,
    Rule::DICTIONARY_MEMBER,
    Rule::MIXIN_MEMBER,
    Rule::NAMESPACE_MEMBER,
];

/// The rules of members.
fn members_of(dialect: Dialect) -> [Rule; 4] {
    match dialect {
        Dialect::Weedle2 => MEMBERS,
        Dialect::Today => TODAY_MEMBERS,
    }
}

/// The rule of a member that is read at a place.
pub(crate) fn member_at(
    alloc: Global,
    text: &Reading<'_>,
    place: usize,
    limits: &mut Limits,
) -> Result<Option<Rule>, AllocError>
    requires { place ≤ length text.now.text }
    ensures falls { OnOk result (limits.new.steps ≤ limits.old.steps) }
{
    let members = members_of(text.dialect());
    for member in members {
        if text.reads(alloc, member, place, limits)? {
            return Ok(Some(member));
        }
    }
    Ok(None)
}

/// The rule of the member that is read behind a `{` at a place, and where it begins.
pub(crate) fn member_behind(
    alloc: Global,
    text: &Reading<'_>,
    place: usize,
    limits: &mut Limits,
) -> Result<Option<(Rule, usize)>, AllocError>
    requires { place ≤ length text.now.text }
    ensures after { IfOk result (λ o. IfSome o (λ found. place < found.1)) }
    ensures within { IfOk result (λ o. IfSome o (λ found. found.1 ≤ length text.now.text)) }
    ensures brace { IfOk result
        (λ o. IfSome o (λ found. EndsAt text.now.text OPEN_BRACE place found.1)) }
    ensures falls { OnOk result (limits.new.steps ≤ limits.old.steps) }
{
    let Some(inside) = text.end_of(alloc, Rule::OPEN_BRACE, place, limits)? else {
        return Ok(None);
    };
    match member_at(alloc, text, inside, limits)? {
        Some(member) if inside > place => Ok(Some((member, inside))),
        _ => Ok(None),
    }
}

/// Where the first part of a definition fails that begins at a place; the place itself where none
/// does.
pub(crate) fn failing_place(
    alloc: Global,
    text: &Reading<'_>,
    definition: Rule,
    place: usize,
    limits: &mut Limits,
) -> Result<usize, AllocError>
    requires { place ≤ length text.now.text }
    ensures falls { OnOk result (limits.new.steps ≤ limits.old.steps) }
{
    let mut at = place;
    for number in 0..MOST_PARTS {
        let Some(rule) = text.part(definition, number) else {
            return Ok(place);
        };
        match text.end_of(alloc, rule, at, limits)? {
            Some(end) => at = end,
            None => return Ok(at),
        }
    }
    Ok(place)
}

/// Whether a `;` at a place ends a body that lacks its `}`: the text ends behind it, or a
/// definition begins there.
pub(crate) fn ends_body(
    alloc: Global,
    text: &Reading<'_>,
    place: usize,
    limits: &mut Limits,
) -> Result<bool, AllocError>
    requires { place ≤ length text.now.text }
    ensures falls { OnOk result (limits.new.steps ≤ limits.old.steps) }
{
    match text.end_of(alloc, Rule::SEMI_COLON, place, limits)? {
        Some(end) => {
            if end >= text.len() {
                return Ok(true);
            }
            begins(alloc, text, end, limits)
        }
        None => Ok(false),
    }
}

/// Whether some docstrings are at a place, and behind them the `}` of a body.
pub(crate) fn are_before_brace(
    alloc: Global,
    text: &Reading<'_>,
    docs: Rule,
    place: usize,
    limits: &mut Limits,
) -> Result<bool, AllocError>
    requires { place ≤ length text.now.text }
    ensures falls { OnOk result (limits.new.steps ≤ limits.old.steps) }
{
    match text.end_of(alloc, docs, place, limits)? {
        Some(end) => {
            if end == place {
                return Ok(false);
            }
            text.reads(alloc, Rule::CLOSE_BRACE, end, limits)
        }
        None => Ok(false),
    }
}
