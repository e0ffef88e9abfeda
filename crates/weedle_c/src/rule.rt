//! The reading of a rule at the front of a text, for its nodes.

ghost use Rattle.std.specs.Prelude.{◌≡◌, ◌≢◌, ◌≤◌, ◌<◌, ◌↔◌, IsUtf8, length};
ghost use Rattle.std.specs.Str.{IsValidUpTo};
ghost use Rattle.weedle_c.specs.Answers.{IsTooLong, IsRuleTree, IsRuleCounted};
ghost use Rattle.weedle_rules.specs.Outcomes.{FailsAt};
ghost use Rattle.weedle_syntax.specs.Syntax.{IsRuleFront};

use crate::node::{MOST, WeedleNode};
use crate::reader::{NOTHING, WeedleAnswer};
use crate::status::{NO_MEMORY, NO_ROOM, NO_RULE, NOT_UTF8, READ, REFUSED, TOO_LONG};
use std::alloc::Global;
use weedle_grammar::{RULES, Rule, rule_of};
use weedle_syntax::{Compact, compact_of_rule};

/// Reads a rule at the front of a text, and writes its nodes where there is room for all. The
/// answer is the status.
pub(crate) fn read_rule(
    alloc: Global,
    rule: u32,
    text: &[u8],
    nodes: &mut [WeedleNode],
    answer: &mut WeedleAnswer,
) -> u32
    ensures known { result ≤ NO_RULE }
    ensures no_rule { (result ≡ NO_RULE) ↔ (RULES ≤ rule) }
    ensures read { result ≡ READ → IsRuleTree text.now rule nodes.old nodes.new answer.new }
    ensures refused { result ≡ REFUSED → FailsAt text.now rule 0 }
    ensures not_utf8 { rule < RULES → ((result ≡ NOT_UTF8) ↔ ¬ IsUtf8 text.now) }
    ensures byte { result ≡ NOT_UTF8 → IsValidUpTo text.now answer.new.rest }
    ensures no_room { result ≡ NO_ROOM
        → IsRuleCounted text.now rule (length nodes.old) answer.new }
    ensures too_long { result ≡ TOO_LONG → IsTooLong (IsRuleFront text.now rule) text.now }
    ensures counted { result ≢ READ → result ≢ NO_ROOM → answer.new.count ≡ 0 }
    ensures placed { result ≢ READ → result ≢ NO_ROOM → result ≢ NOT_UTF8
        → answer.new.rest ≡ 0 }
    ensures unwritten { result ≢ READ → nodes.new ≡ nodes.old }
{
    *answer = NOTHING;
    if rule as usize >= RULES {
        return NO_RULE;
    }
    match str::from_utf8(text) {
        Ok(raw) => read_rule_text(alloc, rule_of(rule as u16), raw, nodes, answer),
        Err(error) => {
            answer.rest = error.valid_up_to();
            NOT_UTF8
        }
    }
}

/// Reads a rule at the front of a text that is UTF-8.
fn read_rule_text(
    alloc: Global,
    rule: Rule,
    raw: &str,
    nodes: &mut [WeedleNode],
    answer: &mut WeedleAnswer,
) -> u32
    requires { answer.old ≡ NOTHING }
    ensures known { (result ≤ TOO_LONG) × (result ≢ NOT_UTF8) }
    ensures read { result ≡ READ → IsRuleTree raw.now rule nodes.old nodes.new answer.new }
    ensures refused { result ≡ REFUSED → FailsAt raw.now rule 0 }
    ensures no_room { result ≡ NO_ROOM
        → IsRuleCounted raw.now rule (length nodes.old) answer.new }
    ensures too_long { result ≡ TOO_LONG → IsTooLong (IsRuleFront raw.now rule) raw.now }
    ensures counted { result ≢ READ → result ≢ NO_ROOM → answer.new.count ≡ 0 }
    ensures placed { result ≢ READ → result ≢ NO_ROOM → result ≢ NOT_UTF8
        → answer.new.rest ≡ 0 }
    ensures unwritten { result ≢ READ → nodes.new ≡ nodes.old }
{
    if raw.len() > MOST {
        return TOO_LONG;
    }
    match compact_of_rule(alloc, raw, rule) {
        Ok(Some(found)) => rule_answer(raw, rule, &found, nodes, answer),
        Ok(None) => REFUSED,
        Err(_) => NO_MEMORY,
    }
}

/// What is answered where these nodes were read.
fn rule_answer(
    raw: &str,
    rule: Rule,
    found: &Compact,
    nodes: &mut [WeedleNode],
    answer: &mut WeedleAnswer,
) -> u32
    requires front { IsRuleFront raw.now rule found.now }
    requires nothing { answer.old ≡ NOTHING }
    ensures known { (result ≤ TOO_LONG) × (result ≢ NOT_UTF8) × (result ≢ REFUSED) }
    ensures read { result ≡ READ → IsRuleTree raw.now rule nodes.old nodes.new answer.new }
    ensures no_room { result ≡ NO_ROOM
        → IsRuleCounted raw.now rule (length nodes.old) answer.new }
    ensures too_long { result ≡ TOO_LONG → IsTooLong (IsRuleFront raw.now rule) raw.now }
    ensures counted { result ≢ READ → result ≢ NO_ROOM → answer.new.count ≡ 0 }
    ensures placed { result ≢ READ → result ≢ NO_ROOM → result ≢ NOT_UTF8
        → answer.new.rest ≡ 0 }
    ensures unwritten { result ≢ READ → nodes.new ≡ nodes.old }
{
    let count = found.len();
    *answer = WeedleAnswer {
        count,
        rest: found.end(),
    };
    if count > nodes.len() {
        return NO_ROOM;
    }
    found.write_to(nodes);
    READ
}
