//! The words for the rules that are unmet at a place.

ghost use Rattle.std.specs.Prelude.{◌≡◌, ◌++◌, ◌∷◌, [], List, IfOk, OnOk, map, option_map};
ghost use Rattle.std.specs.List.{filter_map, list_all};
ghost use Rattle.weedle_refusal.specs.Words.{
  AreWordsIn,
  IsEachOnce,
  Word,
  has as among,
  is_left_out as left_out,
  is_start as starts_with,
  is_type_start,
  is_value_start,
  named_word,
  own_word,
  word_for,
  word_view,
};

use crate::expected::Expected;
use crate::starts::{CONST_TYPES, CONST_VALUES, DEFAULT_VALUES, NAMES, TYPES, TYPES_BUT_ANY};
use crate::today_starts::{
    TODAY_CONST_TYPES, TODAY_DEFAULT_VALUES, TODAY_TYPES, TODAY_TYPES_BUT_ANY,
};
use std::alloc::{AllocError, Global};
use std::str;
use weedle_grammar::grammar::keywords::NOT_NEXT_NAME;
use weedle_grammar::grammar::leaves::PAST_LF;
use weedle_grammar::grammar::trivia::{
    BYTES_LF, BYTES_SLASH_SLASH, BYTES_SLASH_STAR, NOT_NEXT_ANY, NOT_NEXT_SLASH, ONE_OF_BLANK,
    PAST_STAR_SLASH,
};
use weedle_grammar::{Row, Rule, row_of};
use weedle_syntax::Dialect;

/// The words for these rules of a dialect in their order, each once.
pub(crate) fn words_of(
    alloc: Global,
    rules: &[Rule],
    dialect: Dialect,
) -> Result<Vec<Expected>, AllocError>
    ensures { IfOk result (λ words. AreWordsIn dialect rules.now words.items) }
{
    let mut words = Vec::new(alloc);
    for rule in rules {
        add_word(&mut words, rules, *rule, dialect)?;
    }
    Ok(words)
}

/// Adds the word for one of the rules, if it has one that isn't there yet.
fn add_word(
    words: &mut Vec<Expected>,
    rules: &[Rule],
    rule: Rule,
    dialect: Dialect,
) -> Result<(), AllocError>
    ensures { OnOk result ((before : List Word) → IsEachOnce before (map word_view words.old.items)
        → IsEachOnce
        (before ++ filter_map (word_for dialect rules.now) (rule ∷ []))
        (map word_view words.new.items)) }
{
    let Some(word) = word_among(rules, rule, dialect) else {
        return Ok(());
    };
    if !words.contains(&word) {
        words.push(word)?;
    }
    Ok(())
}

/// The word for a rule among these: that of its kind where all starts of the kind are there, and
/// else its own.
fn word_among(rules: &[Rule], rule: Rule, dialect: Dialect) -> Option<Expected>
    ensures { option_map word_view result ≡ word_for dialect rules.now rule }
{
    if is_type(rules, rule, dialect) {
        Some(Expected::Type)
    } else if is_value(rules, rule, dialect) {
        Some(Expected::Value)
    } else if is_start(rules, NAMES, rule) {
        Some(Expected::Name)
    } else {
        word_of(rule)
    }
}

/// Whether the rule is a start of a type, and all of those are there.
fn is_type(rules: &[Rule], rule: Rule, dialect: Dialect) -> bool
    ensures { result ≡ is_type_start dialect rules.now rule }
{
    match dialect {
        Dialect::Weedle2 => {
            is_start(rules, TYPES, rule)
                || is_start(rules, TYPES_BUT_ANY, rule)
                || is_start(rules, CONST_TYPES, rule)
        }
        Dialect::Today => {
            is_start(rules, TODAY_TYPES, rule)
                || is_start(rules, TODAY_TYPES_BUT_ANY, rule)
                || is_start(rules, TODAY_CONST_TYPES, rule)
        }
    }
}

/// Whether the rule is a start of a value, and all of those are there.
fn is_value(rules: &[Rule], rule: Rule, dialect: Dialect) -> bool
    ensures { result ≡ is_value_start dialect rules.now rule }
{
    match dialect {
        Dialect::Weedle2 => {
            is_start(rules, DEFAULT_VALUES, rule) || is_start(rules, CONST_VALUES, rule)
        }
        Dialect::Today => {
            is_start(rules, TODAY_DEFAULT_VALUES, rule) || is_start(rules, CONST_VALUES, rule)
        }
    }
}

/// Whether the rule is one of these starts, and all of them are among the rules.
fn is_start(rules: &[Rule], starts: &[u16], rule: Rule) -> bool
    ensures { result ≡ starts_with rules.now starts.now rule }
{
    is_one_of(starts, rule.number()) && are_among(starts, rules)
}

/// Whether the number is one of these.
fn is_one_of(numbers: &[u16], number: u16) -> bool
    ensures { result ≡ among numbers.now number }
{
    numbers.iter().any(|other| *other == number)
}

/// Whether all rules of these numbers are among the rules.
fn are_among(numbers: &[u16], rules: &[Rule]) -> bool
    ensures { result ≡ list_all (among rules.now) numbers.now }
{
    numbers.iter().all(|number| has(rules, *number))
}

/// Whether the rule of this number is among the rules.
fn has(rules: &[Rule], number: u16) -> bool
    ensures { result ≡ among rules.now number }
{
    rules.iter().any(|rule| rule.number() == number)
}

/// The word for a rule by itself.
fn word_of(rule: Rule) -> Option<Expected>
    ensures { option_map word_view result ≡ own_word rule }
{
    let number = rule.number();
    if is_left_out(number) {
        return None;
    }
    if let Some(word) = named(number) {
        return Some(word);
    }
    match row_of(rule) {
        Row::Bytes(bytes) => match str::from_utf8(bytes) {
            Ok(text) => Some(Expected::Text(text)),
            Err(_) => None,
        },
        Row::OneOf(class) => Some(Expected::OneOf(class)),
        _ => None,
    }
}

/// Whether the rule begins whitespace or a comment, or is the LF of a line comment.
fn is_left_out(number: u16) -> bool
    ensures { result ≡ left_out number }
{
    matches!(
        number,
        BYTES_LF | BYTES_SLASH_SLASH | ONE_OF_BLANK | BYTES_SLASH_STAR
    )
}

/// The word for what must not follow and for what ends, or None where the rule is none of those.
fn named(number: u16) -> Option<Expected>
    ensures { option_map word_view result ≡ named_word number }
{
    match number {
        NOT_NEXT_NAME => Some(Expected::EndOfWord),
        NOT_NEXT_SLASH => Some(Expected::NoDocstring),
        NOT_NEXT_ANY => Some(Expected::EndOfText),
        PAST_STAR_SLASH => Some(Expected::EndOfComment),
        PAST_LF => Some(Expected::EndOfLine),
        _ => None,
    }
}
