//! Rows of the grammar, each public call once.

use weedle_grammar::grammar::keywords;
use weedle_grammar::{Class, RULES, Row, Rule, holds, row_of, rule_of};

#[test]
fn a_sequence_names_its_parts(rt: HostRuntime) {
    match row_of(Rule::LONG_TYPE) {
        Row::Seq(parts) => {
            assert_eq!(rt; parts.len(), 2);
            assert!(rt; !parts.is_empty());
            assert!(rt; parts.at(1) == Some(Rule::LONG));
            assert!(rt; parts.len() > 1 && parts.rule(1) == Rule::LONG);
            assert!(rt; parts.at(2).is_none());
        }
        _ => assert!(rt; false),
    }
}

#[test]
fn definitions_repeat_a_definition(rt: HostRuntime) {
    match row_of(Rule::DEFINITIONS) {
        Row::Many(rule) => assert_eq!(rt; rule.number(), Rule::DEFINITION.number()),
        _ => assert!(rt; false),
    }
}

#[test]
fn numbers_below_the_bound_are_rules(rt: HostRuntime) {
    assert!(rt; rule_of(keywords::LONG) == Rule::LONG);
    assert!(rt; Rule::new(0).is_some());
    assert!(rt; Rule::new((RULES - 1) as u16).is_some());
    assert!(rt; Rule::new(RULES as u16).is_none());
    assert!(rt; Rule::new(u16::MAX).is_none());
}

#[test]
fn classes_hold_their_bytes(rt: HostRuntime) {
    assert!(rt; holds(Class::Name, b'-'));
    assert!(rt; !holds(Class::Alnum, b'_'));
    assert!(rt; !holds(Class::Name, 0xc3));
    assert!(rt; holds(Class::NotQuote, 0xc3));
    assert!(rt; holds(Class::Letter, b'z') && !holds(Class::Letter, b'9'));
    assert!(rt; holds(Class::NotLineFeed, 0xc3) && !holds(Class::NotLineFeed, b'\n'));
    assert!(rt; holds(Class::Any, 0xff));
}
