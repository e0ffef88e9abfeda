//! The members of a definition.

ghost use Rattle.std.specs.Prelude.{◌≡◌, ◌<◌, ℕ, List, Some, All, length, IfOk};
ghost use Rattle.weedle_grammar.specs.Rows.{Seq, Many};
ghost use Rattle.weedle_grammar.specs.written.Table.{row_of};
ghost use Rattle.weedle_places.specs.Items.{AreItems};
ghost use Rattle.weedle_places.specs.Members.{
  member_of as the_member_of,
  today_member_of as the_today_member_of,
  member_in as the_member_in,
  choice_of,
  AreMembersIn,
  HasKindMembers,
  HasMembersIn,
  IsBehindBrace,
  spans_of,
};
ghost use Rattle.weedle_places.specs.Standing.{
  value_in as the_value_in,
  IsMemberIn,
  IsMemberAtIn,
  IsMemberOfIn,
  AreValuesIn,
};
ghost use Rattle.weedle_syntax.specs.Dialects.{definition_of};
ghost use Rattle.weedle_syntax.specs.Tree.{node_at};

use crate::around::around;
use crate::own::name_span;
use crate::parts::choice_at;
use crate::span::{Span, span_of};
use std::alloc::{AllocError, Global};
use weedle_grammar::Rule;
use weedle_grammar::grammar::interface_members::BRACED_INTERFACE_MEMBERS;
use weedle_grammar::grammar::other_members::{
    BRACED_DICTIONARY_MEMBERS, BRACED_MIXIN_MEMBERS, BRACED_NAMESPACE_MEMBERS,
};
use weedle_grammar::grammar::today_members::{
    BRACED_TODAY_DICTIONARY_MEMBERS, BRACED_TODAY_INTERFACE_MEMBERS, BRACED_TODAY_MIXIN_MEMBERS,
    BRACED_TODAY_NAMESPACE_MEMBERS,
};
use weedle_syntax::{Dialect, Syntax};

/// Where a member of a definition is, or a value of an enum.
///
/// In `interface A { /* x */ attribute long x; };` the one member has the span from 22 to 40 and
/// the core from 22 to 39; in front of it, from 13 to 22, are two spaces and a comment, and its
/// name is from 37 to 38.
#[derive(Clone, Copy, Debug, PartialEq, Eq)]
pub struct MemberPlace {
    /// The member, as the grammar has it: with the whitespace and comments behind it.
    pub span: Span,
    /// The member without whitespace and comments at either end.
    pub core: Span,
    /// The whitespace and comments in front of the core, up to what precedes them.
    pub front: Span,
    /// Where its name is, with an underscore in front. A value has none, as `iterable<long>;`.
    pub name: Option<Span>,
}

/// What is said of a node.
pub(crate) fn member_at(syntax: &Syntax<'_>, i: usize) -> MemberPlace
    requires { i < length syntax.now.nodes }
    ensures { IsMemberAtIn syntax.now.dialect syntax.now.text syntax.now.nodes i result }
{
    let nodes = syntax.nodes();
    let (core, front) = around(syntax, i);
    MemberPlace {
        span: span_of(nodes, i),
        core,
        front,
        name: name_span(syntax, i),
    }
}

/// The rule of a value of an enum.
fn value_in(dialect: Dialect) -> Rule
    ensures { result ≡ the_value_in dialect }
{
    match dialect {
        Dialect::Weedle2 => Rule::ENUM_VARIANT,
        Dialect::Today => Rule::TODAY_ENUM_VALUE,
    }
}

/// The values of a definition that is an enum.
pub(crate) fn values_at(
    alloc: Global,
    syntax: &Syntax<'_>,
    definition: usize,
) -> Result<Vec<MemberPlace>, AllocError>
    requires { definition < length syntax.now.nodes }
    ensures { IfOk result (λ values. AreValuesIn syntax.now.dialect
        syntax.now.text syntax.now.nodes definition values.items) }
{
    let nodes = syntax.nodes();
    let value = value_in(syntax.dialect());
    let start = definition + 1;
    let mut values = Vec::new(alloc);
    for i in start..start + syntax.below(definition) {
        if nodes[i].rule == value {
            values.push(member_at(syntax, i))?;
        }
    }
    Ok(values)
}

/// The rule of the members that a list in braces holds, of weedle2's rules.
fn member_of(part: Rule) -> Option<Rule>
    ensures { result ≡ the_member_of part }
{
    match part.number() {
        BRACED_INTERFACE_MEMBERS => Some(Rule::INTERFACE_MEMBER),
        BRACED_MIXIN_MEMBERS => Some(Rule::MIXIN_MEMBER),
        BRACED_NAMESPACE_MEMBERS => Some(Rule::NAMESPACE_MEMBER),
        BRACED_DICTIONARY_MEMBERS => Some(Rule::DICTIONARY_MEMBER),
        _ => None,
    }
}

/// The same of today's rules.
fn today_member_of(part: Rule) -> Option<Rule>
    ensures { result ≡ the_today_member_of part }
{
    match part.number() {
        BRACED_TODAY_INTERFACE_MEMBERS => Some(Rule::TODAY_INTERFACE_MEMBER),
        BRACED_TODAY_MIXIN_MEMBERS => Some(Rule::TODAY_MIXIN_MEMBER),
        BRACED_TODAY_NAMESPACE_MEMBERS => Some(Rule::TODAY_NAMESPACE_MEMBER),
        BRACED_TODAY_DICTIONARY_MEMBERS => Some(Rule::TODAY_DICTIONARY_MEMBER),
        _ => None,
    }
}

/// The same of the rules of a dialect.
fn member_in(part: Rule, dialect: Dialect) -> Option<Rule>
    ensures { result ≡ the_member_in dialect part }
{
    match dialect {
        Dialect::Weedle2 => member_of(part),
        Dialect::Today => today_member_of(part),
    }
}

/// The members of a definition.
pub(crate) fn members_at(
    alloc: Global,
    syntax: &Syntax<'_>,
    definition: usize,
) -> Result<Vec<MemberPlace>, AllocError>
    requires within { definition < length syntax.now.nodes }
    requires rule { (node_at syntax.now.nodes definition).rule
        ≡ definition_of syntax.now.dialect }
    ensures are { IfOk result (λ members. HasMembersIn syntax.now.dialect syntax.now.text
        (node_at syntax.now.nodes definition).start (spans_of members.items)) }
    ensures each { IfOk result (λ members.
        All (IsMemberIn syntax.now.dialect syntax.now.text syntax.now.nodes) members.items) }
{
    let choice = choice_at(syntax, definition);
    members_by_kind(alloc, syntax, choice)
}

/// The members of a node of the choice among the kinds of definitions.
fn members_by_kind(
    alloc: Global,
    syntax: &Syntax<'_>,
    choice: usize,
) -> Result<Vec<MemberPlace>, AllocError>
    requires within { choice < length syntax.now.nodes }
    requires rule { (node_at syntax.now.nodes choice).rule ≡ choice_of syntax.now.dialect }
    ensures are { IfOk result (λ members. HasKindMembers syntax.now.dialect syntax.now.text
        (node_at syntax.now.nodes choice).start (spans_of members.items)) }
    ensures each { IfOk result (λ members.
        All (IsMemberIn syntax.now.dialect syntax.now.text syntax.now.nodes) members.items) }
{
    let _ = syntax.nodes();
    let mut kinds = syntax.children(choice);
    let Some(kind) = kinds.next() else {
        unreachable!();
    };
    members_of(alloc, syntax, kind)
}

/// The members of a node of the kind of a definition.
fn members_of(
    alloc: Global,
    syntax: &Syntax<'_>,
    kind: usize,
) -> Result<Vec<MemberPlace>, AllocError>
    requires within { kind < length syntax.now.nodes }
    requires seq { (parts : List ℕ) × (row_of (node_at syntax.now.nodes kind).rule ≡ Seq parts) }
    ensures are { IfOk result (λ members. (parts : List ℕ)
        → row_of (node_at syntax.now.nodes kind).rule ≡ Seq parts
        → AreMembersIn syntax.now.dialect syntax.now.text parts
        (node_at syntax.now.nodes kind).start (spans_of members.items)) }
    ensures each { IfOk result (λ members.
        All (IsMemberIn syntax.now.dialect syntax.now.text syntax.now.nodes) members.items) }
{
    let nodes = syntax.nodes();
    for part in syntax.children(kind) {
        if let Some(_) = member_in(nodes[part].rule, syntax.dialect()) {
            return members_in(alloc, syntax, part);
        }
    }
    Ok(Vec::new(alloc))
}

/// The members between the braces of such a list.
fn members_in(
    alloc: Global,
    syntax: &Syntax<'_>,
    braced: usize,
) -> Result<Vec<MemberPlace>, AllocError>
    requires within { braced < length syntax.now.nodes }
    requires list { (y : ℕ)
        × (the_member_in syntax.now.dialect (node_at syntax.now.nodes braced).rule ≡ Some y) }
    ensures are { IfOk result (λ members. (y : ℕ)
        → the_member_in syntax.now.dialect (node_at syntax.now.nodes braced).rule ≡ Some y
        → IsBehindBrace syntax.now.text y (node_at syntax.now.nodes braced).start
        (spans_of members.items)) }
    ensures each { IfOk result (λ members.
        All (IsMemberIn syntax.now.dialect syntax.now.text syntax.now.nodes) members.items) }
{
    // What is known of a tree comes with its nodes.
    let _ = syntax.nodes();
    let mut parts = syntax.children(braced);
    let Some(_) = parts.next() else {
        unreachable!();
    };
    let Some(list) = parts.next() else {
        unreachable!();
    };
    listed(alloc, syntax, list)
}

/// The members of a node of a list.
fn listed(alloc: Global, syntax: &Syntax<'_>, list: usize) -> Result<Vec<MemberPlace>, AllocError>
    requires within { list < length syntax.now.nodes }
    requires many { (y : ℕ) × (row_of (node_at syntax.now.nodes list).rule ≡ Many y) }
    ensures are { IfOk result (λ members. (y : ℕ)
        → row_of (node_at syntax.now.nodes list).rule ≡ Many y
        → AreItems syntax.now.text y (node_at syntax.now.nodes list).start
        (spans_of members.items)) }
    ensures each { IfOk result (λ members. (y : ℕ)
        → row_of (node_at syntax.now.nodes list).rule ≡ Many y
        → All (IsMemberOfIn syntax.now.dialect syntax.now.text syntax.now.nodes y)
        members.items) }
{
    let _ = syntax.nodes();
    let mut members = Vec::new(alloc);
    for item in syntax.children(list) {
        members.push(member_at(syntax, item))?;
    }
    Ok(members)
}
