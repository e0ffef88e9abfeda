//! Synchronisation points: where the reading goes on behind an unread part.

ghost use Rattle.std.specs.Prelude.{
  ◌≡◌,
  ◌⊎◌,
  ◌≤◌,
  ◌<◌,
  true,
  false,
  length,
  slice_index,
  IfOk,
  OnOk,
};
ghost use Rattle.weedle_recovery.specs.Stops.{
  Begins,
  EndsBefore,
  IsReached,
  IsReadAt,
  PassesTo,
  Starts,
  is_closing,
  is_stop as the_is_stop,
};

use crate::definitions::begins;
use crate::reading::Reading;
use crate::token::Token;
use std::alloc::{AllocError, Global};
use weedle_grammar::Rule;
use weedle_syntax::Limits;

/// What is looked for behind an unread part.
#[derive(Clone, Copy)]
pub(crate) enum Goal {
    /// A definition.
    Definition,
    /// The `{` of a body, or what shows that there is none: a `;`, a `}` or a definition.
    Body,
    /// A member of this rule, what ends its body, or a definition.
    Member(Rule),
}

/// Where an unread part ends that begins at a place: at the first token behind its first one at
/// which the goal is reached, or at the lines of comments before it; else with the text.
pub(crate) fn stop_behind(
    alloc: Global,
    text: &Reading<'_>,
    goal: &Goal,
    place: usize,
    limits: &mut Limits,
) -> Result<usize, AllocError>
    requires { place ≤ length text.now.text }
    ensures passes { IfOk result (PassesTo text.now.dialect text.now.text goal.now place) }
    ensures within { IfOk result (λ end. end ≤ length text.now.text) }
    ensures after { IfOk result (λ end. place ≤ end) }
    ensures onward { IfOk result (λ end. place < length text.now.text → place < end) }
    ensures falls { OnOk result (limits.new.steps ≤ limits.old.steps) }
{
    let first = Token::first(alloc, text, place, limits)?;
    if first.at >= text.len() {
        return Ok(first.at);
    }
    let mut token = first.next(alloc, text, limits)?;
    while token.at < text.len() {
        if is_reached(alloc, text, goal, &token, limits)? {
            let end = start_of(alloc, text, goal, &token, limits)?;
            return Ok(end);
        }
        token = token.next(alloc, text, limits)?;
    }
    Ok(token.at)
}

/// Whether the goal is reached at a token.
fn is_reached(
    alloc: Global,
    text: &Reading<'_>,
    goal: &Goal,
    token: &Token,
    limits: &mut Limits,
) -> Result<bool, AllocError>
    requires { token.now.at < length text.now.text }
    ensures yes { IfOk result
        (λ is. is ≡ true → IsReached text.now.dialect text.now.text goal.now token.now) }
    ensures no { IfOk result
        (λ is. is ≡ false → ¬ IsReached text.now.dialect text.now.text goal.now token.now) }
    ensures falls { OnOk result (limits.new.steps ≤ limits.old.steps) }
{
    if closes(text, goal, token) {
        return Ok(true);
    }
    if !is_stop(token) {
        return Ok(false);
    }
    starts(alloc, text, goal, token.at, limits)
}

/// Whether a token reaches the goal whatever is read there.
fn closes(text: &Reading<'_>, goal: &Goal, token: &Token) -> bool
    requires { token.now.at < length text.now.text }
    ensures { result ≡ is_closing goal.now token.now (slice_index text.now.text token.now.at) }
{
    let byte = text.byte(token.at);
    match *goal {
        Goal::Definition => false,
        Goal::Body => byte == b'{' || byte == b';' || byte == b'}',
        Goal::Member(_) => token.depth == 0 && (byte == b'}' || token.before == b';'),
    }
}

/// Whether the reading may go on at a token: it is the first of its line, or follows a `;` or a
/// `}`.
fn is_stop(token: &Token) -> bool
    ensures { result ≡ the_is_stop token.now }
{
    token.is_first || token.before == b';' || token.before == b'}'
}

/// Whether what is looked for begins at a place.
fn starts(
    alloc: Global,
    text: &Reading<'_>,
    goal: &Goal,
    place: usize,
    limits: &mut Limits,
) -> Result<bool, AllocError>
    requires { place ≤ length text.now.text }
    ensures yes { IfOk result
        (λ is. is ≡ true → Starts text.now.dialect text.now.text goal.now place) }
    ensures no { IfOk result
        (λ is. is ≡ false → ¬ Starts text.now.dialect text.now.text goal.now place) }
    ensures falls { OnOk result (limits.new.steps ≤ limits.old.steps) }
{
    match *goal {
        Goal::Member(member) => member_starts(alloc, text, member, place, limits),
        Goal::Body => begins(alloc, text, place, limits),
        Goal::Definition => begins(alloc, text, place, limits),
    }
}

/// Whether a member of this rule begins at a place, or a definition.
fn member_starts(
    alloc: Global,
    text: &Reading<'_>,
    member: Rule,
    place: usize,
    limits: &mut Limits,
) -> Result<bool, AllocError>
    requires { place ≤ length text.now.text }
    ensures yes { IfOk result
        (λ is. is ≡ true → IsReadAt text.now.text member place
        ⊎ Begins text.now.dialect text.now.text place) }
    ensures no { IfOk result
        (λ is. is ≡ false → ¬ (IsReadAt text.now.text member place
        ⊎ Begins text.now.dialect text.now.text place)) }
    ensures falls { OnOk result (limits.new.steps ≤ limits.old.steps) }
{
    if text.reads(alloc, member, place, limits)? {
        return Ok(true);
    }
    let is = begins(alloc, text, place, limits)?;
    Ok(is)
}

/// Where the lines of comments begin before a token, if what is looked for begins there too; else
/// where the token begins.
fn start_of(
    alloc: Global,
    text: &Reading<'_>,
    goal: &Goal,
    token: &Token,
    limits: &mut Limits,
) -> Result<usize, AllocError>
    requires line { token.now.line ≤ token.now.at }
    requires within { token.now.at ≤ length text.now.text }
    ensures ends { IfOk result (EndsBefore text.now.dialect text.now.text goal.now token.now) }
    ensures after { IfOk result (λ end. token.now.line ≤ end) }
    ensures within { IfOk result (λ end. end ≤ token.now.at) }
    ensures falls { OnOk result (limits.new.steps ≤ limits.old.steps) }
{
    if starts(alloc, text, goal, token.line, limits)? {
        return Ok(token.line);
    }
    Ok(token.at)
}
