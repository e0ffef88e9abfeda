//! What a text is read as over a table or a memo, told with no memory.

ghost use Rattle.std.specs.Prelude.{◌≡◌};

use std::alloc::{AllocError, Global};
use std::process::Abort;
use weedle::{Counted, Err, Error, ErrorKind, parse_bounded, parse_counted};
use weedle_build::{Built, build_by_memo, build_definitions};
use weedle_memo::Memo;
use weedle_rules::{Ends, READS, TABLE_RULES};

/// What a reader answers of a text.
#[derive(Clone, Copy, Debug, PartialEq, Eq)]
pub enum Outcome<'a> {
    /// The whole text is read, as so many definitions.
    Read(usize),
    /// A part of the text is left: this one.
    Left(&'a str),
    /// Memory ran out, with this input.
    Memory(&'a str),
    /// A fault that `parse` has no use for.
    Other,
}

/// How much was done for an answer.
#[derive(Clone, Copy, Debug, PartialEq, Eq)]
pub struct Counts {
    /// How many times a rule was worked out at a place of the text.
    pub workings: u128,
    /// How many times a byte, or what is known of a rule at a place, was looked at for that.
    pub reads: u128,
    /// How many nodes of the tree were visited to build the list.
    pub visits: u128,
}

/// How many items a list has.
///
/// A function that names definitions is dear to prove, and one of a list of any type isn't: so it
/// is told at once how long a list is.
pub fn length<T: Drop>(list: Vec<T>) -> usize {
    list.len()
}

/// The outcome of an answer.
fn outcome_of<'a, T: Drop>(answer: Result<Vec<T>, Err<Error<&'a str>>>) -> Outcome<'a> {
    match answer {
        Ok(list) => Outcome::Read(length(list)),
        Err(Err::Error(error)) if error.code == ErrorKind::Unread => Outcome::Left(error.input),
        Err(Err::Failure(error)) if error.code == ErrorKind::Memory => Outcome::Memory(error.input),
        Err(_) => Outcome::Other,
    }
}

/// What `parse_counted` answers, and what it counts.
pub fn counted(alloc: Global, text: &str) -> (Outcome<'_>, Counts) {
    told(parse_counted(alloc, text))
}

/// What `parse_bounded` answers, and what it counts.
pub fn bounded(alloc: Global, text: &str) -> (Outcome<'_>, Counts) {
    told(parse_bounded(alloc, text))
}

/// The outcome of an answer with counts, and these.
fn told(counted: Counted<'_>) -> (Outcome<'_>, Counts) {
    let Counted {
        answer,
        workings,
        reads,
        visits,
    } = counted;
    let counts = Counts {
        workings,
        reads,
        visits,
    };
    (outcome_of(answer), counts)
}

/// How many definitions are built along a table, what is left behind that, and how many nodes are
/// visited.
pub fn built<'a>(
    alloc: Global,
    ends: &Ends<'a>,
    text: &'a str,
) -> Result<(usize, &'a str, u128), AllocError>
    requires table { ends.now.text ≡ text.now }
{
    let Built { list, rest, visits } = build_definitions(alloc, ends, text)?;
    Ok((length(list), rest, visits))
}

/// The same along a memo.
pub fn built_by_memo<'a>(
    alloc: Global,
    memo: &Memo<'_>,
    text: &'a str,
) -> Result<(usize, &'a str, u128), AllocError>
    requires memo { memo.now.text ≡ text.now }
{
    let Built { list, rest, visits } = build_by_memo(alloc, memo, text)?;
    Ok((length(list), rest, visits))
}

/// How many workings-out there are for a text.
fn all_workings(text: &str) -> u128 {
    (TABLE_RULES as u128).saturating_mul(text.len() as u128 + 1)
}

/// Asserts the bounds of an answer over a table that didn't run out of memory: each rule is worked
/// out at each place.
pub fn assert_bounds(rt: &impl Abort, text: &str, counts: Counts) {
    assert_eq!(rt; counts.workings, all_workings(text), "of {text:?}");
    assert_within(rt, text, counts);
}

/// Asserts the bounds of any answer: a rule is worked out at a place at most once, with at most
/// `READS` looks, and the nodes of the tree are at most 10,000 for each place.
pub fn assert_within(rt: &impl Abort, text: &str, counts: Counts) {
    let most = (READS as u128).saturating_mul(counts.workings);
    let places = text.len() as u128 + 1;
    assert!(rt;
        counts.workings <= all_workings(text)
            && counts.reads >= counts.workings
            && counts.reads <= most
            && counts.visits <= places.saturating_mul(10_000),
        "of {text:?}"
    );
}
