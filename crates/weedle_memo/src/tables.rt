//! What the reading asks of each rule: its row, and the bytes at which it isn't passed over.

ghost use Rattle.std.specs.Prelude.{◌≡◌, ◌≤◌, length, slice_index_or};
ghost use Rattle.weedle_grammar.specs.written.Table.{row_of as the_row_of};
ghost use Rattle.weedle_memo.specs.Tables.{AreWords, IsWay, IsWord, IsPassed};

use crate::frame::Look;
use std::marker::Model;
use weedle_grammar::{Class, Parts, RULES, Row, Rule, row_of, rule_of};
use weedle_starts::starts::first_set;

/// The bytes of a row.
#[derive(Clone, Copy)]
pub(crate) struct Word {
    pub(crate) bytes: &'static [u8],
}

/// A row, with rules as numbers.
///
/// The bytes and the parts are type arguments, as the borrow checker requires it of an enum in an
/// array.
#[derive(Clone, Copy)]
pub(crate) enum Way<W, P> {
    Bytes(W),
    OneOf(Class),
    NotNext(Class),
    Run(Class),
    Past(W),
    Seq(P),
    First(P),
    Opt(u16),
    Many(u16),
    List(u16, u16),
    List1(u16, u16),
    Tail(u16, u16),
    If(P, usize, u16),
}

/// The rows of all rules, by number.
type Ways = [Way<Word, Parts>; RULES];

/// For each rule the ASCII bytes at which it isn't passed over, as the bits of a word.
pub(crate) type Words = [u128; RULES];

/// What the reading of any text asks of the rules, in the order of their numbers.
///
/// `row_of` compares numbers until it finds a row, which takes longer than what is done with it. So
/// each rule is asked for once. The tables take some 27 kB where they are, and no other memory.
#[derive(Drop)]
pub struct Tables {
    ways: Ways,
    words: Words,
}

impl Model for Tables {
    ghost use Rattle.std.specs.Prelude.{ℕ, List};
    ghost use Rattle.weedle_memo.specs.Tables.{AreTables};

    ghost Value = { List ℕ };

    ghost view = { λ tables. tables.words };

    ghost invariant = { λ tables. AreTables tables.ways tables.words };
}

/// The row of the rule.
fn way_of(rule: Rule) -> Way<Word, Parts>
    ensures { IsWay result (the_row_of rule) }
{
    match row_of(rule) {
        Row::Bytes(bytes) => Way::Bytes(Word { bytes }),
        Row::OneOf(class) => Way::OneOf(class),
        Row::NotNext(class) => Way::NotNext(class),
        Row::Run(class) => Way::Run(class),
        Row::Past(bytes) => Way::Past(Word { bytes }),
        Row::Seq(parts) => Way::Seq(parts),
        Row::First(parts) => Way::First(parts),
        Row::Opt(item) => Way::Opt(item.number()),
        Row::Many(item) => Way::Many(item.number()),
        Row::List(item, tail) => Way::List(item.number(), tail.number()),
        Row::List1(item, tail) => Way::List1(item.number(), tail.number()),
        Row::Tail(item, separator) => Way::Tail(item.number(), separator.number()),
        Row::If(parts, k, last) => Way::If(parts, k, last.number()),
    }
}

/// The ASCII bytes at which a rule isn't passed over: those that it can begin with; of an option, a
/// repetition or a list those that what it may go without can begin with.
fn word_of(rule: Rule) -> u128
    ensures { IsWord result rule }
{
    match row_of(rule) {
        Row::Opt(item) => first_set(item),
        Row::Many(item) => first_set(item),
        Row::List(item, _) => first_set(item),
        Row::Tail(_, separator) => first_set(separator),
        _ => first_set(rule),
    }
}

/// The row of the rule among all.
#[inline(always)]
fn way_in(ways: &Ways, rule: Rule) -> Way<Word, Parts>
    ensures { result ≡ slice_index_or ways.now rule result }
{
    ways[rule.number() as usize]
}

impl Tables {
    /// The tables of all rules. They are the same for every text, so one that reads many makes
    /// them once.
    pub fn new() -> Tables {
        let mut ways = [Way::NotNext(Class::Any); RULES];
        let mut words: Words = [0; RULES];
        for number in 0..RULES {
            let rule = rule_of(number as u16);
            ways[number] = way_of(rule);
            words[number] = word_of(rule);
        }
        Tables { ways, words }
    }

    /// The words of all rules.
    pub(crate) fn words(&self) -> &Words
        ensures value { result.now ≡ self.now }
        ensures covered { AreWords result.now }
    {
        &self.words
    }

    /// What the rule reads.
    #[inline(always)]
    pub(crate) fn way(&self, rule: Rule) -> Way<Word, Parts>
        ensures { IsWay result (the_row_of rule) }
    {
        way_in(&self.ways, rule)
    }

    /// What the byte at a place says of a rule: that it fails there, or that it ends there, since
    /// what it may go without isn't there.
    #[inline(always)]
    pub(crate) fn passed(&self, text: &[u8], rule: Rule, place: usize) -> Look
        requires { place ≤ length text.now }
        ensures { IsPassed self.now text.now rule place result }
    {
        if place >= text.len() {
            return Look::Unknown;
        }
        let byte = text[place];
        if byte >= 128 {
            return Look::Unknown;
        }
        if (self.words[rule.number() as usize] >> byte) & 1 == 1 {
            return Look::Unknown;
        }
        match self.way(rule) {
            Way::Opt(_) => Look::Known(Some(place)),
            Way::Many(_) => Look::Known(Some(place)),
            Way::List(_, _) => Look::Known(Some(place)),
            Way::Tail(_, _) => Look::Known(Some(place)),
            _ => Look::Known(None),
        }
    }
}
