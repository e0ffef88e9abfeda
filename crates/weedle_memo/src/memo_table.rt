//! What is known of a text whose definitions were read.

ghost use Rattle.std.specs.Prelude.{◌≡◌, ◌≤◌, ◌+◌, ◌*◌, length};
ghost use Rattle.weedle_grammar.specs.written.Bound.{table_count};
ghost use Rattle.weedle_grammar.specs.written.Table.Definitions.{DEFINITIONS};
ghost use Rattle.weedle_memo.specs.Tables.{IsPassed};
ghost use Rattle.weedle_memo.specs.Entries.{AreRight, AreOwn, AreDistinct, IsLook, IsAsked};

use crate::READS;
use crate::entries::Entries;
use crate::frame::Look;
use crate::tables::Words;
use std::marker::Model;
use weedle_grammar::Rule;
use weedle_starts::row::{Row, row_of};

/// What a [`Reader`](crate::reader::Reader) knows of a text, once its definitions are read, without
/// the rows by which it read them.
///
/// Rows hold bytes that are static. A call that is generic over a lifetime is refused where its
/// signature has such a type, and so are those of the second pass.
#[derive(Drop)]
pub(crate) struct MemoTable<'a> {
    pub(crate) text: &'a [u8],
    pub(crate) words: &'a Words,
    pub(crate) heads: Vec<usize>,
    pub(crate) entries: Entries,
    pub(crate) reads: u128,
    pub(crate) most: usize,
}

impl<'a> Model for MemoTable<'a> {
    ghost use Rattle.std.specs.Prelude.{map};
    ghost use Rattle.weedle_grammar.specs.written.Table.Definitions.{DEFINITIONS};
    ghost use Rattle.weedle_memo.specs.Entries.{Reading, start_at};

    ghost Value = { Reading };

    ghost use Rattle.weedle_memo.specs.ReaderView.{entry_of, IsMemoTable};

    ghost view = { λ t. record {
      text = t.text.now;
      start = start_at DEFINITIONS 0;
      words = t.words.now;
      known = map entry_of t.entries;
      reads = t.reads;
      most = t.most;
    } };

    ghost invariant = { λ t.
        IsMemoTable t.text.now t.words.now t.heads.items t.entries t.reads t.most };
}

impl<'a> MemoTable<'a> {
    /// What the entries say of the rule at the place.
    fn find(&self, rule: Rule, place: usize) -> Look
        requires { place ≤ length self.now.text }
        ensures { IsLook self.now.text self.now.known rule place result }
    {
        let mut at = self.heads[place];
        while at > 0 {
            at -= 1;
            let entry = self.entries.get(at);
            if entry.place == place {
                if entry.rule.number() == rule.number() {
                    return Look::Known(entry.end);
                }
                if entry.next < at {
                    at = entry.next;
                }
            }
        }
        Look::Unknown
    }

    /// What the byte at a place says of a rule: that it fails there, or that it ends there, since
    /// what it may go without isn't there.
    fn passed(&self, rule: Rule, place: usize) -> Look
        requires { place ≤ length self.now.text }
        ensures { IsPassed self.now.words self.now.text rule place result }
    {
        if place >= self.text.len() {
            return Look::Unknown;
        }
        let byte = self.text[place];
        if byte >= 128 {
            return Look::Unknown;
        }
        if (self.words[rule.number() as usize] >> byte) & 1 == 1 {
            return Look::Unknown;
        }
        match row_of(rule) {
            Row::Opt(_) => Look::Known(Some(place)),
            Row::Many(_) => Look::Known(Some(place)),
            Row::List(_, _) => Look::Known(Some(place)),
            Row::Tail(_, _) => Look::Known(Some(place)),
            _ => Look::Known(None),
        }
    }

    /// Where the rule ends at the place, or None where it fails there or nothing is known.
    pub(crate) fn asked(&self, rule: Rule, place: usize) -> Option<usize>
        requires { place ≤ length self.now.text }
        ensures { IsAsked self.now.words self.now.text self.now.known rule place result }
    {
        match self.passed(rule, place) {
            Look::Known(end) => end,
            Look::Unknown => match self.find(rule, place) {
                Look::Known(end) => end,
                Look::Unknown => None,
            },
        }
    }

    /// How many rules were worked out at a place, none of them twice there.
    pub(crate) fn workings(&self) -> usize
        ensures value { result ≡ length self.now.known }
        ensures few { result ≤ (length self.now.text + 1) * table_count }
        ensures right { AreRight self.now.text self.now.known }
        ensures own { AreOwn DEFINITIONS self.now.known }
        ensures distinct { AreDistinct self.now.known }
    {
        self.entries.len()
    }

    /// How many looks that took: one at least for each that was worked out.
    pub(crate) fn reads(&self) -> u128
        ensures value { result ≡ self.now.reads }
        ensures each { length self.now.known ≤ result }
        ensures few { result ≤ READS * length self.now.known }
    {
        self.reads
    }

    /// How many looks the working-out took that took most.
    pub(crate) fn most(&self) -> usize
        ensures value { result ≡ self.now.most }
        ensures few { result ≤ READS }
    {
        self.most
    }
}
