//! The one way to the text and to what is known of it.
//!
//! While a rule is worked out, bytes and rules are looked at by these calls alone, each of which
//! counts.

ghost use Rattle.std.specs.Prelude.{◌^◌, ◌≡◌, ◌≤◌, ◌<◌, ◌+◌, ◌*◌, ◌∷◌, ◌++◌, [], ℕ, length, max};
ghost use Rattle.std.specs.Prelude.{IfOk, OnOk, drop, option_map};
ghost use Rattle.weedle_grammar.specs.Rows.{take_bytes, take_one, take_not_next, run_length};
ghost use Rattle.weedle_grammar.specs.Rows.{take_past};
ghost use Rattle.weedle_grammar.specs.written.Bound.{rule_count, table_count};
ghost use Rattle.weedle_grammar.specs.written.Table.{row_of as the_row_of};
ghost use Rattle.weedle_grammar.specs.written.Table.Definitions.{DEFINITIONS};
ghost use Rattle.weedle_rules.specs.Cells.{HasEnd};
ghost use Rattle.weedle_memo.specs.Tables.{IsWay};
ghost use Rattle.weedle_memo.specs.Entries.{IsUnread, AreRight, IsOwn, AreOwn, AreDistinct, Absent};
ghost use Rattle.weedle_memo.specs.Entries.{IsLook, IsAsked, entry_at, start_at};
ghost use Rattle.weedle_memo.specs.Closure.{MetLook, memory_of, SameText};

use crate::READS;
use crate::entries::{Entries, Entry};
use crate::frame::{Frame, Look};
use crate::memo_table::MemoTable;
use crate::tables::{Tables, Way, Word};
use std::alloc::{AllocError, Global};
use std::marker::Model;
use weedle_grammar::{Class, Parts, Rule, leaf_ends};

/// A text that is being read.
#[derive(Drop)]
pub(crate) struct Reader<'a> {
    text: &'a [u8],
    rule: Rule,
    place: usize,
    tables: &'a Tables,
    heads: Vec<usize>,
    entries: Entries,
    reads: u128,
    most: usize,
}

impl<'a> Model for Reader<'a> {
    ghost use Rattle.std.specs.Prelude.{map};
    ghost use Rattle.weedle_memo.specs.Entries.{Reading, start_at};

    ghost Value = { Reading };

    ghost use Rattle.weedle_memo.specs.ReaderView.{entry_of, IsReader};

    ghost view = { λ r. record {
      text = r.text.now;
      start = start_at r.rule r.place;
      words = r.tables.now;
      known = map entry_of r.entries;
      reads = r.reads;
      most = r.most;
    } };

    ghost invariant = { λ r. IsReader r.rule r.text.now r.heads.items r.entries r.reads r.most };
}

impl<'a> Reader<'a> {
    /// A text of which nothing is known, and in which the rule is to be read at the place.
    pub(crate) fn new(
        alloc: Global,
        text: &'a [u8],
        tables: &'a Tables,
        rule: Rule,
        place: usize,
    ) -> Result<Reader<'a>, AllocError>
        requires fits { length text.now < 2 ^ 63 }
        ensures { IfOk result
            (λ reader. IsUnread reader text.entry.now tables.entry.now (start_at rule place)) }
    {
        let heads = Vec::from_elem(alloc, 0, text.len() + 1)?;
        Ok(Reader {
            text,
            rule,
            place,
            tables,
            heads,
            entries: Entries::new(alloc),
            reads: 0,
            most: 0,
        })
    }

    /// The rule that is read.
    pub(crate) fn rule(&self) -> Rule
        ensures { result ≡ self.now.start.rule }
    {
        self.rule
    }

    /// The place where it is read.
    pub(crate) fn place(&self) -> usize
        ensures { result ≡ self.now.start.place }
    {
        self.place
    }

    /// How many rules were worked out at a place.
    pub(crate) fn workings(&self) -> usize
        ensures { result ≡ length self.now.known }
    {
        self.entries.len()
    }

    /// How many looks that took.
    pub(crate) fn reads(&self) -> u128
        ensures { result ≡ self.now.reads }
    {
        self.reads
    }

    /// How many looks the working-out took that took most.
    pub(crate) fn most(&self) -> usize
        ensures value { result ≡ self.now.most }
        ensures few { result ≤ READS }
    {
        self.most
    }

    /// What the entries say of the rule at the place.
    #[inline(always)]
    pub(crate) fn find(&self, rule: Rule, place: usize) -> Look
        requires within { place ≤ length self.now.text }
        ensures look { IsLook self.now.text self.now.known rule place result }
        ensures met { MetLook (memory_of self.now) rule place result }
    {
        let mut at = self.heads[place];
        while at > 0 {
            at -= 1;
            let entry = self.entries.get(at);
            if entry.place == place {
                if entry.rule.number() == rule.number() {
                    return Look::Known(entry.end);
                }
                if entry.next < at {
                    at = entry.next;
                }
            }
        }
        Look::Unknown
    }

    /// Where the rule ends at the place, or None where it fails there or nothing is known. It
    /// counts nothing.
    pub(crate) fn asked(&self, rule: Rule, place: usize) -> Option<usize>
        requires within { place ≤ length self.now.text }
        ensures { IsAsked self.now.words self.now.text self.now.known rule place result }
    {
        match self.tables.passed(self.text, rule, place) {
            Look::Known(end) => end,
            Look::Unknown => match self.find(rule, place) {
                Look::Known(end) => end,
                Look::Unknown => None,
            },
        }
    }

    /// A look at what is known of the rule at the place: by the byte there, or by an entry.
    #[inline(always)]
    pub(crate) fn look(&self, frame: &mut Frame, rule: Rule, place: usize) -> Look
        requires within { place ≤ length self.now.text }
        requires room { frame.old.count < READS }
        ensures look { IsLook self.now.text self.now.known rule place result }
        ensures met { MetLook (memory_of self.now) rule place result }
        ensures counted { frame.new ≡ record frame.old { count = frame.old.count + 1 } }
    {
        frame.count += 1;
        match self.tables.passed(self.text, rule, place) {
            Look::Known(end) => Look::Known(end),
            Look::Unknown => self.find(rule, place),
        }
    }

    /// What always holds. It does nothing.
    #[inline(always)]
    pub(crate) fn recall(&self)
        ensures fits { length self.now.text < 2 ^ 63 }
        ensures right { AreRight self.now.text self.now.known }
        ensures own { AreOwn self.now.start.rule self.now.known }
        ensures distinct { AreDistinct self.now.known }
        ensures few { length self.now.known ≤ (length self.now.text + 1) * rule_count }
        ensures few_own { self.now.start.rule < table_count
            → length self.now.known ≤ (length self.now.text + 1) * table_count }
        ensures bounded { self.now.reads ≤ READS * length self.now.known }
    {
        let _ = &self.most;
    }

    /// How long the text is.
    #[inline(always)]
    pub(crate) fn text_len(&self) -> usize
        ensures { result ≡ length self.now.text }
    {
        self.text.len()
    }

    /// What the rule reads.
    #[inline(always)]
    pub(crate) fn way(&self, rule: Rule) -> Way<Word, Parts>
        ensures { IsWay result (the_row_of rule) }
    {
        self.tables.way(rule)
    }

    /// Where these bytes end, which are at a place.
    #[inline(always)]
    pub(crate) fn end_of_bytes(&self, bytes: &[u8], place: usize) -> Option<usize>
        requires { place ≤ length self.now.text }
        ensures { result
            ≡ option_map (λ k. place + k) (take_bytes bytes.now (drop place self.now.text)) }
    {
        leaf_ends::end_of_bytes(bytes, self.text, place)
    }

    /// Where one byte of the class ends, which is at a place.
    #[inline(always)]
    pub(crate) fn end_of_one(&self, class: Class, place: usize) -> Option<usize>
        requires { place ≤ length self.now.text }
        ensures { result
            ≡ option_map (λ k. place + k) (take_one class (drop place self.now.text)) }
    {
        leaf_ends::end_of_one(class, self.text, place)
    }

    /// The place itself, where no byte of the class is there.
    #[inline(always)]
    pub(crate) fn end_of_not_next(&self, class: Class, place: usize) -> Option<usize>
        requires { place ≤ length self.now.text }
        ensures { result
            ≡ option_map (λ k. place + k) (take_not_next class (drop place self.now.text)) }
    {
        leaf_ends::end_of_not_next(class, self.text, place)
    }

    /// Where the bytes of the class end at a place.
    #[inline(always)]
    pub(crate) fn end_of_run(&self, class: Class, place: usize) -> usize
        requires { place ≤ length self.now.text }
        ensures { result ≡ place + run_length class (drop place self.now.text) }
    {
        leaf_ends::end_of_run(class, self.text, place)
    }

    /// Where the first of these bytes behind a place end.
    #[inline(always)]
    pub(crate) fn end_past(&self, bytes: &[u8], place: usize) -> Option<usize>
        requires { place ≤ length self.now.text }
        ensures { result
            ≡ option_map (λ k. place + k) (take_past bytes.now (drop place self.now.text)) }
    {
        leaf_ends::end_past(bytes, self.text, place)
    }

    /// Makes the outcome of a rule at a place known, which took so many looks.
    #[inline(always)]
    pub(crate) fn keep(
        &mut self,
        rule: Rule,
        place: usize,
        looks: usize,
        outcome: Option<usize>,
    ) -> Result<(), AllocError>
        requires within { place ≤ length self.old.text }
        requires right { HasEnd self.old.text rule place outcome }
        requires own { IsOwn self.old.start.rule rule }
        requires absent { Absent self.old.known rule place }
        requires looked { 0 < looks }
        requires few { looks ≤ READS }
        ensures same { SameText self.old self.new }
        ensures kept { OnOk result (self.new ≡ record self.old {
          known = self.old.known ++ entry_at rule place outcome ∷ [];
          reads = self.old.reads + looks;
          most = max self.old.most looks;
        }) }
    {
        let next = self.heads[place];
        self.entries.push(Entry {
            rule,
            place,
            end: outcome,
            next,
        })?;
        self.heads[place] = self.entries.len();
        self.reads += looks as u128;
        self.most = self.most.max(looks);
        Ok(())
    }

    /// What is known once definitions are read at the front of the text, without the rows.
    pub(crate) fn into_table(self) -> MemoTable<'a>
        requires { self.start ≡ start_at DEFINITIONS 0 }
        ensures { result ≡ self.entry }
    {
        let words = self.tables.words();
        MemoTable {
            text: self.text,
            words,
            heads: self.heads,
            entries: self.entries,
            reads: self.reads,
            most: self.most,
        }
    }
}
