//! What is known of a text: entries of 16 bytes, as long as 32 bits hold their numbers.

ghost use Rattle.std.specs.Prelude.{◌≡◌, ◌<◌, ◌++◌, ◌∷◌, [], length, IfSome, OnErr, OnOk};
ghost use Rattle.std.proofs.Common.{get_or};
ghost use Rattle.weedle_rules.specs.NarrowCells.{narrow_outcome};
ghost use Rattle.weedle_memo.specs.EntriesView.{wide_of};

use std::alloc::{AllocError, Global};
use std::marker::Model;
use weedle_grammar::Rule;

/// A rule that was worked out at a place, its end there, and one more than the entry before it of
/// that place, or 0.
#[derive(Clone, Copy)]
pub(crate) struct Entry {
    pub(crate) rule: Rule,
    pub(crate) place: usize,
    pub(crate) end: Option<usize>,
    pub(crate) next: usize,
}

/// An entry in 16 bytes, none of them padding: a copy of padding stalls what reads it next.
#[repr(C)]
#[derive(Clone, Copy)]
pub(crate) struct NarrowEntry {
    place: u32,
    /// The end, or `NO_END` for a failure.
    end: u32,
    next: u32,
    rule: Rule,
    spare: u16,
}

/// The entries of a memo, in the order in which they were worked out: those of 16 bytes first, and
/// behind the first number that 32 bits don't hold those of 40.
#[derive(Drop)]
pub(crate) struct Entries {
    few: Vec<NarrowEntry>,
    more: Vec<Entry>,
}

impl Model for Entries {
    ghost use Rattle.std.specs.Prelude.{List};
    ghost use Rattle.weedle_memo.specs.declared.entries.Entry.{Entry};

    ghost Value = { List Entry };

    ghost use Rattle.weedle_memo.specs.EntriesView.{entries_of};

    ghost view = { λ entries. entries_of entries.few.items entries.more.items };
}

/// The greatest number that a narrow entry keeps.
const GREATEST: usize = u32::MAX as usize;

/// What a narrow entry keeps for a failure.
const NO_END: u32 = u32::MAX;

/// The end in 32 bits, where they hold it.
#[inline(always)]
fn narrow_end(end: Option<usize>) -> Option<u32>
    ensures { IfSome result (λ narrow. narrow_outcome narrow ≡ end) }
{
    match end {
        None => Some(NO_END),
        Some(end) if end < GREATEST => Some(end as u32),
        Some(_) => None,
    }
}

/// The end that a narrow entry keeps so.
#[inline(always)]
fn wide_end(end: u32) -> Option<usize>
    ensures { result ≡ narrow_outcome end }
{
    if end == NO_END {
        None
    } else {
        Some(end as usize)
    }
}

impl NarrowEntry {
    /// The entry in 16 bytes, where its numbers have 32 bits.
    #[inline(always)]
    fn of(entry: &Entry) -> Option<NarrowEntry>
        ensures { IfSome result (λ narrow. wide_of narrow ≡ entry.now) }
    {
        if entry.place > GREATEST || entry.next > GREATEST {
            return None;
        }
        let end = narrow_end(entry.end)?;
        Some(NarrowEntry {
            place: entry.place as u32,
            end,
            next: entry.next as u32,
            rule: entry.rule,
            spare: 0,
        })
    }

    /// The entry with numbers of 64 bits.
    #[inline(always)]
    fn wide(self) -> Entry
        ensures { result ≡ wide_of self }
    {
        Entry {
            rule: self.rule,
            place: self.place as usize,
            end: wide_end(self.end),
            next: self.next as usize,
        }
    }
}

impl Entries {
    /// No entries.
    pub(crate) fn new(alloc: Global) -> Entries
        ensures { result ≡ [] }
    {
        Entries {
            few: Vec::new(alloc),
            more: Vec::new(alloc),
        }
    }

    /// How many entries there are.
    #[inline(always)]
    pub(crate) fn len(&self) -> usize
        ensures { result ≡ length self.now }
    {
        self.few.len() + self.more.len()
    }

    /// The entry of a number.
    #[inline(always)]
    pub(crate) fn get(&self, at: usize) -> Entry
        requires { at < length self.now }
        ensures { result ≡ get_or self.now at result }
    {
        if at < self.few.len() {
            self.few[at].wide()
        } else {
            self.more[at - self.few.len()]
        }
    }

    /// Adds an entry.
    #[inline(always)]
    pub(crate) fn push(&mut self, entry: Entry) -> Result<(), AllocError>
        ensures added { OnOk result (self.new ≡ self.old ++ entry ∷ []) }
        ensures refused { OnErr result (self.new ≡ self.old) }
    {
        if let Some(narrow) = NarrowEntry::of(&entry) {
            if self.more.is_empty() {
                self.few.push(narrow)?;
                return Ok(());
            }
        }
        self.more.push(entry)?;
        Ok(())
    }
}
