//! The memo of the definitions at the front of a text.

ghost use Rattle.std.specs.Prelude.{◌≡◌, ◌≤◌, ◌+◌, ◌*◌, length, IfOk};
ghost use Rattle.weedle_grammar.specs.written.Bound.{table_count};
ghost use Rattle.weedle_grammar.specs.written.Table.Definitions.{DEFINITIONS};
ghost use Rattle.weedle_rules.specs.Cells.{HasEnd};
ghost use Rattle.weedle_memo.specs.Wanted.{Wanted};
ghost use Rattle.weedle_memo.specs.Entries.{AreRight, AreOwn, AreDistinct};

use crate::READS;
use crate::memo_table::MemoTable;
use crate::read::read;
use crate::reader::Reader;
use crate::tables::Tables;
use std::alloc::{AllocError, Global};
use std::marker::Model;
use weedle_grammar::Rule;

/// A text that was read from its front, and where each rule that its reading tries ends or fails.
///
/// Over `interface A {}; // end` the rule of definitions ends at 22 from place 0 on.
#[derive(Drop)]
pub struct Memo<'a> {
    table: MemoTable<'a>,
    end: Option<usize>,
}

impl<'a> Model for Memo<'a> {
    ghost use Rattle.weedle_memo.specs.Entries.{Reading};
    ghost use Rattle.weedle_memo.specs.Closure.{IsDefinitions};

    ghost Value = { Reading };

    ghost view = { λ memo. memo.table };

    ghost invariant = { λ memo. IsDefinitions memo.table memo.end };
}

impl<'a> Memo<'a> {
    /// Reads the definitions at the front of a text, as of `interface A {}; // end`. It costs what
    /// [`RuleMemo::new`] costs.
    pub fn new(alloc: Global, text: &'a str, tables: &'a Tables) -> Result<Memo<'a>, AllocError>
        ensures { IfOk result (λ memo. memo.text ≡ text.entry.now) }
    {
        let mut reader = Reader::new(alloc, text.as_bytes(), tables, Rule::DEFINITIONS, 0)?;
        let end = read(alloc, &mut reader)?;
        Ok(Memo {
            table: reader.into_table(),
            end,
        })
    }

    /// Where the definitions at the front of the text end: 15 of `interface A {}; x`, and the
    /// length of a text that is read whole. It takes no memory.
    pub fn definitions_end(&self) -> Option<usize>
        ensures { HasEnd self.now.text DEFINITIONS 0 result }
    {
        self.end
    }

    /// Where a rule ends at a place, or None where it fails there. It answers of what the reading
    /// of the definitions tries: of the rule of definitions at 0, and of whatever a rule tries that
    /// is itself tried so and ends. It takes no memory, and works out nothing.
    pub fn end(&self, rule: Rule, place: usize) -> Option<usize>
        requires within { place ≤ length self.now.text }
        requires wanted { Wanted self.now.text rule place }
        ensures right { HasEnd self.now.text rule place result }
    {
        weedle_grammar::laws::one_outcome();
        self.table.asked(rule, place)
    }

    /// How many rules were worked out at a place, none of them twice there: of real files one to
    /// two for each byte of the text. It takes no memory.
    pub fn workings(&self) -> usize
        ensures value { result ≡ length self.now.known }
        ensures few { result ≤ (length self.now.text + 1) * table_count }
        ensures right { AreRight self.now.text self.now.known }
        ensures own { AreOwn DEFINITIONS self.now.known }
        ensures distinct { AreDistinct self.now.known }
    {
        self.table.workings()
    }

    /// How often a byte or an entry was looked at to work them out. It takes no memory.
    pub fn reads(&self) -> u128
        ensures value { result ≡ self.now.reads }
        ensures each { length self.now.known ≤ result }
        ensures few { result ≤ READS * length self.now.known }
    {
        self.table.reads()
    }

    /// How many looks the working-out took that took most. It takes no memory.
    pub fn most(&self) -> usize
        ensures value { result ≡ self.now.most }
        ensures few { result ≤ READS }
    {
        self.table.most()
    }
}
