//! The memo of a rule that was read at a place of a text.

ghost use Rattle.std.specs.Prelude.{◌≡◌, ◌≤◌, ◌<◌, ◌+◌, ◌*◌, length, IfOk};
ghost use Rattle.weedle_grammar.specs.written.Bound.{rule_count, table_count};
ghost use Rattle.weedle_rules.specs.Cells.{HasEnd};
ghost use Rattle.weedle_memo.specs.Wanted.{WantedFrom};
ghost use Rattle.weedle_memo.specs.Entries.{AreRight, AreOwn, AreDistinct, start_at};

use crate::READS;
use crate::read::read;
use crate::reader::Reader;
use crate::tables::Tables;
use std::alloc::{AllocError, Global};
use std::marker::Model;
use weedle_grammar::Rule;

/// A rule that was read at a place of a text, and where each rule that its reading tries ends or
/// fails.
///
/// Over `typedef long? A;` the rule of types ends at 14 from place 8 on.
#[derive(Drop)]
pub struct RuleMemo<'a> {
    reader: Reader<'a>,
    end: Option<usize>,
}

impl<'a> Model for RuleMemo<'a> {
    ghost use Rattle.weedle_memo.specs.Entries.{Reading};
    ghost use Rattle.weedle_memo.specs.Closure.{IsMemo};

    ghost Value = { Reading };

    ghost view = { λ memo. memo.reader };

    ghost invariant = { λ memo. IsMemo memo.reader memo.end };
}

impl<'a> RuleMemo<'a> {
    /// Reads a rule at a place of a text, as the rule of types at 8 in `typedef long? A;`: each
    /// rule at each place at most once, and only where it is tried.
    ///
    /// There is no recursion, so however deep a text nests, it takes little of the stack. It asks
    /// for a number of 8 bytes for each place of the text, for entries of 16 bytes, of real files
    /// one to two a byte, and for frames of 24 bytes of the rules that are open. Where 32 bits
    /// don't hold a place or the number of an entry, entries have 40 bytes. Where memory is
    /// refused, the answer is an error.
    pub fn new(
        alloc: Global,
        text: &'a str,
        tables: &'a Tables,
        rule: Rule,
        place: usize,
    ) -> Result<RuleMemo<'a>, AllocError>
        requires within { place ≤ length text.now }
        ensures text { IfOk result (λ memo. memo.text ≡ text.entry.now) }
        ensures start { IfOk result (λ memo. memo.start ≡ start_at rule place) }
    {
        let mut reader = Reader::new(alloc, text.as_bytes(), tables, rule, place)?;
        let end = read(alloc, &mut reader)?;
        Ok(RuleMemo { reader, end })
    }

    /// Where the rule ends that was read, or None where it fails: 14 of the rule of types at 8 in
    /// `typedef long? A;`. It takes no memory.
    pub fn rule_end(&self) -> Option<usize>
        ensures { HasEnd self.now.text self.now.start.rule self.now.start.place result }
    {
        self.end
    }

    /// Where a rule ends at a place, or None where it fails there. It answers of what the reading
    /// tries: of the rule that was read at its place, and of whatever a rule tries that is itself
    /// tried so and ends. It takes no memory, and works out nothing.
    pub fn end(&self, rule: Rule, place: usize) -> Option<usize>
        requires within { place ≤ length self.now.text }
        requires wanted { WantedFrom self.now.text self.now.start.rule self.now.start.place
            rule place }
        ensures right { HasEnd self.now.text rule place result }
    {
        weedle_grammar::laws::one_outcome();
        self.reader.asked(rule, place)
    }

    /// How many rules were worked out at a place, none of them twice there: of real files one to
    /// two for each byte that is read. It takes no memory.
    pub fn workings(&self) -> usize
        ensures value { result ≡ length self.now.known }
        ensures few { result ≤ (length self.now.text + 1) * rule_count }
        ensures few_own { self.now.start.rule < table_count
            → result ≤ (length self.now.text + 1) * table_count }
        ensures right { AreRight self.now.text self.now.known }
        ensures own { AreOwn self.now.start.rule self.now.known }
        ensures distinct { AreDistinct self.now.known }
    {
        self.reader.recall();
        self.reader.workings()
    }

    /// How often a byte or an entry was looked at to work them out. It takes no memory.
    pub fn reads(&self) -> u128
        ensures value { result ≡ self.now.reads }
        ensures few { result ≤ READS * length self.now.known }
    {
        self.reader.recall();
        self.reader.reads()
    }

    /// How many looks the working-out took that took most. It takes no memory.
    pub fn most(&self) -> usize
        ensures value { result ≡ self.now.most }
        ensures few { result ≤ READS }
    {
        self.reader.most()
    }
}
