//! The counting view: the one way to the text and to the cells of a table that is being filled.
//!
//! Its fields are private to this module. While a cell is worked out, bytes and cells are looked at
//! by `byte` and `cell` alone, each of which counts; the text is never handed out.

ghost use Rattle.std.specs.Prelude.{
  ◌^◌,
  ◌≡◌,
  ◌≤◌,
  ◌<◌,
  ◌+◌,
  ◌*◌,
  ◌∷◌,
  ◌++◌,
  [],
  ℕ,
  true,
  false,
  length,
  max,
  slice_get,
  slice_index_or,
  Option,
  Some,
  None,
  IfSome,
  IfOk,
};
ghost use Rattle.weedle_grammar.specs.written.Bound.{table_count};
ghost use Rattle.weedle_rules.specs.Cells.{HasEnd, cell_number, cell_of, AllRight};
ghost use Rattle.weedle_rules.specs.Filling.{Filling, IsUnfilled, IsFilled};
ghost use Rattle.weedle_rules.specs.TableOfEnds.{IsCounted};

use crate::READS;
use crate::cell::Cell;
use std::alloc::{AllocError, Global};
use std::marker::Model;
use weedle_grammar::{Rule, TABLE_RULES};

/// A table that is being filled, from the last place to the first.
#[derive(Drop)]
pub(crate) struct Reader<'a, C: Cell> {
    text: &'a [u8],
    // the cells of each place, from the last place on
    rows: Vec<[C; TABLE_RULES]>,
    // how many are known in the rows before the last, and how many in the last
    before: u128,
    filled: usize,
    reads: u128,
    most: usize,
    is_open: bool,
}

impl<'a, C: Cell> Model for Reader<'a, C> {
    ghost use Rattle.std.specs.Prelude.{◌+◌, ◌*◌, length, vec_capacity};
    ghost use Rattle.weedle_grammar.specs.written.Bound.{table_count};
    ghost use Rattle.weedle_rules.specs.Filling.{Filling};

    ghost Value = { Filling };

    ghost use Rattle.weedle_rules.specs.ReaderView.{known_of, IsReader};

    ghost view = { λ r. record {
      text = r.text.now;
      known = known_of C.stands_for (r.before + r.filled) r.rows.items;
      laid = length r.rows.items * table_count;
      workings = r.before + r.filled;
      reads = r.reads;
      most = r.most;
      is_open = r.is_open;
    } };

    ghost invariant = { λ r. IsReader C.stands_for C.greatest r.text.now r.rows.items
        (vec_capacity r.rows) r.before (r.before + r.filled) r.reads r.most r.is_open };
}

/// The working-out of one cell: its rule and place, and how many looks it took so far. It can't be
/// let go: the counting view that began it closes it.
pub(crate) struct Working {
    rule: Rule,
    place: usize,
    count: usize,
}

impl Model for Working {
    ghost use Rattle.std.specs.Prelude.{◌≤◌};
    ghost use Rattle.weedle_rules.specs.written.Bound.{most_reads};
    ghost use Rattle.weedle_rules.specs.Filling.{Open};

    ghost Value = { Open };

    ghost view = { λ w. record { rule = w.rule; place = w.place; count = w.count } };

    ghost invariant = { λ w. w.count ≤ most_reads };
}

/// The cell of the rule in a row.
#[inline(always)]
fn in_row<C: Cell>(row: &[C; TABLE_RULES], rule: Rule) -> C
    requires { rule < table_count }
    ensures { result ≡ slice_index_or row.now rule result }
{
    row[rule.number() as usize]
}

impl<'a, C: Cell> Reader<'a, C> {
    /// A counting view of the text, with room for all cells, none of them known.
    #[inline(always)]
    pub(crate) fn new(alloc: Global, text: &'a [u8]) -> Result<Reader<'a, C>, AllocError>
        requires { length text.now ≤ C.greatest }
        ensures { IfOk result (λ reader. IsUnfilled reader text.entry.now) }
    {
        Ok(Reader {
            text,
            rows: Vec::with_capacity(alloc, text.len() + 1)?,
            before: 0,
            filled: 0,
            reads: 0,
            most: 0,
            is_open: false,
        })
    }

    /// Adds the cells of one more place, where all those before are known. None of them is known.
    #[inline(always)]
    pub(crate) fn lay(&mut self)
        requires room { self.old.laid + table_count ≤ (length self.old.text + 1) * table_count }
        requires full { length self.old.known ≡ self.old.laid }
        ensures { self.new ≡ record self.old { laid = self.old.laid + table_count } }
    {
        self.before += self.filled as u128;
        self.filled = 0;
        self.rows.push_reserved([C::pack(None); TABLE_RULES]);
    }

    /// How many cells were worked out.
    pub(crate) fn workings(&self) -> u128
        ensures { result ≡ self.now.workings }
    {
        self.before + self.filled as u128
    }

    /// How many looks the closed workings-out took.
    pub(crate) fn reads(&self) -> u128
        ensures { result ≡ self.now.reads }
    {
        self.reads
    }

    /// What always holds of the cells that are known and of the counts. It does nothing.
    #[inline(always)]
    pub(crate) fn recall(&self)
        ensures right { AllRight self.now.text self.now.known }
        ensures counted { IsCounted READS self.now.known self.now.workings self.now.reads
            self.now.most }
        ensures looked { self.now.workings ≤ self.now.reads }
        ensures bounded { self.now.reads ≤ READS * self.now.workings }
    {
        let _ = &self.filled;
    }

    /// How long the text is.
    #[inline(always)]
    pub(crate) fn text_len(&self) -> usize
        ensures { result ≡ length self.now.text }
    {
        self.text.len()
    }

    /// How many places it has: before each byte, and the end.
    #[inline(always)]
    pub(crate) fn places(&self) -> usize
        ensures { result ≡ length self.now.text + 1 }
    {
        self.text.len() + 1
    }

    /// A look at a byte; None at the end of the text.
    #[inline(always)]
    pub(crate) fn byte(&self, working: &mut Working, place: usize) -> Option<u8>
        requires opened { self.now.is_open ≡ true }
        requires room { working.old.count < READS }
        ensures value { result ≡ slice_get self.now.text place }
        ensures counted { working.new ≡ record working.old { count = working.old.count + 1 } }
    {
        working.count += 1;
        if place < self.text.len() {
            Some(self.text[place])
        } else {
            None
        }
    }

    /// What the cell of the rule at the place says.
    #[inline(always)]
    fn known(&self, rule: Rule, place: usize) -> Option<usize>
        requires low { rule < table_count }
        requires within { place ≤ length self.now.text }
        requires known { cell_number (length self.now.text) rule place < length self.now.known }
        ensures value { result ≡ cell_of self.now.text self.now.known rule place }
        ensures right { HasEnd self.now.text rule place result }
    {
        in_row(&self.rows[self.text.len() - place], rule).unpack()
    }

    /// A look at the cell of the rule at the place: where the rule ends, or None where it fails.
    #[inline(always)]
    pub(crate) fn cell(&self, working: &mut Working, rule: Rule, place: usize) -> Option<usize>
        requires low { rule < table_count }
        requires opened { self.now.is_open ≡ true }
        requires room { working.old.count < READS }
        requires within { place ≤ length self.now.text }
        requires known { cell_number (length self.now.text) rule place < length self.now.known }
        ensures right { HasEnd self.now.text rule place result }
        ensures counted { working.new ≡ record working.old { count = working.old.count + 1 } }
    {
        working.count += 1;
        self.known(rule, place)
    }

    /// What the cell of the rule at the place says, while none is being worked out. It counts
    /// nothing.
    #[inline(always)]
    pub(crate) fn asked(&self, rule: Rule, place: usize) -> Option<usize>
        requires low { rule < table_count }
        requires closed { self.now.is_open ≡ false }
        requires within { place ≤ length self.now.text }
        requires known { cell_number (length self.now.text) rule place < length self.now.known }
        ensures value { result ≡ cell_of self.now.text self.now.known rule place }
        ensures right { HasEnd self.now.text rule place result }
    {
        self.known(rule, place)
    }

    /// Begins the working-out of the next cell.
    #[inline(always)]
    pub(crate) fn begin(&mut self, rule: Rule, place: usize) -> Working
        requires low { rule < table_count }
        requires closed { self.old.is_open ≡ false }
        requires room { length self.old.known < self.old.laid }
        requires next { length self.old.known ≡ cell_number (length self.old.text) rule place }
        ensures begun { result ≡ record { rule = rule; place = place; count = 0 } }
        ensures opened { self.new ≡ record self.old { is_open = true } }
        ensures fits { length self.old.text < 2 ^ 64 }
    {
        self.is_open = true;
        Working {
            rule,
            place,
            count: 0,
        }
    }

    /// Closes the working-out with its outcome. It took a read at least.
    #[inline(always)]
    pub(crate) fn close(&mut self, working: Working, outcome: Option<usize>)
        requires low { working.rule < table_count }
        requires opened { self.old.is_open ≡ true }
        requires within { working.place ≤ length self.old.text }
        requires next { length self.old.known
            ≡ cell_number (length self.old.text) working.rule working.place }
        requires looked { 0 < working.count }
        requires right { HasEnd self.old.text working.rule working.place outcome }
        ensures { self.new ≡ record self.old {
          known = self.old.known ++ outcome ∷ [];
          is_open = false;
          workings = self.old.workings + 1;
          reads = self.old.reads + working.count;
          most = max self.old.most working.count;
        } }
    {
        let Working { rule, place, count } = working;
        let cell = rule.number() as usize;
        let row = self.text.len() - place;
        self.rows[row][cell] = C::pack(outcome);
        self.filled = cell + 1;
        self.reads += count as u128;
        self.most = self.most.max(count);
        self.is_open = false;
    }
}
