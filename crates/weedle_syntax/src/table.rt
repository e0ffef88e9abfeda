//! Where the rules end that a tree is made of.

ghost use Rattle.std.specs.Prelude.{◌≡◌, ◌≤◌, ◌<◌, length};
ghost use Rattle.weedle_grammar.specs.written.Bound.{table_count};
ghost use Rattle.weedle_memo.specs.Entries.{start_at};
ghost use Rattle.weedle_rules.specs.Cells.{HasEnd};
ghost use Rattle.weedle_syntax.specs.Table.{IsWanted, table_of};

use std::marker::Model;
use weedle_grammar::Rule;
use weedle_memo::RuleMemo;
use weedle_rules::Ends;

/// Every cell of a text, or those that the reading of one rule at one place needs.
#[derive(Clone, Copy)]
enum Known<'t, 'a> {
    Filled(&'t Ends<'a>),
    OnDemand(&'t RuleMemo<'a>),
}

/// Where the rules end that the tree of a rule at a place is made of: over the packrat table, or
/// over a memo.
#[derive(Drop)]
pub(crate) struct Table<'t, 'a> {
    text: &'a str,
    rule: Rule,
    place: usize,
    known: Known<'t, 'a>,
}

impl<'t, 'a> Model for Table<'t, 'a> {
    ghost use Rattle.weedle_syntax.specs.Table.{TableView, IsKnown, table_of};

    ghost Value = { TableView };

    ghost view = { λ table. table_of table.text.now table.rule table.place };

    ghost invariant = { λ table. IsKnown table.text.now table.rule table.place table.known };
}

impl<'t, 'a> Table<'t, 'a> {
    /// The packrat table of a text, for the tree of a rule at a place.
    pub(crate) fn of_ends(ends: &'t Ends<'a>, rule: Rule, place: usize) -> Table<'t, 'a>
        requires { rule < table_count }
        ensures { result ≡ table_of ends.now.text rule place }
    {
        Table {
            text: ends.text(),
            rule,
            place,
            known: Known::Filled(ends),
        }
    }

    /// The memo of a rule at a place, and the text that it was made of.
    pub(crate) fn of_memo(
        memo: &'t RuleMemo<'a>,
        text: &'a str,
        rule: Rule,
        place: usize,
    ) -> Table<'t, 'a>
        requires text { memo.now.text ≡ text.now }
        requires start { memo.now.start ≡ start_at rule place }
        ensures { result ≡ table_of text.entry.now rule place }
    {
        Table {
            text,
            rule,
            place,
            known: Known::OnDemand(memo),
        }
    }

    /// Where a rule ends at a place, or None where it fails there. It answers of what the reading
    /// tries.
    #[inline]
    pub(crate) fn end(&self, rule: Rule, place: usize) -> Option<usize>
        requires within { place ≤ length self.now.text }
        requires wanted { IsWanted self.now rule place }
        ensures right { HasEnd self.now.text rule place result }
    {
        match self.known {
            Known::Filled(ends) => ends.cell(rule, place),
            Known::OnDemand(memo) => memo.end(rule, place),
        }
    }

    /// The rule that the tree is of.
    pub(crate) fn rule(&self) -> Rule
        ensures { result ≡ self.now.start.rule }
    {
        self.rule
    }

    /// The place where it is read.
    pub(crate) fn place(&self) -> usize
        ensures { result ≡ self.now.start.place }
    {
        self.place
    }
}
