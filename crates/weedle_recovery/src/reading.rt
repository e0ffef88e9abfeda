//! One rule at one place of a text, by descent or over a packrat table, by the rules of a dialect.

ghost use Rattle.std.specs.Prelude.{
  ◌≡◌,
  ◌≤◌,
  ◌<◌,
  ◌+◌,
  ◌↔◌,
  length,
  drop,
  slice_index,
  slice_range,
  true,
  false,
  IfOk,
  IfSome,
  OnOk,
};
ghost use Rattle.std.specs.Bool.{OnFalse};
ghost use Rattle.std.specs.List.{slice_get};
ghost use Rattle.weedle_recovery.specs.Dialects.{beginnings_of, parts_of};
ghost use Rattle.weedle_recovery.specs.Stops.{IsReadAt};
ghost use Rattle.weedle_grammar.specs.Rows.{run_length, begins as begins_with_bytes};
ghost use Rattle.weedle_rules.specs.Cells.{HasEnd};
ghost use Rattle.weedle_rules.specs.Outcomes.{FailsAt};
ghost use Rattle.weedle_syntax.specs.Laid.{LaysNode};
ghost use Rattle.weedle_syntax.specs.Steps.{Spends, Steps};
ghost use Rattle.weedle_syntax.specs.Dialects.{start_of, item_of, definition_of};
ghost use Rattle.weedle_syntax.specs.declared.dialect.Dialect.TheVariants.{Weedle2};

use crate::dialects::{beginning_in, part_in};
use std::alloc::{AllocError, Global};
use std::marker::Model;
use weedle_grammar::scan::run;
use weedle_grammar::{Class, Rule, leaf_ends};
use weedle_rules::Ends;
use weedle_starts::source::Source;
use weedle_syntax::{Dialect, Limits, Node, lay_by_descent, lay_over_table};

/// A text that is read at any place by the rules of a dialect: by descent or, where it has one,
/// over its packrat table.
#[derive(Drop)]
pub(crate) struct Reading<'t> {
    bytes: &'t [u8],
    source: Source<'t>,
    ends: Option<&'t Ends<'t>>,
    /// How many rules descent may try.
    most: usize,
    dialect: Dialect,
}

impl<'t> Model for Reading<'t> {
    ghost use Rattle.std.specs.Prelude.{◌≡◌, IfSome, is_some};
    ghost use Rattle.weedle_recovery.specs.Counts.{ReadingView};

    ghost Value = { ReadingView };

    ghost view = { λ r. record {
      text = r.bytes.now;
      by_table = is_some r.ends;
      most = r.most;
      dialect = r.dialect;
    } };

    ghost invariant = { λ r. (r.source ≡ r.bytes.now)
        × IfSome r.ends (λ e. e.now.text ≡ r.bytes.now) };
}

impl<'t> Reading<'t> {
    /// A text that is read by descent, which may try so many rules.
    pub(crate) fn by_descent(bytes: &'t [u8], most: usize, dialect: Dialect) -> Reading<'t>
        ensures { result
            ≡ record { text = bytes.now; by_table = false; most = most; dialect = dialect } }
    {
        Reading {
            bytes,
            source: Source::new(bytes),
            ends: None,
            most,
            dialect,
        }
    }

    /// A text that is read by weedle2's rules over its packrat table.
    pub(crate) fn over_table(bytes: &'t [u8], ends: &'t Ends<'t>) -> Reading<'t>
        requires { ends.now.text ≡ bytes.now }
        ensures { result
            ≡ record { text = bytes.now; by_table = true; most = 0; dialect = Weedle2 } }
    {
        Reading {
            bytes,
            source: Source::new(bytes),
            ends: Some(ends),
            most: 0,
            dialect: Dialect::Weedle2,
        }
    }

    /// The dialect.
    pub(crate) fn dialect(&self) -> Dialect
        ensures { result ≡ self.now.dialect }
    {
        self.dialect
    }

    /// The rule of a definition.
    pub(crate) fn definition(&self) -> Rule
        ensures { result ≡ definition_of self.now.dialect }
    {
        self.dialect.definition()
    }

    /// The rule of which a whole text has many.
    pub(crate) fn item(&self) -> Rule
        ensures { result ≡ item_of self.now.dialect }
    {
        self.dialect.item()
    }

    /// The kind of definition of a number, and how many parts at its front show that it begins.
    pub(crate) fn beginning(&self, number: usize) -> Option<(Rule, usize)>
        ensures { result ≡ slice_get (beginnings_of self.now.dialect) number }
    {
        beginning_in(self.dialect, number)
    }

    /// The rule of a number among the parts of a definition of this kind.
    pub(crate) fn part(&self, definition: Rule, number: usize) -> Option<Rule>
        ensures { result ≡ slice_get (parts_of self.now.dialect definition) number }
    {
        part_in(self.dialect, definition, number)
    }

    /// The rule of a whole text.
    pub(crate) fn start(&self) -> Rule
        ensures { result ≡ start_of self.now.dialect }
    {
        self.dialect.start()
    }

    /// How many bytes there are.
    pub(crate) fn len(&self) -> usize
        ensures { result ≡ length self.now.text }
    {
        self.bytes.len()
    }

    /// The byte at a place.
    pub(crate) fn byte(&self, place: usize) -> u8
        requires { place < length self.now.text }
        ensures { result ≡ slice_index self.now.text place }
    {
        self.bytes[place]
    }

    /// The place behind a byte.
    pub(crate) fn behind(&self, place: usize) -> usize
        requires { place < length self.now.text }
        ensures { result ≡ place + 1 }
    {
        let len = self.bytes.len();
        if place < len { place + 1 } else { len }
    }

    /// Where the bytes of a class end at a place.
    #[tactic(auto, using(crate::proofs::TokenFacts::run_within))]
    pub(crate) fn end_of_run(&self, class: Class, place: usize) -> usize
        requires { place ≤ length self.now.text }
        ensures value { result ≡ place + run_length class (drop place self.now.text) }
        ensures within { result ≤ length self.now.text }
    {
        leaf_ends::end_of_run(class, self.bytes, place)
    }

    /// How many bytes of a class are at a place, up to another one.
    pub(crate) fn run_between(&self, class: Class, place: usize, end: usize) -> usize
        requires order { place ≤ end }
        requires within { end ≤ length self.now.text }
        ensures { result ≡ run_length class (slice_range self.now.text place end) }
    {
        run(class, &self.bytes[place..end])
    }

    /// Whether these bytes are at a place.
    pub(crate) fn stand_at(&self, bytes: &[u8], place: usize) -> bool
        requires { place ≤ length self.now.text }
        ensures { result ≡ begins_with_bytes bytes.now (drop place self.now.text) }
    {
        leaf_ends::end_of_bytes(bytes, self.bytes, place).is_some()
    }

    /// Where a rule ends that is read at a place, or None where it fails.
    pub(crate) fn end_of(
        &self,
        alloc: Global,
        rule: Rule,
        place: usize,
        limits: &mut Limits,
    ) -> Result<Option<usize>, AllocError>
        requires { place ≤ length self.now.text }
        ensures end { IfOk result (λ o. HasEnd self.now.text rule place o) }
        ensures after { IfOk result (λ o. IfSome o (λ end. place ≤ end)) }
        ensures within { IfOk result (λ o. IfSome o (λ end. end ≤ length self.now.text)) }
        ensures falls { OnOk result (limits.new.steps ≤ limits.old.steps) }
    {
        let end = self.end_either(alloc, rule, place, limits)?;
        Ok(end)
    }

    /// Where it ends, by descent or over the table.
    fn end_either(
        &self,
        alloc: Global,
        rule: Rule,
        place: usize,
        limits: &mut Limits,
    ) -> Result<Option<usize>, AllocError>
        requires { place ≤ length self.now.text }
        ensures end { IfOk result (λ o. HasEnd self.now.text rule place o) }
        ensures falls { OnOk result (limits.new.steps ≤ limits.old.steps) }
    {
        match self.ends {
            Some(ends) if rule.is_of_table() => Ok(ends.cell(rule, place)),
            _ => {
                let mut nodes = Vec::new(alloc);
                let end = lay_by_descent(&mut nodes, &self.source, rule, place, limits)?;
                Ok(end)
            }
        }
    }

    /// Whether a rule is read at a place.
    pub(crate) fn reads(
        &self,
        alloc: Global,
        rule: Rule,
        place: usize,
        limits: &mut Limits,
    ) -> Result<bool, AllocError>
        requires { place ≤ length self.now.text }
        ensures yes { IfOk result (λ is. is ≡ true → IsReadAt self.now.text rule place) }
        ensures no { IfOk result (λ is. is ≡ false → FailsAt self.now.text rule place) }
        ensures falls { OnOk result (limits.new.steps ≤ limits.old.steps) }
    {
        match self.end_of(alloc, rule, place, limits)? {
            Some(_) => Ok(true),
            None => Ok(false),
        }
    }

    /// Writes the nodes of a rule that is read at a place, and says where it ends; where it fails,
    /// nothing is written.
    pub(crate) fn lay(
        &self,
        alloc: Global,
        nodes: &mut Vec<Node>,
        rule: Rule,
        place: usize,
        limits: &mut Limits,
    ) -> Result<Option<usize>, AllocError>
        requires { place ≤ length self.now.text }
        ensures end { IfOk result (λ o. HasEnd self.now.text rule place o) }
        ensures lays { IfOk result
            (λ o. LaysNode self.now.text rule place 0 nodes.old.items nodes.new.items o) }
        ensures steps { OnOk result
            (OnFalse self.now.by_table
            (Spends (Steps self.now.text rule place) limits.old.steps limits.new.steps)) }
        ensures falls { OnOk result (limits.new.steps ≤ limits.old.steps) }
    {
        match self.ends {
            Some(ends) => lay_over_table(alloc, nodes, ends, rule, place),
            _ => lay_by_descent(nodes, &self.source, rule, place, limits),
        }
    }
}
