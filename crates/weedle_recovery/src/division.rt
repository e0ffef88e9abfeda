//! The parts of a text, one behind another.
#![tactic(auto, using(crate::proofs::CountFacts::counted_still))]

ghost use Rattle.std.specs.Prelude.{
  ◌≡◌,
  ◌≤◌,
  length,
  ◌++◌,
  ◌∷◌,
  [],
  true,
  All,
  IfOk,
  IfSome,
  IfNone,
  OnOk,
};
ghost use Rattle.weedle_recovery.specs.Counts.{IsCounted};
ghost use Rattle.weedle_recovery.specs.Recovery.{
  ArePartsIn,
  IsDefinitionIn,
  IsDivided,
  IsPassed,
  roots_of,
  unread,
};
ghost use Rattle.weedle_rules.specs.Outcomes.{EndsAt, FailsAt};
ghost use Rattle.weedle_syntax.specs.Dialects.{IsWholeIn};
ghost use Rattle.weedle_syntax.specs.Syntax.{AreTrees};

use crate::part::Part;
use crate::reading::Reading;
use std::alloc::{AllocError, Global};
use weedle_grammar::Rule;
use weedle_syntax::{Limits, Node};

/// A text that is divided up to a place.
#[derive(Drop)]
pub(crate) struct Division {
    /// The parts so far.
    pub(crate) parts: Vec<Part>,
    /// The nodes of those that are read.
    pub(crate) nodes: Vec<Node>,
    /// Where the definition begins that is read now.
    pub(crate) definition: usize,
    /// What descent may still do.
    pub(crate) limits: Limits,
}

impl Division {
    /// Divides a text whose front isn't divided yet.
    pub(crate) fn divide(&mut self, alloc: Global, text: &Reading<'_>) -> Result<(), AllocError>
        requires none { self.old.parts.items ≡ [] }
        requires bare { self.old.nodes.items ≡ [] }
        requires front { self.old.definition ≡ 0 }
        requires most { self.old.limits.steps ≤ text.now.most }
        ensures whole { IsWholeIn text.now.dialect text.now.text
            → OnOk result (All (IsDefinitionIn text.now.dialect) self.new.parts.items) }
        ensures cover { OnOk result
            (ArePartsIn text.now.dialect text.now.text 0 (length text.now.text)
            self.new.parts.items) }
        ensures nodes { OnOk result
            (AreTrees text.now.text (roots_of self.new.parts.items) self.new.nodes.items) }
        ensures counted { OnOk result
            (IsCounted text.now self.new.parts.items self.new.limits.steps) }
    {
        let definition = text.definition();
        let mut at = 0;
        while at < text.len() {
            self.definition = at;
            match self.take(alloc, text, definition, at)? {
                Some(end) => at = end,
                None => at = self.go_past(alloc, text, at)?,
            }
        }
        Ok(())
    }

    /// Reads a rule at a place, and says where it ends; where it fails, nothing is kept.
    pub(crate) fn take(
        &mut self,
        alloc: Global,
        text: &Reading<'_>,
        rule: Rule,
        place: usize,
    ) -> Result<Option<usize>, AllocError>
        requires divided { IsDivided text.now self.old.parts.items self.old.nodes.items
            self.old.definition place }
        requires counted { IsCounted text.now self.old.parts.items self.old.limits.steps }
        ensures read { IfOk result
            (λ o. IfSome o
            (λ end. EndsAt text.now.text rule place end
            × IsDivided text.now self.new.parts.items self.new.nodes.items
            self.new.definition end)) }
        ensures added { IfOk result
            (λ o. IfSome o
            (λ end. self.new.parts.items
            ≡ self.old.parts.items
            ++ record {
              rule = rule;
              is_read = true;
              start = place;
              end = end;
              definition = self.old.definition;
            }
            ∷ [])) }
        ensures not { IfOk result
            (λ o. IfNone o
            (FailsAt text.now.text rule place
            × IsDivided text.now self.new.parts.items self.new.nodes.items
            self.new.definition place)) }
        ensures kept { IfOk result
            (λ o. IfNone o (self.new.parts.items ≡ self.old.parts.items)) }
        ensures after { IfOk result (λ o. IfSome o (λ end. place ≤ end)) }
        ensures within { IfOk result (λ o. IfSome o (λ end. end ≤ length text.now.text)) }
        ensures same { self.new.definition ≡ self.old.definition }
        ensures counted { OnOk result
            (IsCounted text.now self.new.parts.items self.new.limits.steps) }
    {
        match text.lay(alloc, &mut self.nodes, rule, place, &mut self.limits)? {
            Some(end) => {
                self.parts.push(Part {
                    rule,
                    is_read: true,
                    start: place,
                    end,
                    definition: self.definition,
                })?;
                Ok(Some(end))
            }
            None => Ok(None),
        }
    }

    /// Leaves a part unread, at whose start the rule fails.
    pub(crate) fn leave(
        &mut self,
        text: &Reading<'_>,
        rule: Rule,
        start: usize,
        end: usize,
    ) -> Result<usize, AllocError>
        requires divided { IsDivided text.now self.old.parts.items self.old.nodes.items
            self.old.definition start }
        requires fails { FailsAt text.now.text rule start }
        requires order { start ≤ end }
        requires within { end ≤ length text.now.text }
        requires passed { IsPassed text.now.dialect text.now.text
            (unread rule start end self.old.definition) }
        requires counted { IsCounted text.now self.old.parts.items self.old.limits.steps }
        ensures divided { IfOk result
            (λ e. IsDivided text.now self.new.parts.items self.new.nodes.items
            self.new.definition e) }
        ensures end { IfOk result (λ e. e ≡ end) }
        ensures same { self.new.definition ≡ self.old.definition }
        ensures counted { OnOk result
            (IsCounted text.now self.new.parts.items self.new.limits.steps) }
    {
        let _ = text;
        self.parts.push(Part {
            rule,
            is_read: false,
            start,
            end,
            definition: self.definition,
        })?;
        Ok(end)
    }
}
