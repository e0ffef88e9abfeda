//! What a whole text has beside definitions: by today's rules docstrings and comments that no
//! definition follows.
#![tactic(auto, using(crate::proofs::CountFacts::counted_still))]

ghost use Rattle.std.specs.Prelude.{
  ◌≡◌,
  ◌≤◌,
  ◌<◌,
  ◌++◌,
  ◌∷◌,
  [],
  length,
  true,
  false,
  IfOk,
  OnOk,
  Some,
};
ghost use Rattle.weedle_recovery.specs.Counts.{IsCounted};
ghost use Rattle.weedle_recovery.specs.Recovery.{IsDivided};
ghost use Rattle.weedle_rules.specs.Outcomes.{EndsAt, FailsAt};
ghost use Rattle.weedle_syntax.specs.Dialects.{start_of, definition_of, item_of};

use crate::dialects::has_pieces;
use crate::division::Division;
use crate::reading::Reading;
use std::alloc::{AllocError, Global};
use weedle_grammar::Rule;
use weedle_syntax::Limits;

impl Division {
    /// Goes on where no definition is read: past what none follows, where the rest of the text is
    /// read whole, and else by panic mode.
    pub(crate) fn go_past(
        &mut self,
        alloc: Global,
        text: &Reading<'_>,
        place: usize,
    ) -> Result<usize, AllocError>
        requires divided { IsDivided text.now self.old.parts.items self.old.nodes.items
            self.old.definition place }
        requires definition { self.old.definition ≡ place }
        requires fails { FailsAt text.now.text (definition_of text.now.dialect) place }
        requires unread { place < length text.now.text }
        requires counted { IsCounted text.now self.old.parts.items self.old.limits.steps }
        ensures divided { IfOk result
            (λ e. IsDivided text.now self.new.parts.items self.new.nodes.items
            self.new.definition e) }
        ensures onward { IfOk result (λ e. place < e) }

        // Where the rest is read whole, one more piece of it is read.
        ensures whole { IfOk result
            (λ e. EndsAt text.now.text (start_of text.now.dialect) place (length text.now.text)
            → EndsAt text.now.text (item_of text.now.dialect) place e
            × (self.new.parts.items
            ≡ self.old.parts.items
            ++ record {
              rule = item_of text.now.dialect;
              is_read = true;
              start = place;
              end = e;
              definition = self.old.definition;
            }
            ∷ [])) }
        ensures counted { OnOk result
            (IsCounted text.now self.new.parts.items self.new.limits.steps) }
    {
        if is_whole_from(alloc, text, place, &mut self.limits)? {
            let piece = self.take_surely(alloc, text, text.item(), place)?;
            return Ok(piece);
        }
        let next = self.go_on(alloc, text, place)?;
        Ok(next)
    }

    /// Reads a rule at a place where it doesn't fail, and says where it ends.
    fn take_surely(
        &mut self,
        alloc: Global,
        text: &Reading<'_>,
        rule: Rule,
        place: usize,
    ) -> Result<usize, AllocError>
        requires divided { IsDivided text.now self.old.parts.items self.old.nodes.items
            self.old.definition place }
        requires never { FailsAt text.now.text rule place → ⊥ }
        requires counted { IsCounted text.now self.old.parts.items self.old.limits.steps }
        ensures read { IfOk result
            (λ e. EndsAt text.now.text rule place e
            × IsDivided text.now self.new.parts.items self.new.nodes.items
            self.new.definition e) }
        ensures added { IfOk result
            (λ e. self.new.parts.items
            ≡ self.old.parts.items
            ++ record {
              rule = rule;
              is_read = true;
              start = place;
              end = e;
              definition = self.old.definition;
            }
            ∷ []) }
        ensures counted { OnOk result
            (IsCounted text.now self.new.parts.items self.new.limits.steps) }
    {
        match self.take(alloc, text, rule, place)? {
            Some(end) => Ok(end),
            None => unreachable!(),
        }
    }
}

/// Whether the text is read whole from a place on where no definition is: by weedle2's rules it
/// isn't.
fn is_whole_from(
    alloc: Global,
    text: &Reading<'_>,
    place: usize,
    limits: &mut Limits,
) -> Result<bool, AllocError>
    requires fails { FailsAt text.now.text (definition_of text.now.dialect) place }
    requires unread { place < length text.now.text }
    ensures yes { IfOk result (λ is. is ≡ true
        → EndsAt text.now.text (start_of text.now.dialect) place (length text.now.text)) }
    ensures no { IfOk result (λ is. is ≡ false
        → ¬ EndsAt text.now.text (start_of text.now.dialect) place (length text.now.text)) }
    ensures falls { OnOk result (limits.new.steps ≤ limits.old.steps) }
{
    if has_pieces(text.dialect()) {
        let ends = ends_with_text(alloc, text, text.start(), place, limits)?;
        return Ok(ends);
    }
    Ok(false)
}

/// Whether a rule that is read at a place ends with the text.
fn ends_with_text(
    alloc: Global,
    text: &Reading<'_>,
    rule: Rule,
    place: usize,
    limits: &mut Limits,
) -> Result<bool, AllocError>
    requires { place ≤ length text.now.text }
    ensures yes { IfOk result
        (λ is. is ≡ true → EndsAt text.now.text rule place (length text.now.text)) }
    ensures no { IfOk result
        (λ is. is ≡ false → ¬ EndsAt text.now.text rule place (length text.now.text)) }
    ensures falls { OnOk result (limits.new.steps ≤ limits.old.steps) }
{
    let end = text.end_of(alloc, rule, place, limits)?;
    let is = is_at(end, text.len());
    Ok(is)
}

/// Whether an end is at a place.
fn is_at(end: Option<usize>, place: usize) -> bool
    ensures yes { result ≡ true → end ≡ Some place }
    ensures no { result ≡ false → ¬ (end ≡ Some place) }
{
    match end {
        Some(at) => at == place,
        None => false,
    }
}
