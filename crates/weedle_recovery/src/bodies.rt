//! The body of a definition: its members, and what closes it.
#![tactic(auto, using(crate::proofs::CountFacts::counted_still))]

ghost use Rattle.std.specs.Prelude.{◌≡◌, ◌≤◌, IfOk, OnOk, IfSome, IfNone};
ghost use Rattle.weedle_recovery.specs.Counts.{IsCounted};
ghost use Rattle.weedle_recovery.specs.Recovery.{IsDivided};

use crate::definitions::{are_before_brace, begins, ends_body};
use crate::dialects::last_docs_of;
use crate::division::Division;
use crate::reading::Reading;
use crate::stops::{Goal, stop_behind};
use std::alloc::{AllocError, Global};
use weedle_grammar::Rule;

impl Division {
    /// Reads the members of a body and what closes it; what is no member is unread.
    pub(crate) fn body(
        &mut self,
        alloc: Global,
        text: &Reading<'_>,
        member: Rule,
        inside: usize,
    ) -> Result<usize, AllocError>
        requires divided { IsDivided text.now self.old.parts.items self.old.nodes.items
            self.old.definition inside }
        requires counted { IsCounted text.now self.old.parts.items self.old.limits.steps }
        ensures divided { IfOk result
            (λ e. IsDivided text.now self.new.parts.items self.new.nodes.items
            self.new.definition e) }
        ensures after { IfOk result (λ e. inside ≤ e) }
        ensures counted { OnOk result
            (IsCounted text.now self.new.parts.items self.new.limits.steps) }
    {
        let mut at = inside;
        loop {
            match self.take(alloc, text, member, at)? {
                Some(end) => {
                    if end == at {
                        return Ok(at);
                    }
                    at = end;
                }
                None => match self.end_body(alloc, text, at)? {
                    Some(end) => return Ok(end),
                    None => {
                        let end = stop_behind(
                            alloc,
                            text,
                            &Goal::Member(member),
                            at,
                            &mut self.limits,
                        )?;
                        self.leave(text, member, at, end)?;
                        if end == at || begins(alloc, text, end, &mut self.limits)? {
                            return Ok(end);
                        }
                        at = end;
                    }
                },
            }
        }
    }

    /// Reads what closes a body, where no member is read. Where the body goes on, the answer is
    /// None.
    fn end_body(
        &mut self,
        alloc: Global,
        text: &Reading<'_>,
        place: usize,
    ) -> Result<Option<usize>, AllocError>
        requires divided { IsDivided text.now self.old.parts.items self.old.nodes.items
            self.old.definition place }
        requires counted { IsCounted text.now self.old.parts.items self.old.limits.steps }
        ensures ended { IfOk result
            (λ o. IfSome o
            (λ e. IsDivided text.now self.new.parts.items self.new.nodes.items
            self.new.definition e)) }
        ensures after { IfOk result (λ o. IfSome o (λ e. place ≤ e)) }
        ensures goes { IfOk result
            (λ o. IfNone o
            (IsDivided text.now self.new.parts.items self.new.nodes.items
            self.new.definition place)) }
        ensures counted { OnOk result
            (IsCounted text.now self.new.parts.items self.new.limits.steps) }
    {
        if let Some(end) = self.take(alloc, text, Rule::CLOSE_BRACE, place)? {
            let end = self.close(alloc, text, end)?;
            return Ok(Some(end));
        }
        if let Some(end) = self.end_behind_docs(alloc, text, place)? {
            return Ok(Some(end));
        }
        if place >= text.len() || begins(alloc, text, place, &mut self.limits)? {
            let end = self.leave(text, Rule::CLOSE_BRACE, place, place)?;
            return Ok(Some(end));
        }
        if ends_body(alloc, text, place, &mut self.limits)? {
            self.leave(text, Rule::CLOSE_BRACE, place, place)?;
            let end = self.close(alloc, text, place)?;
            return Ok(Some(end));
        }
        Ok(None)
    }

    /// Reads the docstrings in front of what closes a body, which only today's rules have there,
    /// and what closes it. Where there are none, the answer is None.
    fn end_behind_docs(
        &mut self,
        alloc: Global,
        text: &Reading<'_>,
        place: usize,
    ) -> Result<Option<usize>, AllocError>
        requires divided { IsDivided text.now self.old.parts.items self.old.nodes.items
            self.old.definition place }
        requires counted { IsCounted text.now self.old.parts.items self.old.limits.steps }
        ensures ended { IfOk result
            (λ o. IfSome o
            (λ e. IsDivided text.now self.new.parts.items self.new.nodes.items
            self.new.definition e)) }
        ensures after { IfOk result (λ o. IfSome o (λ e. place ≤ e)) }
        ensures goes { IfOk result
            (λ o. IfNone o
            (IsDivided text.now self.new.parts.items self.new.nodes.items
            self.new.definition place)) }
        ensures counted { OnOk result
            (IsCounted text.now self.new.parts.items self.new.limits.steps) }
    {
        let Some(docs) = last_docs_of(text.dialect()) else {
            return Ok(None);
        };
        if !are_before_brace(alloc, text, docs, place, &mut self.limits)? {
            return Ok(None);
        }
        let Some(at) = self.take(alloc, text, docs, place)? else {
            return Ok(None);
        };
        let Some(behind) = self.take(alloc, text, Rule::CLOSE_BRACE, at)? else {
            return Ok(Some(at));
        };
        let end = self.close(alloc, text, behind)?;
        Ok(Some(end))
    }

    /// Reads the `;` behind a body.
    fn close(
        &mut self,
        alloc: Global,
        text: &Reading<'_>,
        place: usize,
    ) -> Result<usize, AllocError>
        requires divided { IsDivided text.now self.old.parts.items self.old.nodes.items
            self.old.definition place }
        requires counted { IsCounted text.now self.old.parts.items self.old.limits.steps }
        ensures divided { IfOk result
            (λ e. IsDivided text.now self.new.parts.items self.new.nodes.items
            self.new.definition e) }
        ensures after { IfOk result (λ e. place ≤ e) }
        ensures counted { OnOk result
            (IsCounted text.now self.new.parts.items self.new.limits.steps) }
    {
        match self.take(alloc, text, Rule::SEMI_COLON, place)? {
            Some(end) => Ok(end),
            None => self.leave(text, Rule::SEMI_COLON, place, place),
        }
    }
}
