//! Panic mode: how the reading goes on where no definition is read.
#![tactic(auto, using(crate::proofs::CountFacts::counted_still))]

ghost use Rattle.std.specs.Prelude.{◌≡◌, ◌≤◌, ◌<◌, length, IfOk, OnOk};
ghost use Rattle.weedle_recovery.specs.Counts.{IsCounted};
ghost use Rattle.weedle_syntax.specs.Dialects.{definition_of};
ghost use Rattle.weedle_recovery.specs.Recovery.{DefinitionPasses, IsDivided};
ghost use Rattle.weedle_rules.specs.Outcomes.{FailsAt};

use crate::definitions::{
    MOST_PARTS, begun, failing_place, front_rule, member_behind, member_of, opened,
};
use crate::division::Division;
use crate::reading::Reading;
use crate::stops::{Goal, stop_behind};
use std::alloc::{AllocError, Global};
use weedle_grammar::Rule;

impl Division {
    /// Goes on where no definition is read, and says from where on one may be read again.
    pub(crate) fn go_on(
        &mut self,
        alloc: Global,
        text: &Reading<'_>,
        place: usize,
    ) -> Result<usize, AllocError>
        requires divided { IsDivided text.now self.old.parts.items self.old.nodes.items
            self.old.definition place }
        requires definition { self.old.definition ≡ place }
        requires fails { FailsAt text.now.text (definition_of text.now.dialect) place }
        requires unread { place < length text.now.text }
        requires counted { IsCounted text.now self.old.parts.items self.old.limits.steps }
        ensures divided { IfOk result
            (λ e. IsDivided text.now self.new.parts.items self.new.nodes.items
            self.new.definition e) }
        ensures onward { IfOk result (λ e. place < e) }
        ensures counted { OnOk result
            (IsCounted text.now self.new.parts.items self.new.limits.steps) }
    {
        match opened(alloc, text, place, &mut self.limits)? {
            Some(definition) => self.go_inside(alloc, text, definition, place),
            None => self.pass(alloc, text, place),
        }
    }

    /// Reads a definition with a body whose front is read.
    fn go_inside(
        &mut self,
        alloc: Global,
        text: &Reading<'_>,
        definition: Rule,
        place: usize,
    ) -> Result<usize, AllocError>
        requires divided { IsDivided text.now self.old.parts.items self.old.nodes.items
            self.old.definition place }
        requires definition { self.old.definition ≡ place }
        requires fails { FailsAt text.now.text (definition_of text.now.dialect) place }
        requires unread { place < length text.now.text }
        requires counted { IsCounted text.now self.old.parts.items self.old.limits.steps }
        ensures divided { IfOk result
            (λ e. IsDivided text.now self.new.parts.items self.new.nodes.items
            self.new.definition e) }
        ensures onward { IfOk result (λ e. place < e) }
        ensures counted { OnOk result
            (IsCounted text.now self.new.parts.items self.new.limits.steps) }
    {
        let inside = self.open(alloc, text, definition, place)?;
        if inside > place {
            self.body(alloc, text, member_of(definition), inside)
        } else {
            self.pass(alloc, text, inside)
        }
    }

    /// Passes over a definition whose front isn't read.
    fn pass(&mut self, alloc: Global, text: &Reading<'_>, place: usize) -> Result<usize, AllocError>
        requires divided { IsDivided text.now self.old.parts.items self.old.nodes.items
            self.old.definition place }
        requires definition { self.old.definition ≡ place }
        requires fails { FailsAt text.now.text (definition_of text.now.dialect) place }
        requires unread { place < length text.now.text }
        requires counted { IsCounted text.now self.old.parts.items self.old.limits.steps }
        ensures divided { IfOk result
            (λ e. IsDivided text.now self.new.parts.items self.new.nodes.items
            self.new.definition e) }
        ensures onward { IfOk result (λ e. place < e) }
        ensures counted { OnOk result
            (IsCounted text.now self.new.parts.items self.new.limits.steps) }
    {
        let brace = stop_behind(alloc, text, &Goal::Body, place, &mut self.limits)?;
        match member_behind(alloc, text, brace, &mut self.limits)? {
            Some(found) => {
                let at = self.leave_front(alloc, text, place, found.1)?;
                self.body(alloc, text, found.0, at)
            }
            None => {
                let end = stop_behind(alloc, text, &Goal::Definition, place, &mut self.limits)?;
                self.leave_front(alloc, text, place, end)
            }
        }
    }

    /// Reads the front of a definition with a body, and says where the body begins.
    fn open(
        &mut self,
        alloc: Global,
        text: &Reading<'_>,
        definition: Rule,
        place: usize,
    ) -> Result<usize, AllocError>
        requires divided { IsDivided text.now self.old.parts.items self.old.nodes.items
            self.old.definition place }
        requires counted { IsCounted text.now self.old.parts.items self.old.limits.steps }
        ensures divided { IfOk result
            (λ e. IsDivided text.now self.new.parts.items self.new.nodes.items
            self.new.definition e) }
        ensures after { IfOk result (λ e. place ≤ e) }
        ensures same { IfOk result (λ e. self.new.definition ≡ self.old.definition) }
        ensures counted { OnOk result
            (IsCounted text.now self.new.parts.items self.new.limits.steps) }
    {
        let mut at = place;
        for number in 0..MOST_PARTS {
            let Some(rule) = front_rule(text.dialect(), definition, number) else {
                return Ok(at);
            };
            match self.take(alloc, text, rule, at)? {
                Some(end) => at = end,
                None => return self.leave(text, rule, at, at),
            }
        }
        Ok(at)
    }

    /// Leaves a definition unread up to a place. Where it begins as one, its parts are read up to
    /// the one that fails.
    fn leave_front(
        &mut self,
        alloc: Global,
        text: &Reading<'_>,
        place: usize,
        end: usize,
    ) -> Result<usize, AllocError>
        requires divided { IsDivided text.now self.old.parts.items self.old.nodes.items
            self.old.definition place }
        requires fails { FailsAt text.now.text (definition_of text.now.dialect) place }
        requires definition { self.old.definition ≡ place }
        requires onward { place < end }
        requires within { end ≤ length text.now.text }
        requires passes { DefinitionPasses text.now.dialect text.now.text place end }
        requires counted { IsCounted text.now self.old.parts.items self.old.limits.steps }
        ensures divided { IfOk result
            (λ e. IsDivided text.now self.new.parts.items self.new.nodes.items
            self.new.definition e) }
        ensures onward { IfOk result (λ e. place < e) }
        ensures counted { OnOk result
            (IsCounted text.now self.new.parts.items self.new.limits.steps) }
    {
        match begun(alloc, text, place, &mut self.limits)? {
            Some(definition) => self.leave_begun(alloc, text, definition, place, end),
            None => self.leave_definition(text, place, end),
        }
    }

    /// Leaves a definition unread up to a place; its parts are read up to the one that fails, if
    /// that is there too.
    fn leave_begun(
        &mut self,
        alloc: Global,
        text: &Reading<'_>,
        definition: Rule,
        place: usize,
        end: usize,
    ) -> Result<usize, AllocError>
        requires divided { IsDivided text.now self.old.parts.items self.old.nodes.items
            self.old.definition place }
        requires fails { FailsAt text.now.text (definition_of text.now.dialect) place }
        requires definition { self.old.definition ≡ place }
        requires onward { place < end }
        requires within { end ≤ length text.now.text }
        requires passes { DefinitionPasses text.now.dialect text.now.text place end }
        requires counted { IsCounted text.now self.old.parts.items self.old.limits.steps }
        ensures divided { IfOk result
            (λ e. IsDivided text.now self.new.parts.items self.new.nodes.items
            self.new.definition e) }
        ensures onward { IfOk result (λ e. place < e) }
        ensures counted { OnOk result
            (IsCounted text.now self.new.parts.items self.new.limits.steps) }
    {
        let failing = failing_place(alloc, text, definition, place, &mut self.limits)?;
        if place < failing && failing <= end {
            self.leave_rest(alloc, text, definition, place, end)
        } else {
            self.leave_definition(text, place, end)
        }
    }

    /// Reads the parts of a definition up to the one that fails, and leaves the rest unread up to a
    /// place.
    fn leave_rest(
        &mut self,
        alloc: Global,
        text: &Reading<'_>,
        definition: Rule,
        place: usize,
        end: usize,
    ) -> Result<usize, AllocError>
        requires divided { IsDivided text.now self.old.parts.items self.old.nodes.items
            self.old.definition place }
        requires fails { FailsAt text.now.text (definition_of text.now.dialect) place }
        requires definition { self.old.definition ≡ place }
        requires onward { place < end }
        requires within { end ≤ length text.now.text }
        requires passes { DefinitionPasses text.now.dialect text.now.text place end }
        requires counted { IsCounted text.now self.old.parts.items self.old.limits.steps }
        ensures divided { IfOk result
            (λ e. IsDivided text.now self.new.parts.items self.new.nodes.items
            self.new.definition e) }
        ensures onward { IfOk result (λ e. place < e) }
        ensures counted { OnOk result
            (IsCounted text.now self.new.parts.items self.new.limits.steps) }
    {
        let mut at = place;
        for number in 0..MOST_PARTS {
            let Some(rule) = text.part(definition, number) else {
                break;
            };
            match self.take(alloc, text, rule, at)? {
                Some(next) => at = next,
                None => return self.leave_behind(text, rule, at, end),
            }
        }
        if at > place {
            return Ok(at);
        }
        self.leave_definition(text, at, end)
    }

    /// Leaves a definition unread up to a place, at whose start none is read.
    fn leave_definition(
        &mut self,
        text: &Reading<'_>,
        start: usize,
        end: usize,
    ) -> Result<usize, AllocError>
        requires divided { IsDivided text.now self.old.parts.items self.old.nodes.items
            self.old.definition start }
        requires fails { FailsAt text.now.text (definition_of text.now.dialect) start }
        requires order { start ≤ end }
        requires within { end ≤ length text.now.text }
        requires passes { DefinitionPasses text.now.dialect text.now.text self.old.definition end }
        requires counted { IsCounted text.now self.old.parts.items self.old.limits.steps }
        ensures divided { IfOk result
            (λ e. IsDivided text.now self.new.parts.items self.new.nodes.items
            self.new.definition e) }
        ensures end { IfOk result (λ e. e ≡ end) }
        ensures counted { OnOk result
            (IsCounted text.now self.new.parts.items self.new.limits.steps) }
    {
        self.leave(text, text.definition(), start, end)
    }

    /// Leaves the rest of a definition unread up to a place, whose rule fails behind the parts that
    /// are read; where these come further, it is missing.
    fn leave_behind(
        &mut self,
        text: &Reading<'_>,
        rule: Rule,
        start: usize,
        end: usize,
    ) -> Result<usize, AllocError>
        requires divided { IsDivided text.now self.old.parts.items self.old.nodes.items
            self.old.definition start }
        requires fails { FailsAt text.now.text rule start }
        requires within { end ≤ length text.now.text }
        requires passes { DefinitionPasses text.now.dialect text.now.text self.old.definition end }
        requires counted { IsCounted text.now self.old.parts.items self.old.limits.steps }
        ensures divided { IfOk result
            (λ e. IsDivided text.now self.new.parts.items self.new.nodes.items
            self.new.definition e) }
        ensures after { IfOk result (λ e. end ≤ e) }
        ensures counted { OnOk result
            (IsCounted text.now self.new.parts.items self.new.limits.steps) }
    {
        if start < end {
            self.leave(text, rule, start, end)
        } else {
            self.leave(text, rule, start, start)
        }
    }
}
