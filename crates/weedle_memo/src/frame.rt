//! Frames: rules with parts that are being worked out.

use weedle_grammar::Rule;

/// A rule that is being worked out at a place: which of its parts is next, where the parts before
/// it end, whether the part that a condition looks at was there, and how many looks it took so far.
///
/// It has 24 bytes, none of them padding: a copy of padding stalls what reads it next.
#[repr(C)]
#[derive(Clone, Copy)]
pub(crate) struct Frame {
    pub(crate) place: usize,
    pub(crate) end: usize,
    pub(crate) rule: Rule,
    pub(crate) part: u16,
    pub(crate) count: u16,
    pub(crate) present: bool,
    pub(crate) spare: u8,
}

/// What a frame comes to: it needs a rule at a place, or its own outcome is known.
pub(crate) enum Step {
    Needs(Rule, usize),
    Ends(Option<usize>),
}

/// What is known of a rule at a place.
pub(crate) enum Look {
    Known(Option<usize>),
    Unknown,
}
