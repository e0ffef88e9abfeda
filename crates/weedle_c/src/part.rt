//! Parts of a text as C has them.

ghost use Rattle.std.specs.Prelude.{◌≡◌, ◌≤◌, ◌↔◌, ◌++◌, All, IsTrue, count_by, drop, length, map};
ghost use Rattle.weedle_c.specs.Parts.{PartFits, c_part, is_unread, part_of as the_part_of};

use crate::node::MOST;
use weedle_grammar::{RULES, Rule, rule_of};
use weedle_recovery::Part;

/// A part of a text: a rule is read there, or it is unread.
#[repr(C)]
#[derive(Clone, Copy)]
pub struct WeedlePart {
    /// The number of the rule that is read; of an unread part of the one that fails at its start.
    pub rule: u32,
    /// 1 where it is read, and else 0.
    pub is_read: u32,
    /// Where it begins, in bytes from the front of the text.
    pub start: u32,
    /// Where it ends: the place behind its last byte.
    pub end: u32,
    /// Where the definition begins that it belongs to.
    pub definition: u32,
}

/// Whether each part fits into the numbers that C has for it.
pub(crate) fn all_parts_fit(found: &[Part]) -> bool
    ensures { IsTrue result ↔ All PartFits found.now }
{
    found.iter().all(part_fits)
}

/// Whether the part's places fit.
fn part_fits(part: &Part) -> bool
    ensures { IsTrue result ↔ PartFits part.now }
{
    part.start <= MOST && part.end <= MOST && part.definition <= MOST
}

/// How many parts are unread.
pub(crate) fn unread_in(found: &[Part]) -> usize
    ensures { result ≡ count_by is_unread found.now }
{
    found.iter().filter(|part| !part.is_read).count()
}

/// Writes the parts to the front of the room.
pub(crate) fn fill_parts(found: &[Part], room: &mut [WeedlePart])
    requires room { length found.now ≤ length room.old }
    requires fit { All PartFits found.now }
    ensures { room.new ≡ map c_part found.now ++ drop (length found.now) room.old }
{
    for (at, part) in found.iter().enumerate() {
        room[at] = packed(part);
    }
}

/// The part as C has it.
fn packed(part: &Part) -> WeedlePart
    requires { PartFits part.now }
    ensures { result ≡ c_part part.now }
{
    WeedlePart {
        rule: u32::from(part.rule.number()),
        is_read: u32::from(part.is_read),
        start: part.start as u32,
        end: part.end as u32,
        definition: part.definition as u32,
    }
}

/// The part that C has; what no rule has the number of is read, and so no unread part.
pub(crate) fn part_of(part: &WeedlePart) -> Part
    ensures { result ≡ the_part_of part.now }
{
    let is_rule = (part.rule as usize) < RULES;
    Part {
        rule: if is_rule {
            rule_of(part.rule as u16)
        } else {
            Rule::DEFINITIONS
        },
        is_read: !is_rule || part.is_read != 0,
        start: part.start as usize,
        end: part.end as usize,
        definition: part.definition as usize,
    }
}
