//! The parts of a whole text.

ghost use Rattle.std.specs.Prelude.{◌≡◌, ◌≤◌, length, All, IfErr, IfOk};
ghost use Rattle.weedle_recovery.specs.Counts.{IsCounted};
ghost use Rattle.weedle_recovery.specs.Recovery.{
  AreParts,
  ArePartsIn,
  roots_of,
  IsDefinition,
  IsDefinitionIn,
};
ghost use Rattle.weedle_refusal.specs.declared.error.DialectError.TheVariants.{Memory};
ghost use Rattle.weedle_syntax.specs.Dialects.{IsWholeIn};
ghost use Rattle.weedle_syntax.specs.Syntax.{AreTrees, IsWhole};
ghost use Rattle.weedle_syntax.specs.declared.dialect.Dialect.TheVariants.{Weedle2};

use crate::counted::recover_counted;
use crate::division::Division;
use crate::part::Part;
use crate::reading::Reading;
use std::alloc::{AllocError, Global};
use weedle_refusal::DialectError;
use weedle_syntax::{Dialect, Limits, Node};

/// How many rules descent may try for each byte by rules that have no packrat table to go on with,
/// so that a text may be errors throughout.
const STEPS_A_BYTE: usize = 256;

/// How many more it may try, so that a short text may have long extended attributes.
const MORE_STEPS: usize = 20_000;

/// The parts of a text, and the nodes of those that are read.
#[derive(Debug, Drop)]
pub struct Recovered {
    /// The parts, one behind another. They join to the text.
    pub parts: Vec<Part>,
    /// The nodes of the parts that are read, in their order, each part's in preorder. The first of
    /// a part is of depth 0.
    pub nodes: Vec<Node>,
}

/// Divides a text into parts: what is read of it, and what isn't.
///
/// For a text that is read whole, the parts are its definitions. For
/// `interface A { long x; }; enum E { "a" "b" }; typedef long T;` the interface's member isn't
/// read: its keywords, its name and its `{` are parts, `long x; ` is an unread one, and `}` and `;`
/// are parts again. In the enum `enum ` and `E ` are read, and the rest isn't; the typedef is.
///
/// Where no definition is read, the text is passed over up to the next synchronisation point: a
/// token that is the first of its line or follows a `;` or a `}`, at which a definition begins. In
/// the body of a definition the members are parts of their own, and the next member ends an unread
/// one too.
///
/// It reads by descent within limits, and asks for memory for parts and nodes alone; where the
/// limits are spent it takes the packrat table, which needs some 1,600 bytes of memory for each
/// byte of the text. Where memory is refused, the answer is an error.
pub fn recover(alloc: Global, raw: &str) -> Result<Recovered, AllocError>
    // For a text that is read whole, the parts are its definitions.
    ensures whole { IsWhole raw.now → IfOk result (λ f. All IsDefinition f.parts.items) }

    // The parts are the text, each behind the one before. A rule is read in each, or fails where it
    // begins.
    ensures cover { IfOk result (λ f. AreParts raw.now 0 (length raw.now) f.parts.items) }
    ensures nodes { IfOk result (λ f. AreTrees raw.now (roots_of f.parts.items) f.nodes.items) }
{
    let counted = recover_counted(alloc, raw)?;
    Ok(counted.found)
}

/// Divides a text into parts by the rules of a dialect.
///
/// For a text that is read whole, the parts are its definitions; by today's rules each docstring
/// and each comment that no definition follows is one too, of the rule `TODAY_PIECE`. For
/// `[Exposed=*] interface A { long x; /// d` and `};` in the next line the front is read by today's
/// rules up to the `{`, `long x; ` is unread, and the docstring, `}` and `;` are read.
///
/// By weedle2's rules it costs what [`recover`] costs. By today's it reads by descent alone, in at
/// most 256 steps for each byte and 20,000 more, 400 nodes deep. Where these limits are spent, as
/// of some 50 `sequence<` that are open, the answer is [`DialectError::TooDeep`].
pub fn recover_in(alloc: Global, raw: &str, dialect: Dialect) -> Result<Recovered, DialectError>
    // For a text that is read whole, the parts are its definitions.
    ensures whole { IsWholeIn dialect raw.now
        → IfOk result (λ f. All (IsDefinitionIn dialect) f.parts.items) }

    // The parts are the text, each behind the one before. A rule is read in each, or fails where it
    // begins.
    ensures cover { IfOk result
        (λ f. ArePartsIn dialect raw.now 0 (length raw.now) f.parts.items) }
    ensures nodes { IfOk result (λ f. AreTrees raw.now (roots_of f.parts.items) f.nodes.items) }

    // No text is too deep for weedle2's rules.
    ensures deep { dialect ≡ Weedle2 → IfErr result (λ e. e ≡ Memory) }
{
    match dialect {
        Dialect::Weedle2 => recover_weedle2(alloc, raw),
        Dialect::Today => recover_by_descent(alloc, raw, dialect),
    }
}

/// The same by weedle2's rules.
fn recover_weedle2(alloc: Global, raw: &str) -> Result<Recovered, DialectError>
    ensures whole { IsWhole raw.now → IfOk result (λ f. All IsDefinition f.parts.items) }
    ensures cover { IfOk result (λ f. AreParts raw.now 0 (length raw.now) f.parts.items) }
    ensures nodes { IfOk result (λ f. AreTrees raw.now (roots_of f.parts.items) f.nodes.items) }
    ensures memory { IfErr result (λ e. e ≡ Memory) }
{
    let found = recover(alloc, raw)?;
    Ok(found)
}

/// The same by descent alone.
fn recover_by_descent(alloc: Global, raw: &str, dialect: Dialect) -> Result<Recovered, DialectError>
    ensures whole { IsWholeIn dialect raw.now
        → IfOk result (λ f. All (IsDefinitionIn dialect) f.parts.items) }
    ensures cover { IfOk result
        (λ f. ArePartsIn dialect raw.now 0 (length raw.now) f.parts.items) }
    ensures nodes { IfOk result (λ f. AreTrees raw.now (roots_of f.parts.items) f.nodes.items) }
{
    let steps = raw
        .len()
        .saturating_mul(STEPS_A_BYTE)
        .saturating_add(MORE_STEPS);
    let mut limits = Limits::of_length(raw.len());
    limits.steps = steps;
    let text = Reading::by_descent(raw.as_bytes(), steps, dialect);
    match divided(alloc, &text, &mut limits) {
        Ok(found) => Ok(found),
        Err(_) => {
            if limits.are_spent() {
                return Err(DialectError::TooDeep);
            }
            Err(DialectError::Memory)
        }
    }
}

/// The parts of a text that is read by descent or over its table.
pub(crate) fn divided(
    alloc: Global,
    text: &Reading<'_>,
    limits: &mut Limits,
) -> Result<Recovered, AllocError>
    requires most { limits.old.steps ≤ text.now.most }
    ensures whole { IsWholeIn text.now.dialect text.now.text
        → IfOk result (λ f. All (IsDefinitionIn text.now.dialect) f.parts.items) }
    ensures cover { IfOk result (λ f. ArePartsIn text.now.dialect text.now.text
        0 (length text.now.text) f.parts.items) }
    ensures nodes { IfOk result
        (λ f. AreTrees text.now.text (roots_of f.parts.items) f.nodes.items) }
    ensures counted { IfOk result (λ f. IsCounted text.now f.parts.items limits.new.steps) }
{
    let mut found = Division {
        parts: Vec::new(alloc),
        nodes: Vec::new(alloc),
        definition: 0,
        limits: *limits,
    };
    let done = found.divide(alloc, text);
    *limits = found.limits;
    done?;
    Ok(Recovered {
        parts: found.parts,
        nodes: found.nodes,
    })
}
