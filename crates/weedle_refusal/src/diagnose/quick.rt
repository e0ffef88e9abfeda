//! Descent, and the table where descent would take too long or too much of the stack: by weedle2's
//! rules, since a table has no others.

ghost use Rattle.std.specs.Prelude.{◌≡◌, ◌≤◌, ◌+◌, ◌-◌, ◌*◌, length, IfErr, IfOk, IfSome};
ghost use Rattle.weedle_refusal.specs.Descent.{AtMostSteps, DescentSteps, DescentStepsIn};
ghost use Rattle.weedle_refusal.specs.Diagnosis.{IsDiagnosis, IsDiagnosisIn};
ghost use Rattle.weedle_refusal.specs.declared.error.DialectError.TheVariants.{Memory};
ghost use Rattle.weedle_syntax.specs.declared.dialect.Dialect.TheVariants.{Weedle2};
ghost use Rattle.weedle_syntax.specs.Steps.{Spends};

use crate::diagnose::diagnosis::{Diagnosis, diagnose_from};
use crate::diagnose::opened::furthest_from;
use crate::error::DialectError;
use std::alloc::{AllocError, Global};
use weedle_rules::Ends;
use weedle_starts::source::Source;
use weedle_syntax::{Dialect, Limits};

/// How many rules descent may try for each byte of the text from the place on. For what people
/// write it tries 2 to 5.
const STEPS_A_BYTE: usize = 64;

/// How many more it may try, so that a short definition may have long extended attributes.
const MORE_STEPS: usize = 20_000;

/// How many rules descent may try in one another. Each takes some 370 bytes of the stack.
const DEPTH: usize = 380;

/// The same as [`diagnose_from`] without a table, or None where descent gives up.
///
/// For `interface A { readonly attribute long x };` it says 40, as the table does. It reads from
/// the place on what the rules try there, up to the first definition that isn't read, and nothing
/// behind that.
///
/// It asks for memory for the list alone. It takes some 30 to 100 nanoseconds for each byte that it
/// reads, and at most 200 kB of the stack. It gives up where it would have to try more than 64
/// rules for each byte from the place on and 20,000, as where extended attributes nest, or more
/// than 380 in one another, as of 63 `sequence<` that are open.
pub fn diagnose_by_descent(
    alloc: Global,
    text: &str,
    start: usize,
) -> Result<Option<Diagnosis>, AllocError>
    requires { start ≤ length text.now }
    ensures is { IfOk result
        (λ found. IfSome found (λ d. IsDiagnosis text.now start d.place d.expected.items)) }
    ensures few { IfOk result (λ found. IfSome found
        (λ d. AtMostSteps text.now start d.place (64 * (length text.now - start) + 20000))) }
{
    let mut limits = limits_of(text.len() - start);
    let found = diagnose_within(alloc, text, start, &mut limits)?;
    Ok(found)
}

/// The limits for so many bytes.
fn limits_of(length: usize) -> Limits
    ensures { result.steps ≤ 64 * length + 20000 }
{
    Limits {
        steps: length
            .saturating_mul(STEPS_A_BYTE)
            .saturating_add(MORE_STEPS),
        depth: DEPTH,
    }
}

/// The same as [`diagnose_from`] without a table, or None where the limits are spent.
///
/// Each rule that is tried takes one of the steps, and the depth says how many may be tried in one
/// another, of which each takes some 370 bytes of the stack. So several calls may share what they
/// may do together. Besides, it is what [`diagnose_by_descent`] is.
pub fn diagnose_within(
    alloc: Global,
    text: &str,
    start: usize,
    limits: &mut Limits,
) -> Result<Option<Diagnosis>, AllocError>
    requires { start ≤ length text.now }
    ensures is { IfOk result
        (λ found. IfSome found (λ d. IsDiagnosis text.now start d.place d.expected.items)) }
    ensures steps { IfOk result (λ found. IfSome found
        (λ d. Spends (DescentSteps text.now start d.place) limits.old.steps limits.new.steps)) }
{
    diagnose_within_in(alloc, text, start, limits, Dialect::Weedle2)
}

/// The same as [`diagnose_within`], by the rules of a dialect.
pub(crate) fn diagnose_within_in(
    alloc: Global,
    text: &str,
    start: usize,
    limits: &mut Limits,
    dialect: Dialect,
) -> Result<Option<Diagnosis>, AllocError>
    requires { start ≤ length text.now }
    ensures is { IfOk result (λ found. IfSome found
        (λ d. IsDiagnosisIn dialect text.now start d.place d.expected.items)) }
    ensures steps { IfOk result (λ found. IfSome found
        (λ d. Spends (DescentStepsIn dialect text.now start d.place)
        limits.old.steps limits.new.steps)) }
{
    let source = Source::new(text.as_bytes());
    let depth = limits.depth;
    match furthest_from(&source, start, &mut limits.steps, depth, dialect) {
        Ok(furthest) => {
            let expected = furthest.rules(alloc)?;
            Ok(Some(Diagnosis {
                place: furthest.place,
                expected,
            }))
        }
        Err(_) => {
            limits.depth = 0;
            Ok(None)
        }
    }
}

/// The same as [`diagnose_from`], by [`diagnose_by_descent`], and where that gives up over the
/// table.
///
/// So of what people write it takes no table, and the time for the one definition that isn't read,
/// however much follows it. For what nests deep it fills the table of the whole text, and marks
/// what is tried: together 1,592 bytes of memory for each byte.
pub fn diagnose_quick(alloc: Global, text: &str, start: usize) -> Result<Diagnosis, AllocError>
    requires { start ≤ length text.now }
    ensures { IfOk result (λ d. IsDiagnosis text.now start d.place d.expected.items) }
{
    if let Some(diagnosis) = diagnose_by_descent(alloc, text, start)? {
        return Ok(diagnosis);
    }
    let ends = Ends::new(alloc, text)?;
    diagnose_from(alloc, &ends, start)
}

/// The same as [`diagnose_quick`], by the rules of a dialect.
///
/// For `[Exposed=*] interface A { attribute long x };` it says 43 by today's rules, where a `;`
/// would go on; by weedle2's it says 9, where the `*` is.
///
/// By weedle2's rules it costs what [`diagnose_quick`] costs. By today's it reads by descent alone,
/// as [`diagnose_by_descent`] does, and where that gives up, the answer is
/// [`DialectError::TooDeep`].
pub fn diagnose_in(
    alloc: Global,
    text: &str,
    start: usize,
    dialect: Dialect,
) -> Result<Diagnosis, DialectError>
    requires { start ≤ length text.now }
    ensures is { IfOk result
        (λ d. IsDiagnosisIn dialect text.now start d.place d.expected.items) }

    // No text is too deep for weedle2's rules.
    ensures deep { dialect ≡ Weedle2 → IfErr result (λ e. e ≡ Memory) }
{
    let mut limits = limits_of(text.len() - start);
    if let Some(diagnosis) = diagnose_within_in(alloc, text, start, &mut limits, dialect)? {
        return Ok(diagnosis);
    }
    beyond_descent(alloc, text, start, dialect)
}

/// The same where descent gives up: over the table, if the dialect has one.
fn beyond_descent(
    alloc: Global,
    text: &str,
    start: usize,
    dialect: Dialect,
) -> Result<Diagnosis, DialectError>
    requires { start ≤ length text.now }
    ensures is { IfOk result
        (λ d. IsDiagnosisIn dialect text.now start d.place d.expected.items) }
    ensures deep { dialect ≡ Weedle2 → IfErr result (λ e. e ≡ Memory) }
{
    match dialect {
        Dialect::Weedle2 => over_table(alloc, text, start),
        Dialect::Today => Err(DialectError::TooDeep),
    }
}

/// The same over the packrat table.
fn over_table(alloc: Global, text: &str, start: usize) -> Result<Diagnosis, DialectError>
    requires { start ≤ length text.now }
    ensures is { IfOk result (λ d. IsDiagnosis text.now start d.place d.expected.items) }
    ensures memory { IfErr result (λ e. e ≡ Memory) }
{
    let ends = Ends::new(alloc, text)?;
    let diagnosis = diagnose_from(alloc, &ends, start)?;
    Ok(diagnosis)
}
