//! Braces: of members, each on a line, and of an enum's values.

ghost use Rattle.std.specs.Prelude.{codes, OnOk, string_bytes};
ghost use Rattle.weedle_spell.specs.Forms.{◌then◌, each, separated_by};
ghost use Rattle.weedle_spell.specs.GenericParts.{braced_spelling, punctuated_non_empty_spelling};
ghost use Rattle.weedle_spell.specs.Tokens.{word as the_word};
ghost use Rattle.weedle_print.specs.Adds.{Adds};

use crate::error::PrintError;
use crate::layout::Layout;
use crate::list::{close_list, separate};
use crate::print::{Print, try_line};
use crate::texts::{last_word, push, word};
use weedle_base::term::Comma;
use weedle_parts::common::{Braced, PunctuatedNonEmpty};

/// Writes the brace in front of members, and puts each on a line.
fn open_body(is_empty: bool, out: &mut String, layout: &mut Layout) -> Result<(), PrintError>
    ensures { OnOk result
        (Adds (the_word (codes "{")) (string_bytes out.old) (string_bytes out.new)) }
{
    if is_empty {
        word(out, layout, "{")?;
        layout.open_body();
        layout.join();
        return Ok(());
    }
    last_word(out, layout, "{")?;
    layout.open_body();
    Ok(())
}

/// Writes members, each first on a line alone, to see whether it fits there with the extended
/// attributes in front of it.
#[tactic(auto, using(crate::proofs::EachFacts::each_steps))]
fn push_members<P: Print>(
    members: &Vec<P::Value>,
    out: &mut String,
    layout: &mut Layout,
) -> Result<(), PrintError>
    ensures { OnOk result
        (Adds (each P.spelling members.now.items) (string_bytes out.old) (string_bytes out.new)) }
{
    for member in members {
        let start = *layout;
        try_line::<P>(*out.allocator(), member, layout)?;
        P::print(member, out, layout)?;
        layout.end_item(&start);
    }
    Ok(())
}

/// Members in braces, as `{ stringifier; }`: each takes a line, and none is `{}`.
#[tactic(auto, using(crate::proofs::AddsFacts::adds_then))]
impl<P: Print> Print for Braced<Vec<P>> {
    type Value = Braced<Vec<P::Value>>;

    ghost spelling = { braced_spelling (λ v. each P.spelling v.items) };

    fn print(
        value: &Braced<Vec<P::Value>>,
        out: &mut String,
        layout: &mut Layout,
    ) -> Result<(), PrintError> {
        open_body(value.body.is_empty(), out, layout)?;
        push_members::<P>(&value.body, out, layout)?;
        layout.close_body();
        word(out, layout, "}")
    }
}

/// Writes values with commas between them, and the brace behind them.
#[tactic(auto, using(crate::proofs::AddsFacts::adds_then, crate::proofs::SeparatedFacts::separated_steps))]
fn push_values<P: Print>(
    values: &[P::Value],
    out: &mut String,
    layout: &mut Layout,
) -> Result<(), PrintError>
    ensures { OnOk result
        (Adds (separated_by P.spelling (the_word (codes ",")) values.now then the_word (codes "}"))
        (string_bytes out.old) (string_bytes out.new)) }
{
    let mut is_first = true;
    for value in values {
        separate(is_first, out, layout, ",")?;
        layout.begin_item();
        P::print(value, out, layout)?;
        is_first = false;
    }
    close_list(out, layout, "}")
}

/// Writes values as [`push_values`], on the line where they fit, else each on a line of its own.
#[tactic(auto, using(crate::proofs::AddsFacts::adds_copied))]
fn push_fitting<P: Print>(
    values: &[P::Value],
    out: &mut String,
    layout: &mut Layout,
) -> Result<(), PrintError>
    ensures { OnOk result
        (Adds (separated_by P.spelling (the_word (codes ",")) values.now then the_word (codes "}"))
        (string_bytes out.old) (string_bytes out.new)) }
{
    let start = *layout;
    let mut text = String::new(*out.allocator());
    layout.try_flat();
    push_values::<P>(values, &mut text, layout)?;
    layout.end_try(&start);
    if layout.fits(&start, 1) {
        return push(out, text.as_str());
    }
    let width = layout.break_list(&start);
    push_values::<P>(values, out, layout)?;
    layout.end_list(&start, width);
    Ok(())
}

/// The values of an enum, as `{ "a", "b" }`: on one line where they fit into 80 columns, else each
/// on a line. A list without values has no text.
impl<P: Print> Print for Braced<PunctuatedNonEmpty<P, Comma>> {
    type Value = Braced<PunctuatedNonEmpty<P::Value, Comma>>;

    ghost spelling = { braced_spelling
        (punctuated_non_empty_spelling P.spelling (the_word (codes ","))) };

    fn print(
        value: &Braced<PunctuatedNonEmpty<P::Value, Comma>>,
        out: &mut String,
        layout: &mut Layout,
    ) -> Result<(), PrintError> {
        let values = value.body.list.as_slice();
        if values.is_empty() {
            return Err(PrintError::NoText);
        }
        word(out, layout, "{")?;
        push_fitting::<P>(values, out, layout)?;
        Ok(())
    }
}
