//! Extended attributes without arguments.
#![tactic(auto, using(crate::proofs::AddsFacts::adds_then))]

ghost use Rattle.std.specs.Prelude.{codes, OnOk, string_bytes};
ghost use Rattle.weedle_print.specs.Adds.{Adds};
ghost use Rattle.weedle_spell.specs.Forms.{separated_by};
ghost use Rattle.weedle_spell.specs.GenericParts.{parenthesized_spelling};
ghost use Rattle.weedle_spell.specs.Leaves.{terminal};
ghost use Rattle.weedle_spell.specs.Tokens.{word as the_word};
ghost use Rattle.weedle_spell.specs.written.PlainAttributes.{
  extended_attribute_ident_list_spelling,
  extended_attribute_ident_spelling,
  identifier_list_spelling,
  identifier_or_string_spelling,
};

use crate::error::PrintError;
use crate::layout::Layout;
use crate::list::separate;
use crate::print::Print;
use weedle_base::term::{Assign, CloseParen, OpenParen};
use weedle_parts::common::{Identifier, Parenthesized};
use weedle_parts::literal::StringLit;
use weedle_types::attribute::{
    ExtendedAttributeIdent, ExtendedAttributeIdentList, IdentifierList, IdentifierOrString,
};

/// Writes the `=` of an extended attribute, with nothing in front of it and behind it.
pub(crate) fn print_assign(
    assign: &Assign,
    out: &mut String,
    layout: &mut Layout,
) -> Result<(), PrintError>
    ensures { OnOk result
        (Adds (terminal (codes "=") assign.now) (string_bytes out.old) (string_bytes out.new)) }
{
    layout.join();
    Assign::print(assign, out, layout)?;
    layout.join();
    Ok(())
}

/// Writes an extended attribute with a name or a string, as `PutForwards=name`.
pub(crate) fn print_ident(
    attribute: &ExtendedAttributeIdent<'_>,
    out: &mut String,
    layout: &mut Layout,
) -> Result<(), PrintError>
    ensures { OnOk result
        (Adds (extended_attribute_ident_spelling attribute.now) (string_bytes out.old)
        (string_bytes out.new)) }
{
    Identifier::print(&attribute.lhs_identifier, out, layout)?;
    print_assign(&attribute.assign, out, layout)?;
    print_identifier_or_string(&attribute.rhs, out, layout)
}

/// Writes a name or a string.
pub(crate) fn print_identifier_or_string(
    value: &IdentifierOrString<'_>,
    out: &mut String,
    layout: &mut Layout,
) -> Result<(), PrintError>
    ensures { OnOk result
        (Adds (identifier_or_string_spelling value.now) (string_bytes out.old)
        (string_bytes out.new)) }
{
    match value {
        IdentifierOrString::Identifier(value) => Identifier::print(value, out, layout),
        IdentifierOrString::String(value) => StringLit::print(value, out, layout),
    }
}

/// Writes an extended attribute with names, as `Exposed=(Window,Worker)`.
pub(crate) fn print_ident_list(
    attribute: &ExtendedAttributeIdentList<'_>,
    out: &mut String,
    layout: &mut Layout,
) -> Result<(), PrintError>
    ensures { OnOk result
        (Adds (extended_attribute_ident_list_spelling attribute.now) (string_bytes out.old)
        (string_bytes out.new)) }
{
    Identifier::print(&attribute.identifier, out, layout)?;
    print_assign(&attribute.assign, out, layout)?;
    print_names(&attribute.list, out, layout)
}

/// Writes names in parentheses, as `(Window,Worker)`.
pub(crate) fn print_names(
    names: &Parenthesized<IdentifierList<'_>>,
    out: &mut String,
    layout: &mut Layout,
) -> Result<(), PrintError>
    ensures { OnOk result
        (Adds (parenthesized_spelling identifier_list_spelling names.now) (string_bytes out.old)
        (string_bytes out.new)) }
{
    OpenParen::print(&names.open_paren, out, layout)?;
    print_identifier_list(&names.body, out, layout)?;
    CloseParen::print(&names.close_paren, out, layout)
}

/// Puts a value of a list with nothing in front, except for the first one.
fn join_next(is_first: bool, layout: &mut Layout) {
    if !is_first {
        layout.join();
    }
}

/// Writes names with commas between them, as `Window,Worker`.
pub(crate) fn print_identifier_list(
    names: &IdentifierList<'_>,
    out: &mut String,
    layout: &mut Layout,
) -> Result<(), PrintError>
    ensures { OnOk result
        (Adds (identifier_list_spelling names.now) (string_bytes out.old) (string_bytes out.new)) }
{
    push_joined::<Identifier<'_>>(&names.list, out, layout)
}

/// Writes values with commas between them, and nothing behind a comma.
#[tactic(auto, using(crate::proofs::SeparatedFacts::separated_steps))]
fn push_joined<P: Print>(
    values: &Vec<P::Value>,
    out: &mut String,
    layout: &mut Layout,
) -> Result<(), PrintError>
    ensures { OnOk result
        (Adds (separated_by P.spelling (the_word (codes ",")) values.now.items)
        (string_bytes out.old) (string_bytes out.new)) }
{
    let mut is_first = true;
    for value in values {
        separate(is_first, out, layout, ",")?;
        join_next(is_first, layout);
        P::print(value, out, layout)?;
        is_first = false;
    }
    Ok(())
}
