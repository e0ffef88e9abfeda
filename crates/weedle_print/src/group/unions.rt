//! Unions.
#![tactic(auto, using(crate::proofs::AddsFacts::adds_then, crate::proofs::VariantFacts::variant_steps, weedle_types::proofs::TreeLaws::clone_steps))]

ghost use Rattle.std.specs.Prelude.{codes, OnOk, string_bytes};
ghost use Rattle.weedle_print.specs.Adds.{Adds};
ghost use Rattle.weedle_spell.specs.Forms.{◌then◌, separated_by};
ghost use Rattle.weedle_spell.specs.GenericParts.{may_be_null_spelling};
ghost use Rattle.weedle_spell.specs.Tokens.{word as the_word};
ghost use Rattle.weedle_spell.specs.RecursiveTypes.{union_member_type_spelling};
ghost use Rattle.weedle_spell.specs.written.Types.{union_type_spelling};

use super::types::print_attributed_non_any_type;
use crate::error::PrintError;
use crate::layout::Layout;
use crate::list::{close_list, separate};
use crate::print::Print;
use crate::texts::{push, word};
use weedle_base::term::QMark;
use weedle_parts::types::MayBeNull;
use weedle_types::types::{UnionMemberType, UnionType};

/// Writes a union that may be null, as `(long or DOMString)?`.
#[cycle(prints)]
pub(crate) fn print_nullable_union_type(
    type_: &MayBeNull<UnionType<'_>>,
    out: &mut String,
    layout: &mut Layout,
) -> Result<(), PrintError>
    ensures { OnOk result
        (Adds (may_be_null_spelling union_type_spelling type_.now) (string_bytes out.old)
        (string_bytes out.new)) }
{
    print_union_type(&type_.type_, out, layout)?;
    Option::<QMark>::print(&type_.q_mark, out, layout)
}

/// Writes a union, as `(long or DOMString)`: on the line where it fits with what follows it, else
/// each type on a line.
#[cycle(prints)]
#[tactic(auto, using(crate::proofs::AddsFacts::adds_then, crate::proofs::AddsFacts::adds_copied, weedle_types::proofs::TreeLaws::clone_steps))]
pub(crate) fn print_union_type(
    type_: &UnionType<'_>,
    out: &mut String,
    layout: &mut Layout,
) -> Result<(), PrintError>
    ensures { OnOk result
        (Adds (union_type_spelling type_.now) (string_bytes out.old) (string_bytes out.new)) }
{
    word(out, layout, "(")?;
    let start = *layout;
    layout.try_flat();
    if start.is_flat() || type_.body.list.is_empty() {
        push_members(&type_.body.list, out, layout)?;
        layout.end_try(&start);
        return Ok(());
    }
    let mut text = String::new(*out.allocator());
    push_members(&type_.body.list, &mut text, layout)?;
    layout.end_try(&start);
    if layout.fits_with_rest(&start) {
        return push(out, text.as_str());
    }
    let width = layout.break_list(&start);
    push_members(&type_.body.list, out, layout)?;
    layout.end_list(&start, width);
    Ok(())
}

/// Writes members of a union with `or` between them, and the parenthesis behind them. Where each has
/// a line, it is first written on a line alone.
#[cycle(prints)]
#[tactic(auto, using(crate::proofs::AddsFacts::adds_then, crate::proofs::SeparatedFacts::separated_steps, weedle_types::proofs::TreeLaws::clone_steps, weedle_types::proofs::Smaller::member_smaller))]
pub(crate) fn push_members(
    members: &Vec<UnionMemberType<'_>>,
    out: &mut String,
    layout: &mut Layout,
) -> Result<(), PrintError>
    ensures { OnOk result
        (Adds (separated_by union_member_type_spelling (the_word (codes "or")) members.now.items
        then the_word (codes ")"))
        (string_bytes out.old) (string_bytes out.new)) }
{
    let mut is_first = true;
    let mut left = members.len();
    for member in members {
        separate(is_first, out, layout, "or")?;
        layout.begin_item();
        left = left.saturating_sub(1);
        let start = *layout;
        if !layout.is_flat() {
            let mut text = String::new(*out.allocator());
            layout.try_line();
            print_union_member_type(member, &mut text, layout)?;
            layout.end_line_try(&start, if left > 0 { 3 } else { 0 });
        }
        print_union_member_type(member, out, layout)?;
        layout.end_item(&start);
        is_first = false;
    }
    close_list(out, layout, ")")
}

/// Writes a member of a union, as `[Clamp] octet` or `(long or DOMString)`.
#[cycle(prints)]
pub(crate) fn print_union_member_type(
    member: &UnionMemberType<'_>,
    out: &mut String,
    layout: &mut Layout,
) -> Result<(), PrintError>
    ensures { OnOk result
        (Adds (union_member_type_spelling member.now) (string_bytes out.old)
        (string_bytes out.new)) }
{
    match member {
        UnionMemberType::Single(member) => print_attributed_non_any_type(member, out, layout),
        UnionMemberType::Union(member) => print_nullable_union_type(member, out, layout),
    }
}
