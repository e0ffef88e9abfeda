//! How values are written as parts of others.

ghost use Rattle.std.specs.Prelude.{codes, OnOk, string_bytes};
ghost use Rattle.weedle_print.specs.Adds.{Adds};
ghost use Rattle.weedle_spell.specs.Forms.{◌then◌};
ghost use Rattle.weedle_spell.specs.Leaves.{terminal};

use crate::write::WriteIdl;
use weedle_base::term::Comma;
use weedle_print::fields::three;
use weedle_print::{Held, Layout, Print, PrintError};
use weedle_types::attribute::ExtendedAttributeList;

/// How a `T` is written as a part of another value: as by itself. A type of another crate has no
/// other way to be a part.
pub struct IdlPart<T>(T);

/// Extended attributes in front of a member or a definition, or none.
pub(crate) type Attributes<'a> = Option<Held<ExtendedAttributeList<'a>>>;

impl<T: WriteIdl> Print for IdlPart<T> {
    type Value = T;

    ghost spelling = { T.spelling };

    fn print(value: &T, out: &mut String, layout: &mut Layout) -> Result<(), PrintError> {
        value.write_part(out, layout)
    }
}

/// How the types of a key and of a value are written, with a comma between them, where each is
/// written by `P`.
pub(crate) struct KeyAndValue<P>(P);

impl<P: Print> Print for KeyAndValue<P> {
    type Value = (P::Value, Comma, P::Value);

    ghost spelling = { λ v. P.spelling v.0 then terminal (codes ",") v.1 then P.spelling v.2 };

    fn print(
        value: &(P::Value, Comma, P::Value),
        out: &mut String,
        layout: &mut Layout,
    ) -> Result<(), PrintError> {
        three::<P, Comma, P>(out, layout, &value.0, &value.1, &value.2)
    }
}
