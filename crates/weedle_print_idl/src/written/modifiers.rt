//! How what is inherited from is rendered, and the words before a member.
//!
//! Written by tools/prints.py, and not edited by hand.

ghost use Rattle.weedle_spell_idl.specs.written.Modifiers.{
  inheritance_spelling,
  special_spelling,
  stringifier_or_inherit_or_static_spelling,
  stringifier_or_static_spelling,
};

use crate::write::WriteIdl;
use weedle_base::term::{
    Colon, Deleter, Getter, Inherit, LegacyCaller, Setter, Static, Stringifier,
};
use weedle_parts::common::Identifier;
use weedle_parts::inheritance::Inheritance;
use weedle_parts::modifier::{Special, StringifierOrInheritOrStatic, StringifierOrStatic};
use weedle_print::fields::two;
use weedle_print::{Layout, Print, PrintError};

impl<'a> WriteIdl for Inheritance<'a> {
    ghost spelling = { inheritance_spelling };

    fn write_part(&self, out: &mut String, layout: &mut Layout) -> Result<(), PrintError> {
        two::<Colon, Identifier<'a>>(out, layout, &self.colon, &self.identifier)
    }
}

impl WriteIdl for Special {
    ghost spelling = { special_spelling };

    fn write_part(&self, out: &mut String, layout: &mut Layout) -> Result<(), PrintError> {
        match self {
            Special::Getter(value) => Getter::print(value, out, layout),
            Special::Setter(value) => Setter::print(value, out, layout),
            Special::Deleter(value) => Deleter::print(value, out, layout),
            Special::LegacyCaller(value) => LegacyCaller::print(value, out, layout),
        }
    }
}

impl WriteIdl for StringifierOrInheritOrStatic {
    ghost spelling = { stringifier_or_inherit_or_static_spelling };

    fn write_part(&self, out: &mut String, layout: &mut Layout) -> Result<(), PrintError> {
        match self {
            StringifierOrInheritOrStatic::Stringifier(value) => Stringifier::print(
                value, out, layout,
            ),
            StringifierOrInheritOrStatic::Inherit(value) => Inherit::print(value, out, layout),
            StringifierOrInheritOrStatic::Static(value) => Static::print(value, out, layout),
        }
    }
}

impl WriteIdl for StringifierOrStatic {
    ghost spelling = { stringifier_or_static_spelling };

    fn write_part(&self, out: &mut String, layout: &mut Layout) -> Result<(), PrintError> {
        match self {
            StringifierOrStatic::Stringifier(value) => Stringifier::print(value, out, layout),
            StringifierOrStatic::Static(value) => Static::print(value, out, layout),
        }
    }
}
