//! The words of the modifiers of members.

ghost use Rattle.weedle_print.specs.Words.{
  special_word,
  stringifier_or_inherit_or_static_word,
  stringifier_or_static_word,
};

use crate::words::Words;
use weedle_parts::modifier::{Special, StringifierOrInheritOrStatic, StringifierOrStatic};

impl Words for Special {
    ghost words = { special_word };

    fn as_str(&self) -> &'static str {
        match self {
            Special::Getter(_) => "getter",
            Special::Setter(_) => "setter",
            Special::Deleter(_) => "deleter",
            Special::LegacyCaller(_) => "legacycaller",
        }
    }
}

impl Words for StringifierOrInheritOrStatic {
    ghost words = { stringifier_or_inherit_or_static_word };

    fn as_str(&self) -> &'static str {
        match self {
            StringifierOrInheritOrStatic::Stringifier(_) => "stringifier",
            StringifierOrInheritOrStatic::Inherit(_) => "inherit",
            StringifierOrInheritOrStatic::Static(_) => "static",
        }
    }
}

impl Words for StringifierOrStatic {
    ghost words = { stringifier_or_static_word };

    fn as_str(&self) -> &'static str {
        match self {
            StringifierOrStatic::Stringifier(_) => "stringifier",
            StringifierOrStatic::Static(_) => "static",
        }
    }
}
