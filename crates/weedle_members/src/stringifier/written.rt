//! What follows from the declarations of the module above.
//!
//! Written by tools/impls.py, and not edited by hand.

ghost use Rattle.std.specs.Prelude.{◌≡◌};
ghost use Rattle.weedle_base.specs.AlikeLaws.{equal_equivalence, seen_equivalence};
ghost use Rattle.weedle_members.specs.written.Trees.{stringifier_member_tree};

use super::StringifierMember;
use std::alloc::{AllocError, Global};
use weedle_base::TryClone;
use weedle_base::term::{SemiColon, Stringifier};
use weedle_types::attribute::ExtendedAttributeList;
use weedle_types::copies::copy_attributes;

impl TryClone for StringifierMember<'_> {
    ghost alike = { λ a b. stringifier_member_tree a ≡ stringifier_member_tree b };

    fn try_clone(&self, alloc: Global) -> Result<Self, AllocError> {
        Ok(StringifierMember {
            attributes: copy_attributes(&self.attributes, alloc)?,
            stringifier: self.stringifier,
            semi_colon: self.semi_colon,
        })
    }

    ghost equivalence = { seen_equivalence stringifier_member_tree equal_equivalence };
}

impl<'a> StringifierMember<'a> {
    /// Its fields, in order: `attributes`, `stringifier` and `semi_colon`.
    pub fn into_fields(self) -> (Option<ExtendedAttributeList<'a>>, Stringifier, SemiColon)
        ensures { result ≡ (self.entry.attributes, self.entry.stringifier, self.entry.semi_colon) }
    {
        let StringifierMember {
            attributes,
            stringifier,
            semi_colon,
        } = self;
        (attributes, stringifier, semi_colon)
    }
}
