//! The one member that has a default.

ghost use Rattle.std.specs.Prelude.{◌≡◌, None};

use weedle_members::StringifierMember;

/// The default of a stringifier has no extended attributes: `attributes` is `None`.
pub fn default_stringifier() -> StringifierMember<'static>
    ensures { result
        ≡ record { attributes = None; stringifier = record {}; semi_colon = record {} } }
{
    StringifierMember::default()
}
