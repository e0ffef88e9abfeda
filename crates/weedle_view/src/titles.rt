//! What definitions are called.
//!
//! ```rust
//! use weedle_base::Parse;
//! use weedle_idl::Definitions;
//! use weedle_view::{kind_of, name_of};
//!
//! let text = "interface Window {};";
//! let (_, definitions) = Definitions::parse(rt.alloc(), text).expect(rt, "definitions");
//! for definition in definitions {
//!     assert!(rt; kind_of(&definition) == "interface" && name_of(&definition) == "Window");
//! }
//! ```

ghost use Rattle.std.specs.Prelude.{◌≡◌};
ghost use Rattle.weedle_view.specs.Titles.{kind_text, name_text};

use weedle_idl::Definition;

/// The word for the kind of a definition, as `partial interface`. It takes no memory.
pub fn kind_of(definition: &Definition<'_>) -> &'static str
    ensures { result.now ≡ kind_text definition.now }
{
    match definition {
        Definition::Callback(_) => "callback",
        Definition::CallbackInterface(_) => "callback interface",
        Definition::Interface(_) => "interface",
        Definition::InterfaceMixin(_) => "interface mixin",
        Definition::Namespace(_) => "namespace",
        Definition::Dictionary(_) => "dictionary",
        Definition::PartialInterface(_) => "partial interface",
        Definition::PartialInterfaceMixin(_) => "partial interface mixin",
        Definition::PartialDictionary(_) => "partial dictionary",
        Definition::PartialNamespace(_) => "partial namespace",
        Definition::Enum(_) => "enum",
        Definition::Typedef(_) => "typedef",
        Definition::IncludesStatement(_) => "includes",
        Definition::Implements(_) => "implements",
    }
}

/// The name of a definition, as `Window` of `interface Window {};`. For a statement it is the first
/// name, as `A` of `A includes B;`. It takes no memory.
pub fn name_of<'a>(definition: &Definition<'a>) -> &'a str
    ensures { result.now ≡ name_text definition.now }
{
    match definition {
        Definition::Callback(callback) => callback.identifier.0,
        Definition::CallbackInterface(interface) => interface.identifier.0,
        Definition::Interface(interface) => interface.identifier.0,
        Definition::InterfaceMixin(mixin) => mixin.identifier.0,
        Definition::Namespace(namespace) => namespace.identifier.0,
        Definition::Dictionary(dictionary) => dictionary.identifier.0,
        Definition::PartialInterface(interface) => interface.identifier.0,
        Definition::PartialInterfaceMixin(mixin) => mixin.identifier.0,
        Definition::PartialDictionary(dictionary) => dictionary.identifier.0,
        Definition::PartialNamespace(namespace) => namespace.identifier.0,
        Definition::Enum(definition) => definition.identifier.0,
        Definition::Typedef(typedef) => typedef.identifier.0,
        Definition::IncludesStatement(statement) => statement.lhs_identifier.0,
        Definition::Implements(statement) => statement.lhs_identifier.0,
    }
}
