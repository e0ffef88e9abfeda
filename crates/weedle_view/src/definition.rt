//! What definitions of many kinds have.

ghost use Rattle.std.specs.Prelude.{◌≡◌};
ghost use Rattle.std.specs.Option.{option_copied};
ghost use Rattle.weedle_view.specs.Definitions.{
  attributes_of_definition,
  docstring_of_definition,
  inheritance_of_definition,
};

use weedle_idl::Definition;
use weedle_idl::interface::Inheritance;
use weedle_parts::common::Docstring;
use weedle_types::attribute::ExtendedAttributeList;

/// The extended attributes of a definition, as `[Exposed=Window]` of
/// `[Exposed=Window] interface A {};`: None where there are no brackets. Every kind may have them.
/// It takes no memory.
///
/// ```rust
/// use weedle_base::Parse;
/// use weedle_idl::Definition;
/// use weedle_view::extended_attributes_of;
///
/// let text = "[Global, Exposed=Window] interface A {};";
/// let (_, definition) = Definition::parse(rt.alloc(), text).expect(rt, "definition");
/// let attributes = extended_attributes_of(&definition);
/// assert!(rt; attributes.is_some_and(|attributes| attributes.body.list.len() == 2));
/// ```
pub fn extended_attributes_of<'d, 'a>(
    definition: &'d Definition<'a>,
) -> Option<&'d ExtendedAttributeList<'a>>
    ensures { option_copied result ≡ attributes_of_definition definition.entry.now }
{
    match definition {
        Definition::Callback(callback) => callback.attributes.as_ref(),
        Definition::CallbackInterface(interface) => interface.attributes.as_ref(),
        Definition::Interface(interface) => interface.attributes.as_ref(),
        Definition::InterfaceMixin(mixin) => mixin.attributes.as_ref(),
        Definition::Namespace(namespace) => namespace.attributes.as_ref(),
        Definition::Dictionary(dictionary) => dictionary.attributes.as_ref(),
        Definition::PartialInterface(interface) => interface.attributes.as_ref(),
        Definition::PartialInterfaceMixin(mixin) => mixin.attributes.as_ref(),
        Definition::PartialDictionary(dictionary) => dictionary.attributes.as_ref(),
        Definition::PartialNamespace(namespace) => namespace.attributes.as_ref(),
        Definition::Enum(definition) => definition.attributes.as_ref(),
        Definition::Typedef(typedef) => typedef.attributes.as_ref(),
        Definition::IncludesStatement(statement) => statement.attributes.as_ref(),
        Definition::Implements(statement) => statement.attributes.as_ref(),
    }
}

/// The docstring in front of a definition, where it has one: a callback, a mixin, a part, a typedef
/// and a statement never have. It takes no memory.
///
/// ```rust
/// use weedle_base::Parse;
/// use weedle_idl::Definition;
/// use weedle_view::docstring_of;
///
/// let text = "/// A page,\n/// shown.\ninterface Window {};";
/// let (_, definition) = Definition::parse(rt.alloc(), text).expect(rt, "definition");
/// let docstring = docstring_of(&definition);
/// assert!(rt; docstring.is_some_and(|docstring| docstring.0.as_str() == " A page,\n shown."));
/// ```
pub fn docstring_of<'d>(definition: &'d Definition<'_>) -> Option<&'d Docstring>
    ensures { option_copied result ≡ docstring_of_definition definition.entry.now }
{
    match definition {
        Definition::CallbackInterface(interface) => interface.docstring.as_ref(),
        Definition::Interface(interface) => interface.docstring.as_ref(),
        Definition::Namespace(namespace) => namespace.docstring.as_ref(),
        Definition::Dictionary(dictionary) => dictionary.docstring.as_ref(),
        Definition::Enum(definition) => definition.docstring.as_ref(),
        Definition::Callback(_)
        | Definition::InterfaceMixin(_)
        | Definition::PartialInterface(_)
        | Definition::PartialInterfaceMixin(_)
        | Definition::PartialDictionary(_)
        | Definition::PartialNamespace(_)
        | Definition::Typedef(_)
        | Definition::IncludesStatement(_)
        | Definition::Implements(_) => None,
    }
}

/// What a definition inherits from, as `: Node` of `interface Element : Node {};`, where it says
/// so: only interfaces, callback interfaces and dictionaries can. It takes no memory.
///
/// ```rust
/// use weedle_base::Parse;
/// use weedle_idl::Definition;
/// use weedle_view::inheritance_of;
///
/// let text = "interface Element : Node {};";
/// let (_, definition) = Definition::parse(rt.alloc(), text).expect(rt, "definition");
/// let parent = inheritance_of(&definition).map(|inheritance| inheritance.identifier.0);
/// assert!(rt; parent == Some("Node"));
/// ```
pub fn inheritance_of<'d, 'a>(definition: &'d Definition<'a>) -> Option<&'d Inheritance<'a>>
    ensures { option_copied result ≡ inheritance_of_definition definition.entry.now }
{
    match definition {
        Definition::CallbackInterface(interface) => interface.inheritance.as_ref(),
        Definition::Interface(interface) => interface.inheritance.as_ref(),
        Definition::Dictionary(dictionary) => dictionary.inheritance.as_ref(),
        Definition::Callback(_)
        | Definition::InterfaceMixin(_)
        | Definition::Namespace(_)
        | Definition::PartialInterface(_)
        | Definition::PartialInterfaceMixin(_)
        | Definition::PartialDictionary(_)
        | Definition::PartialNamespace(_)
        | Definition::Enum(_)
        | Definition::Typedef(_)
        | Definition::IncludesStatement(_)
        | Definition::Implements(_) => None,
    }
}
