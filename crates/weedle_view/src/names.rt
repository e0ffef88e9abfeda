//! The names that types speak of.

ghost use Rattle.std.specs.Prelude.{◌≡◌, IfOk};
ghost use Rattle.weedle_view.specs.TypeNames.{
  names_in_arguments,
  names_in_attribute_list,
  names_in_return_type,
  names_in_type,
};

mod arguments;
mod attributes;
mod types;
mod unions;

use arguments::push_arguments;
use attributes::push_attribute_items;
use std::alloc::{AllocError, Global};
use types::{push_return_type, push_type};
use weedle_parts::common::Identifier;
use weedle_types::argument::ParenthesizedArgumentList;
use weedle_types::attribute::ExtendedAttributeList;
use weedle_types::types::{ReturnType, Type};

/// The names that a type speaks of, in the order of the text, each as often as it occurs there:
/// `Node` and `Attr` of `(sequence<Node?> or record<DOMString, Attr>)`, and none of `long`.
///
/// A union's members may have extended attributes with arguments, as `[A(Node x)] long`; the names
/// in the types of these are among them. It takes memory for the list of names, and fails where
/// that is refused.
///
/// ```rust
/// use weedle_base::Parse;
/// use weedle_types::types::Type;
/// use weedle_view::type_names;
///
/// let text = "(sequence<Node?> or record<DOMString, Attr>)";
/// let (_, type_) = Type::parse(rt.alloc(), text).expect(rt, "type");
/// let names = type_names(rt.alloc(), &type_)?;
/// assert!(rt; names.len() == 2 && names[0].0 == "Node" && names[1].0 == "Attr");
/// ```
pub fn type_names<'a>(alloc: Global, type_: &Type<'a>) -> Result<Vec<Identifier<'a>>, AllocError>
    ensures { IfOk result (λ names. names.items ≡ names_in_type type_.now) }
{
    let mut names = Vec::new(alloc);
    push_type(type_, &mut names)?;
    Ok(names)
}

/// The names that the type of a result speaks of, as [`type_names`] gives them: `Node` of
/// `Promise<Node>`, and none of `undefined`. It fails where memory for the list is refused.
///
/// ```rust
/// use weedle_base::Parse;
/// use weedle_types::types::ReturnType;
/// use weedle_view::type_names_of_return;
///
/// for (text, count) in [("undefined", 0), ("Promise<Node>", 1)] {
///     let (_, type_) = ReturnType::parse(rt.alloc(), text).expect(rt, "type");
///     assert!(rt; type_names_of_return(rt.alloc(), &type_)?.len() == count);
/// }
/// ```
pub fn type_names_of_return<'a>(
    alloc: Global,
    return_type: &ReturnType<'a>,
) -> Result<Vec<Identifier<'a>>, AllocError>
    ensures { IfOk result (λ names. names.items ≡ names_in_return_type return_type.now) }
{
    let mut names = Vec::new(alloc);
    push_return_type(return_type, &mut names)?;
    Ok(names)
}

/// The names that the types of arguments speak of, as [`type_names`] gives them: `Node` and `Attr`
/// of `(optional Node node, Attr... attrs)`. The names of the arguments aren't among them, those in
/// the types within their extended attributes are. It fails where memory for the list is refused.
///
/// ```rust
/// use weedle_base::Parse;
/// use weedle_types::argument::ParenthesizedArgumentList;
/// use weedle_view::type_names_of_arguments;
///
/// let text = "(optional Node node, [A(B b)] Attr... attrs)";
/// let (_, arguments) = ParenthesizedArgumentList::parse(rt.alloc(), text).expect(rt, "arguments");
/// let names = type_names_of_arguments(rt.alloc(), &arguments)?;
/// assert!(rt; names.len() == 3 && names[0].0 == "Node" && names[1].0 == "B");
/// assert!(rt; names[2].0 == "Attr");
/// ```
pub fn type_names_of_arguments<'a>(
    alloc: Global,
    arguments: &ParenthesizedArgumentList<'a>,
) -> Result<Vec<Identifier<'a>>, AllocError>
    ensures { IfOk result (λ names. names.items ≡ names_in_arguments arguments.now) }
{
    let mut names = Vec::new(alloc);
    push_arguments(arguments, &mut names)?;
    Ok(names)
}

/// The names that the types of the arguments in extended attributes speak of, as [`type_names`]
/// gives them: `Node` of `[Exposed=Window, NamedConstructor=Image(Node node)]`. The names of the
/// extended attributes, and what follows their `=`, aren't among them. It fails where memory for
/// the list is refused.
///
/// ```rust
/// use weedle_base::Parse;
/// use weedle_types::attribute::ExtendedAttributeList;
/// use weedle_view::type_names_of_attributes;
///
/// let text = "[Exposed=Window, NamedConstructor=Image(Node node)]";
/// let (_, attributes) = ExtendedAttributeList::parse(rt.alloc(), text).expect(rt, "attributes");
/// let names = type_names_of_attributes(rt.alloc(), &attributes)?;
/// assert!(rt; names.len() == 1 && names[0].0 == "Node");
/// ```
pub fn type_names_of_attributes<'a>(
    alloc: Global,
    attributes: &ExtendedAttributeList<'a>,
) -> Result<Vec<Identifier<'a>>, AllocError>
    ensures { IfOk result (λ names. names.items ≡ names_in_attribute_list attributes.now) }
{
    let mut names = Vec::new(alloc);
    push_attribute_items(&attributes.body.list, &mut names)?;
    Ok(names)
}
