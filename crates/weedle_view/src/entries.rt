//! Outlines: the kind, the name and the docstring of each definition.

ghost use Rattle.std.specs.Prelude.{◌≡◌, map, ◌++◌, IfOk, OnOk, string_bytes};
ghost use Rattle.std.specs.Option.{option_map};
ghost use Rattle.weedle_view.specs.Outline.{
  indented,
  docstring_lines,
  docstring_text,
  given_text,
  outlined,
  said,
};

use crate::titles::{kind_of, name_of};
use std::alloc::{AllocError, Global};
use weedle_idl::{Definition, Definitions};
use weedle_parts::common::Docstring;

/// What an outline says of a definition.
#[derive(Clone, Copy, Debug, PartialEq, Eq)]
pub struct Entry<'d, 'a> {
    /// What [`kind_of`] gives.
    pub kind: &'static str,
    /// What [`name_of`] gives.
    pub name: &'a str,
    /// The text of the field `docstring`, where there is that field and a docstring is.
    pub docstring: Option<&'d str>,
}

/// What is said of each definition, in order.
///
/// For the definitions of a text of the lines `/// Shows pages.`, `interface Window {};` and
/// `Window includes Timers;` it is an `interface` named `Window` with the docstring
/// ` Shows pages.`, and an `includes` named `Window` without one.
///
/// It takes memory for the list of entries, and fails where that is refused. Texts aren't copied:
/// docstrings are parts of the definitions, and names are parts of the text that was read.
pub fn outline<'d, 'a>(
    alloc: Global,
    definitions: &'d Definitions<'a>,
) -> Result<Vec<Entry<'d, 'a>>, AllocError>
    ensures { IfOk result
        (λ entries. map said entries.items ≡ map outlined definitions.entry.now.items) }
{
    let mut entries = Vec::with_capacity(alloc, definitions.len())?;
    for definition in definitions {
        entries.push(entry_of(definition))?;
    }
    Ok(entries)
}

/// What is said of a definition.
fn entry_of<'d, 'a>(definition: &'d Definition<'a>) -> Entry<'d, 'a>
    ensures { said result ≡ outlined definition.entry.now }
{
    Entry {
        kind: kind_of(definition),
        name: name_of(definition),
        docstring: docstring_of(definition),
    }
}

/// The text of a definition's docstring, where it has that field and the docstring is.
fn docstring_of<'d>(definition: &'d Definition<'_>) -> Option<&'d str>
    ensures { option_map (λ text. text.now) result ≡ docstring_text definition.entry.now }
{
    match definition {
        Definition::CallbackInterface(interface) => text_of(&interface.docstring),
        Definition::Interface(interface) => text_of(&interface.docstring),
        Definition::Namespace(namespace) => text_of(&namespace.docstring),
        Definition::Dictionary(dictionary) => text_of(&dictionary.docstring),
        Definition::Enum(definition) => text_of(&definition.docstring),
        Definition::Callback(_)
        | Definition::InterfaceMixin(_)
        | Definition::PartialInterface(_)
        | Definition::PartialInterfaceMixin(_)
        | Definition::PartialDictionary(_)
        | Definition::PartialNamespace(_)
        | Definition::Typedef(_)
        | Definition::IncludesStatement(_)
        | Definition::Implements(_) => None,
    }
}

/// The text of a docstring where present.
fn text_of(docstring: &Option<Docstring>) -> Option<&str>
    ensures { option_map (λ text. text.now) result ≡ given_text docstring.now }
{
    docstring.as_ref().map(|given| given.0.as_str())
}

/// Adds the lines of a definition's docstring, each behind two spaces.
pub(crate) fn push_docstring(
    definition: &Definition<'_>,
    report: &mut String,
) -> Result<(), AllocError>
    ensures { OnOk result
        (string_bytes report.new ≡ string_bytes report.old ++ docstring_lines definition.now) }
{
    match docstring_of(definition) {
        Some(text) => push_indented(text, report),
        None => Ok(()),
    }
}

/// Adds each line of a text behind two spaces.
fn push_indented(text: &str, report: &mut String) -> Result<(), AllocError>
    ensures { OnOk result (string_bytes report.new ≡ string_bytes report.old ++ indented text.now) }
{
    for part in text.split('\n') {
        writeln!(report, "  {part}")?;
    }
    Ok(())
}
