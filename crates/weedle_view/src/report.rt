//! Reports: what is written of the definitions of a text.

ghost use Rattle.std.specs.Prelude.{◌≡◌, ℕ, List, ◌++◌, IfOk, OnOk, string_bytes};
ghost use Rattle.weedle_view.specs.Outline.{outline_lines};
ghost use Rattle.weedle_view.specs.Report.{definition_line, list_report};
ghost use Rattle.weedle_idl.specs.declared.definition.Definition.{Definition};

use crate::entries::push_docstring;
use crate::titles::{kind_of, name_of};
use std::alloc::{AllocError, Global};
use weedle_idl::Definition;

/// What is written of each definition.
pub trait Report {
    ghost lines: { Definition → List ℕ };

    /// Adds the lines of a definition. Where memory is refused the report may have grown in
    /// part.
    fn push(definition: &Definition<'_>, report: &mut String) -> Result<(), AllocError>
        ensures { OnOk result
            (string_bytes report.new ≡ string_bytes report.old ++ lines definition.now) };
}

/// The report of titles: of each definition its kind and its name.
pub struct Titles;

impl Report for Titles {
    ghost lines = { definition_line };

    fn push(definition: &Definition<'_>, report: &mut String) -> Result<(), AllocError> {
        let kind = kind_of(definition);
        let name = name_of(definition);
        writeln!(report, "{kind} {name}")
    }
}

/// The report of outlines: of each definition its kind and its name, and below them its docstring.
pub struct Outlines;

impl Report for Outlines {
    ghost lines = { outline_lines };

    fn push(definition: &Definition<'_>, report: &mut String) -> Result<(), AllocError> {
        Titles::push(definition, report)?;
        push_docstring(definition, report)
    }
}

/// The lines of each definition in order, and then how many definitions they are. It fails where
/// memory for them is refused.
pub fn lines_of<P: Report>(
    alloc: Global,
    definitions: &[Definition<'_>],
) -> Result<String, AllocError>
    ensures { IfOk result (λ report. string_bytes report ≡ list_report P.lines definitions.now) }
{
    let mut report = String::new(alloc);
    for definition in definitions {
        P::push(definition, &mut report)?;
    }
    let count = definitions.len();
    writeln!(report, "definitions {count}")?;
    Ok(report)
}
