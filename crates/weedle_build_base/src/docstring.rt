//! Docstrings.

ghost use Rattle.std.specs.Prelude.{◌≡◌, [], ◌∷◌};
ghost use Rattle.weedle_grammar.specs.Trees.{Lines, Gives};
ghost use Rattle.weedle_grammar.specs.written.Table.{Reads};
ghost use Rattle.weedle_grammar.specs.written.Table.Leaves.{DOC_LINE, DOCSTRING};
ghost use Rattle.weedle_parts.specs.ValueTrees.{docstring_tree};
ghost use Rattle.weedle_build_base.specs.Built.{Due};

use crate::at::At;
use crate::build::{Build, BuildResult, end_at, visit};
use crate::table::Table;
use std::alloc::Global;
use weedle_base::push_line;
use weedle_parts::common::Docstring;
use weedle_rules::Rule;

/// The text of the line at a place, without its LF, and where the next one begins.
fn doc_line<'a>(table: Table<'_, 'a>, place: usize) -> (&'a str, usize)
    requires { Due table.text.now DOC_LINE place }
    ensures { Reads table.entry.text.now DOC_LINE place (Gives (Lines result.0.now ∷ []) result.1) }
{
    let blanks = end_at(table, Rule::RUN_BLANK, place);
    let start = end_at(table, Rule::BYTES_THREE_SLASHES, blanks);
    let end = end_at(table, Rule::DOC_LINE, place);
    (&table.text[start..end - 1], end)
}

impl<'a> Build<'a> for Docstring {
    type Value = Self;

    ghost fits = { λ r. r ≡ DOCSTRING };

    ghost tree = { docstring_tree };

    fn build(alloc: Global, table: Table<'_, 'a>, _rule: Rule, at: At) -> BuildResult<Self> {
        let (first, mut place) = doc_line(table, at.place);
        let mut text = String::from_str(alloc, first)?;
        'lines: while let Some(_) = table.end(Rule::DOC_LINE, place) {
            let (line, next) = doc_line(table, place);
            push_line(&mut text, line)?;
            place = next;
        }
        let end = At {
            place,
            visits: at.visits,
        };
        Ok((Docstring(text), visit(end)))
    }
}
