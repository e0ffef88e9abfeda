//! The text that a rule keeps of one of its parts.

ghost use Rattle.std.specs.Prelude.{IsTrue};
ghost use Rattle.weedle_grammar.specs.Trees.{Text};
ghost use Rattle.weedle_grammar.specs.written.Table.{row_of as row_of_rule, shape_of};
ghost use Rattle.weedle_build_base.specs.Fits.{is_kept};
ghost use Rattle.weedle_build_base.specs.Built.{Due, Builds};

use crate::at::At;
use crate::build::{end_at, visit};
use crate::fields::part;
use crate::table::Table;
use weedle_rules::Rule;

/// The text of part k of a rule, counted from 0, and where the rule ends, with its node visited. It
/// looks at the ends of the rule and of the parts up to that one, and takes no memory.
pub fn kept<'a>(table: Table<'_, 'a>, rule: Rule, k: usize, at: At) -> (&'a str, At)
    requires shape { IsTrue (is_kept k (row_of_rule rule) (shape_of rule)) }
    requires due { Due table.text.now rule at.place }
    ensures { Builds table.entry.text.now rule (Text result.0.now) at.place at.visits result.1.place
        result.1.visits }
{
    let end = end_at(table, rule, at.place);
    let mut start = at.place;
    let mut i = 0;
    loop {
        let Some(inner) = part(rule, i) else {
            unreachable!()
        };
        let stop = end_at(table, inner, start);
        if i == k {
            let after = At {
                place: end,
                visits: at.visits,
            };
            return (&table.text[start..stop], visit(after));
        }
        start = stop;
        i += 1;
    }
}
