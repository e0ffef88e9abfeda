//! Where the rules end that values are built of.

ghost use Rattle.std.specs.Prelude.{◌≡◌};
ghost use Rattle.weedle_rules.specs.Cells.{HasEnd};
ghost use Rattle.weedle_build_base.specs.Built.{IsTried};
ghost use Rattle.weedle_build_base.specs.Table.{text_of};

use weedle_memo::Memo;
use weedle_rules::{Ends, Rule};

/// Every cell of a text, or those that the reading of its definitions tries.
#[derive(Clone, Copy)]
enum Known<'t, 'a> {
    Filled(&'t Ends<'a>),
    OnDemand(&'t Memo<'t>),
}

/// Where the rules end that values are built of: by the packrat table of a text, or by the memo of
/// its definitions.
#[derive(Clone, Copy)]
pub struct Table<'t, 'a> {
    /// The text.
    pub text: &'a str,
    known: Known<'t, 'a>,

    ghost of_text: { text_of known ≡ text.now },
}

impl<'t, 'a> Table<'t, 'a> {
    /// By the packrat table of a text. It takes no memory.
    pub fn of_ends(ends: &'t Ends<'a>) -> Table<'t, 'a>
        ensures { result.text.now ≡ ends.now.text }
    {
        Table {
            text: ends.text(),
            known: Known::Filled(ends),
        }
    }

    /// By the memo of the definitions at the front of this text. It takes no memory.
    pub fn of_memo(memo: &'t Memo<'t>, text: &'a str) -> Table<'t, 'a>
        requires { memo.now.text ≡ text.now }
        ensures { result.text.now ≡ text.entry.now }
    {
        Table {
            text,
            known: Known::OnDemand(memo),
        }
    }

    /// Where a rule ends at a place, or None where it fails there: in `enum E {"a"};` a name ends
    /// at 7 from 5 on. It answers of what the reading of the definitions at the front tries, takes
    /// no memory, and works out nothing.
    #[inline]
    pub fn end(&self, rule: Rule, place: usize) -> Option<usize>
        requires { IsTried self.now.text.now rule place }
        ensures right { HasEnd self.now.text.now rule place result }
    {
        match self.known {
            Known::Filled(ends) => ends.cell(rule, place),
            Known::OnDemand(memo) => memo.end(rule, place),
        }
    }
}
