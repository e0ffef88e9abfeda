//! What always holds of the grammar's rules. Each of these functions does nothing when it runs: its
//! contract is the law.

ghost use Rattle.std.specs.Prelude.{ℕ, ◌≤◌, List, length, IsUtf8, IsCharBoundary};
ghost use Rattle.weedle_grammar.specs.Laws.{HasOneOutcome, IsShifted, EndsAtBoundary};
ghost use Rattle.weedle_grammar.specs.Nesting.{Part, HasOneAtStart, IsNested};
ghost use Rattle.weedle_grammar.specs.Size.{IsSmallWhereEmpty, HasFewParts, IsBounded};
ghost use Rattle.weedle_grammar.specs.written.Table.{webidl};

/// A law, which does nothing: each rule has exactly one outcome at each place of a text.
pub fn one_outcome()
    ensures { (text : List ℕ) (rule place : ℕ) → place ≤ length text
        → HasOneOutcome text rule place }
{}

/// A law, which does nothing: what a rule does at a boundary, it does at the front of the text from
/// there, its end moved.
pub fn shift()
    ensures { (text : List ℕ) (rule place : ℕ) → IsCharBoundary text place
        → IsShifted text rule place }
{}

/// A law, which does nothing: a rule that is read from a boundary ends at a boundary.
pub fn boundary()
    ensures { (text : List ℕ) (rule place : ℕ) → IsUtf8 text → IsCharBoundary text place
        → EndsAtBoundary text rule place }
{}

/// A law, which does nothing: what a rule gives where it takes no byte has at most two nodes.
pub fn small_where_empty()
    ensures { (text : List ℕ) (rule place : ℕ) → IsSmallWhereEmpty text rule place }
{}

/// A law, which does nothing: no row that reads its parts one after another has more than eight
/// that give trees.
pub fn few_parts()
    ensures { (rule : ℕ) → HasFewParts rule }
{}

/// A law, which does nothing: what a rule gives has at most 10,000 nodes for each byte that it
/// takes, and two.
pub fn bounded()
    ensures { (text : List ℕ) (rule place : ℕ) → IsBounded text rule place }
{}

/// A law, which does nothing: of the parts of what a rule gives at most one begins where the rule
/// begins and takes text; its rule has a smaller number.
pub fn one_at_start()
    ensures { (text : List ℕ) (rule place : ℕ) → HasOneAtStart text rule place }
{}

/// A law, which does nothing: in what a rule gives, parts that begin at one place and take text lie
/// in one another and are of different rules.
pub fn nested()
    ensures { (text : List ℕ) (whole : Part webidl text) → IsNested whole }
{}
