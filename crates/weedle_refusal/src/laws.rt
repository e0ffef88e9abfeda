//! What always holds of the words: by which rules a type, a value and a name begin. Each of these
//! functions does nothing when it runs: its contract is the law.

ghost use Rattle.weedle_grammar.specs.written.Table.Leaves.{IDENTIFIER};
ghost use Rattle.weedle_grammar.specs.written.Table.Literals.{CONST_VALUE, DEFAULT_VALUE};
ghost use Rattle.weedle_grammar.specs.written.Table.SimpleTypes.{CONST_TYPE};
ghost use Rattle.weedle_grammar.specs.written.Table.TodayTypes.{TODAY_NON_ANY_TYPE, TODAY_TYPE};
ghost use Rattle.weedle_grammar.specs.written.Table.TodayWords.{
  TODAY_CONST_TYPE,
  TODAY_DEFAULT_VALUE,
};
ghost use Rattle.weedle_grammar.specs.written.Table.Types.{NON_ANY_TYPE, TYPE};
ghost use Rattle.weedle_refusal.specs.Starts.{AreStarts};

use crate::starts::{CONST_TYPES, CONST_VALUES, DEFAULT_VALUES, NAMES, TYPES, TYPES_BUT_ANY};
use crate::today_starts::{
    TODAY_CONST_TYPES, TODAY_DEFAULT_VALUES, TODAY_TYPES, TODAY_TYPES_BUT_ANY,
};

/// A law, which does nothing: a name begins by exactly the rules of which 'a name' is said.
pub fn names()
    ensures { AreStarts IDENTIFIER NAMES.now }
{}

/// A law, which does nothing: a type begins by exactly the rules of one list of which 'a type' is
/// said, one that is neither `any` nor a union by those of another, and a constant's by those of a
/// third.
pub fn types()
    ensures any { AreStarts TYPE TYPES.now }
    ensures but_any { AreStarts NON_ANY_TYPE TYPES_BUT_ANY.now }
    ensures of_constants { AreStarts CONST_TYPE CONST_TYPES.now }
{}

/// A law, which does nothing: the value of a default begins by exactly the rules of one list of
/// which 'a value' is said, and that of a constant by those of another.
pub fn values()
    ensures of_defaults { AreStarts DEFAULT_VALUE DEFAULT_VALUES.now }
    ensures of_constants { AreStarts CONST_VALUE CONST_VALUES.now }
{}

/// A law, which does nothing: by today's rules a type begins by exactly the rules of one list of
/// which 'a type' is said, one that is neither `any` nor a union by those of another, and a
/// constant's by those of a third.
pub fn types_of_today()
    ensures any { AreStarts TODAY_TYPE TODAY_TYPES.now }
    ensures but_any { AreStarts TODAY_NON_ANY_TYPE TODAY_TYPES_BUT_ANY.now }
    ensures of_constants { AreStarts TODAY_CONST_TYPE TODAY_CONST_TYPES.now }
{}

/// A law, which does nothing: by today's rules the value of a default begins by exactly the rules
/// of the list of which 'a value' is said. A constant's is a value of weedle2's.
pub fn values_of_today()
    ensures { AreStarts TODAY_DEFAULT_VALUE TODAY_DEFAULT_VALUES.now }
{}
