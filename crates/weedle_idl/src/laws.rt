//! What always holds of lists of definitions. Each of these functions does nothing when it runs:
//! its contract is the law.

ghost use Rattle.weedle_base.specs.Rules.{HasRule};
ghost use Rattle.weedle_idl.specs.written.DefinitionTrees.{definitions_tree};
ghost use Rattle.weedle_idl.specs.Laws.{NeverRefuses};
ghost use Rattle.weedle_grammar.specs.written.Table.Definitions.{DEFINITIONS};

use crate::Definitions;
use weedle_base::Parse;

/// A law, which does nothing: `Definitions` gives of a text what the grammar's rule of definitions
/// gives.
pub fn definitions<'a>()
    ensures { HasRule ⟦<Definitions<'a> as Parse<'a>>⟧.reading DEFINITIONS
        (λ v. definitions_tree v.items) }
{}

/// A law, which does nothing: `Definitions` is never a mismatch, since a definition takes a byte or
/// more.
pub fn definitions_never_refuse<'a>()
    ensures { NeverRefuses ⟦<Definitions<'a> as Parse<'a>>⟧.reading }
{}
