//! The laws of symbols and keywords.

ghost use Rattle.weedle_spell.specs.Laws.{SymbolLaw, KeywordLaw};

/// A law, which does nothing: the text of a symbol, as `{`, is a rendering of it.
#[tactic(auto, using(crate::proofs::LawFacts::symbols))]
pub fn symbols()
    ensures { SymbolLaw }
{}

/// A law, which does nothing: the text of a keyword, as `interface`, is a rendering of it.
#[tactic(auto, using(crate::proofs::LawFacts::keywords))]
pub fn keywords()
    ensures { KeywordLaw }
{}
