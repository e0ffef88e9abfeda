//! The laws of variants.

ghost use Rattle.weedle_spell.specs.Variants.{VariantsAreSpelt};
ghost use Rattle.weedle_spell.specs.VariantTrees.{VariantsHaveTrees};

/// A law, which does nothing: a variant of a type, an argument or an extended attribute that holds
/// such a value is rendered as that value.
#[tactic(auto, using(crate::proofs::VariantFacts::variants_law))]
pub fn variants()
    ensures { VariantsAreSpelt }
{}

/// A law, which does nothing: a variant of a type, an argument or an extended attribute that holds
/// such a value has the tree of that value, as the alternative of its place among the variants.
#[tactic(auto, using(crate::proofs::VariantTreeFacts::variant_trees_law))]
pub fn variant_trees()
    ensures { VariantsHaveTrees }
{}
