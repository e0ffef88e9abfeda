//! What always holds of texts that say the same. Each of these functions does nothing when it runs:
//! its contract is the law.

ghost use Rattle.std.specs.Prelude.{◌≡◌, ℕ, List};
ghost use Rattle.weedle_syntax.specs.declared.dialect.Dialect.{Dialect as TheDialect};
ghost use Rattle.weedle_syntax.specs.declared.node.Node.{Node as TheNode};
ghost use Rattle.weedle_syntax.specs.Dialects.{IsSyntaxIn};
ghost use Rattle.weedle_syntax.specs.Syntax.{IsSyntax};
ghost use Rattle.weedle_formatter.specs.Words.{
  SaysTheSame,
  SaysTheSameIn,
  IsReadAlike,
  IsReadAlikeIn,
  words_of,
};

/// A law, which does nothing: two texts that say the same have the same words, whatever lists of
/// nodes they have.
pub fn all_nodes_say_the_same()
    ensures { (a b : List ℕ) (ns ms : List TheNode)
        → SaysTheSame a b → IsSyntax a ns → IsSyntax b ms
        → words_of a ns ≡ words_of b ms }
{}

/// A law, which does nothing: where a text says the same as another, that one says the same as the
/// first.
pub fn is_symmetric()
    ensures { (a b : List ℕ) → SaysTheSame a b → SaysTheSame b a }
{}

/// A law, which does nothing: where a text says the same as a second, and that as a third, the
/// first says the same as the third.
pub fn is_transitive()
    ensures { (a b c : List ℕ) → SaysTheSame a b → SaysTheSame b c → SaysTheSame a c }
{}

/// A law, which does nothing: where a text says the same as another, the grammar reads the same
/// trees of both.
pub fn same_reading()
    ensures { (a b : List ℕ) → SaysTheSame a b → IsReadAlike a b }
{}

/// A law, which does nothing: two texts that say the same by the rules of a dialect have the same
/// words, whatever lists of nodes they have by these rules.
pub fn all_nodes_say_the_same_in()
    ensures { (d : TheDialect) (a b : List ℕ) (ns ms : List TheNode)
        → SaysTheSameIn d a b → IsSyntaxIn d a ns → IsSyntaxIn d b ms
        → words_of a ns ≡ words_of b ms }
{}

/// A law, which does nothing: [`is_symmetric`] by the rules of a dialect.
pub fn is_symmetric_in()
    ensures { (d : TheDialect) (a b : List ℕ) → SaysTheSameIn d a b → SaysTheSameIn d b a }
{}

/// A law, which does nothing: [`is_transitive`] by the rules of a dialect.
pub fn is_transitive_in()
    ensures { (d : TheDialect) (a b c : List ℕ)
        → SaysTheSameIn d a b → SaysTheSameIn d b c → SaysTheSameIn d a c }
{}

/// A law, which does nothing: where a text says the same as another by the rules of a dialect,
/// these read the same trees of both.
pub fn same_reading_in()
    ensures { (d : TheDialect) (a b : List ℕ) → SaysTheSameIn d a b → IsReadAlikeIn d a b }
{}
