//! Values that are words.

ghost use Rattle.std.specs.Prelude.{◌≡◌, ℕ, List};

/// A value that is a word of the grammar, or words, whatever is around them.
pub trait Words {
    ghost words: { Self → List ℕ };

    /// The words, with a space between two: `interface` of the keyword, `unsigned long long` of
    /// that type. It takes no memory.
    fn as_str(&self) -> &'static str
        ensures { result.now ≡ words self.now };
}
