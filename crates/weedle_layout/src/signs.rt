//! Which signs are joined to the words beside them.

ghost use Rattle.std.specs.Prelude.{◌↔◌, Contains, IsTrue};
ghost use Rattle.weedle_layout.specs.Signs.{tight_behind, tight_in_front};

/// Whether nothing stands in front of a word on its line, wherever the word stands, as of `;`.
pub fn is_tight_in_front(word: &[u8]) -> bool
    ensures { IsTrue result ↔ Contains tight_in_front word.now }
{
    match word {
        b";" | b"," | b")" | b"]" | b"<" | b">" | b"?" | b"..." => true,
        _ => false,
    }
}

/// Whether nothing stands behind a word on its line, whatever follows, as behind `(`.
pub fn is_tight_behind(word: &[u8]) -> bool
    ensures { IsTrue result ↔ Contains tight_behind word.now }
{
    match word {
        b"(" | b"[" | b"<" => true,
        _ => false,
    }
}
