//! Words that differ little.

ghost use Rattle.std.specs.Prelude.{◌≡◌, ◌≤◌, ℕ, ◌∷◌, List, IsTrue, length, take};
ghost use Rattle.weedle_refusal.specs.Near.{DifferByOne};

/// Whether two words differ by one letter that is missing, added or changed, or by two neighbours
/// exchanged.
pub(crate) fn differ_by_one(word: &[u8], other: &[u8]) -> bool
    ensures { IsTrue result → DifferByOne word.now other.now }
{
    let same = common(word, other);
    let (one, two) = (&word[same..], &other[same..]);
    if has_one_more(two, one) {
        return true;
    }
    if has_one_more(one, two) {
        return true;
    }
    if is_changed(one, two) {
        return true;
    }
    are_exchanged(one, two)
}

/// How many bytes two words have in common at their fronts.
fn common(word: &[u8], other: &[u8]) -> usize
    ensures word { result ≤ length word.now }
    ensures other { result ≤ length other.now }
    ensures same { take result word.now ≡ take result other.now }
{
    let mut same = 0;
    while same < word.len() && same < other.len() && word[same] == other[same] {
        same += 1;
    }
    same
}

/// Whether a word is another one behind a first letter.
fn has_one_more(word: &[u8], other: &[u8]) -> bool
    ensures { IsTrue result → (letter : ℕ) × (word.now ≡ letter ∷ other.now) }
{
    !word.is_empty() && are_same(&word[1..], other)
}

/// Whether two words are the same behind their first letters.
fn is_changed(word: &[u8], other: &[u8]) -> bool
    ensures { IsTrue result → (one : ℕ) × (two : ℕ) × (rest : List ℕ)
        × (word.now ≡ one ∷ rest) × (other.now ≡ two ∷ rest) }
{
    !word.is_empty() && !other.is_empty() && are_same(&word[1..], &other[1..])
}

/// Whether the first two letters are exchanged, and all else is the same.
fn are_exchanged(word: &[u8], other: &[u8]) -> bool
    ensures { IsTrue result → (one : ℕ) × (two : ℕ) × (rest : List ℕ)
        × (word.now ≡ one ∷ two ∷ rest) × (other.now ≡ two ∷ one ∷ rest) }
{
    word.len() >= 2
        && other.len() >= 2
        && word[0] == other[1]
        && word[1] == other[0]
        && are_same(&word[2..], &other[2..])
}

/// Whether the bytes are the same.
fn are_same(bytes: &[u8], others: &[u8]) -> bool
    ensures { IsTrue result → bytes.now ≡ others.now }
{
    bytes == others
}
