//! What recursive descent reads again where extended attributes nest.

ghost use Rattle.std.specs.Prelude.{◌≡◌, ◌↔◌, ◌+◌, ◌-◌, ◌*◌, ◌^◌, ◌<◌, ◌≤◌, true, min, max};
ghost use Rattle.weedle_nesting.specs.Nesting.{brackets_behind};
ghost use Rattle.weedle_nesting.specs.Weights.{SuitsDescent, attributes_read};

use crate::look::Level;
use crate::marks::{next_mark, past_mark};

/// How great the weight of a byte may be on the average: 3 to the power of the `[` that are open in
/// front of it, behind the last `;`.
const MOST_WEIGHT: u128 = 4;

/// How many of `(` and `<` may be open at once where descent reads.
const MOST_BRACKETS: usize = 1_000;

/// Whether recursive descent reads a text in little time and on little stack.
///
/// Descent reads what is in the arguments of an extended attribute up to three times. So a byte has
/// a weight: 3 to the power of the `[` that are open in front of it, behind the last `;`, since no
/// bracket holds one. So a `[` that isn't closed counts for its own statement or member alone. This
/// says whether the sum of the weights is less than 4 times one more than the bytes are, and at
/// most 1,000 of `(` and `<` are open at once.
///
/// That is no bound on what descent reads: each of the fourteen kinds of definitions that is tried
/// reads anew what is in front of a definition. With extended attributes of 3 to 12 kB there,
/// `callback` was read in 8 to 21 times the time of `interface`.
///
/// It looks at most once at each byte, and takes no memory.
pub fn suits_descent(raw: &str) -> bool
    ensures exact { (result ≡ true) ↔ SuitsDescent raw.now }
{
    let text = raw.as_bytes();
    let most = MOST_WEIGHT * (text.len() as u128 + 1);
    let mut seen = Weights {
        depth: 0,
        weight: 1,
        work: 0,
        brackets: Level { depth: 0, most: 0 },
    };
    let mut rest = text;
    'marks: while let Some((mark, after)) = next_mark(rest) {
        let behind = past_mark(mark, after);
        seen.weigh(rest.len() - behind.len());
        if seen.work >= most {
            return false;
        }
        seen.count(mark);
        rest = behind;
    }
    seen.weigh(rest.len());
    seen.work < most && seen.brackets.most <= MOST_BRACKETS
}

/// What was seen so far.
#[derive(Clone, Copy)]
struct Weights {
    /// How many `[` are open behind the last `;`.
    depth: usize,
    /// 3 to the power of these.
    weight: u128,
    /// The sum of the weights at all bytes so far.
    work: u128,
    /// `(` and `<`.
    brackets: Level,
}

impl Weights {
    /// Adds the weight of so many bytes.
    fn weigh(&mut self, bytes: usize)
        ensures work { self.new.work ≡ min (self.old.work + self.old.weight * bytes) (2 ^ 128 - 1) }
        ensures same { (self.new.depth ≡ self.old.depth) × (self.new.weight ≡ self.old.weight)
            × (self.new.brackets ≡ self.old.brackets) }
    {
        let weight = self.weight.saturating_mul(bytes as u128);
        self.work = self.work.saturating_add(weight);
    }

    /// Counts a bracket or a semicolon, and no other mark.
    fn count(&mut self, mark: u8)
        requires depth { self.old.depth + 1 < 2 ^ 64 }
        requires weight { self.old.weight * 3 < 2 ^ 128 }
        requires brackets { self.old.brackets.depth + 1 < 2 ^ 64 }
        ensures depth { self.new.depth ≡ attributes_read self.old.depth mark }
        ensures weight { self.old.weight ≡ 3 ^ self.old.depth
            → self.new.weight ≡ 3 ^ self.new.depth }
        ensures light { self.new.weight ≤ max (self.old.weight * 3) 1 }
        ensures work { self.new.work ≡ self.old.work }
        ensures brackets { self.new.brackets.depth ≡ brackets_behind self.old.brackets.depth mark }
        ensures most_brackets { self.old.brackets.depth ≤ self.old.brackets.most
            → self.new.brackets.most ≡ max self.old.brackets.most self.new.brackets.depth }
    {
        match mark {
            b'[' => {
                self.depth += 1;
                self.weight *= 3;
            }
            b']' => {
                if self.depth > 0 {
                    self.depth -= 1;
                    self.weight /= 3;
                }
            }
            b';' => {
                self.depth = 0;
                self.weight = 1;
            }
            b'(' | b'<' => self.brackets.enter(),
            b')' | b'>' => self.brackets.leave(),
            _ => {}
        }
    }
}
