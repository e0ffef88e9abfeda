//! The message of a refusal.

ghost use Rattle.std.specs.Prelude.{◌≡◌, ◌<◌, ◌==◌, ◌+◌, ◌&&◌, if◌then◌else◌, [], Some, codes};
ghost use Rattle.weedle_refusal.specs.Texts.{refusal_text};

use crate::refusal::Refusal;
use std::error;
use std::fmt::{self, Display, Formatter, Write};

/// How many words are shown at most.
const SHOWN: usize = 6;

/// Says what was expected, as ``expected `}` or `,` ``: six words at most, and then how many more
/// there are.
impl Display for Refusal {
    ghost output = { λ refusal. Some (refusal_text refusal) };

    fn fmt<W: Write>(&self, f: &mut Formatter<W>) -> fmt::Result {
        let shown = self.expected.len().min(SHOWN);
        let more = self.expected.len() - shown;
        f.write_str("expected ")?;
        let words = &self.expected[..shown];
        for (at, word) in words.iter().enumerate() {
            f.write_str(between(at, shown, more))?;
            write!(f, "{word}")?;
        }
        if more > 0 {
            write!(f, " or {more} more")?;
        }
        Ok(())
    }
}

/// What is in front of a word: nothing at the first, `or` where it is the last and nothing follows.
fn between(at: usize, shown: usize, more: usize) -> &'static str
    requires { at < shown }
    ensures { result.now ≡ (if at == 0 then []
        else (if more == 0 && at + 1 == shown then codes " or " else codes ", ")) }
{
    if at == 0 {
        ""
    } else if more == 0 && at + 1 == shown {
        " or "
    } else {
        ", "
    }
}

impl error::Error for Refusal {}
