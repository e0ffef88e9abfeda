//! How much a descent may do.

ghost use Rattle.std.specs.Prelude.{◌≡◌, ◌≤◌, ◌+◌, ◌*◌, ◌↔◌, IsTrue};

use crate::narrow::MOST;
use std::alloc::AllocError;

/// How much a descent may still do: where it would do more, it gives up with an error.
///
/// A caller then reads over a memo or a packrat table, whose time and memory follow from the length
/// of the text. So every text is read within a bound, and with little stack.
#[derive(Clone, Copy)]
pub struct Limits {
    /// How many rules it may still try. Each rule that is tried takes one; what can't begin with
    /// the byte there is passed over, and takes none.
    pub steps: usize,
    /// How deep the nodes may nest; 0 once a limit was spent.
    pub depth: usize,
}

/// How many nodes deep a descent goes, for which 190 kB of stack are enough.
const DEPTH: usize = 400;

impl Limits {
    /// The limits for a text of so many bytes: 16 rules for each byte and 4,096 more, 400 nodes
    /// deep. What people write takes two rules a byte, some 60 nodes deep.
    pub fn of_length(length: usize) -> Limits
        ensures steps { result.steps ≤ 16 * length + 4096 }
        ensures depth { result.depth ≡ 400 }
    {
        Limits {
            steps: length.saturating_mul(16).saturating_add(4_096),
            depth: DEPTH,
        }
    }

    /// Nothing, where a text of so many bytes may be read; else they are spent.
    pub(crate) fn allow(&mut self, length: usize) -> Result<(), AllocError>
        ensures { self.new.steps ≡ self.old.steps }
    {
        if length > MOST {
            self.depth = 0;
            return Err(AllocError);
        }
        Ok(())
    }

    /// Whether a descent gave up since one of them was spent, and not because memory runs out.
    pub fn are_spent(&self) -> bool
        ensures { IsTrue result ↔ (self.now.depth ≡ 0) }
    {
        self.depth == 0
    }
}
