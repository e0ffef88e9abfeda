//! How long lines are, and how far they are indented.

ghost use Rattle.std.specs.Prelude.{◌≡◌, ◌*◌, min};

/// How many characters a line has at most, if what stands on it can be broken.
pub const COLUMNS: usize = 80;

/// How many characters extended attributes have at most in front of what they belong to, on its
/// line.
pub const MOST_IN_FRONT: usize = 40;

/// How many levels a line is indented at most. Where so many are open, no list is broken.
pub const MOST_LEVELS: usize = 16;

/// How many spaces a level is.
pub const LEVEL: usize = 2;

/// How many spaces a line begins with, where so many levels are open.
pub fn indentation(levels: usize) -> usize
    ensures { result ≡ min levels MOST_LEVELS * LEVEL }
{
    levels.min(MOST_LEVELS) * LEVEL
}
