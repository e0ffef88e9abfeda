//! What a call comes to, as numbers. `include/weedle.h` has a name for each.

/// The grammar reads the whole text, or the rule that was asked for.
pub const READ: u32 = 0;

/// It doesn't.
pub const REFUSED: u32 = 1;

/// The bytes aren't UTF-8.
pub const NOT_UTF8: u32 = 2;

/// Memory was refused.
pub const NO_MEMORY: u32 = 3;

/// It does, and its nodes need more room.
pub const NO_ROOM: u32 = 4;

/// The text is longer, or nests deeper, than the numbers of a node hold.
pub const TOO_LONG: u32 = 5;

/// No rule has the number.
pub const NO_RULE: u32 = 6;

/// The text has no such place, or no such unread part.
pub const NO_PLACE: u32 = 7;

/// No dialect has the number.
pub const NO_DIALECT: u32 = 8;

/// Descent doesn't read what is asked for, since it nests too deep or takes too many steps, and the
/// dialect's rules have no table.
pub const TOO_DEEP: u32 = 9;
