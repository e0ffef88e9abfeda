//! How the types are written, for crates above.

/// How a `T` is written. It is the `Print` of a type in another crate.
pub struct Held<T>(T);
