//! Where a building is.

/// A place of the text, and how many nodes were visited on the way to it. The count stays at the
/// greatest number once it has come to it.
#[derive(Clone, Copy, Debug)]
pub struct At {
    /// The place, in bytes from the front of the text.
    pub place: usize,
    /// How many nodes were visited on the way to it.
    pub visits: u128,
}
