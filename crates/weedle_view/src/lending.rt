//! Lending what one owns.

ghost use Rattle.std.specs.Fn.{FnOnceReturnsAt};

/// Lends what it owns to a function, and answers what that answers. Then it drops it.
///
/// A caller who reads a text owns the list of its definitions, and writes first
///
/// ```text
/// let definitions = parse(alloc, text)?;
/// let entries = outline(alloc, &definitions)?;
/// ```
///
/// which this prover doesn't take: a call that borrows from a local list of definitions is more
/// than it can compute. Lent, it does:
///
/// ```rust
/// let count = lend(parse(alloc, text)?, move |definitions: &Definitions<'_>| {
///     outline(alloc, definitions).map(|entries| entries.len())
/// })?;
/// ```
///
/// The type of the closure's argument has to be written, and `move` where the closure uses
/// something beside it, as `alloc` here. A closure that holds a reference is again more than the
/// prover can compute: what it refers to is lent too, as a pair.
///
/// ```rust
/// let is_there = lend((definitions, name), |(definitions, name): &(Definitions<'_>, &str)| {
///     has_interface(definitions, name)
/// });
/// ```
///
/// What the closure answers can't borrow from what is lent, so what is done with the entries is
/// done in the closure.
pub fn lend<T: Drop, R, F: FnOnce(&T) -> R>(owned: T, f: F) -> R
    requires { F.IsAlwaysCallable f }

    // What the function answers, where it is passed what is lent.
    ensures { FnOnceReturnsAt F.FnOnce f owned result }
{
    f(&owned)
}
