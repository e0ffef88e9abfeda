//! The kinds of members.

/// Which kind of member it is, whatever list it is in: an attribute of an interface, of a mixin or
/// of a namespace is an `Attribute`.
#[derive(Clone, Copy, Debug, PartialEq, Eq)]
pub enum MemberKind {
    /// A constant, as `const long X = 5;`.
    Const,
    /// An attribute, as `readonly attribute long x;`.
    Attribute,
    /// A constructor, as `constructor(long x);`.
    Constructor,
    /// An operation, as `long f(long x);`.
    Operation,
    /// An iteration, as `iterable<long>;`.
    Iterable,
    /// An asynchronous iteration, as `async iterable<long>;`.
    AsyncIterable,
    /// A map, as `maplike<DOMString, long>;`.
    Maplike,
    /// A set, as `setlike<long>;`.
    Setlike,
    /// A stringifier with no body, as `stringifier;`.
    Stringifier,
    /// A member of a dictionary, as `required long x;`.
    Field,
}
