//! The members of interfaces.

pub use weedle_interfaces::{InterfaceMember, InterfaceMembers};
pub use weedle_iterables::{
    AsyncIterableInterfaceMember, DoubleTypedAsyncIterable, DoubleTypedIterable,
    IterableInterfaceMember, MaplikeInterfaceMember, SetlikeInterfaceMember,
    SingleTypedAsyncIterable, SingleTypedIterable,
};
pub use weedle_members::{
    AttributeInterfaceMember, ConstMember, ConstructorInterfaceMember, OperationInterfaceMember,
    StringifierMember,
};
pub use weedle_parts::inheritance::Inheritance;
pub use weedle_parts::modifier::{Special, StringifierOrInheritOrStatic, StringifierOrStatic};
