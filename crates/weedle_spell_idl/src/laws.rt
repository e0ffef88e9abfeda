//! What a rule takes is a rendering of the value that it gives, and holds the texts of the value in
//! their order. Each of these functions does nothing when it runs: its contract is the law of one
//! type.

mod written;

pub use written::all_definitions::{definition, definitions};
pub use written::interfaces::{
    callback_interface_definition, interface_definition, interface_member, interface_members,
    interface_mixin_definition, partial_interface_definition, partial_interface_mixin_definition,
};
pub use written::iterables::{
    async_iterable_interface_member, double_typed_async_iterable, double_typed_iterable,
    iterable_interface_member, maplike_interface_member, setlike_interface_member,
    single_typed_async_iterable, single_typed_iterable,
};
pub use written::members::{
    attribute_interface_member, attribute_mixin_member, const_member, constructor_interface_member,
    mixin_member, mixin_members, operation_interface_member, operation_mixin_member,
    stringifier_member,
};
pub use written::modifiers::{
    inheritance, special, stringifier_or_inherit_or_static, stringifier_or_static,
};
pub use written::namespaces::{
    attribute_namespace_member, dictionary_definition, dictionary_member, dictionary_members,
    namespace_definition, namespace_member, namespace_members, operation_namespace_member,
    partial_dictionary_definition, partial_namespace_definition,
};
pub use written::statements::{
    callback_definition, enum_definition, enum_value_list, enum_variant, implements_definition,
    includes_statement_definition, typedef_definition,
};
