//! What a rule takes is a rendering of the value that it gives, and holds the texts of the value in
//! their order. Each of these functions does nothing when it runs: its contract is the law of one
//! type.

mod leaves;
mod literals;
mod simple_types;
mod terminals;
mod variant_law;
mod written;

pub use leaves::{dec, docstring, float_value, hex, identifier, oct, string};
pub use literals::{
    boolean, const_value, default, default_value, empty_array, empty_dictionary, float, integer,
};
pub use simple_types::{
    const_type, double_type, float_type, floating_point_type, integer_type, long_long_type,
    long_type, short_type,
};
pub use terminals::{keywords, symbols};
pub use variant_law::{variant_trees, variants};
pub use written::attributes::{
    argument, argument_list, arguments, extended_attribute, extended_attribute_arg_list,
    extended_attribute_list, extended_attribute_named_arg_list, single_argument, variadic_argument,
};
pub use written::plain_attributes::{
    extended_attribute_ident, extended_attribute_ident_list, extended_attribute_no_args,
    identifier_list, identifier_or_string,
};
pub use written::types::{
    attributed_non_any_type, attributed_type, frozen_array_type, non_any_type, promise_type,
    record_key_type, record_type, record_types, return_type, sequence_type, single_type, type_,
    union_member_type, union_type,
};
