//! The parts that many members and definitions have.

use crate::held::Held;
use weedle_types::argument::ParenthesizedArgumentList;
use weedle_types::attribute::ExtendedAttributeList;

/// Extended attributes, or none.
pub type Attributes<'a> = Option<Held<ExtendedAttributeList<'a>>>;

/// Arguments in parentheses.
pub type Arguments<'a> = Held<ParenthesizedArgumentList<'a>>;
