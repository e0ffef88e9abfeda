//! What others are built of.

use weedle_base::term::Comma;
use weedle_build_types::Held;
use weedle_parts::common::{Braced, Generics, PunctuatedNonEmpty};
use weedle_statements::EnumVariant;
use weedle_types::types::AttributedType;

/// How a `T` is built: the `Build` of a definition, of a member or of what stands in one, whose
/// type stands in another crate.
pub(crate) struct IdlPart<T>(T);

/// A type in angle brackets.
pub(crate) type OneType<'a> = Generics<Held<AttributedType<'a>>>;

/// The types of keys and values in angle brackets.
pub(crate) type TwoTypes<'a> = Generics<
    (Held<AttributedType<'a>>, Comma, Held<AttributedType<'a>>),
>;

/// The values of an enum in braces.
pub(crate) type EnumValues<'a> = Braced<PunctuatedNonEmpty<IdlPart<EnumVariant<'a>>, Comma>>;
