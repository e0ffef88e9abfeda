//! How today's definitions begin, and which of them have a body.

ghost use Rattle.std.specs.Prelude.{◌≡◌, ◌∷◌, []};
ghost use Rattle.std.specs.List.{slice_get};
ghost use Rattle.weedle_grammar.specs.written.Table.TodayTypes.{TODAY_ATTRIBUTE_LISTS};
ghost use Rattle.weedle_grammar.specs.written.Table.TodayWords.{TODAY_DOCS};
ghost use Rattle.weedle_recovery.specs.Dialects.{today_beginnings};

use weedle_grammar::Rule;

/// The kinds of definitions that have a body of members.
pub(crate) const TODAY_WITH_BODY: [Rule; 9] = [
    Rule::TODAY_INTERFACE,
    Rule::TODAY_DICTIONARY,
    Rule::TODAY_MIXIN,
    Rule::TODAY_PARTIAL_INTERFACE,
    Rule::TODAY_PARTIAL_DICTIONARY,
    Rule::TODAY_PARTIAL_MIXIN,
    Rule::TODAY_NAMESPACE,
    Rule::TODAY_PARTIAL_NAMESPACE,
    Rule::TODAY_CALLBACK_INTERFACE,
];

/// The rules of members.
pub(crate) const TODAY_MEMBERS: [Rule; 4] = [
    Rule::TODAY_INTERFACE_MEMBER,
    Rule::TODAY_DICTIONARY_MEMBER,
    Rule::TODAY_MIXIN_MEMBER,
    Rule::TODAY_NAMESPACE_MEMBER,
];

/// The kind of definition of a number, and how many parts at its front show that it begins: the
/// docstrings and the extended attributes in front of each kind, its keywords and, except for a
/// typedef, its name. What could be read as another one comes before that one.
pub(crate) fn today_beginning(number: usize) -> Option<(Rule, usize)>
    ensures { result ≡ slice_get today_beginnings number }
{
    match number {
        0 => Some((Rule::TODAY_MIXIN, 5)),
        1 => Some((Rule::TODAY_INTERFACE, 4)),
        2 => Some((Rule::TODAY_DICTIONARY, 4)),
        3 => Some((Rule::TODAY_ENUM, 4)),
        4 => Some((Rule::TODAY_PARTIAL_MIXIN, 6)),
        5 => Some((Rule::TODAY_PARTIAL_INTERFACE, 5)),
        6 => Some((Rule::TODAY_TYPEDEF, 3)),
        7 => Some((Rule::TODAY_CALLBACK_INTERFACE, 5)),
        8 => Some((Rule::TODAY_CALLBACK, 5)),
        9 => Some((Rule::TODAY_PARTIAL_DICTIONARY, 5)),
        10 => Some((Rule::TODAY_NAMESPACE, 4)),
        11 => Some((Rule::TODAY_PARTIAL_NAMESPACE, 5)),
        12 => Some((Rule::TODAY_INCLUDES, 5)),
        13 => Some((Rule::TODAY_IMPLEMENTS, 5)),
        _ => None,
    }
}

/// The rule of a number among those in front of each kind.
pub(crate) fn today_front(number: usize) -> Option<Rule>
    ensures { result ≡ slice_get (TODAY_DOCS ∷ TODAY_ATTRIBUTE_LISTS ∷ []) number }
{
    match number {
        0 => Some(Rule::TODAY_DOCS),
        1 => Some(Rule::TODAY_ATTRIBUTE_LISTS),
        _ => None,
    }
}
