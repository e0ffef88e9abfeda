//! The scanners of names.

ghost use Rattle.std.specs.Prelude.{◌≡◌, [], ◌∷◌, MatchOption};
ghost use Rattle.weedle_grammar.specs.Rows.{is_in};
ghost use Rattle.weedle_grammar.specs.declared.class.Class.TheVariants.{Name};
ghost use Rattle.weedle_grammar.specs.written.Table.{Reads};
ghost use Rattle.weedle_grammar.specs.written.Table.Leaves.{
  IDENTIFIER,
  IDENTIFIER_TEXT,
  OPT_BYTES_UNDERSCORE,
};
ghost use Rattle.weedle_grammar.specs.Trees.{Text, Fails};
ghost use Rattle.weedle_base.specs.Names.{IsTagged, LacksTag};
ghost use Rattle.weedle_grammar.specs.Trivia.{Took, TookText};

use weedle_grammar::scan::{after_one, after_run, after_word, next_is, taken};
use weedle_grammar::trivia::skip_trivia;
use weedle_grammar::{Class, Rule};

/// Whether the character may be in a name: an ASCII letter or digit, `_` or `-`. It takes no
/// memory.
pub fn is_alphanum_underscore_dash(token: char) -> bool
    ensures { result ≡ is_in Name token }
{
    matches!(token, '0'..='9' | 'A'..='Z' | 'a'..='z' | '_' | '-')
}

/// Reads the tag where no name character follows it. Returns what follows, then the tag.
///
/// `ident_tag("or", "oré")` is `Some(("é", "or"))`; `ident_tag("long", "long-")` is None. It takes
/// no memory.
pub fn ident_tag<'a>(tag: &'static str, input: &'a str) -> Option<(&'a str, &'a str)>
    ensures { MatchOption result (LacksTag tag.now input.now)
        (λ x. IsTagged tag.now input.now x.0.now × (x.1.now ≡ tag.now)) }
{
    let rest = input.strip_prefix(tag)?;
    if next_is(Class::Name, rest) {
        return None;
    }
    Some((rest, tag))
}

/// Reads an identifier: trivia, an underscore that is dropped, a letter and the name characters
/// that follow it, trivia. Returns what follows, then the name.
///
/// `identifier(" _interface x")` is `Some(("x", "interface"))`; `identifier("__x")` is None. It
/// takes no memory.
pub fn identifier(input: &str) -> Option<(&str, &str)>
    ensures { MatchOption result (Reads input.now IDENTIFIER 0 Fails)
        (λ x. Took IDENTIFIER input.now (Text x.1.now ∷ []) x.0.now) }
{
    let start = skip_trivia(input);
    let name = skip_underscore(start);
    let (rest, text) = name_text(name)?;
    Some((skip_trivia(rest), text))
}

/// What follows an underscore at the front of the text, or the text itself.
fn skip_underscore(input: &str) -> &str
    ensures { Took OPT_BYTES_UNDERSCORE input.now [] result.now }
{
    after_word(Rule::BYTES_UNDERSCORE, "_", input).unwrap_or(input)
}

/// What follows a letter and the name characters behind it, and the text of all of them.
fn name_text(input: &str) -> Option<(&str, &str)>
    ensures { MatchOption result (Reads input.now IDENTIFIER_TEXT 0 Fails)
        (λ x. TookText IDENTIFIER_TEXT input.now x.1.now x.0.now) }
{
    let first = after_one(Rule::ONE_OF_LETTER, Class::Letter, input)?;
    let rest = after_run(Rule::RUN_NAME, Class::Name, first);
    Some((rest, taken(Rule::IDENTIFIER_TEXT, input, rest)))
}
