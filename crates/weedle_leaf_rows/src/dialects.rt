//! Texts of today's WebIDL, by today's rules and by weedle2's. Places are counted by hand from the
//! texts.

use std::alloc::{AllocError, Global};
use std::process::Abort;
use std::test::Fail;
use weedle_grammar::Rule;
use weedle_places::{
    MemberPlace, Name, Role, Span, comments_in, names_in, names_of, places_by, places_in,
    references_in,
};
use weedle_syntax::{Dialect, Syntax, syntax_quick_in};
use weedle_testing::Wanted;

/// Definitions that weedle2's rules refuse: two lists of extended attributes, `*`,
/// `ObservableArray`, `undefined` as a default, and a docstring that no member follows.
const TODAY: &str = "\
/// d
[A] [Exposed=*] interface B : C {
  /// e
  const long D = 1;
  [E] attribute ObservableArray<F> g;
  undefined h(optional I j = undefined);
  constructor();
  /// f
};
enum K { /// l
\"a\", \"b\" };
";

/// Whether the dialect's rules read the whole text.
fn is_read(alloc: Global, text: &str, dialect: Dialect) -> Result<bool, AllocError> {
    let found = syntax_quick_in(alloc, text, dialect)?;
    Ok(found.is_some())
}

/// What is wanted is by hand, from the standard's grammar and from weedle2's.
#[test]
fn texts_that_todays_rules_read_alone(rt: HostRuntime) -> Result<(), Fail> {
    for text in [
        "[Exposed=*] interface A {};",
        "[A=1.5] interface B {};",
        "[A=(\"a\", \"b\")] interface B {};",
        "[A] [B] interface C {};",
        "interface A { attribute sequence<[Clamp] octet> x; };",
        "interface A { attribute ObservableArray<Node> x; };",
        "interface A { async_iterable<DOMString>; };",
        "dictionary A { required [Clamp] octet x; };",
        "dictionary A { any x = undefined; };",
        "namespace A { const long X = 1; };",
        "// c",
    ] {
        assert!(rt; is_read(rt.alloc(), text, Dialect::Today)?, "{text}");
        assert!(rt; !is_read(rt.alloc(), text, Dialect::Weedle2)?, "{text}");
    }
    Ok(())
}

#[test]
fn texts_that_both_read(rt: HostRuntime) -> Result<(), Fail> {
    for text in [
        "",
        "[Exposed=Window] interface A : B { readonly attribute long? x; };",
        "/// d\ninterface A { const long X = 0x1F; };",
        "A implements B;",
        "enum E { \"a\", \"b\", };",
        "typedef record<DOMString, sequence<(long or A)>> T;",
    ] {
        assert!(rt; is_read(rt.alloc(), text, Dialect::Today)?, "{text}");
        assert!(rt; is_read(rt.alloc(), text, Dialect::Weedle2)?, "{text}");
    }
    Ok(())
}

#[test]
fn texts_that_neither_reads(rt: HostRuntime) -> Result<(), Fail> {
    for text in [
        "interface A;",
        "[A={x}] interface B {};",
        "interface A { attribute long x, y; };",
        "interface A { undefined f(///d\n long x); };",
        "interface A {",
    ] {
        assert!(rt; !is_read(rt.alloc(), text, Dialect::Today)?, "{text}");
        assert!(rt; !is_read(rt.alloc(), text, Dialect::Weedle2)?, "{text}");
    }
    Ok(())
}

#[test]
fn the_first_node_is_of_the_dialect(rt: HostRuntime) -> Result<(), Fail> {
    for (dialect, rule) in [
        (Dialect::Weedle2, Rule::DEFINITIONS),
        (Dialect::Today, Rule::TODAY_DEFINITIONS),
    ] {
        assert!(rt; dialect.start() == rule);
        match syntax_quick_in(rt.alloc(), "A includes B;", dialect)? {
            Some(nodes) => {
                assert!(rt; nodes.len() > 1);
                for node in nodes.iter().take(1) {
                    assert!(rt; node.rule == rule && node.start == 0 && node.end == 13);
                }
            }
            None => assert!(rt; false),
        }
    }
    Ok(())
}

/// `[A=*] interface B {}; ` has 22 bytes, and `interface A {}; ` has 16.
#[test]
fn a_tree_knows_its_dialect(rt: HostRuntime) -> Result<(), Fail> {
    let alloc = rt.alloc();
    for (dialect, rule, todays, both) in [
        (Dialect::Weedle2, Rule::DEFINITIONS, 0, 16),
        (Dialect::Today, Rule::TODAY_DEFINITIONS, 22, 16),
    ] {
        for (text, rest) in [
            ("[A=*] interface B {}; interface", todays),
            ("interface A {}; interface", both),
        ] {
            let front = Syntax::of_front_in(alloc, text, dialect)?;
            assert!(rt;
                front.dialect() == dialect && front.rest() == rest,
                "{text}"
            );
            assert!(rt; front.find(rule, 0) == Some(front.root()), "{text}");
            assert!(rt; Syntax::new_in(alloc, text, dialect)?.is_none(), "{text}");
        }
        let whole = Syntax::new_in(alloc, "interface A {};", dialect)?;
        assert!(rt; whole.is_some_and(|tree| tree.dialect() == dialect && tree.rest() == 15));
    }
    let weedle2s = Syntax::of_front(alloc, "A includes B;")?;
    assert!(rt; weedle2s.dialect() == Dialect::Weedle2);
    Ok(())
}

#[test]
fn each_rule_of_a_dialect(rt: HostRuntime) -> Result<(), Fail> {
    for (dialect, item, definition) in [
        (Dialect::Weedle2, Rule::DEFINITION, Rule::DEFINITION),
        (Dialect::Today, Rule::TODAY_PIECE, Rule::TODAY_DEFINITION),
    ] {
        assert!(rt; dialect.item() == item && dialect.definition() == definition);
    }
    Ok(())
}

/// Whether the names are in these places, and have these roles.
fn are_said(found: &[Name<'_>], said: &[(usize, usize, Role)]) -> bool {
    found.len() == said.len()
        && found.iter().zip(said).all(|(name, said)| (name.span.start, name.span.end, name.role)
            == *said)
}

#[test]
fn names_of_todays_text(rt: HostRuntime) -> Result<(), Fail> {
    let said = [
        (7, 8, Role::ExtendedAttribute),
        (11, 18, Role::ExtendedAttribute),
        (32, 33, Role::Interface),
        (36, 37, Role::Inherited),
        (61, 62, Role::Const),
        (71, 72, Role::ExtendedAttribute),
        (100, 101, Role::Type),
        (103, 104, Role::Attribute),
        (118, 119, Role::Operation),
        (129, 130, Role::Type),
        (131, 132, Role::Argument),
        (180, 181, Role::Enum),
    ];
    let found = names_in(rt.alloc(), TODAY, Dialect::Today)?;
    assert!(rt; found.is_some_and(|found| are_said(&found, &said)));
    assert!(rt; names_in(rt.alloc(), TODAY, Dialect::Weedle2)?.is_none());
    let said = [(0, 1, Role::Includer), (11, 12, Role::Included)];
    for dialect in [Dialect::Weedle2, Dialect::Today] {
        let found = names_in(rt.alloc(), "A includes B;", dialect)?;
        assert!(rt; found.is_some_and(|found| are_said(&found, &said)));
    }
    Ok(())
}

#[test]
fn references_of_todays_text(rt: HostRuntime) -> Result<(), Fail> {
    let said = [(45, 46, Role::Type)];
    let text = "interface A {}; interface B { async_iterable<A>; };";
    let found = references_in(rt.alloc(), text, "A", Dialect::Today)?;
    assert!(rt; found.is_some_and(|found| are_said(&found, &said)));
    assert!(rt; references_in(rt.alloc(), text, "A", Dialect::Weedle2)?.is_none());
    Ok(())
}

/// Where a span begins and ends, and then where its core does.
fn ends_of(span: Span, core: Span) -> (usize, usize, usize, usize) {
    (span.start, span.end, core.start, core.end)
}

/// Asserts where members or values are, and where their names begin.
fn assert_members(
    rt: &impl Abort,
    members: &[MemberPlace],
    wanted: &[((usize, usize, usize, usize), Option<usize>)],
) {
    assert_eq!(rt; members.len(), wanted.len());
    for (member, wanted) in members.iter().zip(wanted) {
        let name = member.name.map(|name| name.start);
        assert!(rt; (ends_of(member.span, member.core), name) == *wanted);
    }
}

#[test]
fn places_of_todays_text(rt: HostRuntime) -> Result<(), Fail> {
    let Some(found) = places_by(rt.alloc(), TODAY, Dialect::Today)? else {
        assert!(rt; false, "it is read whole");
        return Ok(());
    };
    assert_eq!(rt; found.len(), 2);
    assert!(rt; ends_of(found[0].span, found[0].core) == (0, 175, 0, 174));
    assert!(rt; ends_of(found[1].span, found[1].core) == (175, 202, 175, 201));
    assert!(rt; found[0].name == Some(Span { start: 32, end: 33 }));
    assert!(rt;
        found[1].name
            == Some(Span {
                start: 180,
                end: 181
            })
    );
    assert!(rt;
        found[1].front
            == Span {
                start: 174,
                end: 175
            }
    );
    let members = [
        ((42, 70, 42, 67), Some(61)),
        ((70, 108, 70, 105), Some(103)),
        ((108, 149, 108, 146), Some(118)),
        ((149, 166, 149, 163), None),
    ];
    assert_members(&rt, &found[0].members, &members);
    assert_members(&rt, &found[0].values, &[]);
    assert_members(&rt, &found[1].members, &[]);
    let values = [((184, 193, 184, 193), None), ((195, 199, 195, 198), None)];
    assert_members(&rt, &found[1].values, &values);
    assert!(rt; places_by(rt.alloc(), TODAY, Dialect::Weedle2)?.is_none());
    Ok(())
}

/// What no definition follows is in none: of today's pieces the docstring from 16 on, and the
/// comment.
#[test]
fn pieces_that_are_no_definition(rt: HostRuntime) -> Result<(), Fail> {
    let alloc = rt.alloc();
    for text in ["", "// c", "/// d", "/// d\n// e\n"] {
        let found = places_by(alloc, text, Dialect::Today)?;
        assert!(rt; found.is_some_and(|found| found.is_empty()), "{text}");
    }
    let found = places_by(alloc, "interface A {};\n/// d\n// e", Dialect::Today)?;
    assert!(rt;
        found.is_some_and(|found| found.len() == 1
            && found
                .iter()
                .all(|place| ends_of(place.span, place.core) == (0, 16, 0, 15)))
    );
    Ok(())
}

/// The places of `interface A { attribute B x; };` are the same by both dialects.
#[test]
fn places_that_both_have(rt: HostRuntime) -> Result<(), Fail> {
    for dialect in [Dialect::Weedle2, Dialect::Today] {
        let found = places_by(rt.alloc(), "interface A { attribute B x; };", dialect)?;
        let Some(found) = found else {
            assert!(rt; false, "it is read whole");
            return Ok(());
        };
        assert_eq!(rt; found.len(), 1);
        assert!(rt; ends_of(found[0].span, found[0].core) == (0, 31, 0, 31));
        assert_members(&rt, &found[0].members, &[((14, 29, 14, 28), Some(26))]);
    }
    Ok(())
}

/// In `interface A { /* x */ async_iterable<long>; };` the comment is from 14 to 21, in front of
/// the one member.
#[test]
fn one_tree_serves_all_calls(rt: HostRuntime) -> Result<(), Fail> {
    let alloc = rt.alloc();
    let text = "interface A { /* x */ async_iterable<long>; };";
    let Some(syntax) = Syntax::new_in(alloc, text, Dialect::Today)? else {
        assert!(rt; false, "it is read whole");
        return Ok(());
    };
    let names = names_of(alloc, &syntax)?;
    assert!(rt; are_said(&names, &[(10, 11, Role::Interface)]));
    let found = places_in(alloc, &syntax)?;
    assert_eq!(rt; found.len(), 1);
    for member in &found[0].members {
        assert!(rt; ends_of(member.span, member.core) == (22, 44, 22, 43));
        let comments = comments_in(alloc, &syntax, member.front)?;
        assert!(rt;
            comments
                .iter()
                .all(|comment| *comment == Span { start: 14, end: 21 })
        );
        assert_eq!(rt; comments.len(), 1);
    }
    assert_eq!(rt; found[0].members.len(), 1);
    Ok(())
}

#[test]
fn todays_texts_are_read_or_want_memory(rt: HostRuntime) -> Result<(), Fail> {
    let alloc = rt.alloc();
    let mut wanted = Wanted::new();
    let text = "[A=*] interface B {}; // c";
    if let Some(Some(found)) = wanted.given(names_in(alloc, text, Dialect::Today)) {
        assert_eq!(rt; found.len(), 2);
    }
    if let Some(Some(found)) = wanted.given(places_by(alloc, text, Dialect::Today)) {
        assert_eq!(rt; found.len(), 1);
    }
    if let Some(Some(found)) = wanted.given(references_in(alloc, text, "B", Dialect::Today)) {
        assert!(rt; found.is_empty());
    }
    if let Some(front) = wanted.given(Syntax::of_front_in(alloc, text, Dialect::Today)) {
        assert_eq!(rt; front.rest(), 26);
    }
    assert!(rt; wanted.tell(&rt, alloc));
    Ok(())
}
