//! Arguments and extended attributes, by hand from the grammar.

use super::answers::{assert_no_text, assert_written};
use std::test::Fail;
use weedle_base::term::{
    Any, Assign, CloseBracket, CloseParen, Comma, OpenBracket, OpenParen, Optional,
};
use weedle_parts::common::{Bracketed, Identifier, Punctuated};
use weedle_parts::literal::{DecLit, Default, DefaultValue, IntegerLit};
use weedle_testing::Wanted;
use weedle_types::argument::{ParenthesizedArgumentList, SingleArgument};
use weedle_types::attribute::ExtendedAttributeList;
use weedle_types::types::{AttributedType, SingleType, Type};

/// An argument of this name, `any` of type, with a default.
fn argument(name: &str, optional: Option<Optional>) -> SingleArgument<'_> {
    SingleArgument {
        attributes: None,
        optional,
        type_: AttributedType {
            attributes: None,
            type_: Type::Single(SingleType::Any(Any)),
        },
        identifier: Identifier(name),
        default: Some(Default {
            assign: Assign,
            value: DefaultValue::Integer(IntegerLit::Dec(DecLit("1"))),
        }),
    }
}

#[test]
fn a_default_stands_behind_an_optional_argument_alone(rt: HostRuntime) -> Result<(), Fail> {
    let alloc = rt.alloc();
    let mut wanted = Wanted::new();
    let it = argument("a", Some(Optional));
    assert_written(&rt, alloc, &mut wanted, &it, "optional any a = 1");
    assert_no_text(&rt, alloc, &argument("a", None))?;
    assert_no_text(&rt, alloc, &argument("a b", Some(Optional)))?;
    assert!(rt; wanted == Wanted::new());
    Ok(())
}

#[test]
fn empty_lists_are_written(rt: HostRuntime) -> Result<(), Fail> {
    let alloc = rt.alloc();
    let mut wanted = Wanted::new();
    let arguments = ParenthesizedArgumentList {
        open_paren: OpenParen,
        body: Punctuated {
            list: Vec::new(alloc),
            separator: Comma,
        },
        close_paren: CloseParen,
    };
    assert_written(&rt, alloc, &mut wanted, &arguments, "()");
    let attributes: ExtendedAttributeList<'_> = Bracketed {
        open_bracket: OpenBracket,
        body: Punctuated {
            list: Vec::new(alloc),
            separator: Comma,
        },
        close_bracket: CloseBracket,
    };
    assert_written(&rt, alloc, &mut wanted, &attributes, "[]");
    assert!(rt; wanted == Wanted::new());
    Ok(())
}
