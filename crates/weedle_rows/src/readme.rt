//! The README's program except for its `main`.

use std::alloc::{AllocError, Global};
use std::test::Fail;
use weedle::interface::InterfaceMember;
use weedle::{Definition, Definitions, Err, at_byte, lend, parse_quick};

/// The interfaces of a text with their attributes, or from where on it can't be read.
fn listing_of(alloc: Global, text: &str) -> Result<String, AllocError> {
    match parse_quick(alloc, text) {
        Ok(definitions) => lend(definitions, move |definitions: &Definitions<'_>| {
            interfaces_of(alloc, definitions)
        }),
        Err(Err::Failure(_)) => Err(AllocError),
        Err(left) => format!(in alloc; "{}\n", at_byte(text, left)),
    }
}

/// A line for each interface, and below it one for each of its attributes.
fn interfaces_of(alloc: Global, definitions: &Definitions<'_>) -> Result<String, AllocError> {
    let mut listing = String::new(alloc);
    for definition in definitions {
        if let Definition::Interface(interface) = definition {
            writeln!(listing, "{}", interface.identifier.0)?;
            for member in &interface.members.body {
                if let InterfaceMember::Attribute(attribute) = member {
                    writeln!(listing, "  {}", attribute.identifier.0)?;
                }
            }
        }
    }
    Ok(listing)
}

#[test]
fn interfaces_are_listed_with_their_attributes(rt: HostRuntime) -> Result<(), Fail> {
    let table = [
        (
            "[Exposed=Window] interface Window : EventTarget { readonly attribute Storage sessionStorage; };",
            "Window\n  sessionStorage\n",
        ),
        (
            "interface A { attribute long x; void f(); attribute long y; }; B includes C; interface D {};",
            "A\n  x\n  y\nD\n",
        ),
        ("", ""),
        ("interface A {}; interface B", "unread from byte 16 on\n"),
    ];
    for (text, listing) in table {
        assert_eq!(rt;
            listing_of(rt.alloc(), text)?.as_str(),
            listing,
            "of {text:?}"
        );
    }
    Ok(())
}
