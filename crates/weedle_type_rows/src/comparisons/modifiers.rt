//! What may be before a member, and what is inherited from.

use super::{EQUAL, GREATER, LESS, inherited};
use std::test::Fail;
use weedle_base::term::{Deleter, Getter, LegacyCaller, Setter};
use weedle_comparisons::modifiers::*;
use weedle_parts::modifier::Special;

#[test]
fn inheritances_go_by_their_names(rt: HostRuntime) -> Result<(), Fail> {
    let node = inherited("Node");
    for (name, answer) in [("Event", LESS), ("Node", EQUAL), ("Window", GREATER)] {
        let a = inherited(name);
        assert_eq!(rt; compare_inheritances(a, node), answer);
        assert_eq!(rt; inheritances_hash_alike(a, node), answer.0);
        assert_eq!(rt; clone_inheritance(&a)?, (a, true));
    }
    Ok(())
}

#[test]
fn specials_go_by_their_variants(rt: HostRuntime) -> Result<(), Fail> {
    let setter = Special::Setter(Setter);
    for (a, answer) in [
        (Special::Getter(Getter), LESS),
        (setter, EQUAL),
        (Special::Deleter(Deleter), GREATER),
        (Special::LegacyCaller(LegacyCaller), GREATER),
    ] {
        assert_eq!(rt; compare_specials(a, setter), answer);
        assert_eq!(rt; specials_hash_alike(a, setter), answer.0);
        assert_eq!(rt; clone_special(&a)?, (a, true));
    }
    Ok(())
}
