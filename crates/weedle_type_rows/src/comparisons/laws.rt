//! The laws. The hashes are those that Rust's own derives and `DefaultHasher` give.

use super::{LESS, LONG, UNSIGNED_SHORT, docstring, inherited, name_list};
use std::cmp::Ordering;
use std::test::Fail;
use weedle_base::term::{Comma, Deleter, NaN};
use weedle_comparisons::laws::{compare, compare_partially, copy, hash_alike, hash_of};
use weedle_parts::common::Identifier;
use weedle_parts::literal::{BooleanLit, ConstValue, FloatLit, HexLit, IntegerLit};
use weedle_parts::modifier::Special;

#[test]
fn laws_hold_of_names(rt: HostRuntime) {
    let (a, b) = (Identifier("a"), Identifier("b"));
    assert_eq!(rt; compare(&a, &b), LESS);
    assert_eq!(rt; compare_partially(&a, &b), (true, Some(Ordering::Less)));
    assert!(rt; hash_alike(&a, &a) && !hash_alike(&a, &b));
    assert_eq!(rt; copy(&a), (a, true));
}

#[test]
fn hashes_of_structs_are_those_of_rust(rt: HostRuntime) -> Result<(), Fail> {
    let alloc = rt.alloc();
    let list = name_list(alloc, &["a", "b"])?;
    assert_eq!(rt; hash_of(&Comma), 0xd1fb_a762_150c_532c);
    assert_eq!(rt; hash_of(&inherited("Node")), 0x81a6_ccd8_a411_54db);
    assert_eq!(rt; hash_of(&docstring(alloc, " a")?), 0x6a34_56f6_70dc_1651);
    assert_eq!(rt; hash_of(&list), 0x12fd_23af_eb13_a092);
    Ok(())
}

#[test]
fn hashes_of_enums_are_those_of_rust(rt: HostRuntime) {
    let boolean = ConstValue::Boolean(BooleanLit(true));
    let float = ConstValue::Float(FloatLit::NaN(NaN));
    let integer = IntegerLit::Hex(HexLit("0x1"));
    assert_eq!(rt; hash_of(&LONG), 0x8934_f5f0_a51f_bffa);
    assert_eq!(rt; hash_of(&UNSIGNED_SHORT), 0x5d33_7fde_d375_ca2c);
    assert_eq!(rt; hash_of(&integer), 0x311c_eecd_13be_f7cf);
    assert_eq!(rt; hash_of(&boolean), 0xc8d9_2d1f_e77b_6f16);
    assert_eq!(rt; hash_of(&float), 0x7f85_e0c4_c3d2_0f6e);
    assert_eq!(rt; hash_of(&Special::Deleter(Deleter)), 0xa4d3_1070_d122_b816);
}
