//! Each terminal, with and without whitespace around it.
//!
//! Written by tools/terminals.py, and not edited by hand.

use std::alloc::Global;
use std::process::Abort;
use weedle_base::Parse;
use weedle_base::term::*;
use weedle_testing::Wanted;

/// Reads a terminal between whitespace and before `anything`: with all of it, and alone, with the
/// whitespace before it, with that behind it, and with both.
fn reads<'a, T: Parse<'a>>(rt: &impl Abort, alloc: Global, text: &'a str) {
    let padded = text.strip_suffix("anything").unwrap_or("");
    for (text, rest) in [
        (padded.trim(), ""),
        (padded.trim_end(), ""),
        (padded.trim_start(), ""),
        (padded, ""),
        (text.trim_start(), "anything"),
    ] {
        match T::parse(alloc, text) {
            Ok((left, _)) => assert!(rt; left == rest, "in {text}"),
            Err(_) => assert!(rt; false, "{text} is not read"),
        }
    }
}

#[test]
fn no_reading_of_symbols_takes_memory(rt: HostRuntime) {
    let alloc = rt.alloc();
    reads::<OpenParen>(&rt, alloc, "  (  anything");
    reads::<CloseParen>(&rt, alloc, "  )  anything");
    reads::<OpenBracket>(&rt, alloc, "  [  anything");
    reads::<CloseBracket>(&rt, alloc, "  ]  anything");
    reads::<OpenBrace>(&rt, alloc, "  {  anything");
    reads::<CloseBrace>(&rt, alloc, "  }  anything");
    reads::<Comma>(&rt, alloc, "  ,  anything");
    reads::<Minus>(&rt, alloc, "  -  anything");
    reads::<Dot>(&rt, alloc, "  .  anything");
    reads::<Ellipsis>(&rt, alloc, "  ...  anything");
    reads::<Colon>(&rt, alloc, "  :  anything");
    reads::<SemiColon>(&rt, alloc, "  ;  anything");
    reads::<LessThan>(&rt, alloc, "  <  anything");
    reads::<Assign>(&rt, alloc, "  =  anything");
    reads::<GreaterThan>(&rt, alloc, "  >  anything");
    reads::<QMark>(&rt, alloc, "  ?  anything");
    assert!(rt; Wanted::new().tell(&rt, alloc));
}

#[test]
fn no_reading_of_definition_keywords_takes_memory(rt: HostRuntime) {
    let alloc = rt.alloc();
    reads::<Async>(&rt, alloc, "  async  anything");
    reads::<Attribute>(&rt, alloc, "  attribute  anything");
    reads::<Callback>(&rt, alloc, "  callback  anything");
    reads::<Const>(&rt, alloc, "  const  anything");
    reads::<Deleter>(&rt, alloc, "  deleter  anything");
    reads::<Dictionary>(&rt, alloc, "  dictionary  anything");
    reads::<Enum>(&rt, alloc, "  enum  anything");
    reads::<Getter>(&rt, alloc, "  getter  anything");
    reads::<Includes>(&rt, alloc, "  includes  anything");
    reads::<Inherit>(&rt, alloc, "  inherit  anything");
    reads::<Interface>(&rt, alloc, "  interface  anything");
    reads::<Iterable>(&rt, alloc, "  iterable  anything");
    reads::<Maplike>(&rt, alloc, "  maplike  anything");
    reads::<Namespace>(&rt, alloc, "  namespace  anything");
    reads::<Partial>(&rt, alloc, "  partial  anything");
    reads::<Required>(&rt, alloc, "  required  anything");
    reads::<Setlike>(&rt, alloc, "  setlike  anything");
    reads::<Setter>(&rt, alloc, "  setter  anything");
    reads::<Static>(&rt, alloc, "  static  anything");
    reads::<Stringifier>(&rt, alloc, "  stringifier  anything");
    reads::<Typedef>(&rt, alloc, "  typedef  anything");
    reads::<ReadOnly>(&rt, alloc, "  readonly  anything");
    reads::<Mixin>(&rt, alloc, "  mixin  anything");
    reads::<Implements>(&rt, alloc, "  implements  anything");
    reads::<LegacyCaller>(&rt, alloc, "  legacycaller  anything");
    reads::<Constructor>(&rt, alloc, "  constructor  anything");
    assert!(rt; Wanted::new().tell(&rt, alloc));
}

#[test]
fn no_reading_of_type_keywords_takes_memory(rt: HostRuntime) {
    let alloc = rt.alloc();
    reads::<Or>(&rt, alloc, "  or  anything");
    reads::<Optional>(&rt, alloc, "  optional  anything");
    reads::<Unrestricted>(&rt, alloc, "  unrestricted  anything");
    reads::<Symbol>(&rt, alloc, "  symbol  anything");
    reads::<Any>(&rt, alloc, "  any  anything");
    reads::<Boolean>(&rt, alloc, "  boolean  anything");
    reads::<Byte>(&rt, alloc, "  byte  anything");
    reads::<Double>(&rt, alloc, "  double  anything");
    reads::<False>(&rt, alloc, "  false  anything");
    reads::<Float>(&rt, alloc, "  float  anything");
    reads::<Long>(&rt, alloc, "  long  anything");
    reads::<Null>(&rt, alloc, "  null  anything");
    reads::<Object>(&rt, alloc, "  object  anything");
    reads::<Octet>(&rt, alloc, "  octet  anything");
    reads::<Sequence>(&rt, alloc, "  sequence  anything");
    reads::<Short>(&rt, alloc, "  short  anything");
    reads::<True>(&rt, alloc, "  true  anything");
    reads::<Unsigned>(&rt, alloc, "  unsigned  anything");
    reads::<Undefined>(&rt, alloc, "  undefined  anything");
    reads::<Record>(&rt, alloc, "  record  anything");
    assert!(rt; Wanted::new().tell(&rt, alloc));
}

#[test]
fn no_reading_of_capitalized_keywords_takes_memory(rt: HostRuntime) {
    let alloc = rt.alloc();
    reads::<ByteString>(&rt, alloc, "  ByteString  anything");
    reads::<DOMString>(&rt, alloc, "  DOMString  anything");
    reads::<FrozenArray>(&rt, alloc, "  FrozenArray  anything");
    reads::<Infinity>(&rt, alloc, "  Infinity  anything");
    reads::<NaN>(&rt, alloc, "  NaN  anything");
    reads::<USVString>(&rt, alloc, "  USVString  anything");
    reads::<ArrayBuffer>(&rt, alloc, "  ArrayBuffer  anything");
    reads::<DataView>(&rt, alloc, "  DataView  anything");
    reads::<Int8Array>(&rt, alloc, "  Int8Array  anything");
    reads::<Int16Array>(&rt, alloc, "  Int16Array  anything");
    reads::<Int32Array>(&rt, alloc, "  Int32Array  anything");
    reads::<Uint8Array>(&rt, alloc, "  Uint8Array  anything");
    reads::<Uint16Array>(&rt, alloc, "  Uint16Array  anything");
    reads::<Uint32Array>(&rt, alloc, "  Uint32Array  anything");
    reads::<Uint8ClampedArray>(&rt, alloc, "  Uint8ClampedArray  anything");
    reads::<Float32Array>(&rt, alloc, "  Float32Array  anything");
    reads::<Float64Array>(&rt, alloc, "  Float64Array  anything");
    reads::<ArrayBufferView>(&rt, alloc, "  ArrayBufferView  anything");
    reads::<BufferSource>(&rt, alloc, "  BufferSource  anything");
    reads::<Promise>(&rt, alloc, "  Promise  anything");
    reads::<Error>(&rt, alloc, "  Error  anything");
    reads::<NegInfinity>(&rt, alloc, "  -Infinity  anything");
    assert!(rt; Wanted::new().tell(&rt, alloc));
}
