//! Keywords with capitals.
//!
//! Written by tools/terminals.py, and not edited by hand.

ghost use Rattle.std.specs.Prelude.{◌≡◌};
ghost use Rattle.weedle_grammar.specs.written.Table.CapitalizedKeywords.{
  BYTE_STRING,
  DOM_STRING,
  FROZEN_ARRAY,
  INFINITY,
  NAN,
  USV_STRING,
  ARRAY_BUFFER,
  DATA_VIEW,
  INT8_ARRAY,
  INT16_ARRAY,
  INT32_ARRAY,
  UINT8_ARRAY,
  UINT16_ARRAY,
  UINT32_ARRAY,
  UINT8_CLAMPED_ARRAY,
  FLOAT32_ARRAY,
  FLOAT64_ARRAY,
  ARRAY_BUFFER_VIEW,
  BUFFER_SOURCE,
  PROMISE,
  ERROR,
  NEG_INFINITY,
};
ghost use Rattle.weedle_base.specs.Rules.{mark_tree};

use crate::at::At;
use crate::build::{Build, BuildResult, mark};
use crate::table::Table;
use std::alloc::Global;
use weedle_base::term::{
    ArrayBuffer, ArrayBufferView, BufferSource, ByteString, DOMString, DataView, Error,
    Float32Array, Float64Array, FrozenArray, Infinity, Int8Array, Int16Array, Int32Array, NaN,
    NegInfinity, Promise, USVString, Uint8Array, Uint8ClampedArray, Uint16Array, Uint32Array,
};
use weedle_rules::Rule;

impl<'a> Build<'a> for ByteString {
    type Value = Self;

    ghost fits = { λ r. r ≡ BYTE_STRING };

    ghost tree = { mark_tree };

    fn build(_alloc: Global, table: Table<'_, 'a>, rule: Rule, at: At) -> BuildResult<Self> {
        Ok((ByteString, mark(table, rule, at)))
    }
}

impl<'a> Build<'a> for DOMString {
    type Value = Self;

    ghost fits = { λ r. r ≡ DOM_STRING };

    ghost tree = { mark_tree };

    fn build(_alloc: Global, table: Table<'_, 'a>, rule: Rule, at: At) -> BuildResult<Self> {
        Ok((DOMString, mark(table, rule, at)))
    }
}

impl<'a> Build<'a> for FrozenArray {
    type Value = Self;

    ghost fits = { λ r. r ≡ FROZEN_ARRAY };

    ghost tree = { mark_tree };

    fn build(_alloc: Global, table: Table<'_, 'a>, rule: Rule, at: At) -> BuildResult<Self> {
        Ok((FrozenArray, mark(table, rule, at)))
    }
}

impl<'a> Build<'a> for Infinity {
    type Value = Self;

    ghost fits = { λ r. r ≡ INFINITY };

    ghost tree = { mark_tree };

    fn build(_alloc: Global, table: Table<'_, 'a>, rule: Rule, at: At) -> BuildResult<Self> {
        Ok((Infinity, mark(table, rule, at)))
    }
}

impl<'a> Build<'a> for NaN {
    type Value = Self;

    ghost fits = { λ r. r ≡ NAN };

    ghost tree = { mark_tree };

    fn build(_alloc: Global, table: Table<'_, 'a>, rule: Rule, at: At) -> BuildResult<Self> {
        Ok((NaN, mark(table, rule, at)))
    }
}

impl<'a> Build<'a> for USVString {
    type Value = Self;

    ghost fits = { λ r. r ≡ USV_STRING };

    ghost tree = { mark_tree };

    fn build(_alloc: Global, table: Table<'_, 'a>, rule: Rule, at: At) -> BuildResult<Self> {
        Ok((USVString, mark(table, rule, at)))
    }
}

impl<'a> Build<'a> for ArrayBuffer {
    type Value = Self;

    ghost fits = { λ r. r ≡ ARRAY_BUFFER };

    ghost tree = { mark_tree };

    fn build(_alloc: Global, table: Table<'_, 'a>, rule: Rule, at: At) -> BuildResult<Self> {
        Ok((ArrayBuffer, mark(table, rule, at)))
    }
}

impl<'a> Build<'a> for DataView {
    type Value = Self;

    ghost fits = { λ r. r ≡ DATA_VIEW };

    ghost tree = { mark_tree };

    fn build(_alloc: Global, table: Table<'_, 'a>, rule: Rule, at: At) -> BuildResult<Self> {
        Ok((DataView, mark(table, rule, at)))
    }
}

impl<'a> Build<'a> for Int8Array {
    type Value = Self;

    ghost fits = { λ r. r ≡ INT8_ARRAY };

    ghost tree = { mark_tree };

    fn build(_alloc: Global, table: Table<'_, 'a>, rule: Rule, at: At) -> BuildResult<Self> {
        Ok((Int8Array, mark(table, rule, at)))
    }
}

impl<'a> Build<'a> for Int16Array {
    type Value = Self;

    ghost fits = { λ r. r ≡ INT16_ARRAY };

    ghost tree = { mark_tree };

    fn build(_alloc: Global, table: Table<'_, 'a>, rule: Rule, at: At) -> BuildResult<Self> {
        Ok((Int16Array, mark(table, rule, at)))
    }
}

impl<'a> Build<'a> for Int32Array {
    type Value = Self;

    ghost fits = { λ r. r ≡ INT32_ARRAY };

    ghost tree = { mark_tree };

    fn build(_alloc: Global, table: Table<'_, 'a>, rule: Rule, at: At) -> BuildResult<Self> {
        Ok((Int32Array, mark(table, rule, at)))
    }
}

impl<'a> Build<'a> for Uint8Array {
    type Value = Self;

    ghost fits = { λ r. r ≡ UINT8_ARRAY };

    ghost tree = { mark_tree };

    fn build(_alloc: Global, table: Table<'_, 'a>, rule: Rule, at: At) -> BuildResult<Self> {
        Ok((Uint8Array, mark(table, rule, at)))
    }
}

impl<'a> Build<'a> for Uint16Array {
    type Value = Self;

    ghost fits = { λ r. r ≡ UINT16_ARRAY };

    ghost tree = { mark_tree };

    fn build(_alloc: Global, table: Table<'_, 'a>, rule: Rule, at: At) -> BuildResult<Self> {
        Ok((Uint16Array, mark(table, rule, at)))
    }
}

impl<'a> Build<'a> for Uint32Array {
    type Value = Self;

    ghost fits = { λ r. r ≡ UINT32_ARRAY };

    ghost tree = { mark_tree };

    fn build(_alloc: Global, table: Table<'_, 'a>, rule: Rule, at: At) -> BuildResult<Self> {
        Ok((Uint32Array, mark(table, rule, at)))
    }
}

impl<'a> Build<'a> for Uint8ClampedArray {
    type Value = Self;

    ghost fits = { λ r. r ≡ UINT8_CLAMPED_ARRAY };

    ghost tree = { mark_tree };

    fn build(_alloc: Global, table: Table<'_, 'a>, rule: Rule, at: At) -> BuildResult<Self> {
        Ok((Uint8ClampedArray, mark(table, rule, at)))
    }
}

impl<'a> Build<'a> for Float32Array {
    type Value = Self;

    ghost fits = { λ r. r ≡ FLOAT32_ARRAY };

    ghost tree = { mark_tree };

    fn build(_alloc: Global, table: Table<'_, 'a>, rule: Rule, at: At) -> BuildResult<Self> {
        Ok((Float32Array, mark(table, rule, at)))
    }
}

impl<'a> Build<'a> for Float64Array {
    type Value = Self;

    ghost fits = { λ r. r ≡ FLOAT64_ARRAY };

    ghost tree = { mark_tree };

    fn build(_alloc: Global, table: Table<'_, 'a>, rule: Rule, at: At) -> BuildResult<Self> {
        Ok((Float64Array, mark(table, rule, at)))
    }
}

impl<'a> Build<'a> for ArrayBufferView {
    type Value = Self;

    ghost fits = { λ r. r ≡ ARRAY_BUFFER_VIEW };

    ghost tree = { mark_tree };

    fn build(_alloc: Global, table: Table<'_, 'a>, rule: Rule, at: At) -> BuildResult<Self> {
        Ok((ArrayBufferView, mark(table, rule, at)))
    }
}

impl<'a> Build<'a> for BufferSource {
    type Value = Self;

    ghost fits = { λ r. r ≡ BUFFER_SOURCE };

    ghost tree = { mark_tree };

    fn build(_alloc: Global, table: Table<'_, 'a>, rule: Rule, at: At) -> BuildResult<Self> {
        Ok((BufferSource, mark(table, rule, at)))
    }
}

impl<'a> Build<'a> for Promise {
    type Value = Self;

    ghost fits = { λ r. r ≡ PROMISE };

    ghost tree = { mark_tree };

    fn build(_alloc: Global, table: Table<'_, 'a>, rule: Rule, at: At) -> BuildResult<Self> {
        Ok((Promise, mark(table, rule, at)))
    }
}

impl<'a> Build<'a> for Error {
    type Value = Self;

    ghost fits = { λ r. r ≡ ERROR };

    ghost tree = { mark_tree };

    fn build(_alloc: Global, table: Table<'_, 'a>, rule: Rule, at: At) -> BuildResult<Self> {
        Ok((Error, mark(table, rule, at)))
    }
}

impl<'a> Build<'a> for NegInfinity {
    type Value = Self;

    ghost fits = { λ r. r ≡ NEG_INFINITY };

    ghost tree = { mark_tree };

    fn build(_alloc: Global, table: Table<'_, 'a>, rule: Rule, at: At) -> BuildResult<Self> {
        Ok((NegInfinity, mark(table, rule, at)))
    }
}
