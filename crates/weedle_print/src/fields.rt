//! Fields one after another.
#![tactic(auto, using(crate::proofs::AddsFacts::adds_then))]

ghost use Rattle.std.specs.Prelude.{◌≡◌, OnOk, string_bytes};
ghost use Rattle.weedle_spell.specs.Forms.{◌then◌};
ghost use Rattle.weedle_print.specs.Adds.{Adds};

use crate::error::PrintError;
use crate::layout::Layout;
use crate::print::Print;

/// Writes two fields, the first one first.
pub fn two<A: Print, B: Print>(
    out: &mut String,
    layout: &mut Layout,
    a: &A::Value,
    b: &B::Value,
) -> Result<(), PrintError>
    ensures { OnOk result
        (Adds (A.spelling a.now then B.spelling b.now) (string_bytes out.old)
        (string_bytes out.new)) }
{
    A::print(a, out, layout)?;
    B::print(b, out, layout)
}

/// Writes three fields, the first one first.
pub fn three<A: Print, B: Print, C: Print>(
    out: &mut String,
    layout: &mut Layout,
    a: &A::Value,
    b: &B::Value,
    c: &C::Value,
) -> Result<(), PrintError>
    ensures { OnOk result
        (Adds (A.spelling a.now then B.spelling b.now then C.spelling c.now) (string_bytes out.old)
        (string_bytes out.new)) }
{
    A::print(a, out, layout)?;
    two::<B, C>(out, layout, b, c)
}

/// Writes four fields, the first one first.
pub fn four<A: Print, B: Print, C: Print, D: Print>(
    out: &mut String,
    layout: &mut Layout,
    a: &A::Value,
    b: &B::Value,
    c: &C::Value,
    d: &D::Value,
) -> Result<(), PrintError>
    ensures { OnOk result
        (Adds (A.spelling a.now then B.spelling b.now then C.spelling c.now then D.spelling d.now)
        (string_bytes out.old) (string_bytes out.new)) }
{
    A::print(a, out, layout)?;
    three::<B, C, D>(out, layout, b, c, d)
}

/// Writes five fields, the first one first.
pub fn five<A: Print, B: Print, C: Print, D: Print, E: Print>(
    out: &mut String,
    layout: &mut Layout,
    a: &A::Value,
    b: &B::Value,
    c: &C::Value,
    d: &D::Value,
    e: &E::Value,
) -> Result<(), PrintError>
    ensures { OnOk result (Adds
        (A.spelling a.now then B.spelling b.now then C.spelling c.now then D.spelling d.now then
        E.spelling e.now) (string_bytes out.old) (string_bytes out.new)) }
{
    A::print(a, out, layout)?;
    four::<B, C, D, E>(out, layout, b, c, d, e)
}

/// Writes six fields, the first one first.
pub fn six<A: Print, B: Print, C: Print, D: Print, E: Print, F: Print>(
    out: &mut String,
    layout: &mut Layout,
    a: &A::Value,
    b: &B::Value,
    c: &C::Value,
    d: &D::Value,
    e: &E::Value,
    f: &F::Value,
) -> Result<(), PrintError>
    ensures { OnOk result (Adds
        (A.spelling a.now then B.spelling b.now then C.spelling c.now then D.spelling d.now then
        E.spelling e.now then F.spelling f.now) (string_bytes out.old) (string_bytes out.new)) }
{
    A::print(a, out, layout)?;
    five::<B, C, D, E, F>(out, layout, b, c, d, e, f)
}

/// Writes seven fields, the first one first.
pub fn seven<A: Print, B: Print, C: Print, D: Print, E: Print, F: Print, G: Print>(
    out: &mut String,
    layout: &mut Layout,
    a: &A::Value,
    b: &B::Value,
    c: &C::Value,
    d: &D::Value,
    e: &E::Value,
    f: &F::Value,
    g: &G::Value,
) -> Result<(), PrintError>
    ensures { OnOk result (Adds
        (A.spelling a.now then B.spelling b.now then C.spelling c.now then D.spelling d.now then
        E.spelling e.now then F.spelling f.now then G.spelling g.now) (string_bytes out.old)
        (string_bytes out.new)) }
{
    A::print(a, out, layout)?;
    six::<B, C, D, E, F, G>(out, layout, b, c, d, e, f, g)
}

/// Writes eight fields, the first one first.
pub fn eight<A: Print, B: Print, C: Print, D: Print, E: Print, F: Print, G: Print, H: Print>(
    out: &mut String,
    layout: &mut Layout,
    a: &A::Value,
    b: &B::Value,
    c: &C::Value,
    d: &D::Value,
    e: &E::Value,
    f: &F::Value,
    g: &G::Value,
    h: &H::Value,
) -> Result<(), PrintError>
    ensures { OnOk result (Adds
        (A.spelling a.now then B.spelling b.now then C.spelling c.now then D.spelling d.now then
        E.spelling e.now then F.spelling f.now then G.spelling g.now then H.spelling h.now)
        (string_bytes out.old) (string_bytes out.new)) }
{
    A::print(a, out, layout)?;
    seven::<B, C, D, E, F, G, H>(out, layout, b, c, d, e, f, g, h)
}
