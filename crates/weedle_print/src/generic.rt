//! Options, lists, boxes, tuples, angle brackets and what may be null.
#![tactic(auto, using(crate::proofs::AddsFacts::adds_none, crate::proofs::EachFacts::each_steps))]

ghost use Rattle.weedle_spell.specs.Forms.{◌then◌, each, optional};
ghost use Rattle.weedle_spell.specs.GenericParts.{generics_spelling, may_be_null_spelling};

use crate::error::PrintError;
use crate::fields::{three, two};
use crate::layout::Layout;
use crate::print::Print;
use weedle_base::term::{GreaterThan, LessThan, QMark};
use weedle_parts::common::Generics;
use weedle_parts::types::MayBeNull;

impl<P: Print> Print for Option<P> {
    type Value = Option<P::Value>;

    ghost spelling = { optional P.spelling };

    fn print(
        value: &Option<P::Value>,
        out: &mut String,
        layout: &mut Layout,
    ) -> Result<(), PrintError> {
        match value {
            Some(value) => P::print(value, out, layout),
            None => Ok(()),
        }
    }
}

impl<P: Print> Print for Vec<P> {
    type Value = Vec<P::Value>;

    ghost spelling = { λ v. each P.spelling v.items };

    fn print(
        value: &Vec<P::Value>,
        out: &mut String,
        layout: &mut Layout,
    ) -> Result<(), PrintError> {
        for item in value {
            P::print(item, out, layout)?;
        }
        Ok(())
    }
}

impl<P: Print> Print for Box<P> {
    type Value = Box<P::Value>;

    ghost spelling = { λ b. P.spelling b.value };

    fn print(
        value: &Box<P::Value>,
        out: &mut String,
        layout: &mut Layout,
    ) -> Result<(), PrintError> {
        P::print(value.as_ref(), out, layout)
    }
}

impl<A: Print, B: Print> Print for (A, B) {
    type Value = (A::Value, B::Value);

    ghost spelling = { λ v. A.spelling v.0 then B.spelling v.1 };

    fn print(
        value: &(A::Value, B::Value),
        out: &mut String,
        layout: &mut Layout,
    ) -> Result<(), PrintError> {
        two::<A, B>(out, layout, &value.0, &value.1)
    }
}

impl<A: Print, B: Print, C: Print> Print for (A, B, C) {
    type Value = (A::Value, B::Value, C::Value);

    ghost spelling = { λ v. A.spelling v.0 then B.spelling v.1 then C.spelling v.2 };

    fn print(
        value: &(A::Value, B::Value, C::Value),
        out: &mut String,
        layout: &mut Layout,
    ) -> Result<(), PrintError> {
        three::<A, B, C>(out, layout, &value.0, &value.1, &value.2)
    }
}

impl<P: Print> Print for Generics<P> {
    type Value = Generics<P::Value>;

    ghost spelling = { generics_spelling P.spelling };

    fn print(
        value: &Generics<P::Value>,
        out: &mut String,
        layout: &mut Layout,
    ) -> Result<(), PrintError> {
        three::<LessThan, P, GreaterThan>(
            out,
            layout,
            &value.open_angle,
            &value.body,
            &value.close_angle,
        )
    }
}

impl<P: Print> Print for MayBeNull<P> {
    type Value = MayBeNull<P::Value>;

    ghost spelling = { may_be_null_spelling P.spelling };

    fn print(
        value: &MayBeNull<P::Value>,
        out: &mut String,
        layout: &mut Layout,
    ) -> Result<(), PrintError> {
        two::<P, Option<QMark>>(out, layout, &value.type_, &value.q_mark)
    }
}
