//! The values of bound names.

ghost use Rattle.std.specs.Prelude.{◌≡◌, slice_get};
ghost use Rattle.int_value.specs.Rows.{empty_of};
ghost use Rattle.eva_terms.specs.Terms.{bound_or};
ghost use Rattle.eva_terms.specs.inner.Frames.{bound_in};

use int_congr::Congr;
use int_interval::Interval;
use int_value::Value;

/// The values of the names that stand around a predicate, the innermost first. It lies on the stack:
/// binding a name takes no memory.
#[derive(Clone, Copy)]
pub(crate) enum Frame<'a> {
    Empty,
    Bound { value: Value, outer: &'a Frame<'a> },
}

/// The value of the name with so many others between.
pub(crate) fn bound(frame: &Frame, between: u32) -> Value
    ensures { result ≡ bound_or (slice_get (bound_in frame.now) between) }
{
    match frame {
        Frame::Empty => nothing(true),
        Frame::Bound { value, outer } => {
            if between == 0 {
                *value
            } else {
                bound(outer, between - 1)
            }
        }
    }
}

/// No number.
pub(crate) fn nothing(unset: bool) -> Value
    ensures { result ≡ empty_of unset }
{
    Value {
        range: Interval::Empty,
        congr: Congr { rem: 0, modulus: 1 },
        unset,
    }
}
