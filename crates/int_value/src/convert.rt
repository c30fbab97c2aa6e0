//! Conversions (C11 6.3.1.2, 6.3.1.3).

ghost use Rattle.std.specs.Prelude.{◌≡◌};
ghost use Rattle.int_interval.specs.Shapes.{IsShape};
ghost use Rattle.int_value.specs.Rows.{convert_row, converted_congr, to_bool_row, type_range};

use crate::value::{Value, answer, empty, one};
use int_congr::Congr;
use int_interval::{Interval, Shape};

impl Value {
    /// The conversion to a type: as it is within the type, exact for one number, else the type's range with what the
    /// width leaves of the congruence. The result isn't unset.
    #[tactic(auto, unfolding(crate::specs::Rows::convert_row))]
    pub fn convert(&self, shape: &Shape) -> Value
        requires { IsShape shape.now }
        ensures { result ≡ convert_row shape.now self.now }
    {
        answer(
            self.range.convert(shape),
            self.converted_congr(shape),
            false,
        )
    }

    fn converted_congr(&self, shape: &Shape) -> Congr
        requires { IsShape shape.now }
        ensures { result ≡ converted_congr shape.now self.now }
    {
        if self.range.included(&range_of_type(shape)) {
            self.congr
        } else {
            self.congr.convert(shape)
        }
    }

    /// The conversion to `_Bool`: 0, 1, or 0 to 1, by whether 0 is the only number, no number or one of several.
    #[tactic(auto, unfolding(crate::specs::Rows::to_bool_row))]
    pub fn to_bool(&self) -> Value
        ensures { result ≡ to_bool_row self.now }
    {
        if self.range.is_empty() {
            empty(false)
        } else if !self.contains(0) {
            one(1, false)
        } else if self.range.is_just(0) {
            one(0, false)
        } else {
            Value {
                range: Interval::Within { lo: 0, hi: 1 },
                congr: Congr { rem: 0, modulus: 1 },
                unset: false,
            }
        }
    }
}

/// The type's numbers.
pub(crate) fn range_of_type(shape: &Shape) -> Interval
    ensures { result ≡ type_range shape.now }
{
    Interval::Within {
        lo: shape.lo,
        hi: shape.hi,
    }
}
