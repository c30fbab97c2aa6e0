//! `<<` and `>>` with their checks.

ghost use Rattle.std.specs.Prelude.{◌≡◌, ◌&&◌, ◌||◌, IsTrue, pos, if◌then◌else◌};
ghost use Rattle.int_congr.specs.Rows as congrs;
ghost use Rattle.int_interval.specs.Shapes.{IsShape, IsShift};
ghost use Rattle.int_value.specs.Checks.{
  clipped,
  ends_at,
  lies_above,
  lies_below,
  shift_of,
  shift_said,
  shl_from,
  shl_row,
  shl_said,
  shr_row,
  starts_at,
};
ghost use Rattle.int_interval.specs.Rows.{is_empty};
ghost use Rattle.int_value.specs.Rows.{shl_raw, shr_raw};

use crate::arithmetic::{checks_overflow, said, said_within};
use crate::convert::range_of_type;
use crate::made::Made;
use crate::value::{Value, answer};
use int_interval::{Interval, Said, Shape};

impl Value {
    /// `<<` with the checks shift and signed_overflow.
    #[tactic(auto, unfolding(crate::specs::Checks::shl_row))]
    pub fn shl(&self, other: &Value, shape: &Shape, overflow: bool) -> Made
        requires { IsShape shape.now }
        ensures { result ≡ shl_row shape.now overflow self.now other.now }
    {
        let by = shift(other, shape);
        let whole = self.shifted_left(&by, shape);
        let part = self.shifted_part(&by, whole, shape);
        left_shift(self, other, whole, part, shape, overflow)
    }

    /// `>>` with the check shift.
    #[tactic(auto, unfolding(crate::specs::Checks::shr_row))]
    pub fn shr(&self, other: &Value, shape: &Shape, overflow: bool) -> Made
        requires { IsShape shape.now }
        ensures { result ≡ shr_row shape.now overflow self.now other.now }
    {
        let by = shift(other, shape);
        Made {
            value: self.shifted_right(&by, shape),
            first: Some(said_of_shift(self, other, shape)),
            second: None,
        }
    }

    #[tactic(auto, unfolding(crate::specs::Rows::shl_raw))]
    fn shifted_left(&self, by: &Value, shape: &Shape) -> Value
        requires shape { IsShape shape.now }
        requires range { IsShift shape.now by.now.range }
        requires congr { congrs.IsShift shape.now by.now.congr }
        ensures { result ≡ shl_raw self.now by.now }
    {
        answer(
            self.range.shl(&by.range, shape),
            self.congr.shl(&by.congr, shape),
            false,
        )
    }

    /// The same of the part from 0 to the greatest number; what is its own part isn't shifted again.
    fn shifted_part(&self, by: &Value, whole: Value, shape: &Shape) -> Value
        requires shape { IsShape shape.now }
        requires range { IsShift shape.now by.now.range }
        requires congr { congrs.IsShift shape.now by.now.congr }
        requires whole { whole ≡ shl_raw self.now by.now }
        ensures { result ≡ shl_raw (clipped shape.now self.now) by.now }
    {
        let part = self.meet(&Interval::Within {
            lo: 0,
            hi: shape.hi,
        });
        if is_same(self, &part) {
            whole
        } else {
            part.shifted_left(by, shape)
        }
    }

    #[tactic(auto, unfolding(crate::specs::Rows::shr_raw))]
    fn shifted_right(&self, by: &Value, shape: &Shape) -> Value
        requires shape { IsShape shape.now }
        requires range { IsShift shape.now by.now.range }
        requires congr { congrs.IsShift shape.now by.now.congr }
        ensures { result ≡ shr_raw self.now by.now }
    {
        answer(
            self.range.shr(&by.range, shape),
            self.congr.shr(&by.congr, shape),
            false,
        )
    }
}

/// Whether the two are one value, of more than no number and less than all.
fn is_same(left: &Value, right: &Value) -> bool
    ensures { IsTrue result → left.now ≡ right.now }
{
    match (left.range, right.range) {
        (Interval::Within { lo: a, hi: b }, Interval::Within { lo: c, hi: d }) => {
            a == c
                && b == d
                && left.congr.rem == right.congr.rem
                && left.congr.modulus == right.congr.modulus
                && left.unset == right.unset
        }
        _ => false,
    }
}

/// The right operand, as far as it passes the check.
fn shift(by: &Value, shape: &Shape) -> Value
    requires { IsShape shape.now }
    ensures value { result ≡ shift_of shape.now by.now }
    ensures range { IsShift shape.now result.range }
    ensures congr { congrs.IsShift shape.now result.congr }
{
    met_shift(by, shape)
}

fn met_shift(by: &Value, shape: &Shape) -> Value
    requires { IsShape shape.now }
    ensures { result ≡ shift_of shape.now by.now }
{
    by.meet(&Interval::Within {
        lo: 0,
        hi: i128::from(shape.width) - 1,
    })
}

/// What is said of the check shift.
fn said_of_shift(left: &Value, right: &Value, shape: &Shape) -> Said
    requires { IsShape shape.now }
    ensures { result ≡ shift_said shape.now left.now right.now }
{
    if left.range.is_empty() {
        Said::Unreached
    } else {
        said_within(0, i128::from(shape.width) - 1, &right.range)
    }
}

/// What `<<` makes, of the product of the whole left operand and of its part from 0 to the greatest number.
fn left_shift(
    left: &Value,
    right: &Value,
    whole: Value,
    part: Value,
    shape: &Shape,
    overflow: bool,
) -> Made
    requires { IsShape shape.now }
    ensures { result ≡ shl_from shape.now overflow left.now right.now whole part }
{
    let first = Some(said_of_shift(left, right, shape));
    if checks_overflow(shape, overflow) {
        Made {
            value: part.meet(&range_of_type(shape)),
            first,
            second: Some(said_of_product(left, whole, part, shape)),
        }
    } else {
        Made {
            value: whole.convert(shape),
            first,
            second: None,
        }
    }
}

/// What is said of the check signed_overflow of `<<`.
fn said_of_product(left: &Value, whole: Value, part: Value, shape: &Shape) -> Said
    ensures { result ≡ shl_said shape.now left.now whole part }
{
    unless_empty(
        &whole.range,
        said(
            all_fit(&left.range, &whole.range, shape),
            none_fits(&left.range, &part.range, shape),
        ),
    )
}

/// Nothing is said where there is no number.
fn unless_empty(range: &Interval, said: Said) -> Said
    ensures { result ≡ (if is_empty range.now then Said.Unreached else said) }
{
    if range.is_empty() {
        Said::Unreached
    } else {
        said
    }
}

/// No number of the first is negative, and none of the second is above the type.
fn all_fit(left: &Interval, product: &Interval, shape: &Shape) -> bool
    ensures { result ≡ (starts_at (pos 0) left.now && ends_at shape.now.hi product.now) }
{
    is_from(left, 0) && is_up_to(product, shape.hi)
}

/// Each number of the first is negative, or each of the second is above the type.
fn none_fits(left: &Interval, product: &Interval, shape: &Shape) -> bool
    ensures { result ≡ (lies_below (pos 0) left.now || lies_above shape.now.hi product.now) }
{
    is_below(left, 0) || is_above(product, shape.hi)
}

fn is_from(range: &Interval, lo: i128) -> bool
    ensures { result ≡ starts_at lo range.now }
{
    match *range {
        Interval::Empty => false,
        Interval::Within { lo: a, hi: b } => lo <= a,
        Interval::All => false,
    }
}

fn is_up_to(range: &Interval, hi: i128) -> bool
    ensures { result ≡ ends_at hi range.now }
{
    match *range {
        Interval::Empty => false,
        Interval::Within { lo: a, hi: b } => b <= hi,
        Interval::All => false,
    }
}

fn is_below(range: &Interval, lo: i128) -> bool
    ensures { result ≡ lies_below lo range.now }
{
    match *range {
        Interval::Empty => false,
        Interval::Within { lo: a, hi: b } => b < lo,
        Interval::All => false,
    }
}

fn is_above(range: &Interval, hi: i128) -> bool
    ensures { result ≡ lies_above hi range.now }
{
    match *range {
        Interval::Empty => false,
        Interval::Within { lo: a, hi: b } => hi < a,
        Interval::All => false,
    }
}
