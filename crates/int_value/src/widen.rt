//! Widening by thresholds.

ghost use Rattle.std.specs.Prelude.{◌≡◌, int_le, if◌then◌else◌};
ghost use Rattle.std.specs.Int.{int_max, int_min};
ghost use Rattle.int_interval.specs.Rows.{cut};
ghost use Rattle.int_value.specs.Widening.{
  grown_high,
  grown_low,
  new_high,
  new_low,
  next_above,
  next_below,
  widen_range,
  widen_row,
};

use crate::value::{Value, answer};
use int_interval::{Interval, Shape};

impl Value {
    /// The widening of this value by the next. Each bound that grew goes, in turns up to 8, to the next threshold of
    /// the list or of the type's ends, and then to the type's end. Where this value has no number, both bounds do.
    #[tactic(auto, unfolding(crate::specs::Widening::widen_row))]
    pub fn widen(&self, next: &Value, turn: u32, thresholds: &[i128], shape: &Shape) -> Value
        ensures { result ≡ widen_row turn thresholds.now shape.now self.now next.now }
    {
        let range = widened(self.range, next.range, turn, thresholds, shape);
        answer(range, self.joined_congr(next), self.unset || next.unset)
    }
}

fn widened(old: Interval, next: Interval, turn: u32, thresholds: &[i128], shape: &Shape) -> Interval
    ensures { result ≡ widen_range turn thresholds.now shape.now old next }
{
    match (old, next) {
        (Interval::All, _) | (_, Interval::All) => Interval::All,
        (left, Interval::Empty) => left,
        (Interval::Empty, Interval::Within { lo: c, hi: d }) => Interval::cut(
            lower_end(c, turn, thresholds, shape),
            upper_end(d, turn, thresholds, shape),
        ),
        (Interval::Within { lo: a, hi: b }, Interval::Within { lo: c, hi: d }) => Interval::cut(
            grown_lower(a, c, turn, thresholds, shape),
            grown_upper(b, d, turn, thresholds, shape),
        ),
    }
}

/// The new upper bound, which is the old one where that didn't grow.
fn grown_upper(old: i128, hi: i128, turn: u32, thresholds: &[i128], shape: &Shape) -> i128
    ensures { result ≡ grown_high turn thresholds.now shape.now old hi }
{
    if old < hi {
        upper_end(hi, turn, thresholds, shape)
    } else {
        old
    }
}

/// The new lower bound, which is the old one where that didn't grow.
fn grown_lower(old: i128, lo: i128, turn: u32, thresholds: &[i128], shape: &Shape) -> i128
    ensures { result ≡ grown_low turn thresholds.now shape.now old lo }
{
    if lo < old {
        lower_end(lo, turn, thresholds, shape)
    } else {
        old
    }
}

/// Where an upper bound that grew goes.
#[tactic(auto, unfolding(crate::specs::Widening::new_high))]
fn upper_end(hi: i128, turn: u32, thresholds: &[i128], shape: &Shape) -> i128
    ensures { result ≡ new_high turn thresholds.now shape.now hi }
{
    if turn <= 8 {
        above(hi, shape.hi, thresholds)
    } else {
        shape.hi
    }
}

/// Where a lower bound that grew goes.
#[tactic(auto, unfolding(crate::specs::Widening::new_low))]
fn lower_end(lo: i128, turn: u32, thresholds: &[i128], shape: &Shape) -> i128
    ensures { result ≡ new_low turn thresholds.now shape.now lo }
{
    if turn <= 8 {
        below(lo, shape.lo, thresholds)
    } else {
        shape.lo
    }
}

/// The least threshold from `hi` on, among the list and `top`.
fn above(hi: i128, top: i128, thresholds: &[i128]) -> i128
    ensures { result ≡ next_above hi top thresholds.now }
{
    let mut best = top;
    'seeking: for t in thresholds {
        best = nearer_above(hi, best, *t);
    }
    best
}

fn nearer_above(hi: i128, best: i128, threshold: i128) -> i128
    ensures { result ≡ (if int_le hi threshold then int_min best threshold else best) }
{
    if hi <= threshold {
        best.min(threshold)
    } else {
        best
    }
}

/// The greatest threshold down from `lo`, among the list and `bottom`.
fn below(lo: i128, bottom: i128, thresholds: &[i128]) -> i128
    ensures { result ≡ next_below lo bottom thresholds.now }
{
    let mut best = bottom;
    'seeking: for t in thresholds {
        best = nearer_below(lo, best, *t);
    }
    best
}

fn nearer_below(lo: i128, best: i128, threshold: i128) -> i128
    ensures { result ≡ (if int_le threshold lo then int_max best threshold else best) }
{
    if threshold <= lo {
        best.max(threshold)
    } else {
        best
    }
}
