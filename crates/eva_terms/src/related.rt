//! Relations between terms, and the ranges of quantifiers.

ghost use Rattle.std.specs.Prelude.{◌≡◌, ◌-ℤ◌, pos, false, int_lt};
ghost use Rattle.int_interval.specs.declared.interval.Interval.TheVariants as Interval;
ghost use Rattle.int_value.specs.Rows.{all_of, meet_row};
ghost use Rattle.c_runs.specs.Truth.{from_low, to_high};
ghost use Rattle.eva_terms.specs.Truths as spec;
ghost use Rattle.eva_terms.specs.Truths.{has_some, last_of, range_value, related_truth};

use crate::answer::{Truth, by_said, weakened};
use abs_cells::said;
use fc_base::Relation;
use int_congr::Congr;
use int_interval::Interval;
use int_value::Value;

/// What is said of a relation of two terms.
#[tactic(auto, unfolding(crate::specs::Truths::related_truth))]
pub(crate) fn relation_truth(relation: Relation, left: &Value, right: &Value) -> Truth
    ensures { result ≡ related_truth relation left.now right.now }
{
    weakened(
        left.unset || right.unset,
        by_said(said(relation, left, right)),
    )
}

/// All numbers.
fn all() -> Value
    ensures { result ≡ all_of false }
{
    Value {
        range: Interval::All,
        congr: Congr { rem: 0, modulus: 1 },
        unset: false,
    }
}

/// The numbers from `lo` to `end` less 1.
fn below(lo: i128, end: i128) -> Value
    ensures { result ≡ meet_row (all_of false) (Interval.Within lo (end -ℤ pos 1)) }
{
    match end.checked_sub(1) {
        Some(hi) => all().meet(&Interval::Within { lo, hi }),
        None => all().meet(&Interval::Empty),
    }
}

/// The numbers from `lo` to `hi`, without `hi` if `strict`.
fn numbers(lo: i128, hi: i128, strict: bool) -> Value
    ensures { result ≡ meet_row (all_of false) (Interval.Within lo (last_of strict hi)) }
{
    if strict {
        below(lo, hi)
    } else {
        all().meet(&Interval::Within { lo, hi })
    }
}

/// What a bound name may have.
#[tactic(auto, unfolding(crate::specs::Truths::range_value))]
pub(crate) fn range(low: &Value, high: &Value, strict: bool) -> Value
    ensures { result ≡ range_value low.now high.now strict }
{
    match (low.range, high.range) {
        (Interval::Empty, _) | (_, Interval::Empty) => all().meet(&Interval::Empty),
        (Interval::Within { lo, .. }, Interval::Within { hi, .. }) => numbers(lo, hi, strict),
        _ => all().meet(&Interval::All),
    }
}

/// Whether there is a number from `lo` to `hi`, where a strict end is left out.
fn is_between(lo: i128, low_strict: bool, hi: i128, high_strict: bool) -> bool
    ensures { result ≡ int_lt (from_low low_strict lo) (to_high high_strict hi) }
{
    match (low_strict, high_strict) {
        (false, false) => lo <= hi,
        (true, true) => lo < hi && lo + 1 < hi,
        _ => lo < hi,
    }
}

/// Whether there is a number in the range, whatever numbers the bounds have.
pub(crate) fn has_number(low: &Value, low_strict: bool, high: &Value, high_strict: bool) -> bool
    ensures { result ≡ spec.is_never_empty low.now low_strict high.now high_strict }
{
    !(low.unset || high.unset) && is_some(&low.range, low_strict, &high.range, high_strict)
}

fn is_some(low: &Interval, low_strict: bool, high: &Interval, high_strict: bool) -> bool
    ensures { result ≡ has_some low.now low_strict high.now high_strict }
{
    match (*low, *high) {
        (Interval::Within { hi: lo, .. }, Interval::Within { lo: hi, .. }) => {
            is_between(lo, low_strict, hi, high_strict)
        }
        _ => false,
    }
}
