//! Conversions to a type (C11 6.3.1.2, 6.3.1.3).

ghost use Rattle.std.specs.Prelude.{◌≡◌, ◌≤◌, ◌^◌, pos, negsuc, neg_ℤ, ◌≤ℤ◌};
ghost use Rattle.machine_ints.specs.Convert.{bool_of, wrap as wrap_of};

use crate::bounded::unsigned_power_of_two;
use crate::divisors::residue_of_difference;

/// `value` modulo 2^width, from `lo` on. Asks for a width of at most 64, and `lo` from -2^63 to 0.
pub fn wrap(value: i128, lo: i128, width: u32) -> i128
    requires width { width ≤ 64 }
    requires low { neg_ℤ (pos (2 ^ 63)) ≤ℤ lo }
    requires high { lo ≤ℤ pos 0 }
    ensures { result ≡ wrap_of lo width value }
{
    let step = residue_of_difference(value, lo, unsigned_power_of_two(width));
    lo + step as i128
}

/// 0 for 0, else 1.
pub fn to_bool(value: i128) -> i128
    ensures { result ≡ bool_of value }
{
    if value == 0 { 0 } else { 1 }
}
