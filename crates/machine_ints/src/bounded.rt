//! Exact results of C's operators, answered where they are within 2^126 in absolute value.

ghost use Rattle.std.specs.Prelude.{◌≡◌, ◌≢◌, ◌^◌, ◌<◌, pos, ◌+ℤ◌, ◌-ℤ◌, ◌*ℤ◌, neg_ℤ, int_div, int_rem};
ghost use Rattle.std.specs.Int.{int_shr};
ghost use Rattle.machine_ints.specs.Bound.{bounded};

/// 2^126, the bound.
pub const BOUND: u128 = 0x4000_0000_0000_0000_0000_0000_0000_0000;

/// The number, if it is within the bound.
pub fn within_bound(value: i128) -> Option<i128>
    ensures { result ≡ bounded value }
{
    if value.unsigned_abs() <= BOUND {
        Some(value)
    } else {
        None
    }
}

/// `left + right`, if it is within the bound.
#[tactic(auto, using(crate::proofs::BoundLaws::bounded_unfit))]
pub fn sum(left: i128, right: i128) -> Option<i128>
    ensures { result ≡ bounded (left +ℤ right) }
{
    within_bound(left.checked_add(right)?)
}

/// `left - right`, if it is within the bound.
#[tactic(auto, using(crate::proofs::BoundLaws::bounded_unfit))]
pub fn difference(left: i128, right: i128) -> Option<i128>
    ensures { result ≡ bounded (left -ℤ right) }
{
    within_bound(left.checked_sub(right)?)
}

/// `-value`, if it is within the bound.
#[tactic(auto, using(crate::proofs::BoundLaws::bounded_unfit))]
pub fn negative(value: i128) -> Option<i128>
    ensures { result ≡ bounded (neg_ℤ value) }
{
    within_bound(value.checked_neg()?)
}

/// `left * right`, if it is within the bound.
#[tactic(auto, using(crate::proofs::BoundLaws::bounded_unfit))]
pub fn product(left: i128, right: i128) -> Option<i128>
    ensures { result ≡ bounded (left *ℤ right) }
{
    within_bound(left.checked_mul(right)?)
}

/// `left / right` towards zero (C11 6.5.5), if it is within the bound.
#[tactic(auto, using(crate::proofs::BoundLaws::bounded_unfit))]
pub fn quotient(left: i128, right: i128) -> Option<i128>
    requires { right ≢ pos 0 }
    ensures { result ≡ bounded (int_div left right) }
{
    within_bound(left.checked_div(right)?)
}

/// `left % right` with the sign of `left` (C11 6.5.5).
pub fn remainder(left: i128, right: i128) -> i128
    requires { right ≢ pos 0 }
    ensures { result ≡ int_rem left right }
{
    if right == -1 { 0 } else { left % right }
}

/// 2^`by`.
#[tactic(auto, using(crate::proofs::BoundLaws::short_power))]
pub fn power_of_two(by: u32) -> i128
    requires { by < 127 }
    ensures { result ≡ pos (2 ^ by) }
{
    unsigned_power_of_two(by) as i128
}

/// 2^`by`, unsigned.
pub fn unsigned_power_of_two(by: u32) -> u128
    requires { by < 128 }
    ensures { result ≡ 2 ^ by }
{
    1 << by
}

/// `left * 2^by`, if it is within the bound.
pub fn shifted_left(left: i128, by: u32) -> Option<i128>
    requires { by < 127 }
    ensures { result ≡ bounded (left *ℤ pos (2 ^ by)) }
{
    product(left, power_of_two(by))
}

/// The floor of `left / 2^by`.
pub fn shifted_right(left: i128, by: u32) -> i128
    requires { by < 128 }
    ensures { result ≡ int_shr left by }
{
    left >> by
}
