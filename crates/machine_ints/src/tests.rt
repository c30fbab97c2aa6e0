//! Worked numbers, taken from C and from arithmetic, not from this crate.

ghost use Rattle.std.specs.Prelude.{◌<◌, ◌^◌};
ghost use Rattle.machine_ints.specs.Convert.{IsType};
ghost use Rattle.machine_ints.specs.Decided.{IsOrdered};

use super::*;
use std::assert_eq;

#[test]
fn exact_within_the_bound(rt: HostRuntime) {
    let bound = 0x4000_0000_0000_0000_0000_0000_0000_0000i128;
    for (value, want) in [
        (bound, Some(bound)),
        (-bound, Some(-bound)),
        (i128::MIN, None),
        (i128::MAX, None),
    ] {
        assert_eq!(rt; within_bound(value), want);
    }
    assert_eq!(rt; sum(bound, 1), None);
    assert_eq!(rt; sum(i128::MAX, -i128::MAX), Some(0));
    assert_eq!(rt; difference(i128::MIN, i128::MIN), Some(0));
    assert_eq!(rt; difference(0, i128::MIN), None);
    assert_eq!(rt; negative(7), Some(-7));
    assert_eq!(rt; negative(i128::MIN), None);
    assert_eq!(rt; product(-3, 5), Some(-15));
    assert_eq!(rt; product(0xffff_ffff_ffff_ffff, 0xffff_ffff_ffff_ffff), None);
    assert_eq!(rt; shifted_left(-3, 2), Some(-12));
    assert_eq!(rt; shifted_left(1, 126), Some(bound));
    assert_eq!(rt; shifted_left(3, 126), None);
    assert_eq!(rt; power_of_two(63), 0x8000_0000_0000_0000);
}

#[test]
fn quotients_and_floors(rt: HostRuntime) {
    for (left, right, quot, rest) in [
        (7, 2, 3, 1),
        (-7, 2, -3, -1),
        (7, -2, -3, 1),
        (-7, -2, 3, -1),
        (6, -1, -6, 0),
    ] {
        assert_eq!(rt; quotient(left, right), Some(quot));
        assert_eq!(rt; remainder(left, right), rest);
    }
    assert_eq!(rt; quotient(i128::MIN, -1), None);
    assert_eq!(rt; remainder(i128::MIN, -1), 0);
    for (left, by, want) in [(7, 1, 3), (-7, 1, -4), (-1, 127, -1), (1, 127, 0)] {
        assert_eq!(rt; shifted_right(left, by), want);
    }
}

#[test]
fn bits_of_negative_numbers(rt: HostRuntime) {
    for (x, y, both, either, one) in [
        (12, 10, 8, 14, 6),
        (-4, 6, 4, -2, -6),
        (6, -4, 4, -2, -6),
        (-4, -6, -8, -2, 6),
    ] {
        assert_eq!(rt; and(x, y), both);
        assert_eq!(rt; or(x, y), either);
        assert_eq!(rt; xor(x, y), one);
    }
    assert_eq!(rt; not(0), -1);
    assert_eq!(rt; not(i128::MIN), i128::MAX);
    for (value, want) in [(0u128, 0u32), (1, 1), (7, 3), (8, 4), (u128::MAX, 128)] {
        assert_eq!(rt; bit_length(value), want);
    }
}

#[test]
fn conversions(rt: HostRuntime) {
    for (value, lo, width, want) in [
        (300, 0, 8, 44),
        (-1, 0, 8, 255),
        (200, -128, 8, -56),
        (-129, -128, 8, 127),
        (128, -128, 8, -128),
    ] {
        assert_eq!(rt; wrap(value, lo, width), want);
    }
    assert_eq!(rt; wrap(-1, 0, 64), 0xffff_ffff_ffff_ffff);
    assert_eq!(rt; wrap(i128::MIN, 0, 64), 0);
    assert_eq!(rt; to_bool(0), 0);
    assert_eq!(rt; to_bool(-5), 1);
}

#[test]
fn divisors_and_residues(rt: HostRuntime) {
    for (a, b, want) in [
        (12u128, 18u128, 6u128),
        (0, 0, 0),
        (0, 5, 5),
        (5, 0, 5),
        (7, 9, 1),
    ] {
        assert_eq!(rt; gcd(a, b), want);
    }
    for (value, modulus, want) in [
        (7i128, 3u128, 1u128),
        (-7, 3, 2),
        (-9, 3, 0),
        (i128::MIN, 2, 0),
    ] {
        assert_eq!(rt; residue(value, modulus), want);
    }
    assert_eq!(rt; residue_of_difference(i128::MIN, i128::MAX, 4), 1);
    assert_eq!(rt; differ_by_multiple(10, -2, 4), true);
    assert_eq!(rt; differ_by_multiple(10, -2, 5), false);
    assert_eq!(rt; differ_by_multiple(3, 3, 0), true);
    assert_eq!(rt; differ_by_multiple(3, 4, 0), false);
}

/// The range of a 3-bit type.
fn small_type(signed: bool) -> Ends
    ensures { IsType result.lo result.hi 3 }
{
    if signed {
        Ends { lo: -4, hi: 3 }
    } else {
        Ends { lo: 0, hi: 7 }
    }
}

fn is_among(ends: &Ends, number: Option<i128>) -> bool {
    number >= Some(ends.lo) && number <= Some(ends.hi)
}

/// Whether the two numbers pass the check of overflow, in plain arithmetic.
fn fits(operator: Operator, of_type: &Ends, x: i128, y: i128) -> bool {
    match operator {
        Operator::Add => is_among(of_type, sum(x, y)),
        Operator::Sub => is_among(of_type, difference(x, y)),
        Operator::Mul => is_among(of_type, product(x, y)),
        Operator::Div | Operator::Rem => x != of_type.lo || y != -1,
        Operator::Shl => {
            let by = y.unsigned_abs().min(9) as u32;
            0 <= x && shifted_left(x, by) <= Some(of_type.hi)
        }
        _ => true,
    }
}

fn passes(check: Check, operator: Operator, of_type: &Ends, x: i128, y: i128) -> bool {
    match check {
        Check::Division => y != 0,
        Check::Overflow => fits(operator, of_type, x, y),
        Check::Shift => 0 <= y && y < 3,
    }
}

/// Whether all pairs of numbers of the two ranges pass, one by one.
fn all_pass(check: Check, operator: Operator, of_type: &Ends, left: &Ends, right: &Ends) -> bool {
    for i in 0..12u32 {
        for j in 0..12u32 {
            let (x, y) = (i128::from(i) - 4, i128::from(j) - 4);
            if is_among(left, Some(x))
                && is_among(right, Some(y))
                && !passes(check, operator, of_type, x, y)
            {
                return false;
            }
        }
    }
    true
}

const OPERATORS: [Operator; 10] = [
    Operator::Add,
    Operator::Sub,
    Operator::Mul,
    Operator::Div,
    Operator::Rem,
    Operator::Shl,
    Operator::Shr,
    Operator::And,
    Operator::Or,
    Operator::Xor,
];

/// Whether the ends of these ranges decide each check of each operator as its pairs do.
fn are_decided(signed: bool, left: &Ends, right: &Ends) -> bool
    requires left { IsOrdered left.now }
    requires right { IsOrdered right.now }
{
    let of_type = small_type(signed);
    for operator in OPERATORS {
        for check in [Check::Division, Check::Overflow, Check::Shift] {
            if always_passes(check, operator, &of_type, 3, left, right)
                != all_pass(check, operator, &of_type, left, right)
            {
                return false;
            }
        }
    }
    true
}

/// The range of this width from the number on, with -4 as the first.
fn nth_range(first: u32, width: u32) -> Ends
    requires { width < 2 ^ 31 }
    ensures { IsOrdered result }
{
    let lo = i128::from(first) - 4;
    Ends {
        lo,
        hi: lo + i128::from(width),
    }
}

/// How many pairs of ranges of the type's numbers there are on which a check is decided wrongly.
fn wrongly_decided(signed: bool) -> u32 {
    let mut count: u32 = 0;
    let of_type = small_type(signed);
    for a in 0..12u32 {
        for b in 0..8u32 {
            for c in 0..12u32 {
                for d in 0..8u32 {
                    let (left, right) = (nth_range(a, b), nth_range(c, d));
                    if of_type.lo <= left.lo && left.hi <= of_type.hi && right.hi <= 7 {
                        if !are_decided(signed, &left, &right) {
                            count = count.saturating_add(1);
                        }
                    }
                }
            }
        }
    }
    count
}

#[test]
fn checks_that_ranges_decide(rt: HostRuntime) {
    assert_eq!(rt; wrongly_decided(true), 0);
    assert_eq!(rt; wrongly_decided(false), 0);
    let byte = Ends { lo: -128, hi: 127 };
    let int = Ends {
        lo: -0x8000_0000,
        hi: 0x7fff_ffff,
    };
    let (none, one) = (Ends { lo: 0, hi: 0 }, Ends { lo: 1, hi: 1 });
    assert_eq!(rt;
        always_passes(Check::Overflow, Operator::Shl, &int, 32, &none, &int),
        true
    );
    assert_eq!(rt;
        always_passes(Check::Overflow, Operator::Shl, &int, 32, &one, &int),
        false
    );
    assert_eq!(rt;
        always_passes(Check::Overflow, Operator::Mul, &int, 32, &byte, &byte),
        true
    );
    assert_eq!(rt;
        always_passes(Check::Overflow, Operator::Add, &int, 32, &int, &one),
        false
    );
    assert_eq!(rt;
        unary_always_passes(UnaryOperator::Negate, &int, 32, &byte),
        true
    );
    assert_eq!(rt;
        unary_always_passes(UnaryOperator::Negate, &int, 32, &int),
        false
    );
    assert_eq!(rt;
        unary_always_passes(UnaryOperator::Complement, &int, 32, &int),
        true
    );
    results_are_typed();
    unary_results_are_typed();
    conversions_are_typed();
}
