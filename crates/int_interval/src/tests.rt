//! Worked intervals and the ends.

ghost use Rattle.int_interval.specs.Shapes.{IsShape};

use super::*;
use std::{assert, assert_eq};

fn signed_byte() -> Shape
    ensures { IsShape result }
{
    Shape {
        lo: -128,
        hi: 127,
        width: 8,
    }
}

fn unsigned_byte() -> Shape
    ensures { IsShape result }
{
    Shape {
        lo: 0,
        hi: 255,
        width: 8,
    }
}

fn within(lo: i128, hi: i128) -> Interval {
    Interval::Within { lo, hi }
}

#[test]
fn arithmetic(rt: HostRuntime) {
    let shape = signed_byte();
    let (small, mixed) = (within(-5, 7), within(0, 3));
    assert_eq!(rt; small.neg(&shape), within(-7, 5));
    assert_eq!(rt; small.add(&mixed, &shape), within(-5, 10));
    assert_eq!(rt; small.sub(&mixed, &shape), within(-8, 7));
    assert_eq!(rt; small.mul(&within(-3, 2), &shape), within(-21, 15));
    assert_eq!(rt; small.div(&mixed, &shape), within(-5, 7));
    assert_eq!(rt; small.div(&within(-2, 3), &shape), within(-7, 7));
    assert_eq!(rt; small.rem(&mixed, &shape), within(-2, 2));
    assert_eq!(rt; within(7, 7).rem(&within(4, 4), &shape), within(3, 3));
    assert_eq!(rt; small.div(&within(0, 0), &shape), Interval::Empty);
    assert_eq!(rt; small.rem(&within(0, 0), &shape), Interval::Empty);
    assert_eq!(rt; Interval::All.div(&within(0, 0), &shape), Interval::All);
}

#[test]
fn terms_without_a_type(rt: HostRuntime) {
    let (small, mixed) = (within(-5, 7), within(0, 3));
    assert_eq!(rt; small.negation(), within(-7, 5));
    assert_eq!(rt; small.sum(&mixed), within(-5, 10));
    assert_eq!(rt; small.difference(&mixed), within(-8, 7));
    assert_eq!(rt; small.product(&within(-3, 2)), within(-21, 15));
    assert_eq!(rt; small.quotient(&within(-2, 3)), within(-7, 7));
    assert_eq!(rt; small.remainder(&mixed), within(-2, 2));
    assert!(rt; small.is_just(-5) == false && within(4, 4).is_just(4) && !Interval::All.is_just(0));
    assert!(rt; Interval::Empty.is_empty() && !small.is_empty() && !Interval::All.is_empty());
    assert!(rt; is_one(3, 3) && !is_one(3, 4) && are_one(1, 1, 2, 2) && !are_one(1, 1, 2, 3));
}

#[test]
fn bits(rt: HostRuntime) {
    let shape = signed_byte();
    assert_eq!(rt; within(-3, 5).invert(&shape), within(-6, 2));
    assert_eq!(rt; within(3, 5).invert(&unsigned_byte()), within(250, 252));
    assert_eq!(rt; within(1, 6).and(&within(3, 4), &shape), within(0, 4));
    assert_eq!(rt; within(1, 6).or(&within(3, 4), &shape), within(3, 7));
    assert_eq!(rt; within(1, 6).xor(&within(3, 8), &shape), within(0, 15));
    assert_eq!(rt; within(12, 12).xor(&within(10, 10), &shape), within(6, 6));
    assert_eq!(rt; within(-1, 6).and(&within(3, 4), &shape), within(-128, 127));
}

#[test]
fn sets_and_conversions(rt: HostRuntime) {
    assert_eq!(rt; within(1, 3).join(&within(7, 9)), within(1, 9));
    assert_eq!(rt; within(1, 7).meet(&within(3, 9)), within(3, 7));
    assert_eq!(rt; within(1, 2).meet(&within(3, 9)), Interval::Empty);
    assert_eq!(rt; within(1, 2).join(&Interval::Empty), within(1, 2));
    assert!(rt; within(1, 2).included(&within(1, 3)) && !within(1, 4).included(&within(1, 3)));
    assert!(rt; within(1, 2).contains(2) && !within(1, 2).contains(3));
    assert_eq!(rt; within(200, 200).convert(&signed_byte()), within(-56, -56));
    assert_eq!(rt; within(100, 200).convert(&signed_byte()), within(-128, 127));
    assert_eq!(rt;
        within(100, 200).convert(&unsigned_byte()),
        within(100, 200)
    );
    assert_eq!(rt; Interval::All.convert(&unsigned_byte()), within(0, 255));
    assert_eq!(rt; Interval::cut(1, 2), within(1, 2));
    assert_eq!(rt; unsigned_byte().top(), 255);
}

#[test]
fn ends(rt: HostRuntime) {
    let shape = signed_byte();
    let bound = 0x4000_0000_0000_0000_0000_0000_0000_0000i128;
    let widest = within(i128::MIN, i128::MAX);
    assert_eq!(rt;
        within(0, bound - 1).add(&within(0, 1), &shape),
        within(0, bound)
    );
    assert_eq!(rt; within(0, bound).add(&within(0, 1), &shape), Interval::All);
    for made in [
        widest.neg(&shape),
        widest.add(&widest, &shape),
        widest.sub(&widest, &shape),
        widest.mul(&widest, &shape),
        widest.div(&widest, &shape),
        widest.rem(&widest, &shape),
        widest.invert(&shape),
        widest.join(&within(0, 0)),
    ] {
        assert_eq!(rt; made, Interval::All);
    }
    for other in [within(1, 2), Interval::All, Interval::Empty] {
        assert_eq!(rt; Interval::Empty.mul(&other, &shape), Interval::Empty);
        assert_eq!(rt; other.or(&Interval::Empty, &shape), Interval::Empty);
    }
    arithmetic_covers();
    shifts_cover();
    bits_cover();
    conversion_covers();
    set_laws();
}
