//! Worked congruences and the ends.

ghost use Rattle.int_interval.specs.Shapes.{IsShape};

use super::*;
use int_interval::Shape;
use std::{assert, assert_eq};

fn signed_byte() -> Shape
    ensures { IsShape result }
{
    Shape {
        lo: -128,
        hi: 127,
        width: 8,
    }
}

fn unsigned_byte() -> Shape
    ensures { IsShape result }
{
    Shape {
        lo: 0,
        hi: 255,
        width: 8,
    }
}

fn congr(rem: i128, modulus: i128) -> Congr {
    Congr { rem, modulus }
}

#[test]
fn arithmetic(rt: HostRuntime) {
    let shape = signed_byte();
    assert_eq!(rt; congr(1, 4).neg(&shape), congr(3, 4));
    assert_eq!(rt; congr(1, 4).add(&congr(3, 6), &shape), congr(0, 2));
    assert_eq!(rt; congr(1, 4).sub(&congr(3, 6), &shape), congr(0, 2));
    assert_eq!(rt; congr(0, 2).mul(&congr(3, 0), &shape), congr(0, 6));
    assert_eq!(rt; congr(1, 2).mul(&congr(1, 2), &shape), congr(1, 2));
    assert_eq!(rt; congr(-7, 0).div(&congr(2, 0), &shape), congr(-3, 0));
    assert_eq!(rt; congr(-7, 0).rem(&congr(2, 0), &shape), congr(-1, 0));
    assert_eq!(rt; congr(-7, 0).div(&congr(0, 0), &shape), congr(0, 1));
    assert_eq!(rt; congr(4, 8).div(&congr(2, 0), &shape), congr(0, 1));
}

#[test]
fn terms_without_a_type(rt: HostRuntime) {
    assert_eq!(rt; congr(1, 4).negation(), congr(3, 4));
    assert_eq!(rt; congr(1, 4).sum(&congr(3, 6)), congr(0, 2));
    assert_eq!(rt; congr(1, 4).difference(&congr(3, 6)), congr(0, 2));
    assert_eq!(rt; congr(0, 2).product(&congr(3, 0)), congr(0, 6));
    assert_eq!(rt; congr(-7, 0).quotient(&congr(2, 0)), congr(-3, 0));
    assert_eq!(rt; congr(-7, 0).remainder(&congr(2, 0)), congr(-1, 0));
}

#[test]
fn bits(rt: HostRuntime) {
    let shape = signed_byte();
    assert_eq!(rt; congr(1, 4).invert(&shape), congr(2, 4));
    assert_eq!(rt; congr(1, 4).invert(&unsigned_byte()), congr(2, 4));
    assert_eq!(rt; congr(12, 0).and(&congr(10, 0), &shape), congr(8, 0));
    assert_eq!(rt; congr(12, 0).or(&congr(10, 0), &shape), congr(14, 0));
    assert_eq!(rt; congr(12, 0).xor(&congr(10, 0), &shape), congr(6, 0));
    assert_eq!(rt; congr(12, 4).xor(&congr(10, 0), &shape), congr(0, 1));
}

#[test]
fn sets_and_conversions(rt: HostRuntime) {
    assert_eq!(rt; congr(1, 4).join(&congr(7, 6)), congr(1, 2));
    assert_eq!(rt; congr(5, 0).join(&congr(11, 0)), congr(5, 6));
    assert_eq!(rt; congr(5, 0).join(&congr(5, 0)), congr(5, 0));
    assert!(rt; congr(1, 4).included(&congr(1, 2)) && !congr(1, 2).included(&congr(1, 4)));
    assert!(rt; congr(5, 0).included(&congr(1, 4)) && !congr(2, 4).included(&congr(5, 0)));
    assert!(rt; congr(1, 4).meets(&congr(3, 6)) && !congr(1, 4).meets(&congr(2, 6)));
    assert!(rt; congr(-3, 4).contains(5) && congr(1, -4).contains(5) && !congr(5, 0).contains(1));
    assert!(rt; congr(5, 0).is_single() && congr(1, -4).period() == 4);
    assert_eq!(rt; congr(5, 12).convert(&signed_byte()), congr(1, 4));
    assert_eq!(rt; congr(200, 0).convert(&signed_byte()), congr(-56, 0));
}

#[test]
fn ends(rt: HostRuntime) {
    let shape = signed_byte();
    let bound = 0x4000_0000_0000_0000_0000_0000_0000_0000i128;
    assert_eq!(rt; congr(bound, 0).add(&congr(0, 0), &shape), congr(bound, 0));
    assert_eq!(rt; congr(bound, 0).add(&congr(1, 0), &shape), congr(0, 1));
    assert_eq!(rt; congr(0, bound).mul(&congr(0, 2), &shape), congr(0, 1));
    assert_eq!(rt; congr(i128::MIN, 0).neg(&shape), congr(0, 1));
    assert_eq!(rt; congr(i128::MIN, 0).div(&congr(-1, 0), &shape), congr(0, 1));
    assert_eq!(rt; congr(i128::MIN, 0).rem(&congr(-1, 0), &shape), congr(0, 0));
    assert_eq!(rt; congr(i128::MAX, 0).join(&congr(i128::MIN, 0)), congr(0, 1));
    assert!(rt;
        congr(i128::MIN, 2).included(&congr(i128::MIN, 1))
            && !congr(i128::MAX, 0).included(&congr(i128::MIN, 2))
    );
    arithmetic_covers();
    shifts_cover();
    bits_cover();
    conversion_covers();
    set_laws();
    results_are_normal();
}
