//! Worked values, the ends, and all small values against the operators on numbers.

ghost use Rattle.int_interval.specs.Shapes.{IsShape};

use super::*;
use int_congr::Congr;
use int_interval::{Interval, Said, Shape};
use machine_ints::{
    and, differ_by_multiple, difference, negative, not, or, product, quotient, remainder, residue,
    shifted_left, shifted_right, sum, to_bool, wrap, xor,
};
use std::alloc::{AllocError, Global};
use std::{assert, assert_eq};

fn signed_small() -> Shape
    ensures { IsShape result }
{
    Shape {
        lo: -4,
        hi: 3,
        width: 3,
    }
}

fn unsigned_small() -> Shape
    ensures { IsShape result }
{
    Shape {
        lo: 0,
        hi: 7,
        width: 3,
    }
}

fn signed_64() -> Shape
    ensures { IsShape result }
{
    Shape {
        lo: -0x8000_0000_0000_0000,
        hi: 0x7fff_ffff_ffff_ffff,
        width: 64,
    }
}

fn unsigned_64() -> Shape
    ensures { IsShape result }
{
    Shape {
        lo: 0,
        hi: 0xffff_ffff_ffff_ffff,
        width: 64,
    }
}

fn from_to(lo: i128, hi: i128) -> Value {
    Value {
        range: Interval::Within { lo, hi },
        congr: Congr { rem: 0, modulus: 1 },
        unset: false,
    }
    .reduce()
}

fn all() -> Value {
    Value {
        range: Interval::All,
        congr: Congr { rem: 0, modulus: 1 },
        unset: false,
    }
}

fn none() -> Value {
    Value {
        range: Interval::Empty,
        congr: Congr { rem: 0, modulus: 1 },
        unset: false,
    }
}

#[test]
fn worked_values(rt: HostRuntime) {
    let shape = signed_64();
    let even = Value {
        range: Interval::Within { lo: 0, hi: 10 },
        congr: Congr { rem: 0, modulus: 2 },
        unset: false,
    };
    let made = even.mul(&from_to(3, 3), &shape, true);
    assert_eq!(rt; made.value.range, Interval::Within { lo: 0, hi: 30 });
    assert_eq!(rt; made.value.congr, Congr { rem: 0, modulus: 6 });
    assert_eq!(rt; made.first, Some(Said::Yes));
    let rest = from_to(-5, 7).rem(&from_to(0, 3), &shape, true);
    assert_eq!(rt; rest.value, from_to(-2, 2));
    assert_eq!(rt; rest.first, Some(Said::Maybe));
    assert_eq!(rt; rest.second, Some(Said::Yes));
}

#[test]
fn ends_of_the_types(rt: HostRuntime) {
    let (shape, wide) = (signed_64(), unsigned_64());
    let least = from_to(shape.lo, shape.lo);
    let minus_one = from_to(-1, -1);
    let made = least.div(&minus_one, &shape, true);
    assert_eq!(rt;
        made,
        Made {
            value: none(),
            first: Some(Said::Yes),
            second: Some(Said::No)
        }
    );
    assert_eq!(rt; least.div(&minus_one, &shape, false).value, least);
    assert_eq!(rt; least.rem(&minus_one, &shape, true).value, none());
    assert_eq!(rt; least.rem(&minus_one, &shape, false).value, from_to(0, 0));
    let top = from_to(0, wide.hi);
    assert_eq!(rt; top.mul(&top, &wide, true).value, top);
    assert_eq!(rt;
        from_to(1, 1).shl(&from_to(63, 63), &shape, true).second,
        Some(Said::No)
    );
    assert_eq!(rt;
        from_to(1, 1).shl(&from_to(63, 63), &wide, true).value,
        from_to(0x8000_0000_0000_0000, 0x8000_0000_0000_0000)
    );
    assert_eq!(rt;
        from_to(1, 1).shl(&from_to(64, 70), &wide, true),
        Made {
            value: none(),
            first: Some(Said::No),
            second: None
        }
    );
    assert_eq!(rt;
        from_to(1, 1).shr(&from_to(64, 70), &wide, true).first,
        Some(Said::No)
    );
    assert_eq!(rt;
        from_to(-1, 300).convert(&unsigned_64()).range,
        Interval::Within { lo: 0, hi: wide.hi }
    );
}

#[test]
fn ends_of_the_numbers(rt: HostRuntime) {
    let bound = 0x4000_0000_0000_0000_0000_0000_0000_0000i128;
    let shape = signed_64();
    let widest = Value {
        range: Interval::Within {
            lo: i128::MIN,
            hi: i128::MAX,
        },
        congr: Congr { rem: 0, modulus: 1 },
        unset: true,
    };
    assert_eq!(rt; widest.reduce(), widest);
    assert_eq!(rt;
        widest.join(&none()),
        Value {
            range: widest.range,
            congr: widest.congr,
            unset: true
        }
    );
    assert_eq!(rt;
        widest.join(&from_to(0, 1)),
        Value {
            range: Interval::All,
            congr: Congr { rem: 0, modulus: 1 },
            unset: true
        }
    );
    assert_eq!(rt;
        from_to(bound, bound).join(&from_to(0, 0)).range,
        Interval::Within { lo: 0, hi: bound }
    );
    assert_eq!(rt;
        from_to(0, bound + 1).join(&from_to(0, 0)).range,
        Interval::All
    );
    assert_eq!(rt;
        all().meet(&Interval::Within { lo: 1, hi: 2 }),
        from_to(1, 2)
    );
    assert_eq!(rt; all().convert(&shape), from_to(shape.lo, shape.hi));
    assert!(rt;
        none().included(&from_to(0, 0))
            && from_to(0, 0).included(&all())
            && !all().included(&from_to(0, 0))
    );
    assert_eq!(rt; all().equal(&all()), Said::Maybe);
    assert_eq!(rt; none().less(&all()), Said::Unreached);
    let high = Value {
        range: Interval::Within {
            lo: i128::MAX,
            hi: i128::MAX,
        },
        congr: Congr {
            rem: 0,
            modulus: 1000,
        },
        unset: false,
    };
    assert_eq!(rt; high.reduce(), none());
}

#[test]
fn empty_and_all_operands(rt: HostRuntime) {
    let shape = signed_64();
    let one = from_to(1, 1);
    for (left, right) in [
        (none(), one),
        (one, none()),
        (none(), all()),
        (all(), none()),
    ] {
        let made = [
            left.add(&right, &shape, true),
            left.sub(&right, &shape, true),
            left.mul(&right, &shape, true),
            left.div(&right, &shape, true),
            left.rem(&right, &shape, true),
            left.shl(&right, &shape, true),
            left.shr(&right, &shape, true),
        ];
        for one_made in made {
            assert_eq!(rt; one_made.value, none());
            assert_eq!(rt; one_made.first, Some(Said::Unreached));
        }
    }
    let range = from_to(shape.lo, shape.hi);
    for made in [
        all().neg(&shape, true),
        all().add(&one, &shape, true),
        one.mul(&all(), &shape, true),
    ] {
        assert_eq!(rt;
            made,
            Made {
                value: range,
                first: Some(Said::Maybe),
                second: None
            }
        );
    }
    assert_eq!(rt;
        all().div(&from_to(0, 0), &shape, true).first,
        Some(Said::No)
    );
    assert_eq!(rt; all().and(&one, &shape, true).value, all());
    assert_eq!(rt; all().invert(&shape, true).value, all());
    assert_eq!(rt; one.or(&from_to(2, 6), &shape, true).value, from_to(2, 7));
    assert_eq!(rt; one.xor(&from_to(2, 6), &shape, true).value, from_to(0, 7));
}

#[test]
fn terms_without_a_type(rt: HostRuntime) {
    let bound = 0x4000_0000_0000_0000_0000_0000_0000_0000i128;
    assert_eq!(rt; Value::number(bound), from_to(bound, bound));
    assert_eq!(rt; Value::number(-bound), from_to(-bound, -bound));
    assert_eq!(rt; Value::number(bound + 1), all());
    assert_eq!(rt; Value::number(i128::MIN), all());
    let (seven, two) = (Value::number(7), Value::number(-2));
    assert_eq!(rt; seven.negation().single(), Some(-7));
    assert_eq!(rt; seven.sum(&two).single(), Some(5));
    assert_eq!(rt; seven.difference(&two).single(), Some(9));
    assert_eq!(rt; seven.product(&two).single(), Some(-14));
    assert_eq!(rt; seven.quotient(&two).single(), Some(-3));
    assert_eq!(rt; seven.remainder(&two).single(), Some(1));
    assert_eq!(rt; seven.quotient(&Value::number(0)), none());
    assert_eq!(rt; Value::number(bound).sum(&seven), all());
    assert_eq!(rt; from_to(0, 3).within(0, 3), Said::Yes);
    assert_eq!(rt; from_to(0, 4).within(0, 3), Said::Maybe);
    assert_eq!(rt; from_to(4, 9).within(0, 3), Said::No);
    assert_eq!(rt; all().single(), None);
    assert!(rt; none().is_empty() && !all().is_empty());
    assert_eq!(rt; none().within(0, 3), Said::Unreached);
    assert_eq!(rt;
        from_to(300, 400)
            .rem(&from_to(500, 500), &signed_small(), true)
            .value,
        from_to(0, 3)
    );
}

#[test]
fn widening(rt: HostRuntime) {
    let shape = signed_64();
    let thresholds = [-1, 0, 1, 9, 10, 11];
    let old = from_to(0, 1);
    assert_eq!(rt;
        old.widen(&from_to(0, 2), 4, &thresholds, &shape),
        from_to(0, 9)
    );
    assert_eq!(rt;
        old.widen(&from_to(-2, 1), 8, &thresholds, &shape),
        from_to(shape.lo, 1)
    );
    assert_eq!(rt;
        old.widen(&from_to(0, 2), 9, &thresholds, &shape),
        from_to(0, shape.hi)
    );
    assert_eq!(rt;
        old.widen(&from_to(0, 12), 5, &thresholds, &shape),
        from_to(0, shape.hi)
    );
    assert_eq!(rt;
        none().widen(&from_to(2, 8), 5, &thresholds, &shape),
        from_to(1, 9)
    );
    membership();
    set_laws();
    widen_is_upper();
    conversions_cover();
    terms_cover();
    terms_are_reduced();
    operators_cover();
    division_covers();
    unary_operators_cover();
    typed_values_are_closed();
    operators_are_closed();
    whole_type_includes();
    relations_are_true();
    marks_decide();
    second_marks_decide();
}

/// Whether what is said is true of a fact.
fn is_right(said: Said, fact: bool) -> bool {
    match said {
        Said::Yes => fact,
        Said::No => !fact,
        Said::Maybe => true,
        Said::Unreached => false,
    }
}

/// Whether a check is made where there is a fact to it, and what is said is true of that fact.
fn is_mark_right(said: Option<Said>, fact: Option<bool>) -> bool {
    match (said, fact) {
        (Some(said), Some(fact)) => is_right(said, fact),
        (None, None) => true,
        _ => false,
    }
}

fn is_in_range(range: Interval, number: i128) -> bool {
    match range {
        Interval::Empty => false,
        Interval::Within { lo, hi } => lo <= number && number <= hi,
        Interval::All => true,
    }
}

/// Whether the value stands for the number, by its parts.
fn has(value: &Value, number: i128) -> bool {
    is_in_range(value.range, number)
        && differ_by_multiple(number, value.congr.rem, value.congr.modulus.unsigned_abs())
}

/// Whether the value stands for an exact result: for itself where it passes a check that is made, and for what it
/// is in the type where none is made.
fn stands(value: &Value, exact: Option<i128>, passes: Option<bool>, shape: &Shape) -> bool
    requires { IsShape shape.now }
{
    match (exact, passes) {
        (Some(exact), Some(passes)) => !passes || has(value, exact),
        (Some(exact), None) => has(value, wrap(exact, shape.lo, shape.width)),
        (None, _) => false,
    }
}

/// The same of an operator whose one check is that the exact result is in the type.
fn is_typed(made: &Made, exact: Option<i128>, shape: &Shape, checked: bool) -> bool
    requires { IsShape shape.now }
{
    let passes = exact >= Some(shape.lo) && exact <= Some(shape.hi);
    let fact = fact_if(checked, passes);
    is_mark_right(made.first, fact)
        && made.second.is_none()
        && stands(&made.value, exact, fact, shape)
}

/// The fact, of a check that is made.
fn fact_if(checked: bool, fact: bool) -> Option<bool> {
    if checked { Some(fact) } else { None }
}

/// `+ - *`, and unary `-`.
fn arithmetic_stands(a: &Value, b: &Value, x: i128, y: i128, shape: &Shape, overflow: bool) -> bool
    requires { IsShape shape.now }
{
    let checked = shape.lo < 0 && overflow;
    is_typed(&a.add(b, shape, overflow), sum(x, y), shape, checked)
        && is_typed(&a.sub(b, shape, overflow), difference(x, y), shape, checked)
        && is_typed(&a.mul(b, shape, overflow), product(x, y), shape, checked)
        && is_typed(&a.neg(shape, overflow), negative(x), shape, checked)
}

/// `/` and `%`.
fn division_stands(a: &Value, b: &Value, x: i128, y: i128, shape: &Shape, overflow: bool) -> bool
    requires { IsShape shape.now }
{
    let (quot, rest) = (a.div(b, shape, overflow), a.rem(b, shape, overflow));
    let passes = fact_if(shape.lo < 0 && overflow, x != shape.lo || y != -1);
    is_mark_right(quot.first, Some(y != 0))
        && is_mark_right(rest.first, Some(y != 0))
        && is_mark_right(quot.second, passes)
        && is_mark_right(rest.second, passes)
        && (y == 0
            || stands(&quot.value, quotient(x, y), passes, shape)
                && stands(&rest.value, Some(remainder(x, y)), passes, shape))
}

/// `<<` and `>>`. What is said of the overflow of `<<` is of numbers that pass the check of the shift.
fn shifts_stand(a: &Value, b: &Value, x: i128, y: i128, shape: &Shape, overflow: bool) -> bool
    requires { IsShape shape.now }
{
    let (left, right) = (a.shl(b, shape, overflow), a.shr(b, shape, overflow));
    if y < 0 || 3 <= y {
        return is_mark_right(left.first, Some(false)) && is_mark_right(right.first, Some(false));
    }
    let exact = shifted_left(x, y as u32);
    let passes = fact_if(shape.lo < 0 && overflow, 0 <= x && exact <= Some(shape.hi));
    is_mark_right(left.first, Some(true))
        && is_mark_right(left.second, passes)
        && stands(&left.value, exact, passes, shape)
        && is_mark_right(right.first, Some(true))
        && right.second.is_none()
        && has(&right.value, shifted_right(x, y as u32))
}

/// `& | ^`, `~` and the relations.
fn bits_stand(a: &Value, b: &Value, x: i128, y: i128, shape: &Shape, overflow: bool) -> bool
    requires { IsShape shape.now }
{
    has(&a.and(b, shape, overflow).value, and(x, y))
        && has(&a.or(b, shape, overflow).value, or(x, y))
        && has(&a.xor(b, shape, overflow).value, xor(x, y))
        && stands(&a.invert(shape, overflow).value, Some(not(x)), None, shape)
        && is_right(a.less(b), x < y)
        && is_right(a.less_eq(b), x <= y)
        && is_right(a.equal(b), x == y)
}

/// Membership, meet, join, inclusion and the conversions, by a number that need not be of either value.
fn sets_stand(a: &Value, b: &Value, x: i128, other: &Shape) -> bool
    requires { IsShape other.now }
{
    let (in_a, in_b) = (has(a, x), has(b, x));
    a.contains(x) == in_a
        && has(&a.meet(&b.range), x) == (in_a && is_in_range(b.range, x))
        && (has(&a.join(b), x) || !in_a && !in_b)
        && (!a.included(b) || !in_a || in_b)
        && (!in_a
            || stands(&a.convert(other), Some(x), None, other) && has(&a.to_bool(), to_bool(x)))
}

/// `- + * / %` of whole numbers without bound.
fn terms_stand(a: &Value, b: &Value, x: i128, y: i128) -> bool {
    has_exact(&a.negation(), negative(x))
        && has_exact(&a.sum(b), sum(x, y))
        && has_exact(&a.difference(b), difference(x, y))
        && has_exact(&a.product(b), product(x, y))
        && (y == 0
            || has_exact(&a.quotient(b), quotient(x, y)) && has(&a.remainder(b), remainder(x, y)))
}

fn has_exact(value: &Value, exact: Option<i128>) -> bool {
    match exact {
        Some(exact) => has(value, exact),
        None => false,
    }
}

/// Whether the value is one of the type's, reduced and set: reduction leaves it, and its numbers are of the type.
fn is_of_type(value: &Value, shape: &Shape) -> bool {
    let lies = match value.range {
        Interval::Empty => true,
        Interval::Within { lo, hi } => shape.lo <= lo && lo <= hi && hi <= shape.hi,
        Interval::All => false,
    };
    lies && value.reduce() == *value && value.included(&Value::whole(shape, true))
}

/// Whether each operation on two values of the type gives one.
fn are_closed(a: &Value, b: &Value, shape: &Shape, other: &Shape, overflow: bool) -> bool
    requires shape { IsShape shape.now }
    requires other { IsShape other.now }
{
    let made = [
        a.neg(shape, overflow),
        a.invert(shape, overflow),
        a.add(b, shape, overflow),
        a.sub(b, shape, overflow),
        a.mul(b, shape, overflow),
        a.div(b, shape, overflow),
        a.rem(b, shape, overflow),
        a.shl(b, shape, overflow),
        a.shr(b, shape, overflow),
        a.and(b, shape, overflow),
        a.or(b, shape, overflow),
        a.xor(b, shape, overflow),
    ];
    for one in made {
        if !is_of_type(&one.value, shape) || one.value.unset {
            return false;
        }
    }
    let widened = a.widen(b, 4, &[-1, 0, 1], shape);
    is_of_type(&a.join(b), shape)
        && is_of_type(&a.meet(&b.range), shape)
        && is_of_type(&widened, shape)
        && is_of_type(&a.convert(other), other)
        && a.included(&a.join(b))
        && a.included(&widened)
}

/// Whether what the value says of its numbers is so: none, just one, and which of them are from -1 to 1.
fn counts_stand(value: &Value) -> bool {
    let mut count: u32 = 0;
    let mut last = None;
    let mut inside: u32 = 0;
    for i in 0..12u32 {
        let x = nth(i);
        if has(value, x) {
            count = count.saturating_add(1);
            last = Some(x);
            if -1 <= x && x <= 1 {
                inside = inside.saturating_add(1);
            }
        }
    }
    let single = if count == 1 { last } else { None };
    value.is_empty() == (count == 0)
        && value.single() == single
        && (value.within(-1, 1) == Said::Yes) == (count > 0 && inside == count)
        && (value.within(-1, 1) != Said::No || inside == 0)
}

/// A 3-bit type.
fn small_shape(signed: bool) -> Shape
    ensures { IsShape result }
{
    if signed {
        signed_small()
    } else {
        unsigned_small()
    }
}

/// The number from -4 on.
fn nth(index: u32) -> i128 {
    i128::from(index) - 4
}

/// All operators on two values of the type, for each pair of their numbers.
fn pair_stands(a: &Value, b: &Value, signed: bool, overflow: bool) -> bool {
    let (shape, other) = (small_shape(signed), small_shape(!signed));
    if !are_closed(a, b, &shape, &other, overflow) || !counts_stand(a) {
        return false;
    }
    for i in 0..12u32 {
        let x = nth(i);
        if !sets_stand(a, b, x, &other) {
            return false;
        }
        for j in 0..12u32 {
            let y = nth(j);
            if has(a, x) && has(b, y) && !operators_stand(a, b, x, y, &shape, overflow) {
                return false;
            }
        }
    }
    true
}

fn operators_stand(a: &Value, b: &Value, x: i128, y: i128, shape: &Shape, overflow: bool) -> bool
    requires { IsShape shape.now }
{
    arithmetic_stands(a, b, x, y, shape, overflow)
        && division_stands(a, b, x, y, shape, overflow)
        && shifts_stand(a, b, x, y, shape, overflow)
        && bits_stand(a, b, x, y, shape, overflow)
        && terms_stand(a, b, x, y)
}

/// Whether each of the values that includes both includes their join.
fn is_least_join(a: &Value, b: &Value, values: &[Value]) -> bool {
    let joined = a.join(b);
    for c in values {
        if a.included(c) && b.included(c) && !joined.included(c) {
            return false;
        }
    }
    true
}

/// The first pair of these values on which an operator is wrong.
fn first_wrong(values: &[Value], signed: bool, overflow: bool) -> Option<(Value, Value)> {
    for a in values {
        for b in values {
            if !pair_stands(a, b, signed, overflow) || !is_least_join(a, b, values) {
                return Some((*a, *b));
            }
        }
    }
    None
}

/// Adds the reduction of these parts, where it isn't among the values.
fn push_reduced(
    values: &mut Vec<Value>,
    range: Interval,
    rem: i128,
    modulus: i128,
) -> Result<(), AllocError> {
    let value = Value {
        range,
        congr: Congr { rem, modulus },
        unset: false,
    }
    .reduce();
    if !values.contains(&value) {
        values.push(value)?;
    }
    Ok(())
}

/// The distinct reductions of an interval with each congruence of a modulus up to 8.
fn push_congruences(values: &mut Vec<Value>, range: Interval) -> Result<(), AllocError> {
    for index in 0..12u32 {
        push_reduced(values, range, nth(index), 0)?;
        for modulus in 1..9u32 {
            let rem = residue(nth(index), u128::from(modulus)) as i128;
            push_reduced(values, range, rem, i128::from(modulus))?;
        }
    }
    Ok(())
}

/// All distinct reduced values of a 3-bit type: of each interval of its numbers with each congruence.
fn small_values(alloc: Global, signed: bool) -> Result<Vec<Value>, AllocError> {
    let shape = small_shape(signed);
    let mut values = Vec::new(alloc);
    for i in 0..12u32 {
        for j in 0..12u32 {
            let (lo, hi) = (nth(i), nth(j));
            if shape.lo <= lo && lo <= hi && hi <= shape.hi {
                push_congruences(&mut values, Interval::Within { lo, hi })?;
            }
        }
    }
    Ok(values)
}

/// Of a 3-bit type there are the empty value, 8 single numbers and 57 runs of several at one distance.
#[test]
fn all_signed_values(rt: HostRuntime) -> Result<(), AllocError> {
    let values = small_values(rt.alloc(), true)?;
    assert_eq!(rt; values.len(), 66);
    assert_eq!(rt; first_wrong(&values, true, true), None);
    assert_eq!(rt; first_wrong(&values, true, false), None);
    Ok(())
}

#[test]
fn all_unsigned_values(rt: HostRuntime) -> Result<(), AllocError> {
    let values = small_values(rt.alloc(), false)?;
    assert_eq!(rt; values.len(), 66);
    assert_eq!(rt; first_wrong(&values, false, true), None);
    assert_eq!(rt; first_wrong(&values, false, false), None);
    Ok(())
}
