//! Lists of small values against the numbers that they have, elements of an array, and the ends of the numbers.

use super::*;
use fc_base::Relation;
use int_congr::Congr;
use int_interval::{Interval, Said};
use int_value::Value;
use machine_ints::differ_by_multiple;
use sqlite_items::Items;
use std::alloc::{AllocError, Global};
use std::{assert, assert_eq};

const RELATIONS: [Relation; 6] = [
    Relation::Less,
    Relation::LessEq,
    Relation::Greater,
    Relation::GreaterEq,
    Relation::Equal,
    Relation::NotEqual,
];

// ---- values and cells

fn value(range: Interval, rem: i128, modulus: i128) -> Value {
    Value {
        range,
        congr: Congr { rem, modulus },
        unset: false,
    }
    .reduce()
}

fn from_to(lo: i128, hi: i128) -> Value {
    value(Interval::Within { lo, hi }, 0, 1)
}

fn all() -> Value {
    value(Interval::All, 0, 1)
}

fn none() -> Value {
    value(Interval::Empty, 0, 1)
}

/// The same numbers, with another flag.
fn flagged(value: &Value, unset: bool) -> Value {
    Value {
        range: value.range,
        congr: value.congr,
        unset,
    }
}

fn cells(alloc: Global, values: &[Value]) -> Result<Cells, AllocError> {
    Ok(Cells::new(Items::from_slice(alloc, values)?))
}

/// Whether the cells have these values, in this order, and there are no more.
fn are(cells: &Cells, values: &[Value]) -> bool {
    let mut same = cells.len() == values.len();
    for number in 0..values.len() {
        same = same && cells.get(number) == values[number];
    }
    same
}

/// Whether there are cells, and they have these values.
fn are_found(found: &Option<Cells>, values: &[Value]) -> bool {
    match found {
        Some(cells) => are(cells, values),
        None => false,
    }
}

/// The number from -7 on.
fn nth(index: u32) -> i128 {
    i128::from(index) - 7
}

/// The distinct intervals of numbers from -4 to 4 with each congruence of a modulus up to 3, all numbers, and none.
fn small_values(alloc: Global) -> Result<Vec<Value>, AllocError> {
    let mut values = Vec::new(alloc);
    values.push(all())?;
    values.push(none())?;
    for i in 3..12u32 {
        for j in 3..12u32 {
            push_congruences(&mut values, nth(i), nth(j))?;
        }
    }
    Ok(values)
}

fn push_congruences(values: &mut Vec<Value>, lo: i128, hi: i128) -> Result<(), AllocError> {
    for (rem, modulus) in [(0, 1), (0, 2), (1, 2), (0, 3), (1, 3), (2, 3)] {
        let value = value(Interval::Within { lo, hi }, rem, modulus);
        if !values.contains(&value) {
            values.push(value)?;
        }
    }
    Ok(())
}

// ---- numbers

/// Which of the numbers from -7 to 7 are found.
type Found = [bool; 15];

fn is_in_range(range: Interval, number: i128) -> bool {
    match range {
        Interval::Empty => false,
        Interval::Within { lo, hi } => lo <= number && number <= hi,
        Interval::All => true,
    }
}

/// Whether the value has the number, by its parts.
fn has(value: &Value, number: i128) -> bool {
    is_in_range(value.range, number)
        && differ_by_multiple(number, value.congr.rem, value.congr.modulus.unsigned_abs())
}

/// Which of the numbers from -7 to 7 the value has.
fn numbers(value: &Value) -> Found {
    let mut found = [false; 15];
    for i in 0..15u32 {
        found[i as usize] = has(value, nth(i));
    }
    found
}

/// Whether the value is reduced and has just these of the numbers from -7 to 7, and this flag.
fn is_of(value: &Value, found: &Found, unset: bool) -> bool {
    numbers(value) == *found && value.unset == unset && value.reduce() == *value
}

fn either(left: &Found, right: &Found) -> Found {
    let mut found = [false; 15];
    for i in 0..15 {
        found[i] = left[i] || right[i];
    }
    found
}

fn is_any(found: &Found) -> bool {
    let mut any = false;
    for one in found {
        any = any || *one;
    }
    any
}

/// Whether the places that are found lie at this distance from each other, or at multiples of it.
fn lie_at(found: &Found, distance: usize) -> bool {
    for i in 0..15 {
        for j in i..15 {
            if found[i] && found[j] && (j - i).checked_rem(distance) != Some(0) {
                return false;
            }
        }
    }
    true
}

/// Whether there are places found at or before this one, and at or after it.
fn is_between(found: &Found, place: usize) -> bool {
    let (mut before, mut after) = (false, false);
    for i in 0..15 {
        before = before || found[i] && i <= place;
        after = after || found[i] && place <= i;
    }
    before && after
}

/// The same at a distance from the first one.
fn with_place(found: &Found, place: usize, distance: usize) -> bool {
    for i in 0..15 {
        if found[i] && place.abs_diff(i).checked_rem(distance) != Some(0) {
            return false;
        }
    }
    is_between(found, place)
}

/// The places from the first to the last one found, at the greatest distance at which all of them lie.
fn run_of(found: &Found) -> Found {
    let mut distance = 1;
    for step in 1..16 {
        if lie_at(found, step) {
            distance = step;
        }
    }
    let mut run = [false; 15];
    for place in 0..15 {
        run[place] = with_place(found, place, distance);
    }
    run
}

// ---- joins and inclusion

/// Whether the value is the join of both: the run of their numbers, and no value where either may have none.
fn is_join(joined: &Value, a: &Value, b: &Value) -> bool {
    is_of(
        joined,
        &run_of(&either(&numbers(a), &numbers(b))),
        a.unset || b.unset,
    )
}

/// Whether each number of the first value is one of the second, and so is no value.
fn is_within(a: &Value, b: &Value) -> bool {
    let (mine, others) = (numbers(a), numbers(b));
    let mut within = !a.unset || b.unset;
    for i in 0..15 {
        within = within && (!mine[i] || others[i]);
    }
    within
}

/// Joins of lists of these values, of equal and different lengths.
fn lists_join(alloc: Global, a: &Value, b: &Value) -> Result<bool, AllocError> {
    let (short, long) = (cells(alloc, &[*a])?, cells(alloc, &[*b, *a])?);
    let both = cells(alloc, &[*a, *b])?;
    let first = short.join(alloc, &long)?;
    let second = long.join(alloc, &short)?;
    let Some(third) = join(alloc, Some(&both), Some(&long))? else {
        return Ok(false);
    };
    Ok(
        first.len() == 1
            && second.len() == 1
            && third.len() == 2
            && is_join(&first.get(0), a, b)
            && is_join(&second.get(0), b, a)
            && is_join(&third.get(0), a, b)
            && is_join(&third.get(1), b, a)
            && third.get(2) == flagged(&all(), true),
    )
}

/// Inclusion of lists of these values.
fn lists_include(alloc: Global, a: &Value, b: &Value) -> Result<bool, AllocError> {
    let (one, both) = (cells(alloc, &[*b])?, cells(alloc, &[*a, *b])?);
    let (first, second) = (cells(alloc, &[*a, *a])?, cells(alloc, &[*b, *b])?);
    let (less, more) = (is_within(a, b), is_within(b, a));
    Ok(
        both.included(&first) == more
            && both.included(&second) == less
            && first.included(&second) == less
            && included(Some(&first), Some(&both)) == less
            && both.included(&one) == less
            && !one.included(&both)
            && both.included(&both),
    )
}

#[test]
fn lists_of_small_values(rt: HostRuntime) -> Result<(), AllocError> {
    let alloc = rt.alloc();
    let values = small_values(alloc)?;
    assert_eq!(rt; values.len(), 72);
    for i in 0..values.len() {
        for j in 0..values.len() {
            let (a, b) = (
                flagged(&values[i], i % 2 == 1),
                flagged(&values[j], j % 2 == 1),
            );
            assert!(rt; lists_join(alloc, &a, &b)?, "join of {a:?} and {b:?}");
            assert!(rt; lists_include(alloc, &a, &b)?, "{a:?} in {b:?}");
        }
    }
    let one = cells(alloc, &[from_to(1, 2)])?;
    assert!(rt; included(None, None) && included(None, Some(&one)) && !included(Some(&one), None));
    assert!(rt; join(alloc, None, None)?.is_none());
    assert!(rt; are_found(&join(alloc, Some(&one), None)?, &[from_to(1, 2)]));
    assert!(rt; are_found(&join(alloc, None, Some(&one))?, &[from_to(1, 2)]));
    cells_cover();
    Ok(())
}

// ---- elements

/// Cells 1 to 5 are an array.
fn array_cells(alloc: Global) -> Result<Cells, AllocError> {
    let mut found = cells(alloc, &[none(); 7])?;
    found.set(0, from_to(5, 5))?;
    found.set(1, from_to(-6, -6))?;
    found.set(2, from_to(-2, -2))?;
    found.set(3, value(Interval::Within { lo: 0, hi: 2 }, 0, 2))?;
    found.set(4, flagged(&from_to(3, 3), true))?;
    found.set(5, from_to(4, 6))?;
    found.set(6, from_to(1, 1))?;
    found.set(7, from_to(9, 9))?;
    Ok(found)
}

/// Whether the element of an array of so many elements is the run of the numbers of those in the index.
fn is_element(cells: &Cells, length: u32, index: &Value) -> bool {
    let mut found = [false; 15];
    let mut unset = false;
    for number in 0..length {
        if has(index, i128::from(number)) {
            let element = cells.get(number as usize + 1);
            found = either(&found, &numbers(&element));
            unset = unset || element.unset;
        }
    }
    is_of(&cells.element(1, length, index), &run_of(&found), unset)
}

#[test]
fn elements(rt: HostRuntime) -> Result<(), AllocError> {
    let alloc = rt.alloc();
    let cells = array_cells(alloc)?;
    assert!(rt; cells.len() == 7 && cells.get(7) == flagged(&all(), true));
    assert!(rt;
        are(
            &cells.copy(alloc)?,
            &[
                from_to(5, 5),
                from_to(-6, -6),
                from_to(-2, -2),
                value(Interval::Within { lo: 0, hi: 2 }, 0, 2),
                flagged(&from_to(3, 3), true),
                from_to(4, 6),
                from_to(1, 1)
            ]
        )
    );
    for index in small_values(alloc)? {
        for length in 0..6u32 {
            assert!(rt; is_element(&cells, length, &index), "{index:?} of {length}");
            assert!(rt;
                is_element(&cells, length, &flagged(&index, true)),
                "{index:?} of {length}"
            );
        }
    }
    let rows = [
        (from_to(4, i128::MAX), from_to(4, 6)),
        (from_to(i128::MIN, 0), from_to(-6, -6)),
        (from_to(5, 9), none()),
        (from_to(-9, -1), none()),
        (
            value(Interval::Within { lo: 1, hi: 9 }, 1, 3),
            from_to(-2, 6),
        ),
        (
            value(Interval::Within { lo: -4, hi: 8 }, 2, 6),
            value(Interval::Within { lo: 0, hi: 2 }, 0, 2),
        ),
    ];
    for (index, wanted) in rows {
        assert_eq!(rt; cells.element(1, 5, &index), wanted);
    }
    assert_eq!(rt; cells.element(6, 3, &from_to(0, 0)), from_to(1, 1));
    assert_eq!(rt; cells.element(6, 3, &from_to(0, 1)), flagged(&all(), true));
    elements_cover();
    Ok(())
}

// ---- relations

fn holds(relation: Relation, x: i128, y: i128) -> bool {
    match relation {
        Relation::Less => x < y,
        Relation::LessEq => x <= y,
        Relation::Greater => x > y,
        Relation::GreaterEq => x >= y,
        Relation::Equal => x == y,
        Relation::NotEqual => x != y,
    }
}

/// Whether the number is so related to one of these.
fn has_partner(relation: Relation, x: i128, others: &Found) -> bool {
    for i in 0..15u32 {
        if others[i as usize] && holds(relation, x, nth(i)) {
            return true;
        }
    }
    false
}

/// Whether the tables leave a number that has no partner: `==` within the other's ends, whatever its congruence is,
/// `!=` between the own ends, and all but `==` where there are no ends.
fn is_spared(relation: Relation, own: &Value, other: &Value, x: i128) -> bool {
    match (relation, own.range, other.range) {
        (_, Interval::Empty, _) | (_, _, Interval::Empty) => false,
        (Relation::Equal, _, range) => is_in_range(range, x),
        (_, Interval::All, _) => true,
        (Relation::NotEqual, Interval::Within { lo, hi }, _) => x != lo && x != hi,
        _ => false,
    }
}

/// Which of the numbers from -7 to 7 of the value a relation with the other one leaves.
fn kept(relation: Relation, own: &Value, other: &Value) -> Found {
    let (mut found, others) = (numbers(own), numbers(other));
    for i in 0..15u32 {
        let x = nth(i);
        found[i as usize] = found[i as usize]
            && (has_partner(relation, x, &others) || is_spared(relation, own, other, x));
    }
    found
}

fn side(cell: Option<u32>, value: &Value) -> Side {
    Side {
        cell,
        value: *value,
    }
}

/// Whether cell 0 has these numbers and cell 2 those, both with the flags from before, and cell 1 is as it was; or
/// there are no cells, where one of the first two has none.
fn is_narrowed(found: &Option<Cells>, a: &Value, mine: &Found, b: &Value, others: &Found) -> bool {
    match found {
        None => !is_any(mine) || !is_any(others),
        Some(cells) => {
            is_any(mine)
                && is_any(others)
                && cells.len() == 3
                && is_of(&cells.get(0), mine, a.unset)
                && cells.get(1) == from_to(-1, 1)
                && is_of(&cells.get(2), others, b.unset)
        }
    }
}

/// A relation between cells 0 and 2, between one of them and a side without a cell, and between two such sides.
fn narrows(alloc: Global, relation: Relation, a: &Value, b: &Value) -> Result<bool, AllocError> {
    let start = cells(alloc, &[*a, from_to(-1, 1), *b])?;
    let (left, right) = (side(Some(0), a), side(Some(2), b));
    let (no_left, no_right) = (side(None, a), side(None, b));
    let (mine, others) = (kept(relation, a, b), kept(mirrored(relation), b, a));
    let both = narrow(start.copy(alloc)?, relation, &left, &right)?;
    let first = narrow(start.copy(alloc)?, relation, &left, &no_right)?;
    let second = narrow(start.copy(alloc)?, relation, &no_left, &right)?;
    let neither = narrow(start, relation, &no_left, &no_right)?;
    Ok(
        is_narrowed(&both, a, &mine, b, &others)
            && is_narrowed(&first, a, &mine, b, &numbers(b))
            && is_narrowed(&second, a, &numbers(a), b, &others)
            && are_found(&neither, &[*a, from_to(-1, 1), *b]),
    )
}

/// Whether what is said is true of all pairs of numbers from -7 to 7, and of an order isn't less than could be said.
fn is_said(relation: Relation, a: &Value, b: &Value) -> bool {
    let (mine, others) = (numbers(a), numbers(b));
    let (mut always, mut ever, mut any) = (true, false, false);
    for i in 0..15u32 {
        for j in 0..15u32 {
            if mine[i as usize] && others[j as usize] {
                any = true;
                let fact = holds(relation, nth(i), nth(j));
                always = always && fact;
                ever = ever || fact;
            }
        }
    }
    let is_order = relation != Relation::Equal && relation != Relation::NotEqual;
    match said(relation, a, b) {
        Said::Yes => any && always,
        Said::No => any && !ever,
        Said::Maybe => any && (!is_order || ever && !always),
        Said::Unreached => !any,
    }
}

/// Whether the opposite holds where the relation doesn't, and the mirrored one with the numbers exchanged.
fn is_turned(relation: Relation) -> bool {
    for i in 0..3u32 {
        let x = nth(i);
        let fact = holds(relation, x, nth(1));
        if holds(opposite(relation), x, nth(1)) == fact
            || holds(mirrored(relation), nth(1), x) != fact
        {
            return false;
        }
    }
    true
}

#[test]
fn relations_of_small_values(rt: HostRuntime) -> Result<(), AllocError> {
    let alloc = rt.alloc();
    let values = small_values(alloc)?;
    for relation in RELATIONS {
        assert!(rt; is_turned(relation), "{relation:?}");
        for i in 0..values.len() {
            for j in 0..values.len() {
                let (a, b) = (
                    flagged(&values[i], i % 2 == 1),
                    flagged(&values[j], j % 2 == 1),
                );
                assert!(rt;
                    is_said(relation, &a, &b),
                    "{relation:?} of {a:?} and {b:?}"
                );
                assert!(rt;
                    narrows(alloc, relation, &a, &b)?,
                    "{relation:?} of {a:?} and {b:?}"
                );
            }
        }
    }
    relations_are_right();
    relations_narrow();
    Ok(())
}

/// Whether the relation narrows the first value to the wanted one, or leaves none, on either side of it.
fn leaves(
    alloc: Global,
    relation: Relation,
    own: &Value,
    other: &Value,
    wanted: Option<Value>,
) -> Result<bool, AllocError> {
    let (mine, others) = (side(Some(0), own), side(None, other));
    let left = narrow(cells(alloc, &[*own])?, relation, &mine, &others)?;
    let right = narrow(cells(alloc, &[*own])?, mirrored(relation), &others, &mine)?;
    Ok(match wanted {
        None => left.is_none() && right.is_none(),
        Some(value) => are_found(&left, &[value]) && are_found(&right, &[value]),
    })
}

#[test]
fn ends_of_the_numbers(rt: HostRuntime) -> Result<(), AllocError> {
    let alloc = rt.alloc();
    let (min, max) = (i128::MIN, i128::MAX);
    let (least, greatest, each) = (from_to(min, min), from_to(max, max), from_to(min, max));
    let rows = [
        (Relation::Less, from_to(0, 5), least, None),
        (Relation::Greater, from_to(0, 5), greatest, None),
        (Relation::Less, each, least, None),
        (Relation::Greater, each, greatest, None),
        (Relation::Less, each, greatest, Some(from_to(min, max - 1))),
        (Relation::Greater, each, least, Some(from_to(min + 1, max))),
        (Relation::LessEq, each, least, Some(least)),
        (Relation::GreaterEq, each, greatest, Some(greatest)),
        (Relation::NotEqual, each, least, Some(from_to(min + 1, max))),
        (
            Relation::NotEqual,
            each,
            greatest,
            Some(from_to(min, max - 1)),
        ),
        (Relation::NotEqual, least, least, None),
        (Relation::NotEqual, greatest, greatest, None),
        (
            Relation::NotEqual,
            from_to(max - 1, max),
            greatest,
            Some(from_to(max - 1, max - 1)),
        ),
        (Relation::Equal, each, least, Some(least)),
        (Relation::Less, all(), least, Some(all())),
        (Relation::Equal, all(), greatest, Some(greatest)),
    ];
    for (relation, own, other, wanted) in rows {
        assert!(rt;
            leaves(alloc, relation, &own, &other, wanted)?,
            "{relation:?} {own:?} {other:?}"
        );
    }
    Ok(())
}

/// Both sides are the same cell: it is narrowed twice, by its value before.
#[test]
fn a_cell_with_itself(rt: HostRuntime) -> Result<(), AllocError> {
    let alloc = rt.alloc();
    let rows = [
        (Relation::Less, from_to(0, 3), Some(from_to(1, 2))),
        (Relation::Greater, from_to(0, 2), Some(from_to(1, 1))),
        (Relation::Less, from_to(0, 1), None),
        (Relation::LessEq, from_to(0, 1), Some(from_to(0, 1))),
        (Relation::Equal, from_to(0, 1), Some(from_to(0, 1))),
        (Relation::NotEqual, from_to(0, 1), Some(from_to(0, 1))),
        (Relation::NotEqual, from_to(2, 2), None),
        (
            Relation::Equal,
            flagged(&from_to(2, 4), true),
            Some(flagged(&from_to(2, 4), true)),
        ),
    ];
    for (relation, value, wanted) in rows {
        let side = side(Some(0), &value);
        let found = narrow(cells(alloc, &[value])?, relation, &side, &side)?;
        match wanted {
            Some(value) => assert!(rt; are_found(&found, &[value]), "{relation:?} {value:?}"),
            None => assert!(rt; found.is_none(), "{relation:?} {value:?}"),
        }
    }
    Ok(())
}
